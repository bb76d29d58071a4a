//! Laws of the runs of a bus, each a function whose contract is the law.

ghost use Rattle.std.specs.Prelude.{◌≡◌, ◌⊎◌, ◌↔◌, ◌+◌, ◌*◌, ℕ, Contains, [], Some, None, true, false};
ghost use Rattle.image_parts.specs.Agenda.{IsSameUnder};
ghost use Rattle.image_parts.specs.Asking.{outcome, turns};
ghost use Rattle.network_laws.specs.Boots.{FollowsWrite, IsBootUpOf};
ghost use Rattle.can_bus.specs.Spans.{bus_at, span};
ghost use Rattle.network_laws.specs.Starts.{at_arbitration, but_for_frames, LeavesItsList, StartsConfigured};
ghost use Rattle.network_laws.specs.Reads.{at_delivery};
ghost use Rattle.can_bus.specs.Bus.{ended_slot, instant, waiting_lists, power_on, after_arbitration, Bus};
ghost use Rattle.can_bus.specs.Runs.{run, StartsWith};
ghost use Rattle.can_bus.specs.declared.slot.Slot.{Slot as Sent};
ghost use Rattle.can_frame.specs.Identifiers.{nmt_id, time_id};
ghost use Rattle.can_frame.specs.declared.contender.Contender.{Contender as Bid};
ghost use Rattle.can_frame.specs.declared.purpose.Purpose.TheVariants.{Nmt};
ghost use Rattle.can_frame.specs.declared.waiting.Waiting.{Waiting as Queued};
ghost use Rattle.image_parts.specs.Contents.{roster_of, Image};
ghost use Rattle.image_parts.specs.Images.{IsImage};
ghost use Rattle.image_parts.specs.declared.part.Part.TheVariants as part;
ghost use Rattle.sdo_client.specs.declared.client_transfer.ClientTransfer.{ClientTransfer as Transfer};
ghost use Rattle.nmt_boot.specs.Beats.{HasNumbersOf, IsMultiple, IsOnTime, due_messages};
ghost use Rattle.nmt_boot.specs.Periodic.{period_of};
ghost use Rattle.nmt_boot.specs.Stamps.{IsStampBefore, TellsWhenDue};
ghost use Rattle.nmt_boot.specs.declared.periodic_message.PeriodicMessage.{PeriodicMessage as Message};
ghost use Rattle.nmt_boot.specs.declared.periodic_message.PeriodicMessage.TheVariants.{Heartbeat, Sync, Time};
ghost use Rattle.manager_nodes.specs.Table.{all_configured, node_at};
ghost use Rattle.image_parts.specs.declared.start_mode.StartMode.TheVariants.{ConfiguredNodes, EachNode};
ghost use Rattle.node_boot.specs.Boot.{deadline_of};
ghost use Rattle.node_boot.specs.declared.boot_stage.BootStage.TheVariants as stage;

/// The spans of a run, one after another from the power-on on, are the run: the same lines, the same end and the
/// same reads.
pub fn spans_are_the_run()
    ensures { (image : Image) (count : ℕ) (s : Bus)
        → IsSameUnder image (turns span (count + 1) 0 s) (run (10000 * (count + 1))) }
{}

/// The buses of a run: that of the power-on, and then what each instant leaves.
#[tactic(auto, using(can_bus::proofs::SpanLemmas::bus_first, can_bus::proofs::SpanLemmas::bus_next))]
pub fn a_run_goes_instant_by_instant()
    ensures first { (image : Image) → bus_at image 0 ≡ outcome power_on image }
    ensures next { (image : Image) (t : ℕ) → bus_at image (t + 1) ≡ (outcome (instant t (bus_at image t)) image).0 }
{}

/// At every moment of a run the manager has exactly the periodic messages of the roster, in their order, each with its
/// period and its next moment: the first whole multiple of that period from there on. So what is due at a moment are
/// those of which it is a whole multiple above 0 of the period, and no other: the heartbeat at those of the heartbeat
/// time, TIME at those of the TIME period, and SYNC at those of the SYNC period.
pub fn periodic_messages_are_due_at_whole_multiples()
    ensures all { (image : Image) (t : ℕ) → IsOnTime (roster_of (image part.Roster)) t (bus_at image t).manager }
    ensures each { (image : Image) (t : ℕ) (message : Message)
        → Contains (due_messages t (bus_at image t).manager.periodic) message
        ↔ (HasNumbersOf (roster_of (image part.Roster)) message
        × IsMultiple t (period_of (roster_of (image part.Roster)) message)) }
    ensures heartbeat { (image : Image) (t : ℕ)
        → Contains (due_messages t (bus_at image t).manager.periodic) Heartbeat
        ↔ IsMultiple t (1000 * (roster_of (image part.Roster)).heartbeat_ms) }
    ensures time { (image : Image) (t : ℕ)
        → Contains (due_messages t (bus_at image t).manager.periodic) (Time (roster_of (image part.Roster)).first_day)
        ↔ IsMultiple t (roster_of (image part.Roster)).time_us }
    ensures sync { (image : Image) (t : ℕ)
        → Contains (due_messages t (bus_at image t).manager.periodic)
        (Sync (roster_of (image part.Roster)).sync_counter)
        ↔ IsMultiple t (roster_of (image part.Roster)).sync_us }
{}

/// At every moment of a run each TIME that waits at the manager tells when it was due: it carries the time of an earlier
/// moment that is a whole multiple of the period of TIME, as milliseconds and days from midnight of the first day on.
/// So does each frame that waits there with the identifier 100h.
pub fn waiting_time_stamps_tell_when_they_were_due()
    ensures all { (image : Image) (t : ℕ) → TellsWhenDue (roster_of (image part.Roster)) t (bus_at image t).manager }
    ensures identifier { (image : Image) (t : ℕ) (w : Queued) → IsImage image
        → Contains (bus_at image t).manager.waiting w → w.frame.id ≡ time_id
        → IsStampBefore (roster_of (image part.Roster)) t w.frame }
{}

/// In a run the network is started at most once: only in an instant that leaves each mandatory node
/// configured, and then it stays started to the end, whatever is lost. Where the roster has each node started by
/// itself, that never happens.
#[tactic(auto, using(crate::proofs::StartedLemmas::starts_with_mandatory, crate::proofs::StartedLemmas::stays_started, crate::proofs::StartedLemmas::never_started))]
pub fn the_network_is_started_once_in_a_run()
    ensures mandatory { (image : Image) (t : ℕ) → (bus_at image t).manager.startup.is_started ≡ false
        → (bus_at image (t + 1)).manager.startup.is_started ≡ true
        → all_configured (bus_at image (t + 1)).manager.nodes (roster_of (image part.Roster)).mandatory ≡ true }
    ensures stays { (image : Image) (t more : ℕ) → (bus_at image t).manager.startup.is_started ≡ true
        → (bus_at image (t + more)).manager.startup.is_started ≡ true }
    ensures each_node { (image : Image) (t : ℕ) → (roster_of (image part.Roster)).start_mode ≡ EachNode
        → (bus_at image t).manager.startup.is_started ≡ false }
{}

/// The frame that starts at an idle wire is the winner: it leaves its place in the list of its node, all other lists
/// stay as they are, and so does all else of the bus.
pub fn the_frame_that_starts_leaves_its_list()
    ensures leaves { (t : ℕ) (s : Bus) (slot : Sent) → s.wire ≡ None → (after_arbitration t s).wire ≡ Some slot
        → (c : Bid) × ((w : Queued) × (StartsWith t s slot c w
        × LeavesItsList c w (waiting_lists s.devices s.manager)
        (waiting_lists (after_arbitration t s).devices (after_arbitration t s).manager))) }
    ensures stays { (t : ℕ) (s : Bus) → but_for_frames (after_arbitration t s) ≡ but_for_frames s }
{}

/// Under every image no event is left at the start of a window, and the next window is the one that starts.
#[tactic(auto, using(crate::proofs::LeftLemmas::none_is_left, crate::proofs::LeftLemmas::window_starts_there))]
pub fn no_event_is_left_at_the_start_of_a_window()
    ensures none { (image : Image) (i : ℕ) → IsImage image → (bus_at image (10000 * i)).steps ≡ [] }
    ensures starts { (image : Image) (i : ℕ) → IsImage image → (bus_at image (10000 * i)).window ≡ 10000 * i }
{}

/// What an instant makes of the boot of a node. From a write on: the same write; once its SDO answer has confirmed
/// it the next one, or the end where there is none; a failure; or what a boot-up message of the node begins anew. A
/// boot that isn't under way stays as it is until a boot-up message of the node.
pub fn a_boot_goes_on_write_by_write()
    ensures write { (image : Image) (t : ℕ) (s : Bus) (i j : ℕ) (transfer : Transfer) (deadline : ℕ)
        → (node_at s.manager.nodes i).stage ≡ stage.Writing j transfer deadline
        → FollowsWrite image (node_at s.manager.nodes i).number (ended_slot t s.wire) j transfer
        (node_at (outcome (instant t s) image).0.manager.nodes i).stage }
    ensures rests { (image : Image) (t : ℕ) (s : Bus) (i : ℕ)
        → deadline_of (node_at s.manager.nodes i).stage ≡ None
        → ((node_at (outcome (instant t s) image).0.manager.nodes i).stage ≡ (node_at s.manager.nodes i).stage)
        ⊎ IsBootUpOf (node_at s.manager.nodes i).number (ended_slot t s.wire) }
{}

/// Where the manager starts configured nodes one by one, no node is started before it is configured. Ahead of the
/// arbitration that ends an instant, each NMT command that waits at the manager waited there before the frame of the
/// instant was delivered, as what events command does, or it is the start of a node that is configured then, or of the
/// one that the manager runs in. And each NMT command that goes on the wire in the instant is one of those that wait
/// there.
pub fn no_node_is_started_before_it_is_configured()
    ensures waits { (image : Image) → (roster_of (image part.Roster)).start_mode ≡ ConfiguredNodes
        → (t : ℕ) (w : Queued) → Contains (at_arbitration image t (bus_at image t)).manager.waiting w
        → w.purpose ≡ Nmt
        → Contains (at_delivery image t (bus_at image t)).manager.waiting w
        ⊎ StartsConfigured (bus_at image (t + 1)).manager.nodes w }
    ensures starts { (image : Image) → IsImage image → (t : ℕ) (slot : Sent)
        → (at_arbitration image t (bus_at image t)).wire ≡ None → (bus_at image (t + 1)).wire ≡ Some slot
        → slot.frame.id ≡ nmt_id
        → (w : Queued) × (Contains (at_arbitration image t (bus_at image t)).manager.waiting w
        × ((w.purpose ≡ Nmt) × (w.frame ≡ slot.frame))) }
    ensures ends { (image : Image) (t : ℕ)
        → bus_at image (t + 1) ≡ after_arbitration t (at_arbitration image t (bus_at image t)) }
{}
