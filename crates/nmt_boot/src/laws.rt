//! Laws of managers, each a function whose contract is the law.

ghost use Rattle.std.specs.Prelude.{◌≡◌, ◌≢◌, ◌<◌, ◌≤◌, ◌⊎◌, ◌+◌, ◌*◌, ◌↔◌, ℕ, Contains, drop, length, remove, true, [], ◌∷◌};
ghost use Rattle.byteorder.specs.Endian.{little_number};
ghost use Rattle.image_parts.specs.Alike.{AreAlike};
ghost use Rattle.image_parts.specs.Asking.{Agrees, outcome, reads};
ghost use Rattle.can_frame.specs.Frames.{BaseFrame};
ghost use Rattle.can_frame.specs.Identifiers.{error_control_id, sdo_answer_id};
ghost use Rattle.can_frame.specs.WaitingFrames.{waiting};
ghost use Rattle.can_frame.specs.declared.purpose.Purpose.TheVariants as purpose;
ghost use Rattle.image_parts.specs.Contents.{Image};
ghost use Rattle.image_parts.specs.Images.{IsRoster};
ghost use Rattle.image_parts.specs.declared.roster.Roster.{Roster as Network};
ghost use Rattle.image_parts.specs.declared.start_mode.StartMode.TheVariants.{ConfiguredNodes, EachNode};
ghost use Rattle.co_scenario.specs.declared.nmt_command.NmtCommand.{NmtCommand};
ghost use Rattle.nmt_boot.specs.Ahead.{IsAhead};
ghost use Rattle.nmt_boot.specs.Beats.{HasNumbersOf, IsMultiple, IsOnTime, due_messages};
ghost use Rattle.nmt_boot.specs.Clock.{IsClock};
ghost use Rattle.nmt_boot.specs.Counter.{IsCounting, sync_with};
ghost use Rattle.nmt_boot.specs.TimeOfDay.{day_at, milliseconds_at, time_frame, time_of_day};
ghost use Rattle.nmt_boot.specs.Ends.{configured_note, WritesEnd};
ghost use Rattle.nmt_boot.specs.Manager.{Manager as State, with_command, manager_at_power_on, after_frame};
ghost use Rattle.manager_nodes.specs.Table.{node_at};
ghost use Rattle.nmt_boot.specs.Manager.{timers};
ghost use Rattle.nmt_boot.specs.Periodic.{frame_of, messages_of, period_of, purpose_of, sync_number};
ghost use Rattle.nmt_boot.specs.declared.periodic_message.PeriodicMessage.{PeriodicMessage as Message};
ghost use Rattle.nmt_boot.specs.Stamps.{TellsWhenDue};
ghost use Rattle.nmt_boot.specs.Starts.{HasNodeNumbers, KeepsStart, StartsNetwork, network_starts};

/// Before the first of its moments nothing happens to the manager, and nothing is noted.
#[tactic(auto, using(crate::proofs::MomentLemmas::quiet))]
pub fn quiet_before_due()
    ensures { (t : ℕ) (m : State) → IsAhead (t + 1) m → timers t m ≡ (m, []) }
{}

/// The timers of a moment leave no moment up to it, where none lay before it: whatever periods and
/// time-out are.
#[tactic(auto, using(crate::proofs::MomentLemmas::due_later))]
pub fn due_after()
    ensures { (t : ℕ) (m : State) → IsAhead t m → IsAhead (t + 1) (timers t m).0 }
{}

/// A frame that comes at a moment sets no moment before it, and nor does a command.
#[tactic(auto, using(crate::proofs::MomentLemmas::frame_ahead, crate::proofs::MomentLemmas::command_ahead))]
pub fn a_frame_sets_no_earlier_moment()
    ensures frames { (image : Image) (t : ℕ) (frame : BaseFrame) (m : State) → IsAhead t m
        → IsAhead t (outcome (after_frame t frame m) image).0 }
    ensures commands { (t : ℕ) (command : NmtCommand) (node : ℕ) (m : State) → IsAhead t m
        → IsAhead t (with_command command node m) }
{}

/// Under two images that agree on what is read under the first, a frame does the same.
#[tactic(auto, using(image_parts::proofs::QuestionLemmas::two_images))]
pub fn two_images()
    ensures { (first second : Image) (t : ℕ) (frame : BaseFrame) (m : State)
        → Agrees second (reads (after_frame t frame m) first) → AreAlike (after_frame t frame m) first second }
{}

/// A frame changes the boot of no node but that whose boot-up or SDO answer it is.
#[tactic(auto, using(crate::proofs::TableLemmas::its_node_alone))]
pub fn a_frame_changes_its_node_alone()
    ensures { (image : Image) (t : ℕ) (frame : BaseFrame) (m : State) (j : ℕ)
        → error_control_id (node_at m.nodes j).number ≢ frame.id → sdo_answer_id (node_at m.nodes j).number ≢ frame.id
        → node_at (outcome (after_frame t frame m) image).0.nodes j ≡ node_at m.nodes j }
{}

/// A manager has a message of each kind that there is, once, with the numbers that its network gives it, and no other:
/// its heartbeat, TIME and SYNC.
pub fn no_periodic_message_is_forgotten()
    ensures { (network : Network) (message : Message)
        → Contains (messages_of network) message ↔ HasNumbersOf network message }
{}

/// What the manager sends periodically, its heartbeat, TIME and SYNC and nothing else, is due at the whole multiples of
/// its period above 0, and at no other moment: it is set so at power-on, and after each frame, each command, and the
/// timers of each moment. Where it is due its frame waits then.
pub fn periodic_messages_come_at_whole_multiples()
    ensures first { (network : Network) → IsOnTime network 0 (manager_at_power_on network) }
    ensures frames { (network : Network) (image : Image) (t : ℕ) (frame : BaseFrame) (m : State)
        → IsOnTime network t m → IsOnTime network t (outcome (after_frame t frame m) image).0 }
    ensures commands { (network : Network) (t : ℕ) (command : NmtCommand) (node : ℕ) (m : State)
        → IsOnTime network t m → IsOnTime network t (with_command command node m) }
    ensures timers { (network : Network) (t : ℕ) (m : State) → IsOnTime network t m
        → IsOnTime network (t + 1) (timers t m).0 }
    ensures due { (network : Network) (t : ℕ) (m : State) (message : Message) → IsOnTime network t m
        → Contains (due_messages t m.periodic) message
        ↔ (HasNumbersOf network message × IsMultiple t (period_of network message)) }
    ensures queued { (network : Network) (t : ℕ) (m : State) (message : Message) → IsOnTime network t m
        → HasNumbersOf network message → IsMultiple t (period_of network message)
        → Contains (timers t m).0.waiting
        (waiting (purpose_of message) (frame_of m.number t (period_of network message) message)) }
{}

/// A node is noted configured only at a frame at which a write of it was asked for and is absent; never by timers.
pub fn a_boot_ends_with_its_writes()
    ensures frames { (image : Image) (t : ℕ) (frame : BaseFrame) (m : State) (node : ℕ)
        → Contains (outcome (after_frame t frame m) image).1 (configured_note node)
        → WritesEnd image node (reads (after_frame t frame m) image) }
    ensures timers { (t : ℕ) (m : State) (node : ℕ) → Contains (timers t m).1 (configured_note node) → ⊥ }
{}

/// The SYNC of a manager with a counter carries its number: that of the k-th SYNC of a run, at k whole periods, counts
/// from 1 to the last number of the counter, and then from 1 again. Without a counter it has no byte.
pub fn sync_messages_are_numbered()
    ensures counts { (last : ℕ) → 1 ≤ last → IsCounting last (sync_number last) }
    ensures numbered { (network : Network) (t k : ℕ) (m : State) → IsOnTime network t m → 1 ≤ network.sync_counter
        → 1 ≤ t → t ≡ k * network.sync_us
        → Contains (timers t m).0.waiting (sync_with (sync_number network.sync_counter k ∷ [])) }
    ensures plain { (network : Network) (t : ℕ) (m : State) → IsOnTime network t m → IsMultiple t network.sync_us
        → network.sync_counter ≡ 0 → Contains (timers t m).0.waiting (sync_with []) }
{}

/// TIME tells the time: where it is due, its frame with the time of that moment waits. Its six bytes are milliseconds after
/// midnight and days, which go on as moments do, from midnight of the network's first day on.
pub fn time_stamps_tell_the_time()
    ensures waits { (network : Network) (t : ℕ) (m : State) → IsOnTime network t m → IsMultiple t network.time_us
        → Contains (timers t m).0.waiting (waiting purpose.Time (time_frame network.first_day t)) }
    ensures clock { (first : ℕ) → first < 0x10000 → IsClock first milliseconds_at (day_at first) }
    ensures milliseconds { (first t : ℕ) → little_number 4 (time_of_day first t) ≡ milliseconds_at t }
    ensures day { (first t : ℕ) → little_number 2 (drop 4 (time_of_day first t)) ≡ day_at first t }
    ensures six { (first t : ℕ) → length (time_of_day first t) ≡ 6 }
{}

/// Each TIME that waits tells when it was due: that of an earlier moment that is a whole multiple of the period. It is so
/// at power-on, after each frame and each command, once a frame has started, and after the timers of each moment.
pub fn waiting_time_stamps_tell_when_they_were_due()
    ensures first { (network : Network) → TellsWhenDue network 0 (manager_at_power_on network) }
    ensures frames { (network : Network) (image : Image) (t : ℕ) (frame : BaseFrame) (m : State)
        → TellsWhenDue network t m → TellsWhenDue network t (outcome (after_frame t frame m) image).0 }
    ensures commands { (network : Network) (t : ℕ) (command : NmtCommand) (node : ℕ) (m : State)
        → TellsWhenDue network t m → TellsWhenDue network t (with_command command node m) }
    ensures sent { (network : Network) (t place : ℕ) (m : State) → TellsWhenDue network t m
        → TellsWhenDue network t (record m { waiting = remove m.waiting place }) }
    ensures timers { (network : Network) (t : ℕ) (m : State) → IsOnTime network t m → TellsWhenDue network t m
        → TellsWhenDue network (t + 1) (timers t m).0 }
{}

/// A frame leaves the start of the network as it is, or starts the network: as a whole by one command, or by one to each
/// node that is configured and to the manager's own, where that wasn't done before and each mandatory node is configured
/// now. So that never happens where each node is started by itself, nor twice; and where configured nodes are started,
/// no command goes to all. Timers start nothing, and a command of the scenario is none of the manager's own.
#[tactic(auto, using(crate::proofs::StartLemmas::frame_starts, crate::proofs::StartLemmas::each_by_itself, crate::proofs::StartLemmas::at_most_once, crate::proofs::StartLemmas::timers_keep, crate::proofs::StartLemmas::none_of_all))]
pub fn the_network_is_started_once()
    ensures frames { (image : Image) (t : ℕ) (frame : BaseFrame) (m : State) → HasNodeNumbers m
        → KeepsStart m (outcome (after_frame t frame m) image).0
        ⊎ StartsNetwork m (outcome (after_frame t frame m) image).0 }
    ensures each_node { (image : Image) (t : ℕ) (frame : BaseFrame) (m : State) → HasNodeNumbers m
        → m.startup.mode ≡ EachNode → KeepsStart m (outcome (after_frame t frame m) image).0 }
    ensures configured { (image : Image) (t : ℕ) (frame : BaseFrame) (m : State) → HasNodeNumbers m
        → m.startup.mode ≡ ConfiguredNodes
        → network_starts (outcome (after_frame t frame m) image).0.waiting ≡ network_starts m.waiting }
    ensures once { (image : Image) (t : ℕ) (frame : BaseFrame) (m : State) → HasNodeNumbers m
        → m.startup.is_started ≡ true → KeepsStart m (outcome (after_frame t frame m) image).0 }
    ensures timers { (t : ℕ) (m : State) → KeepsStart m (timers t m).0 }
    ensures commands { (command : NmtCommand) (node : ℕ) (m : State)
        → (with_command command node m).startup ≡ m.startup }
{}

/// The nodes of a network have numbers above 0 in the table, at power-on and after whatever happens.
#[tactic(auto, using(crate::proofs::StartLemmas::numbers_first, crate::proofs::StartLemmas::numbers_of_frame, crate::proofs::StartLemmas::numbers_of_timers))]
pub fn nodes_have_their_numbers()
    ensures first { (network : Network) → IsRoster network → HasNodeNumbers (manager_at_power_on network) }
    ensures frames { (image : Image) (t : ℕ) (frame : BaseFrame) (m : State) → HasNodeNumbers m
        → HasNodeNumbers (outcome (after_frame t frame m) image).0 }
    ensures timers { (t : ℕ) (m : State) → HasNodeNumbers m → HasNodeNumbers (timers t m).0 }
    ensures commands { (command : NmtCommand) (node : ℕ) (m : State) → HasNodeNumbers m
        → HasNodeNumbers (with_command command node m) }
{}
