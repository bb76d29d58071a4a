//! Laws of devices, each a function whose contract is the law.

ghost use Rattle.std.specs.Prelude.{◌≡◌, ◌≢◌, ◌<◌, ◌≤◌, ◌+◌, ◌⊎◌, ℕ, Bool, true, false, if◌then◌else◌, List, [], ◌∷◌};
ghost use Rattle.std.specs.Prelude.{All, nat_lt, None, Some, IfSome, remove};
ghost use Rattle.std.specs.FinMap as map;
ghost use Rattle.std.specs.List.{AllByRecursion};
ghost use Rattle.image_parts.specs.Alike.{AreAlike};
ghost use Rattle.image_parts.specs.Asking.{Agrees, Answer, bind, outcome, reads};
ghost use Rattle.can_frame.specs.Frames.{BaseFrame};
ghost use Rattle.can_frame.specs.declared.waiting.Waiting.{Waiting};
ghost use Rattle.base.specs.Ranges.{is_between};
ghost use Rattle.co_dict.specs.Mappings.{mapped_place};
ghost use Rattle.co_dict.specs.Places.{place_cmp};
ghost use Rattle.co_dict.specs.Shapes.{Shaped};
ghost use Rattle.image_parts.specs.Contents.{Image, shape_of, values_of};
ghost use Rattle.pdo_rules.specs.Sync.{sync_message};
ghost use Rattle.device_objects.specs.Consumers.{failures_at};
ghost use Rattle.device_objects.specs.Profile.{with_error_bits, next_heartbeat};
ghost use Rattle.co_sdo.specs.Frames.{command};
ghost use Rattle.co_sdo.specs.Server.{server_answer};
ghost use Rattle.pdo_rules.specs.Packing.{takes, after_payload};
ghost use Rattle.device_pdos.specs.Rpdos.{mapping_of_rpdo, receipt_of, rpdo_at};
ghost use Rattle.co_device.specs.Device.{Device, after_consumers, enter_pre_operational, is_in, moments, next_due};
ghost use Rattle.co_device.specs.Device.{after_power, after_instant, reset_communication, after_reset_node};
ghost use Rattle.co_device.specs.Device.{after_sdo_request};
ghost use Rattle.co_device.specs.Device.{stop_remote_node, after_timers, after_set, with_emergencies, with_emergency};
ghost use Rattle.co_device.specs.Device.{without_power};
ghost use Rattle.co_device.specs.Receiving.{is_ignored, after_entry, after_pdo, after_frame, after_rpdo, after_sync_at};
ghost use Rattle.co_device.specs.Receiving.{after_sync};
ghost use Rattle.device_agenda.specs.Ahead.{IsAhead};
ghost use Rattle.device_agenda.specs.Deaf.{IsDeafTo};
ghost use Rattle.device_agenda.specs.Rest.{Rests};
ghost use Rattle.device_agenda.specs.Itself.{StaysItself};
ghost use Rattle.network_laws.specs.Reads.{IsOwnPart};
ghost use Rattle.network_laws.specs.States.{HasBooted, HasNoPdo, IsDark, IsSilent, SaysNothing};
ghost use Rattle.can_frame.specs.NmtMessages.{nmt_message};

use cia301::NmtState;
use co_sdo::transfer::Transfer;
use image_parts::Part;
use pdo_rules::Receipt;

/// Before the next moment of its timers nothing happens to a device of itself by them.
#[tactic(auto, using(device_agenda::proofs::AheadLemmas::quiet))]
pub fn nothing_happens_before_it_is_due()
    ensures { (t : ℕ) (d : Device) → IsAhead (t + 1) d → after_timers t d ≡ d }
{}

/// After the timers of a moment no moment of theirs lies up to it, where none lay before it; after all that
/// the device does at a moment, every moment at which it is due lies later.
pub fn what_was_due_has_run()
    ensures timers { (t : ℕ) (d : Device) → IsAhead t d → IsAhead (t + 1) (after_timers t d) }
    ensures all { (t : ℕ) (d : Device) → IsAhead t d → AllByRecursion (λ m. t < m) (moments (after_instant t d)) }
{}

/// A device that ran what was due at a moment rests, and sending its frames leaves it at rest.
#[tactic(auto, using(device_agenda::proofs::RestLemmas::ran_rests, device_agenda::proofs::RestLemmas::sent_rests, device_agenda::proofs::RestLemmas::sent_moments))]
pub fn a_device_that_ran_rests()
    ensures ran { (t : ℕ) (d : Device) → Rests (after_instant t d) }
    ensures sent { (frames : List Waiting) (d : Device) → Rests d → Rests (record d { waiting = frames }) }
    ensures moments { (frames : List Waiting) (d : Device) → moments (record d { waiting = frames }) ≡ moments d }
{}

/// As long as all its moments lie ahead, a device at rest does nothing of itself.
#[tactic(auto, using(device_agenda::proofs::RestLemmas::quiet_at_rest))]
pub fn a_device_at_rest_does_nothing_before_it_is_due()
    ensures { (u : ℕ) (d : Device) → Rests d → AllByRecursion (λ m. u < m) (moments d) → after_instant u d ≡ d }
{}

/// What comes at a moment sets no moment of a timer up to it.
pub fn what_comes_is_due_later()
    ensures frame { (image : Image) (t u : ℕ) (frame : BaseFrame) (d : Device) → u ≤ t + 1 → IsAhead u d
        → IsAhead u (outcome (after_frame t frame d) image) }
    ensures power { (image : Image) (t u : ℕ) (on : Bool) (d : Device) → u ≤ t + 1 → IsAhead u d
        → IsAhead u (outcome (after_power on t d) image) }
    ensures set { (t u : ℕ) (place : ℕ × ℕ) (bytes : List ℕ) (d : Device) → u ≤ t + 1 → IsAhead u d
        → IsAhead u (after_set t place bytes d) }
{}

/// A device reads the values that it takes at power-on and reset, and its entries: its own alone.
#[tactic(auto, using(crate::proofs::PartLemmas::frame_reads, crate::proofs::PartLemmas::power_reads))]
pub fn a_device_reads_its_own_parts()
    ensures frame { (image : Image) (t : ℕ) (frame : BaseFrame) (d : Device)
        → All (λ r. IsOwnPart d.number r.0) (reads (after_frame t frame d) image) }
    ensures power { (image : Image) (t : ℕ) (on : Bool) (d : Device)
        → All (λ r. IsOwnPart d.number r.0) (reads (after_power on t d) image) }
{}

/// Under two images that agree on what a device reads under the one, it comes to the same, and reads
/// the same.
pub fn what_a_device_reads_decides()
    ensures frame { (first second : Image) (t : ℕ) (frame : BaseFrame) (d : Device)
        → Agrees second (reads (after_frame t frame d) first) → AreAlike (after_frame t frame d) first second }
    ensures power { (first second : Image) (t : ℕ) (on : Bool) (d : Device)
        → Agrees second (reads (after_power on t d) first) → AreAlike (after_power on t d) first second }
{}

/// Frames, writes of the application and what a device does of itself leave its number, whether it has power and
/// whether
/// it is spent; the switch leaves its number, and sets whether it has power.
#[tactic(auto, using(device_agenda::proofs::SelfLemmas::frame_stays, device_agenda::proofs::SelfLemmas::set_stays, device_agenda::proofs::SelfLemmas::instant_stays, device_agenda::proofs::SelfLemmas::power_switches))]
pub fn a_device_stays_itself()
    ensures frame { (image : Image) (t : ℕ) (frame : BaseFrame) (d : Device)
        → StaysItself d (outcome (after_frame t frame d) image) }
    ensures set { (t : ℕ) (place : ℕ × ℕ) (bytes : List ℕ) (d : Device) → StaysItself d (after_set t place bytes d) }
    ensures instant { (t : ℕ) (d : Device) → StaysItself d (after_instant t d) }
    ensures power { (image : Image) (t : ℕ) (on : Bool) (d : Device)
        → StaysItself (record d { has_power = on }) (outcome (after_power on t d) image) }
{}

/// A frame that a device ignores changes nothing, and nothing is read for it.
#[tactic(auto, using(device_agenda::proofs::IgnoredLemmas::ignored_changes_nothing))]
pub fn an_ignored_frame_changes_nothing()
    ensures { (t : ℕ) (frame : BaseFrame) (d : Device) → is_ignored frame d ≡ true → after_frame t frame d ≡ Answer d }
{}

/// As long as all its moments lie ahead, a frame that is nothing to a device at rest changes nothing in the
/// instant of its delivery, and nothing is read for it: a SYNC that the device doesn't await is one.
#[tactic(auto, using(device_agenda::proofs::DeafLemmas::nothing_comes_of_it))]
pub fn what_is_nothing_to_a_device_changes_nothing()
    ensures { (t : ℕ) (frame : BaseFrame) (d : Device) → Rests d → AllByRecursion (λ m. t < m) (moments d)
        → IsDeafTo frame d
        → bind (after_frame t frame d) (λ heard. Answer (after_instant t heard)) ≡ Answer d }
{}

/// Without power a device takes nothing, nothing waits and nothing is due.
#[tactic(auto, using(crate::proofs::DarkLemmas::frame_untaken, crate::proofs::DarkLemmas::set_untaken, crate::proofs::DarkLemmas::frame_is_dark, crate::proofs::DarkLemmas::power_is_dark, crate::proofs::DarkLemmas::instant_is_dark, crate::proofs::DarkLemmas::nothing_due))]
pub fn without_power_nothing_happens()
    ensures untaken { (image : Image) (t : ℕ) (frame : BaseFrame) (d : Device) → d.has_power ≡ false
        → outcome (after_frame t frame d) image ≡ d }
    ensures unset { (t : ℕ) (place : ℕ × ℕ) (bytes : List ℕ) (d : Device) → d.has_power ≡ false
        → after_set t place bytes d ≡ d }
    ensures frame { (image : Image) (t : ℕ) (frame : BaseFrame) (d : Device) → IsDark d
        → IsDark (outcome (after_frame t frame d) image) }
    ensures power { (image : Image) (t : ℕ) (on : Bool) (d : Device) → IsDark d
        → IsDark (outcome (after_power on t d) image) }
    ensures instant { (t : ℕ) (d : Device) → IsDark d → IsDark (after_instant t d) }
    ensures nothing { (spent : Bool) (number : ℕ) → next_due (without_power spent number) ≡ None }
{}

/// Power-on and both resets end with the boot-up message, which waits alone.
#[tactic(auto, using(crate::proofs::StateLemmas::power_boots, crate::proofs::StateLemmas::reset_node_boots, crate::proofs::StateLemmas::reset_communication_boots))]
pub fn a_reset_ends_with_the_boot_up()
    ensures power { (image : Image) (t : ℕ) (d : Device) → d.has_power ≡ false
        → HasBooted d.number (outcome (after_power true t d) image) }
    ensures node { (image : Image) (t node : ℕ) (d : Device) → d.has_power ≡ true → (node ≡ 0) ⊎ (node ≡ d.number)
        → HasBooted d.number (outcome (after_frame t (nmt_message 129 node) d) image) }
    ensures communication { (image : Image) (t node : ℕ) (d : Device) → d.has_power ≡ true
        → (node ≡ 0) ⊎ (node ≡ d.number)
        → HasBooted d.number (outcome (after_frame t (nmt_message 130 node) d) image) }
{}

/// In Stopped no answer of the SDO server waits, no emergency object waits and no transfer is open:
/// entering it drops them, and nothing that happens to the device brings one.
#[tactic(auto, using(crate::proofs::StateLemmas::stop_says_nothing, crate::proofs::StateLemmas::frame_is_silent, crate::proofs::StateLemmas::power_is_silent, crate::proofs::StateLemmas::set_is_silent, crate::proofs::StateLemmas::instant_is_silent, crate::proofs::StateLemmas::sending_is_silent))]
pub fn a_stopped_device_says_nothing_by_sdo_or_emergency()
    ensures entered { (d : Device) → is_in NmtState.Stopped d ≡ false → SaysNothing (stop_remote_node d) }
    ensures new { (spent : Bool) (number : ℕ) → IsSilent (without_power spent number) }
    ensures frame { (image : Image) (t : ℕ) (frame : BaseFrame) (d : Device) → IsSilent d
        → IsSilent (outcome (after_frame t frame d) image) }
    ensures power { (image : Image) (t : ℕ) (on : Bool) (d : Device) → IsSilent d
        → IsSilent (outcome (after_power on t d) image) }
    ensures set { (t : ℕ) (place : ℕ × ℕ) (bytes : List ℕ) (d : Device) → IsSilent d
        → IsSilent (after_set t place bytes d) }
    ensures instant { (t : ℕ) (d : Device) → IsSilent d → IsSilent (after_instant t d) }
    ensures sent { (place : ℕ) (d : Device) → IsSilent d → IsSilent (record d { waiting = remove d.waiting place }) }
{}

/// In Stopped a request to the SDO server changes nothing, and reads nothing.
#[tactic(auto, using(crate::proofs::StateLemmas::not_taken, crate::proofs::StateLemmas::nothing_read))]
pub fn a_stopped_server_takes_nothing()
    ensures same { (image : Image) (t : ℕ) (request : List ℕ) (d : Device) → is_in NmtState.Stopped d ≡ true
        → outcome (after_sdo_request t request d) image ≡ d }
    ensures unread { (image : Image) (t : ℕ) (request : List ℕ) (d : Device) → is_in NmtState.Stopped d ≡ true
        → reads (after_sdo_request t request d) image ≡ [] }
{}

/// An abort of the client drops the open transfer and changes nothing else, whatever entries the device has.
#[tactic(auto, using(co_device::proofs::AbortLemmas::abort_leaves))]
pub fn an_abort_of_the_client_drops_the_transfer()
    ensures { (image : Image) (t : ℕ) (request : List ℕ) (d : Device) → is_in NmtState.Stopped d ≡ false
        → command request ≡ 0x80 → outcome (after_sdo_request t request d) image
        ≡ record d { transfer = Transfer.Idle } }
{}

/// A server that isn't stopped reads the device's entries once for each request, an abort too.
#[tactic(auto, using(crate::proofs::StateLemmas::request_reads))]
pub fn a_request_reads_the_entries_once()
    ensures { (image : Image) (t : ℕ) (request : List ℕ) (d : Device) → is_in NmtState.Stopped d ≡ false
        → reads (after_sdo_request t request d) image ≡ (Part.Shape d.number, image (Part.Shape d.number)) ∷ [] }
{}

/// Reset node gives every entry the value that the node takes at power-on and reset. Reset communication does so for
/// 1000h to 1FFFh, and leaves all others.
#[tactic(auto, using(crate::proofs::ResetLemmas::node_values, crate::proofs::ResetLemmas::communication_values))]
pub fn a_reset_restores_its_entries()
    ensures node { (image : Image) (t : ℕ) (d : Device)
        → (outcome (after_reset_node t d) image).values ≡ values_of (image (Part.Defaults d.number)) }
    ensures communication { (image : Image) (t : ℕ) (d : Device) (place : ℕ × ℕ)
        → map.get (outcome (reset_communication t d) image).values place
        ≡ (if is_between 0x1000 0x1FFF place.0 then map.get (values_of (image (Part.Defaults d.number))) place
        else map.get d.values place) }
{}

/// A write of the producer heartbeat time, by SDO, by the application or by an RPDO, starts the heartbeat anew,
/// whatever the value was before; no other write does. An RPDO's frame is written entry by entry of its mapping: an
/// entry that is not taken leaves the device as it is.
#[tactic(auto, using(crate::proofs::ResetLemmas::write_starts, crate::proofs::ResetLemmas::others_leave, crate::proofs::ResetLemmas::set_starts, crate::proofs::ResetLemmas::other_sets_leave, crate::proofs::ResetLemmas::what_entries_start))]
pub fn a_write_of_1017h_starts_the_heartbeat()
    ensures started { (image : Image) (t : ℕ) (request : List ℕ) (d : Device) → is_in NmtState.Stopped d ≡ false
        → (server_answer (shape_of (image (Part.Shape d.number))) d.values d.transfer request).wrote ≡ Some (0x1017, 0)
        → (outcome (after_sdo_request t request d) image).heartbeat
        ≡ next_heartbeat t (outcome (after_sdo_request t request d) image).learnt
        (outcome (after_sdo_request t request d) image).values }
    ensures others { (image : Image) (t : ℕ) (request : List ℕ) (d : Device)
        → (server_answer (shape_of (image (Part.Shape d.number))) d.values d.transfer request).wrote ≢ Some (0x1017, 0)
        → (outcome (after_sdo_request t request d) image).heartbeat ≡ d.heartbeat }
    ensures set { (t : ℕ) (bytes : List ℕ) (d : Device) → d.has_power ≡ true
        → (after_set t (0x1017, 0) bytes d).heartbeat
        ≡ next_heartbeat t d.learnt (after_set t (0x1017, 0) bytes d).values }
    ensures other_sets { (t : ℕ) (place : ℕ × ℕ) (bytes : List ℕ) (d : Device) → place ≢ (0x1017, 0)
        → (after_set t place bytes d).heartbeat ≡ d.heartbeat }
    ensures rpdo { (t : ℕ) (shape : Shaped) (entry : ℕ) (bits : List ℕ) (d : Device)
        → takes shape entry bits d.values ≡ true → mapped_place entry ≡ (0x1017, 0)
        → (after_entry t shape entry bits d).heartbeat
        ≡ next_heartbeat t (after_entry t shape entry bits d).learnt (after_entry t shape entry bits d).values }
    ensures other_rpdos { (t : ℕ) (shape : Shaped) (entry : ℕ) (bits : List ℕ) (d : Device)
        → mapped_place entry ≢ (0x1017, 0) → (after_entry t shape entry bits d).heartbeat ≡ d.heartbeat }
    ensures untaken { (t : ℕ) (shape : Shaped) (entry : ℕ) (bits : List ℕ) (d : Device)
        → takes shape entry bits d.values ≡ false → after_entry t shape entry bits d ≡ d }
{}

/// Once Operational is left, no TPDO waits, none remembers anything, and no RPDO keeps a frame.
#[tactic(auto, using(crate::proofs::StateLemmas::entering_leaves_no_pdo, crate::proofs::StateLemmas::stopping_leaves_no_pdo))]
pub fn who_leaves_operational_has_no_pdo()
    ensures entered { (d : Device) → is_in NmtState.Operational d ≡ true → HasNoPdo (enter_pre_operational d) }
    ensures stopped { (d : Device) → is_in NmtState.Operational d ≡ true → HasNoPdo (stop_remote_node d) }
{}

/// Outside Operational a SYNC and the frame of a PDO change nothing, and nothing is read for them.
#[tactic(auto, using(crate::proofs::StateLemmas::sync_ignored, crate::proofs::StateLemmas::sync_unread, crate::proofs::StateLemmas::pdo_ignored, crate::proofs::StateLemmas::pdo_unread))]
pub fn pdos_work_in_operational_alone()
    ensures sync { (image : Image) (t : ℕ) (bytes : List ℕ) (d : Device) → is_in NmtState.Operational d ≡ false
        → outcome (after_sync t bytes d) image ≡ d }
    ensures sync_unread { (image : Image) (t : ℕ) (bytes : List ℕ) (d : Device) → is_in NmtState.Operational d ≡ false
        → reads (after_sync t bytes d) image ≡ [] }
    ensures pdo { (image : Image) (t : ℕ) (frame : BaseFrame) (d : Device) → is_in NmtState.Operational d ≡ false
        → outcome (after_pdo t frame d) image ≡ d }
    ensures pdo_unread { (image : Image) (t : ℕ) (frame : BaseFrame) (d : Device) → is_in NmtState.Operational d ≡ false
        → reads (after_pdo t frame d) image ≡ [] }
{}

/// Of a SYNC that comes in Operational the TPDOs find the counter that its bytes have, later in the instant: what
/// the frames that RPDOs keep bring about at it changes nothing of that.
#[tactic(auto, using(crate::proofs::SyncLemmas::a_sync_is_kept))]
pub fn the_tpdos_find_the_counter_of_a_sync()
    ensures { (image : Image) (t : ℕ) (bytes : List ℕ) (d : Device) → is_in NmtState.Operational d ≡ true
        → (outcome (after_sync t bytes d) image).synced ≡ Some (sync_message bytes) }
{}

/// A SYNC stands for its own instant alone.
#[tactic(auto, using(crate::proofs::StateLemmas::no_sync_is_left))]
pub fn a_sync_ends_with_its_instant()
    ensures { (t : ℕ) (d : Device) → (after_instant t d).synced ≡ None }
{}

/// A consumer that fails takes the device out of Operational. In Stopped it has no emergency object
/// sent, and sets the error bits.
#[tactic(auto, using(crate::proofs::StateLemmas::a_failure_in_stopped, crate::proofs::StateLemmas::a_failure_leaves_operational))]
pub fn what_a_failure_brings_about()
    ensures left { (t : ℕ) (d : Device) → nat_lt 0 (failures_at t d.consumers) ≡ true
        → is_in NmtState.Operational (after_consumers t d) ≡ false }
    ensures stopped { (t : ℕ) (d : Device) → is_in NmtState.Stopped d ≡ true
        → nat_lt 0 (failures_at t d.consumers) ≡ true
        → ((after_consumers t d).waiting ≡ d.waiting)
        × ((after_consumers t d).values ≡ with_error_bits d.learnt d.values) }
{}

/// Consumers that fail at one moment are told one by one: one more emergency object waits for each.
#[tactic(auto, using(crate::proofs::FailureLemmas::none_told, crate::proofs::FailureLemmas::one_more_told))]
pub fn failures_are_told_one_by_one()
    ensures none { (code : ℕ) (d : Device) → with_emergencies 0 code d ≡ d }
    ensures one_more { (count code : ℕ) (d : Device)
        → with_emergencies (count + 1) code d ≡ with_emergency code (with_emergencies count code d) }
{}

/// An RPDO that applies a frame, at once or at a SYNC, leaves the values that are unpacked of it by its mapping
/// at every entry but the error register, 1001h:00, whose error bits the write of a consumer heartbeat time may
/// clear.
#[tactic(auto, using(crate::proofs::AppliedLemmas::what_is_applied))]
pub fn an_rpdo_unpacks_what_it_applies()
    ensures at_once { (image : Image) (t : ℕ) (frame : BaseFrame) (i : ℕ) (d : Device) (place : ℕ × ℕ)
        → receipt_of frame (rpdo_at d.rpdos i).configuration ≡ Receipt.AtOnce → place ≢ (0x1001, 0)
        → map.get (outcome (after_rpdo t frame i d) image).values place
        ≡ (let mapping = mapping_of_rpdo (rpdo_at d.rpdos i).configuration in
        map.get (after_payload (shape_of (image (Part.Shape d.number))) mapping frame.bytes d.values) place) }
    ensures at_sync { (image : Image) (t : ℕ) (frame : BaseFrame) (i : ℕ) (d : Device) (place : ℕ × ℕ)
        → (rpdo_at d.rpdos i).kept ≡ Some frame → place ≢ (0x1001, 0)
        → map.get (outcome (after_sync_at t i d) image).values place
        ≡ (let mapping = mapping_of_rpdo (rpdo_at d.rpdos i).configuration in
        map.get (after_payload (shape_of (image (Part.Shape d.number))) mapping frame.bytes d.values) place) }
{}

/// An RPDO that keeps a frame reads nothing; one that applies it reads the device's entries once.
#[tactic(auto, using(crate::proofs::StateLemmas::a_keeper_reads_nothing, crate::proofs::StateLemmas::an_application_reads_entries_once))]
pub fn an_rpdo_reads_entries_where_it_applies_a_frame()
    ensures keeps { (image : Image) (t : ℕ) (frame : BaseFrame) (i : ℕ) (d : Device)
        → receipt_of frame (rpdo_at d.rpdos i).configuration ≡ Receipt.Kept
        → reads (after_rpdo t frame i d) image ≡ [] }
    ensures applies { (image : Image) (t : ℕ) (frame : BaseFrame) (i : ℕ) (d : Device)
        → receipt_of frame (rpdo_at d.rpdos i).configuration ≡ Receipt.AtOnce
        → reads (after_rpdo t frame i d) image ≡ (Part.Shape d.number, image (Part.Shape d.number)) ∷ [] }
{}
