//! Laws of the entries that a device's rules write, each a function whose contract is the law.

ghost use Rattle.std.specs.Prelude.{◌≡◌, ◌⊎◌, ℕ, Bool, true, false, List, [], ◌∷◌, if◌then◌else◌};
ghost use Rattle.std.specs.FinMap as map;
ghost use Rattle.image_parts.specs.Asking.{outcome};
ghost use Rattle.can_frame.specs.Frames.{BaseFrame};
ghost use Rattle.co_device.specs.Device.{Device, after_instant, after_power, after_set};
ghost use Rattle.co_device.specs.Receiving.{after_frame};
ghost use Rattle.image_parts.specs.Contents.{Image, values_of};
ghost use Rattle.network_laws.specs.States.{HasBooted};
ghost use Rattle.network_laws.specs.Leaves.{LeavesServer, ServesRequest};
ghost use Rattle.network_laws.specs.Writes.{writes_of_frame, writes_of_set};
ghost use Rattle.network_laws.specs.Written.{AreOf, Event, written_by};

use image_parts::Part;

/// The writes of a device are of its own entries.
#[tactic(auto, using(crate::proofs::FrameWrites::frame_of, crate::proofs::FrameWrites::set_of))]
pub fn a_device_writes_its_own_entries()
    ensures frame { (image : Image) (t : ℕ) (frame : BaseFrame) (d : Device)
        → AreOf d.number (writes_of_frame image t frame d) }
    ensures set { (place : ℕ × ℕ) (bytes : List ℕ) (d : Device) → AreOf d.number (writes_of_set place bytes d) }
{}

/// Where the application of a device with power sets an entry, that is written, with these bytes, and nothing else; of
/// one without power nothing is. The values after are those before with it, the error register aside.
#[tactic(auto, using(crate::proofs::LeaveLemmas::what_is_set))]
pub fn an_event_writes_what_it_sets()
    ensures left { (t : ℕ) (place : ℕ × ℕ) (bytes : List ℕ) (d : Device)
        → LeavesServer (writes_of_set place bytes d) d (after_set t place bytes d) }
    ensures written { (place : ℕ × ℕ) (bytes : List ℕ) (d : Device) → d.has_power ≡ true
        → writes_of_set place bytes d ≡ written_by Event d.number (record { place = place; bytes = bytes } ∷ []) }
    ensures dark { (place : ℕ × ℕ) (bytes : List ℕ) (d : Device) → d.has_power ≡ false
        → writes_of_set place bytes d ≡ [] }
{}

/// What a device does of itself writes no entry, the error register aside.
#[tactic(auto, using(crate::proofs::InstantWrites::instant_left))]
pub fn a_device_writes_nothing_of_itself()
    ensures { (t : ℕ) (d : Device) → LeavesServer [] d (after_instant t d) }
{}

/// A frame resets the device, and writes nothing; or its SDO server takes it, and writes what the server tells; or the
/// values after are those before with what RPDOs write, stored one after another. The error register is aside.
#[tactic(auto, using(crate::proofs::FrameWrites::frame_in_ways))]
pub fn a_frame_writes_by_rpdo_or_by_sdo()
    ensures { (image : Image) (t : ℕ) (frame : BaseFrame) (d : Device)
        → (HasBooted d.number (outcome (after_frame t frame d) image) × (writes_of_frame image t frame d ≡ []))
        ⊎ (ServesRequest image frame (writes_of_frame image t frame d) d (outcome (after_frame t frame d) image)
        ⊎ LeavesServer (writes_of_frame image t frame d) d (outcome (after_frame t frame d) image)) }
{}

/// The switch resets a device that had no power, or leaves one that had it, or takes its power. It writes nothing: the
/// values after are those before, the defaults of the reset, or none without power.
#[tactic(auto, using(crate::proofs::FrameWrites::what_power_brings))]
pub fn the_switch_writes_nothing()
    ensures values { (image : Image) (t : ℕ) (on : Bool) (d : Device)
        → (outcome (after_power on t d) image).values
        ≡ (if on then (if d.has_power then d.values else values_of (image (Part.Defaults d.number)))
        else (if d.has_power then map.empty else d.values)) }
    ensures ways { (image : Image) (t : ℕ) (on : Bool) (d : Device)
        → HasBooted d.number (outcome (after_power on t d) image)
        ⊎ ((outcome (after_power on t d) image ≡ d) ⊎ ((outcome (after_power on t d) image).has_power ≡ false)) }
{}
