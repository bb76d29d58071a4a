//! Laws of the frames that wait at a device, each a function whose contract is the law.

ghost use Rattle.std.specs.Prelude.{ℕ, Bool, List, remove};
ghost use Rattle.image_parts.specs.Asking.{outcome};
ghost use Rattle.can_frame.specs.Frames.{BaseFrame};
ghost use Rattle.co_device.specs.Device.{Device, after_instant, after_power, after_set, without_power};
ghost use Rattle.co_device.specs.Receiving.{after_frame};
ghost use Rattle.image_parts.specs.Contents.{Image};
ghost use Rattle.network_laws.specs.Own.{HasOwnFrames};

/// Under every image each frame that waits at a device has an identifier of its own: its SDO answers, its boot-up
/// message and its heartbeats have those of the predefined connection set, and no TPDO has one of them.
pub fn each_frame_of_a_device_is_its_own()
    ensures dark { (spent : Bool) (number : ℕ) → HasOwnFrames (without_power spent number) }
    ensures power { (image : Image) (t : ℕ) (on : Bool) (d : Device) → HasOwnFrames d
        → HasOwnFrames (outcome (after_power on t d) image) }
    ensures set { (t : ℕ) (place : ℕ × ℕ) (bytes : List ℕ) (d : Device) → HasOwnFrames d
        → HasOwnFrames (after_set t place bytes d) }
    ensures frame { (image : Image) (t : ℕ) (frame : BaseFrame) (d : Device) → HasOwnFrames d
        → HasOwnFrames (outcome (after_frame t frame d) image) }
    ensures instant { (t : ℕ) (d : Device) → HasOwnFrames d → HasOwnFrames (after_instant t d) }
    ensures sent { (place : ℕ) (d : Device) → HasOwnFrames d
        → HasOwnFrames (record d { waiting = remove d.waiting place }) }
{}
