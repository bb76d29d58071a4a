//! Who sends a frame.
ghost use Rattle.std.specs.Prelude.{◌≡◌};
ghost use Rattle.can_frame.specs.Senders as senders;

/// The device of the node of a number as a sender of frames: it goes before the manager of that number.
pub fn device_sender(number: u8) -> u16
    ensures { result ≡ senders.device_sender number }
{
    2 * u16::from(number)
}

/// The manager of a number as a sender of frames.
pub fn manager_sender(number: u8) -> u16
    ensures { result ≡ senders.manager_sender number }
{
    2 * u16::from(number) + 1
}
