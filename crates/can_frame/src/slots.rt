//! How long a frame takes on the bus.
ghost use Rattle.std.specs.Prelude.{◌≡◌, ◌≤◌};
ghost use Rattle.can_frame.specs.Frames.{bit_time, slot_bits};
ghost use Rattle.can_frame.specs.Slots.{bits_of_slot, slot_time};

use crate::frame::Frame;
use crate::slot_rule::SlotRule;
use crate::wire::exact_bits;

/// The bit times of a frame on the bus: 47 and 8 for each byte, without stuff bits.
pub fn slot_bits(frame: &Frame) -> u32
    ensures bits { result ≡ slot_bits frame.now }
    ensures most { result ≤ 111 }
{
    47 + 8 * frame.bytes().len() as u32
}

/// The bit times of a frame on the bus, by the rule that counts them.
pub fn bits_of_slot(rule: SlotRule, frame: &Frame) -> u32
    ensures bits { result ≡ bits_of_slot rule frame.now }
    ensures most { result ≤ 135 }
{
    match rule {
        SlotRule::Unstuffed => slot_bits(frame),
        SlotRule::Stuffed => exact_bits(frame),
    }
}

/// The time of one bit in microseconds, at a rate in kbit/s: 1000 through the rate.
pub fn bit_time(rate: u16) -> u32
    requires { 1 ≤ rate }
    ensures time { result ≡ bit_time rate }
    ensures most { result ≤ 1000 }
{
    1000 / u32::from(rate)
}

/// The time of a frame on the bus in microseconds, by the rule that counts its bits, at a rate in kbit/s.
pub fn slot_time(rule: SlotRule, rate: u16, frame: &Frame) -> u32
    requires { 1 ≤ rate }
    ensures time { result ≡ slot_time rule rate frame.now }
    ensures most { result ≤ 135000 }
{
    bits_of_slot(rule, frame) * bit_time(rate)
}
