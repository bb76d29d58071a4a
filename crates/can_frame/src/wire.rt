//! How many bits a frame takes on the wire (ISO 11898-1).
ghost use Rattle.std.specs.Prelude.{◌≡◌, ◌<◌, ◌≤◌, ◌+◌, ◌++◌, ◌∷◌, [], ℕ, List, length};
ghost use Rattle.can_frame.specs.Sent.{HasSent, IsWire};
ghost use Rattle.can_frame.specs.WireBits.{bits, checked_bits, crc, exact_bits, stuffed};

use crate::check::with_byte;
use crate::frame::Frame;
use crate::slots::slot_bits;
use crate::stuffing::Stuffing;

/// What is known of bits that have gone over the wire: their check, and their stuffing.
#[derive(Clone, Copy)]
struct Wire {
    check: u16,
    stuffing: Stuffing,
}

impl Wire {
    /// Behind the start of frame and the two highest bits of an identifier. A 1 of the idle bus is sent
    /// before these three, so that they are four.
    fn started(highest: u8) -> Wire
        requires two { highest < 4 }
        ensures sent { HasSent (bits 3 highest) result }
        ensures few { result.stuffing.stuff_bits ≤ 1 }
        ensures wire { IsWire result }
    {
        Wire {
            check: with_byte(0, highest),
            stuffing: Stuffing::idle().and_four(8 + usize::from(highest)),
        }
    }

    /// Behind one more byte.
    fn and_byte(self, byte: u8) -> Wire
        requires few { self.stuffing.stuff_bits ≤ 900 }
        requires wire { IsWire self }
        ensures sent { (sent : List ℕ) → HasSent sent self → HasSent (sent ++ bits 8 byte) result }
        ensures few { result.stuffing.stuff_bits ≤ self.stuffing.stuff_bits + 2 }
        ensures wire { IsWire result }
    {
        Wire {
            check: with_byte(self.check, byte),
            stuffing: self.stuffing.and_byte(byte),
        }
    }

    /// Behind the bits of a frame up to its length, which are three bits and two bytes.
    fn headed(frame: &Frame) -> Wire
        ensures sent { HasSent (0 ∷ (bits 11 frame.now.id ++ 0 ∷ 0 ∷ 0 ∷ bits 4 (length frame.now.bytes))) result }
        ensures few { result.stuffing.stuff_bits ≤ 5 }
        ensures wire { IsWire result }
    {
        let id = frame.id();
        let lowest = (id % 2) as u8;
        Wire::started((id / 0x200) as u8)
            .and_byte((id / 2 % 0x100) as u8)
            .and_byte(lowest * 0x80 + frame.bytes().len() as u8)
    }

    /// Behind the bits that the check of a frame is of.
    fn checked(frame: &Frame) -> Wire
        ensures sent { HasSent (checked_bits frame.now) result }
        ensures few { result.stuffing.stuff_bits ≤ 21 }
        ensures wire { IsWire result }
    {
        let mut wire = Wire::headed(frame);
        for byte in frame.bytes() {
            wire = wire.and_byte(*byte);
        }
        wire
    }

    /// How many stuff bits there are, once the check has gone too. Behind its 15 bits one of another
    /// value than the last fills two bytes up: it begins a row, and so adds none.
    fn stuff_bits(self) -> u32
        requires few { self.stuffing.stuff_bits ≤ 800 }
        requires wire { IsWire self }
        ensures count { (sent : List ℕ) → HasSent sent self
            → length (stuffed (sent ++ bits 15 (crc sent))) ≡ length sent + 15 + result }
        ensures few { result ≤ self.stuffing.stuff_bits + 4 }
    {
        let two_bytes = self.check * 2 + 1 - self.check % 2;
        self.stuffing
            .and_byte((two_bytes / 0x100) as u8)
            .and_byte((two_bytes % 0x100) as u8)
            .stuff_bits
    }
}

/// The bit times of a frame on the bus, its stuff bits among them: 47, 8 for each byte, and the stuff
/// bits.
pub fn exact_bits(frame: &Frame) -> u32
    ensures bits { result ≡ exact_bits frame.now }
    ensures most { result ≤ 135 }
    ensures least { 47 ≤ result }
{
    slot_bits(frame) + Wire::checked(frame).stuff_bits()
}
