//! Stuff bits, four bits at a time. What four bits add follows from them and from the row of equal
//! bits before them on the wire. Such a row has four at most, since a fifth is followed by a stuff bit
//! of the other value, the first of the next row: so tables have it.
//!
//! A row is a number of two hexadecimal digits, 0x00 to 0x30 for one to four 0s and 0x40 to 0x70 for
//! one to four 1s. The tables have sixteen places for each: 0x35 is of 0101 behind four 0s.
ghost use Rattle.std.specs.Prelude.{◌≡◌, ◌<◌, ◌≤◌, ◌+◌, ◌++◌, ◌∷◌, [], ℕ, List};
ghost use Rattle.can_frame.specs.Sent.{HasStuffed, IsRow};
ghost use Rattle.can_frame.specs.WireBits.{bits};

/// The row that ends the four bits of a place.
const ROWS: [u8; 128] = [
    0x40, 0x40, 0x00, 0x50, 0x10, 0x40, 0x00, 0x60, 0x20, 0x40, 0x00, 0x50, 0x10, 0x40, 0x00, 0x70,
    0x00, 0x50, 0x00, 0x50, 0x10, 0x40, 0x00, 0x60, 0x20, 0x40, 0x00, 0x50, 0x10, 0x40, 0x00, 0x70,
    0x10, 0x40, 0x00, 0x60, 0x10, 0x40, 0x00, 0x60, 0x20, 0x40, 0x00, 0x50, 0x10, 0x40, 0x00, 0x70,
    0x20, 0x40, 0x00, 0x50, 0x10, 0x40, 0x00, 0x70, 0x20, 0x40, 0x00, 0x50, 0x10, 0x40, 0x00, 0x70,
    0x30, 0x40, 0x00, 0x50, 0x10, 0x40, 0x00, 0x60, 0x20, 0x40, 0x00, 0x50, 0x10, 0x40, 0x00, 0x00,
    0x30, 0x40, 0x00, 0x50, 0x10, 0x40, 0x00, 0x60, 0x20, 0x40, 0x00, 0x50, 0x10, 0x40, 0x10, 0x40,
    0x30, 0x40, 0x00, 0x50, 0x10, 0x40, 0x00, 0x60, 0x20, 0x40, 0x00, 0x50, 0x20, 0x40, 0x00, 0x50,
    0x30, 0x40, 0x00, 0x50, 0x10, 0x40, 0x00, 0x60, 0x30, 0x40, 0x00, 0x50, 0x10, 0x40, 0x00, 0x60,
];

/// How many stuff bits go among the four bits of a place.
const STUFF_BITS: [u8; 128] = [
    1, 0, 0, 0, 0, 0, 0, 0, 0, 0, 0, 0, 0, 0, 0, 0, 1, 1, 0, 0, 0, 0, 0, 0, 0, 0, 0, 0, 0, 0, 0, 0,
    1, 1, 1, 1, 0, 0, 0, 0, 0, 0, 0, 0, 0, 0, 0, 0, 1, 1, 1, 1, 1, 1, 1, 1, 0, 0, 0, 0, 0, 0, 0, 0,
    0, 0, 0, 0, 0, 0, 0, 0, 0, 0, 0, 0, 0, 0, 0, 1, 0, 0, 0, 0, 0, 0, 0, 0, 0, 0, 0, 0, 0, 0, 1, 1,
    0, 0, 0, 0, 0, 0, 0, 0, 0, 0, 0, 0, 1, 1, 1, 1, 0, 0, 0, 0, 0, 0, 0, 0, 1, 1, 1, 1, 1, 1, 1, 1,
];

/// What is known of bits that have gone over the wire: the row that ends them, and how many stuff
/// bits went among them.
#[derive(Clone, Copy)]
pub(crate) struct Stuffing {
    row: usize,
    pub(crate) stuff_bits: u32,
}

impl Stuffing {
    /// Behind a 1 of the idle bus.
    pub(crate) fn idle() -> Stuffing
        ensures sent { HasStuffed (1 ∷ []) result }
        ensures few { result.stuff_bits ≡ 0 }
        ensures row { IsRow result.row }
    {
        Stuffing {
            row: 0x40,
            stuff_bits: 0,
        }
    }

    /// Behind four more bits, the highest of a number first.
    pub(crate) fn and_four(self, four: usize) -> Stuffing
        requires four { four < 16 }
        requires few { self.stuff_bits ≤ 1000 }
        requires row { IsRow self.row }
        ensures sent { (sent : List ℕ) → HasStuffed sent self → HasStuffed (sent ++ bits 4 four) result }
        ensures few { result.stuff_bits ≤ self.stuff_bits + 1 }
        ensures row { IsRow result.row }
    {
        let place = self.row + four;
        Stuffing {
            row: usize::from(ROWS[place]),
            stuff_bits: self.stuff_bits + u32::from(STUFF_BITS[place]),
        }
    }

    /// Behind one more byte, highest bit first.
    pub(crate) fn and_byte(self, byte: u8) -> Stuffing
        requires few { self.stuff_bits ≤ 900 }
        requires row { IsRow self.row }
        ensures sent { (sent : List ℕ) → HasStuffed sent self → HasStuffed (sent ++ bits 8 byte) result }
        ensures few { result.stuff_bits ≤ self.stuff_bits + 2 }
        ensures row { IsRow result.row }
    {
        self.and_four(usize::from(byte / 16))
            .and_four(usize::from(byte % 16))
    }
}
