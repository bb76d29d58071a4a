//! Sets of low bytes of identifiers.

ghost use Rattle.std.specs.Prelude.{◌≡◌, ◌<◌, ◌%◌, ◌==◌, ◌||◌, ◌++◌, ℕ, List, [], true, false};
ghost use Rattle.co_device.specs.Device.{Device};
ghost use Rattle.device_agenda.specs.LowBytes.{AreDeafBeyond, has_bit, has_low_byte_of};

/// A set of low bytes of identifiers: those of the frames that are something to devices. A frame of an identifier
/// with another low byte is nothing to them.
///
/// Low bytes tell apart what nodes have at one function code (CiA 301), where `Groups` tell function codes apart.
#[derive(Clone, Copy, Debug)]
pub struct LowBytes {
    words: [u64; 4],
}

/// The low byte of an identifier.
pub(crate) fn low_byte(id: u16) -> u8
    ensures { result ≡ id % 256 }
{
    (id % 256) as u8
}

/// The words of a set and of a byte more.
fn with_byte(words: [u64; 4], low: u8) -> [u64; 4]
    ensures { (other : ℕ) → other < 256 → has_bit result other ≡ (other == low) || has_bit words other }
{
    let mut words = [words[0], words[1], words[2], words[3]];
    words[usize::from(low / 64)] |= 1 << u32::from(low % 64);
    words
}

impl LowBytes {
    /// None.
    pub fn none() -> LowBytes
        ensures devices { AreDeafBeyond result [] }
        ensures none { (id : ℕ) → has_low_byte_of result id ≡ false }
    {
        LowBytes {
            words: [0, 0, 0, 0],
        }
    }

    /// Each.
    pub(crate) fn all() -> LowBytes
        ensures { (id : ℕ) → has_low_byte_of result id ≡ true }
    {
        LowBytes {
            words: [u64::MAX, u64::MAX, u64::MAX, u64::MAX],
        }
    }

    /// These and that of an identifier.
    pub(crate) fn with(self, id: u16) -> LowBytes
        ensures { (other : ℕ) → has_low_byte_of result other ≡ (other % 256 == id % 256) || has_low_byte_of self other }
    {
        LowBytes {
            words: with_byte(self.words, low_byte(id)),
        }
    }

    /// The low bytes of two sets: those of devices and others.
    pub fn and(self, other: &LowBytes) -> LowBytes
        ensures devices { (ds es : List Device) → AreDeafBeyond self ds → AreDeafBeyond other.now es
            → AreDeafBeyond result (ds ++ es) }
        ensures each { (id : ℕ) → has_low_byte_of result id ≡ has_low_byte_of self id || has_low_byte_of other.now id }
    {
        LowBytes {
            words: [
                self.words[0] | other.words[0],
                self.words[1] | other.words[1],
                self.words[2] | other.words[2],
                self.words[3] | other.words[3],
            ],
        }
    }

    /// Whether a byte is one of them.
    pub(crate) fn has(&self, low: u8) -> bool
        ensures { result ≡ has_bit self.now.words low }
    {
        (self.words[usize::from(low / 64)] >> u32::from(low % 64)) & 1 == 1
    }
}
