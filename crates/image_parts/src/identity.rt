//! What the manager expects of a node.

ghost use Rattle.std.specs.Prelude.{◌≡◌, ◌↔◌, IsTrue};

/// The device type (1000h:00) and the numbers of the identity object (1018h:01 to 04) that are expected of
/// a node (CiA 301); 0 where any will do.
#[derive(Clone, Copy, Debug, PartialEq, Eq)]
pub struct Identity {
    /// The five numbers, the device type first.
    pub numbers: [u32; 5],
}

impl Identity {
    /// Whether the same numbers are expected. Takes no memory.
    pub fn same(&self, other: &Identity) -> bool
        ensures { IsTrue result ↔ (self.now ≡ other.now) }
    {
        for place in 0..5 {
            if self.numbers[place] != other.numbers[place] {
                return false;
            }
        }
        true
    }
}
