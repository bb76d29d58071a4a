//! Whether the messages of projects are the same.
ghost use Rattle.std.specs.Prelude.{◌≡◌, ◌↔◌, IsTrue};
ghost use Rattle.std.specs.FinMap as map;

use crate::messages::Messages;

/// Whether the same names have the same messages.
fn same_entries(a: &Messages, b: &Messages) -> bool
    ensures { IsTrue result ↔ (map.entries a.now ≡ map.entries b.now) }
{
    let mut others = b.iter();
    for (name, linked) in a.iter() {
        let Some((other_name, other)) = others.next() else {
            return false;
        };
        if name.as_slice() != other_name.as_slice() || !linked.same(other) {
            return false;
        }
    }
    others.next().is_none()
}

impl Messages {
    /// Whether the others are the same by the same names, with the same sources, sinks and receives. Takes
    /// time by the length of the names and the number of sources, sinks and receives up to the first
    /// difference, and no memory.
    pub fn same(&self, other: &Messages) -> bool
        ensures { IsTrue result ↔ (self.now ≡ other.now) }
    {
        same_entries(self, other)
    }
}
