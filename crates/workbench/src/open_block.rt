//! An `eds` command whose block isn't complete.

use base::Octets;

#[derive(Drop)]
pub struct OpenBlock {
    /// None where the `eds` line wasn't of its form.
    pub name: Option<Octets>,
    /// How many lines are to come, at least one.
    pub left: u32,
    pub lines: Vec<Vec<u8>>,
}
