//! An entry that a line of the input gives.

use base::Octets;
use co_dict::Entry;

/// What an entry of the node is, and its default.
#[derive(Drop)]
pub struct Row {
    pub index: u16,
    pub sub: u8,
    pub entry: Entry,
    pub default: Octets,
}
