//! A note of a node.

use crate::note_kind::NoteKind;

/// What the manager notes of a node.
#[derive(Clone, Copy, Debug, PartialEq, Eq)]
pub struct Note {
    /// The number of the node.
    pub node: u8,
    /// What is noted.
    pub kind: NoteKind,
}
