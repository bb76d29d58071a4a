//! What a rule of a boot queues and notes.

use node_boot::NoteKind;

/// What a rule queues and notes, without the stage after it.
#[derive(Clone, Copy, Debug)]
pub struct Sent {
    /// The SDO frame to the node, if there is one.
    pub request: Option<[u8; 8]>,
    /// What is noted of the node, if anything.
    pub note: Option<NoteKind>,
}
