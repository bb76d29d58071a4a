//! What is noted of a node.

use co_dict::Abort;

/// What the manager notes of a node.
#[derive(Clone, Copy, Debug, PartialEq, Eq)]
pub enum NoteKind {
    /// A node that was configured boots anew.
    Lost,
    /// All writes of its concise DCF were confirmed.
    Configured,
    /// Its device type or identity isn't the expected one.
    Difference,
    /// A transfer ended with this abort.
    Aborted(Abort),
    /// No answer came in time.
    TimedOut,
}
