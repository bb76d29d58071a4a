//! What an edit changes of the inputs of parts.
ghost use Rattle.std.specs.Prelude.{◌≡◌};
ghost use Rattle.project_parts.specs.Touch.{touch_value, touch_of};

use project_edits::Edit;

/// What an edit changes of the inputs of a project's parts.
#[derive(Clone, Copy)]
pub enum Touch<'a> {
    /// Nothing that a part is made from.
    Nothing,
    /// The bit rate, which DCFs say and the roster has.
    Rate,
    /// The manager (CiA 302), which gets this number and others: in version 3 that says which node it runs in.
    Manager(u8),
    /// What else the manager is told: its time stamps, the counter of SYNC, which nodes are mandatory.
    Roster,
    /// The version: it says which data types count, how the plan is made and how the manager starts nodes.
    Version,
    /// The text of the EDS of a name.
    Sheet(&'a [u8]),
    /// The node of a number: it comes, goes, or gets another name or EDS.
    Node(u8),
    /// The parameters of the node of a number.
    Parameters(u8),
    /// The messages, with their sources, sinks and receives.
    Messages,
    /// The event of a number, which comes to this time in microseconds.
    Event(u16, u32),
    /// The event of a number, which goes.
    NoEvent(u16),
}

/// What an edit changes of the inputs of a project's parts: the one table from which all marks follow. Takes
/// constant time.
pub fn touch_of(edit: &Edit) -> Touch<'_>
    ensures { touch_value result ≡ touch_of edit.now }
{
    match edit {
        Edit::Version(_) => Touch::Version,
        Edit::Bitrate(_) => Touch::Rate,
        Edit::Horizon(_) => Touch::Nothing,
        Edit::Manager(manager) => Touch::Manager(manager.id),
        Edit::TimeStamps(_) => Touch::Roster,
        Edit::SyncCounter(_) => Touch::Roster,
        Edit::Eds { name, .. } => Touch::Sheet(name.as_slice()),
        Edit::DropEds { name } => Touch::Sheet(name.as_slice()),
        Edit::Node { id, .. } => Touch::Node(*id),
        Edit::Need { .. } => Touch::Roster,
        Edit::DropNode { id } => Touch::Node(*id),
        Edit::Param { id, .. } => Touch::Parameters(*id),
        Edit::Unparam { id, .. } => Touch::Parameters(*id),
        Edit::Message { .. } => Touch::Messages,
        Edit::Start { .. } => Touch::Messages,
        Edit::DropMessage { .. } => Touch::Messages,
        Edit::Source { .. } => Touch::Messages,
        Edit::Unsource { .. } => Touch::Messages,
        Edit::Sink { .. } => Touch::Messages,
        Edit::Unsink { .. } => Touch::Messages,
        Edit::Receive { .. } => Touch::Messages,
        Edit::Unreceive { .. } => Touch::Messages,
        Edit::Event { number, event } => Touch::Event(*number, event.time),
        Edit::DropEvent { number } => Touch::NoEvent(*number),
    }
}
