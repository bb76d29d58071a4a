//! Events and the nodes that they are of.
ghost use Rattle.std.specs.Prelude.{◌≡◌};
ghost use Rattle.co_project.specs.Tables.{is_named, is_of, is_of_known};

use crate::nodes::Nodes;
use co_scenario::{Event, Script};

/// Whether an event is of the node of a number.
fn is_of(event: &Event, id: u8) -> bool
    ensures { result ≡ is_of id event.now }
{
    event.node() == Some(id)
}

/// Whether some event is of the node of a number.
pub(crate) fn is_named(events: &Script, id: u8) -> bool
    ensures { result ≡ is_named events.now id }
{
    events.iter().any(|(_, timed)| is_of(&timed.event, id))
}

/// Whether the node that an event is of is there, or it is of all.
pub(crate) fn is_of_known(nodes: &Nodes, event: &Event) -> bool
    ensures { result ≡ is_of_known nodes.now event.now }
{
    match event.node() {
        Some(id) => nodes.contains(id),
        None => true,
    }
}
