//! What the concise DCF of a node is built from.

use base::{ListedBytes, Shared};
use kept_values::Makes;
use project_plan::NodeWrites;

/// The writes of a node.
#[derive(Drop)]
pub struct ConciseFrom {
    /// The writes in their order.
    pub writes: Shared<NodeWrites>,
}

impl Makes<Shared<ListedBytes>> for ConciseFrom {
    ghost use Rattle.project_parts.specs.Made.{concise_made};

    ghost made = { concise_made };
}
