//! The nodes that take a message.
ghost use Rattle.std.specs.Prelude.{◌≡◌, ◌==◌, [], IfOk};
ghost use Rattle.std.specs.List.{find};
ghost use Rattle.std.specs.Option.{option_copied};
ghost use Rattle.pdo_choices.specs.Consumers.{nodes_put, consumers_of};

use crate::consumer::Consumer;
use project_messages::Sinks;
use std::alloc::{AllocError, Global};
use std::collections::BTreeSet;

/// The nodes that the sinks of a message name, each once.
fn sink_nodes(alloc: Global, sinks: &Sinks) -> Result<BTreeSet<u8>, AllocError>
    ensures { IfOk result (λ nodes. nodes.keys ≡ nodes_put [] sinks.now) }
{
    let mut nodes = BTreeSet::new(alloc);
    'sinks: for (seat, _place) in sinks.iter() {
        nodes.insert(seat.1)?;
    }
    Ok(nodes)
}

/// The nodes that the sinks of a message name, each once, by number. Takes time by the number of sinks and its
/// logarithm, and memory for the nodes; want of memory is the only error.
#[tactic(auto, unfolding(crate::specs::Consumers::consumers_of))]
pub fn consumers_of(alloc: Global, sinks: &Sinks) -> Result<Vec<u8>, AllocError>
    ensures { IfOk result (λ nodes. nodes.items ≡ consumers_of sinks.now) }
{
    let nodes = sink_nodes(alloc, sinks)?;
    let listed = nodes.iter().copied().collect(alloc)?;
    Ok(listed)
}

/// The consumer that is a node. Takes time by the number of consumers.
pub fn consumer_at(consumers: &[Consumer], node: u8) -> Option<&Consumer>
    ensures { option_copied result ≡ find (λ k. k.node == node) consumers.now }
{
    consumers.iter().find(|consumer| consumer.node == node)
}
