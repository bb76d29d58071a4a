//! What diagnostics find of each node of a project: by itself, and once it is configured.
#![tactic(auto)]

mod consumer;
mod defaults;
mod devices;
mod gathering;
mod kept;
mod node_found;
mod nodes;
mod nodes_found;
mod parameters;
mod sheet_found;

pub use consumer::HeartbeatConsumer;
pub use devices::{device_for, device_of, read_all};
pub use gathering::{Gathered, add_copies, gather_nodes};
pub use kept::Kept;
pub use nodes_found::NodesFound;
pub use parameters::parameter_code;
