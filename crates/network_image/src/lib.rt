//! The image of a project's network: what each part of a simulation is, the tables by which they are handed out, and
//! the steps of its events by windows.
#![tactic(auto)]

mod controller;
mod devices_now;
mod held_window;
pub mod laws;
mod network_parts;
mod node_parts;
mod node_table;
mod pointer;
mod roster;
mod steps;
mod window_events;
mod window_table;

pub use controller::{configured_values, shape_without_producer_time};
pub use network_parts::NetworkParts;
pub use node_parts::NodeParts;
pub use node_table::NodeTable;
pub use roster::{is_roster, make_roster};
pub use steps::window_steps;
pub use window_events::{LAST_TIME, window_split};
pub use window_table::WindowTable;
