//! The table of the nodes that an NMT manager boots (CiA 302).
#![tactic(auto, using(image_parts::proofs::RecordLemmas::record_laws))]

mod booting;
mod node_table;
mod sent;
mod shared_nodes;
mod telling;

pub use booting::Booting;
pub use node_table::NodeTable;
pub use sent::Sent;
pub use telling::{note, send_request};
