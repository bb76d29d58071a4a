//! Commands in, replies out: a project of a CANopen network with what is kept of it, its answers to queries, and a
//! session over it.
#![tactic(auto)]

mod answers;
mod cursor;
mod files;
pub mod laws;
mod open_block;
mod queries;
mod reply;
mod serving;
mod tracing;
mod turns;
mod work;
mod workbench;
mod wrong;

pub use answers::Answer;
pub use queries::answer;
pub use serving::{LIMIT, session, session_of_process};
pub use streams::{Counted, Intake, Outlet, SessionFault};
pub use work::Work;
pub use workbench::Workbench;
