//! The project that a script's commands edit, and what each edit does.
#![tactic(auto)]

mod contents;
mod device_text;
pub mod laws;
mod links;
mod node;
mod node_events;
mod nodes;
mod project;
mod texts;

pub use device_text::read_device;
pub use node::Node;
pub use node_parameters::Params;
pub use project::Project;
pub use project_edits::{Command, EditFault, ManagerSettings, ScriptVersion, TimeStamps, refusal};
pub use project_messages::Messages;
