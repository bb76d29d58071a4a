//! Commands read: what each line of a script asks.
#![tactic(auto)]

mod edits;
mod events;
pub mod laws;
mod links;
mod numbers;
mod query;
mod request;
mod stated;
mod words;

pub use project_edits::{Command, Edit, EditFault, ManagerSettings, ScriptVersion, refusal};
pub use query::Query;
pub use request::Request;
