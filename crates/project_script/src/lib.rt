//! The script of a project: the commands that make it.
#![tactic(auto)]

pub mod laws;
mod script;

pub use script::script_text;
