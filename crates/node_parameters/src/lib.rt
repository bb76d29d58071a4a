//! The parameters of a node: the texts that it has for its entries, what each gives, and the writes
//! that they are.
#![tactic(auto)]

mod judgement;
pub mod laws;
mod parameter_fault;
mod parameters;
mod params;

pub use judgement::{is_outside, judge, judge_set};
pub use parameter_fault::ParameterFault;
pub use parameters::{parameter_text, writes};
pub use params::Params;
