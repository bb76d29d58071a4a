//! The scenario of a simulation: what happens to the nodes from outside, and when.
#![tactic(auto)]

mod between;
mod comparing;
mod event;
pub mod laws;
mod nmt_command;
mod script;
mod sharing;
mod step;
mod timed_event;
mod timed_step;

pub use comparing::same_steps;
pub use event::Event;
pub use nmt_command::NmtCommand;
pub use script::Script;
pub use sharing::share_values;
pub use step::Step;
pub use timed_event::TimedEvent;
pub use timed_step::TimedStep;
