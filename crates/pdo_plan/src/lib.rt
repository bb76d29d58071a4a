//! The plan of messages: who gets which identifier and PDOs, or why it can't be sent.
#![tactic(auto)]

mod comparing;
mod entry_faults;
mod faults;
mod fingerprint;
mod judging;
pub mod laws;
mod message_fault;
mod message_plan;
mod outcome;
mod planned_message;
mod planning;

pub use message_fault::MessageFault;
pub use message_plan::Plan;
pub use outcome::Outcome;
pub use pdo_choices::{Clean, Consumer, Listed, consumer_at};
pub use pdo_stations::Mapped;
pub use planned_message::PlannedMessage;
pub use planning::plan;
