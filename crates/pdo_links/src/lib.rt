//! The links of messages: their plan, and the writes that it gives each node.
#![tactic(auto)]

mod first;
pub mod laws;
mod links;
mod mapping;
mod parameters;
mod put;
mod rpdo;
mod settings;
mod switching;
mod taken;
mod tpdo;
mod vendor_rpdo;
mod vendor_tpdo;
mod writing;

pub use links::vendor_link_writes;
pub use pdo_plan::{
    Clean, Consumer, Listed, Mapped, MessageFault, Outcome, Plan, PlannedMessage, plan,
};
pub use switching::is_switched_off;
pub use writing::writes;
