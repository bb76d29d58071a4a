//! From a reader to a writer: streams whose reads and failed calls are counted, and texts that are sent whole.
#![tactic(auto)]

mod counted;
mod fault;
mod intake;
mod outbox;
mod outlet;

pub use counted::Counted;
pub use fault::SessionFault;
pub use intake::Intake;
pub use outbox::Outbox;
pub use outlet::Outlet;
