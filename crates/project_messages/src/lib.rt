//! The messages of a project: the signals that nodes send to one another.
#![tactic(auto)]

mod comparing;
mod linked;
mod message;
mod messages;
mod receive;
mod receives;
mod sinks;
mod sources;

pub use linked::Linked;
pub use message::Message;
pub use messages::Messages;
pub use receive::Receive;
pub use receives::Receives;
pub use sinks::Sinks;
pub use sources::Sources;
