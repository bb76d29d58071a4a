//! What the plan looks for of a message.
use pdo_stations::Carried;
use project_messages::Linked;

/// A message whose receivers are sought.
#[derive(Clone, Copy)]
pub struct Wish<'a> {
    /// The message.
    pub linked: &'a Linked,
    /// Its sources, looked up.
    pub carried: &'a [Carried],
    /// The identifier of its frames; `None` where it can't have one.
    pub identifier: Option<u16>,
}
