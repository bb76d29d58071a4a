//! A message of the plan.

use crate::outcome::Outcome;
use base::Octets;

/// A message of the plan.
#[derive(Drop)]
pub struct PlannedMessage {
    /// Its name.
    pub name: Octets,
    /// What the plan says of it.
    pub outcome: Outcome,
}
