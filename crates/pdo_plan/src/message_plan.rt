//! The plan of messages.
ghost use Rattle.std.specs.Prelude.{◌≡◌, All};
ghost use Rattle.pdo_plan.specs.Fingerprint.{fingerprint_of};
ghost use Rattle.pdo_choices.specs.Limits.{IsWithin};
ghost use Rattle.pdo_plan.specs.Plan.{clean};

use crate::fingerprint::fingerprint_of;
use crate::planned_message::PlannedMessage;
use std::marker::Model;

/// The plan of messages, seen as the list of what is said of each, by name.
#[derive(Drop)]
pub struct Plan {
    messages: Vec<PlannedMessage>,
    fingerprint: u64,
}

impl Model for Plan {
    ghost use Rattle.std.specs.Prelude.{◌≡◌, List, All};
    ghost use Rattle.pdo_plan.specs.declared.planned_message.PlannedMessage.{PlannedMessage};
    ghost use Rattle.pdo_plan.specs.Fingerprint.{fingerprint_of};
    ghost use Rattle.pdo_choices.specs.Limits.{IsWithin};
    ghost use Rattle.pdo_plan.specs.Plan.{clean};

    ghost Value = { List PlannedMessage };

    ghost view = { λ plan. plan.messages.items };

    ghost invariant = { λ plan. All IsWithin (clean plan.messages.items)
        × (plan.fingerprint ≡ fingerprint_of plan.messages.items) };
}

impl Plan {
    /// The plan that says this. Takes time by its length, and no memory.
    pub(crate) fn new(messages: Vec<PlannedMessage>) -> Self
        requires { All IsWithin (clean messages.items) }
        ensures { result ≡ messages.items }
    {
        let fingerprint = fingerprint_of(&messages);
        Plan {
            messages,
            fingerprint,
        }
    }

    /// A number by which plans are told apart. Takes constant time.
    pub(crate) fn fingerprint(&self) -> u64
        ensures { result ≡ fingerprint_of self.now }
    {
        self.fingerprint
    }

    /// What is said of each message, by name.
    pub fn messages(&self) -> &[PlannedMessage]
        ensures list { result.now ≡ self.now }
        ensures within { All IsWithin (clean result.now) }
    {
        &self.messages
    }
}
