//! Whether plans are the same.
ghost use Rattle.std.specs.Prelude.{◌≡◌, ◌↔◌, IsTrue};

use crate::message_fault::MessageFault;
use crate::message_plan::Plan;
use crate::outcome::Outcome;
use crate::planned_message::PlannedMessage;
use pdo_choices::{Clean, Consumer};
use pdo_stations::Mapped;

/// What a plan lists.
trait Item {
    /// Whether the other item is the same.
    fn is_same(&self, other: &Self) -> bool
        ensures { IsTrue result ↔ (self.now ≡ other.now) };
}

/// Whether lists have the same items in the same order.
fn are_same<T: Item>(a: &[T], b: &[T]) -> bool
    ensures { IsTrue result ↔ (a.now ≡ b.now) }
{
    if a.len() != b.len() {
        return false;
    }
    for i in 0..a.len() {
        if !a[i].is_same(&b[i]) {
            return false;
        }
    }
    true
}

impl Item for Mapped {
    fn is_same(&self, other: &Mapped) -> bool {
        *self == *other
    }
}

impl Item for MessageFault {
    fn is_same(&self, other: &MessageFault) -> bool {
        *self == *other
    }
}

impl Item for Consumer {
    fn is_same(&self, other: &Consumer) -> bool {
        self.node == other.node
            && self.rpdo == other.rpdo
            && self.event == other.event
            && are_same(self.mapping.as_slice(), other.mapping.as_slice())
    }
}

/// Whether messages are sent in the same way, with the same mapping and to the same consumers.
fn same_clean(a: &Clean, b: &Clean) -> bool
    ensures { IsTrue result ↔ (a.now ≡ b.now) }
{
    a.message == b.message
        && a.start == b.start
        && a.identifier == b.identifier
        && are_same(a.mapping.as_slice(), b.mapping.as_slice())
        && are_same(a.consumers.as_slice(), b.consumers.as_slice())
}

/// Whether the same is said of two messages.
fn same_outcome(a: &Outcome, b: &Outcome) -> bool
    ensures { IsTrue result ↔ (a.now ≡ b.now) }
{
    match (a, b) {
        (Outcome::Planned(a), Outcome::Planned(b)) => same_clean(a, b),
        (Outcome::Faulty(a), Outcome::Faulty(b)) => are_same(a.as_slice(), b.as_slice()),
        _ => false,
    }
}

impl Item for PlannedMessage {
    fn is_same(&self, other: &PlannedMessage) -> bool {
        self.name.as_slice() == other.name.as_slice() && same_outcome(&self.outcome, &other.outcome)
    }
}

impl Plan {
    /// Whether the other plan says the same of the same messages. Takes time by the length of both up
    /// to the first difference at most, and no memory.
    pub fn same(&self, other: &Plan) -> bool
        ensures { IsTrue result ↔ (self.now ≡ other.now) }
    {
        self.fingerprint() == other.fingerprint() && are_same(self.messages(), other.messages())
    }
}
