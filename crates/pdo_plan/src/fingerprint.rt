//! Numbers that tell plans apart.
ghost use Rattle.std.specs.Prelude.{◌≡◌, ℕ};
ghost use Rattle.std.specs.List.{fold};
ghost use Rattle.base.specs.Fingerprint.{mix};
ghost use Rattle.pdo_plan.specs.Fingerprint.{with_mapped, with_message, with_consumer, with_clean, with_outcome};
ghost use Rattle.pdo_plan.specs.Fingerprint.{with_planned, fingerprint_of};

use crate::outcome::Outcome;
use crate::planned_message::PlannedMessage;
use base::{mix, mix_bytes};
use pdo_choices::{Clean, Consumer};
use pdo_stations::Mapped;
use project_messages::Message;

/// What a fingerprint is taken of.
trait Part {
    /// A fingerprint with this part behind it.
    ghost with_part: { ℕ → Self → ℕ };

    /// A fingerprint with this part behind it.
    fn put_behind(&self, fingerprint: u64) -> u64
        ensures { result ≡ with_part fingerprint self.now };
}

/// A fingerprint with all of these behind it.
fn with_all<T: Part>(fingerprint: u64, parts: &[T]) -> u64
    ensures { result ≡ fold T.with_part fingerprint parts.now }
{
    let mut all = fingerprint;
    let mut rest = parts;
    while let [part, after @ ..] = rest {
        all = part.put_behind(all);
        rest = after;
    }
    all
}

impl Part for Mapped {
    ghost with_part = { with_mapped };

    fn put_behind(&self, fingerprint: u64) -> u64 {
        let indexed = mix(fingerprint, u64::from(self.index));
        mix(mix(indexed, u64::from(self.sub)), u64::from(self.bits))
    }
}

impl Part for Consumer {
    ghost with_part = { with_consumer };

    fn put_behind(&self, fingerprint: u64) -> u64 {
        let named = mix(fingerprint, u64::from(self.node));
        let numbered = mix(named, u64::from(self.rpdo));
        let timed = mix(numbered, u64::from(self.event));
        with_all(timed, self.mapping.as_slice())
    }
}

/// A fingerprint with how a message is sent behind it.
fn with_message(fingerprint: u64, message: &Message) -> u64
    ensures { result ≡ with_message fingerprint message.now }
{
    let sent = mix(
        mix(fingerprint, u64::from(message.node)),
        u64::from(message.tpdo),
    );
    let timed = mix(
        mix(
            mix(sent, u64::from(message.transmission)),
            u64::from(message.inhibit),
        ),
        u64::from(message.event),
    );
    mix(timed, u64::from(message.cob))
}

/// A fingerprint with a message that can be sent behind it.
fn with_clean(fingerprint: u64, clean: &Clean) -> u64
    ensures { result ≡ with_clean fingerprint clean.now }
{
    let sent = with_message(fingerprint, &clean.message);
    let started = mix(sent, u64::from(clean.start));
    let identified = mix(started, u64::from(clean.identifier));
    let mapped = with_all(identified, clean.mapping.as_slice());
    with_all(mapped, clean.consumers.as_slice())
}

/// A fingerprint with what is said of a message behind it.
fn with_outcome(fingerprint: u64, outcome: &Outcome) -> u64
    ensures { result ≡ with_outcome fingerprint outcome.now }
{
    match outcome {
        Outcome::Planned(clean) => with_clean(fingerprint, clean),
        Outcome::Faulty(faults) => mix(fingerprint, faults.as_slice().len() as u64),
    }
}

impl Part for PlannedMessage {
    ghost with_part = { with_planned };

    fn put_behind(&self, fingerprint: u64) -> u64 {
        let named = mix_bytes(fingerprint, self.name.as_slice());
        with_outcome(named, &self.outcome)
    }
}

/// The fingerprint of a plan: plans with other fingerprints are other plans. Takes time by its length, and
/// no memory.
#[tactic(auto, unfolding(crate::specs::Fingerprint::fingerprint_of))]
pub(crate) fn fingerprint_of(messages: &[PlannedMessage]) -> u64
    ensures { result ≡ fingerprint_of messages.now }
{
    with_all(0, messages)
}
