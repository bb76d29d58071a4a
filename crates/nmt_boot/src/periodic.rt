//! What the manager sends periodically, and when.

ghost use Rattle.std.specs.Prelude.{◌≡◌, ◌<◌, ◌↔◌, map, IsTrue, OnOk};
ghost use Rattle.base.specs.Moments.{earliest};
ghost use Rattle.nmt_boot.specs.Periodic as rules;

use crate::periodic_message::{MESSAGES, PeriodicMessage};
use base::{earlier, is_due, moment_after};
use can_frame::Pending;
use image_parts::{END, Roster};
use std::alloc::AllocError;

/// A message that the manager sends periodically, and when. Moments are microseconds from the power-on.
#[derive(Clone, Copy, Debug, PartialEq, Eq)]
pub struct Periodic {
    /// What it is.
    pub message: PeriodicMessage,
    /// The time between two of them in microseconds; 0 for none.
    pub period: u32,
    /// When the next one is due.
    pub next: Option<u64>,
}

impl Periodic {
    /// One that never comes.
    fn silent(message: PeriodicMessage) -> Periodic
        ensures { result ≡ rules.silent message }
    {
        Periodic {
            message,
            period: 0,
            next: None,
        }
    }

    /// One of a network at the power-on.
    fn first_of(roster: &Roster, message: PeriodicMessage) -> Periodic
        ensures { result ≡ rules.first_of roster.now message }
    {
        let period = message.period(roster);
        Periodic {
            message,
            period,
            next: moment_after(0, u64::from(period)),
        }
    }

    /// When the next one is due.
    fn due(&self) -> Option<u64>
        ensures { result ≡ self.now.next }
    {
        self.next
    }

    /// Queues it, where it is due at the moment t, in the place of one of its purpose that still waits.
    fn send(&mut self, t: u64, number: u8, waiting: &mut Pending) -> Result<(), AllocError>
        requires { t < END }
        ensures next { OnOk result (self.new ≡ rules.periodic_after t self.old) }
        ensures queued { OnOk result (waiting.new ≡ rules.queue_after_one t number self.old waiting.old) }
    {
        if !is_due(t, self.next) {
            return Ok(());
        }
        let period = u64::from(self.period);
        self.next = moment_after(t, period);
        let frame = self.message.frame(number, t, period);
        waiting.replace(self.message.purpose(), frame)
    }
}

/// All that a manager of no network has: none of it ever comes.
pub(crate) fn none() -> [Periodic; MESSAGES]
    ensures { result ≡ map rules.silent (rules.messages 0 0) }
{
    PeriodicMessage::all(0, 0).map(Periodic::silent)
}

/// All that the manager of a network has at the power-on.
pub(crate) fn powered_on(roster: &Roster) -> [Periodic; MESSAGES]
    ensures { result ≡ map (rules.first_of roster.now) (rules.messages_of roster.now) }
{
    PeriodicMessage::all_of(roster).map(|message| Periodic::first_of(roster, message))
}

/// Queues what is due at the moment t, by the manager of a number. Takes time by the number of frames that wait where
/// something is due.
pub(crate) fn send_due(
    all: &mut [Periodic],
    t: u64,
    number: u8,
    waiting: &mut Pending,
) -> Result<(), AllocError>
    requires { t < END }
    ensures next { OnOk result (all.new ≡ map (rules.periodic_after t) all.old) }
    ensures queued { OnOk result (waiting.new ≡ rules.queue_after t number all.old waiting.old) }
{
    for one in all.iter_mut() {
        one.send(t, number, waiting)?;
    }
    Ok(())
}

/// Whether two lists are the same, and all is due at the same moments.
pub(crate) fn same(all: &[Periodic], others: &[Periodic]) -> bool
    ensures { IsTrue result ↔ (all.now ≡ others.now) }
{
    if all.len() != others.len() {
        return false;
    }
    for place in 0..all.len() {
        if all[place] != others[place] {
            return false;
        }
    }
    true
}

/// The first moment at which something is due.
pub(crate) fn first_due(all: &[Periodic]) -> Option<u64>
    ensures { result ≡ earliest (rules.next_moments all.now) }
{
    let mut first = None;
    for one in all {
        first = earlier(first, one.due());
    }
    first
}
