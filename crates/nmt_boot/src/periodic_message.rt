//! The messages that the manager sends periodically.

ghost use Rattle.std.specs.Prelude.{◌≡◌, ◌/◌};
ghost use Rattle.nmt_boot.specs.Periodic as rules;

use crate::sync::sync_frame;
use crate::time::time_frame;
use can_frame::{Frame, Purpose, identifiers};
use image_parts::Roster;

/// How many messages the manager sends periodically.
pub(crate) const MESSAGES: usize = 3;

/// A message that the manager sends periodically (CiA 301).
#[derive(Clone, Copy, Debug, PartialEq, Eq)]
pub enum PeriodicMessage {
    /// Its heartbeat.
    Heartbeat,
    /// TIME, with the day at whose midnight the run begins.
    Time(u16),
    /// SYNC, with the last number that its counter has before it begins again at 1; 0 for no counter.
    Sync(u8),
}

/// How many whole periods lie between the power-on and a moment; 0 without a period.
fn periods_until(t: u64, period: u64) -> u64
    ensures { result ≡ t / period }
{
    if period == 0 { 0 } else { t / period }
}

impl PeriodicMessage {
    /// All of them, in the order in which those of one moment are queued. The run begins at midnight of this first
    /// day of TIME, and SYNC's counter has this last number, 0 for no counter.
    pub(crate) fn all(first_day: u16, last: u8) -> [PeriodicMessage; MESSAGES]
        ensures { result ≡ rules.messages first_day last }
    {
        let time = PeriodicMessage::Time(first_day);
        let sync = PeriodicMessage::Sync(last);
        [PeriodicMessage::Heartbeat, time, sync]
    }

    /// All of them in a network, in the same order.
    pub(crate) fn all_of(roster: &Roster) -> [PeriodicMessage; MESSAGES]
        ensures { result ≡ rules.messages_of roster.now }
    {
        PeriodicMessage::all(roster.first_day, roster.sync_counter)
    }

    /// Its period in a network, in microseconds; 0 for none.
    pub(crate) fn period(self, roster: &Roster) -> u32
        ensures { result ≡ rules.period_of roster.now self }
    {
        match self {
            PeriodicMessage::Heartbeat => 1000 * u32::from(roster.heartbeat_ms),
            PeriodicMessage::Time(_) => roster.time_us,
            PeriodicMessage::Sync(_) => roster.sync_us,
        }
    }

    /// What it waits for the bus as.
    pub(crate) fn purpose(self) -> Purpose
        ensures { result ≡ rules.purpose_of self }
    {
        match self {
            PeriodicMessage::Heartbeat => Purpose::Heartbeat,
            PeriodicMessage::Time(_) => Purpose::Time,
            PeriodicMessage::Sync(_) => Purpose::Sync,
        }
    }

    /// Its frame at the moment t, where it has this period, by the manager of a number. In a heartbeat the manager is
    /// Operational.
    #[tactic(auto, unfolding(crate::specs::Periodic::frame_of))]
    pub(crate) fn frame(self, number: u8, t: u64, period: u64) -> Frame
        ensures { result ≡ rules.frame_of number t period self }
    {
        match self {
            PeriodicMessage::Heartbeat => Frame::of(identifiers::error_control(number), &[5]),
            PeriodicMessage::Time(first_day) => time_frame(first_day, t),
            PeriodicMessage::Sync(last) => sync_frame(last, periods_until(t, period)),
        }
    }
}
