//! The time stamps of the manager.

ghost use Rattle.std.specs.Prelude.{◌≡◌};
ghost use Rattle.nmt_boot.specs.TimeOfDay as rules;

use byteorder::{ByteOrder, LittleEndian};
use can_frame::{Frame, identifiers};

/// A day in milliseconds.
const DAY_MS: u64 = 86_400_000;

/// A day in microseconds.
const DAY_US: u64 = 86_400_000_000;

/// How many days are told apart.
const DAYS: u64 = 65_536;

/// The milliseconds after midnight at the moment t.
fn milliseconds_at(t: u64) -> u32
    ensures { result ≡ rules.milliseconds_at t }
{
    let milliseconds = t / 1000 % DAY_MS;
    milliseconds as u32
}

/// The day of the moment t, where the run begins at midnight of the first one.
fn day_at(first: u16, t: u64) -> u16
    ensures { result ≡ rules.day_at first t }
{
    let passed = t / DAY_US;
    let day = (u64::from(first) + passed) % DAYS;
    day as u16
}

/// The time of day at the moment t (CiA 301): milliseconds after midnight and days.
#[tactic(auto, unfolding(crate::specs::TimeOfDay::time_of_day))]
fn time_of_day(first: u16, t: u64) -> [u8; 6]
    ensures { result ≡ rules.time_of_day first t }
{
    let mut bytes = [0; 6];
    LittleEndian::write_u32(&mut bytes, milliseconds_at(t));
    LittleEndian::write_u16(&mut bytes[4..], day_at(first, t));
    bytes
}

/// The frame of the time stamp of the moment t, where the run begins at midnight of the first day.
#[tactic(auto, unfolding(crate::specs::TimeOfDay::time_frame))]
pub(crate) fn time_frame(first: u16, t: u64) -> Frame
    ensures { result ≡ rules.time_frame first t }
{
    let bytes = time_of_day(first, t);
    Frame::of(identifiers::time(), &bytes)
}
