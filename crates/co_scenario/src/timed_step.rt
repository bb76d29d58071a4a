//! A step at its time.

use crate::step::Step;

/// A step at its time, with the number of its event.
#[derive(Debug, Drop)]
pub struct TimedStep {
    /// The number of the event, by which steps of one time are in order.
    pub number: u16,
    /// The time in microseconds.
    pub time: u32,
    /// What happens then.
    pub step: Step,
}
