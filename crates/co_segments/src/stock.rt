//! What a store holds.

use crate::numbers_given::NumbersGiven;
use crate::segment::Segment;
use kept_values::Recent;
use std::alloc::Global;

/// The segments of a store, and the private numbers that it has given.
#[derive(Drop)]
pub(crate) struct Stock {
    /// Where its memory comes from.
    pub alloc: Global,
    /// The segments.
    pub recent: Recent<Segment>,
    /// How many private numbers were given.
    pub given: NumbersGiven,
}
