//! A bus that a trace has reached.

use crate::numbered_bus::NumberedBus;

/// The bus at which a trace stands between two segments.
#[derive(Drop)]
pub(crate) struct Reached {
    /// The bus, with its number.
    pub state: NumberedBus,
    /// Whether it is known that no held segment of the next number starts from it.
    pub is_new: bool,
    /// The place of the device by which a bus of this trace was last told from another one.
    pub apart: Option<usize>,
}
