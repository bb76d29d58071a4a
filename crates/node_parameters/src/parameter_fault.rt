//! Why a parameter isn't written.

/// Why a parameter isn't written: the first of these that holds of it.
#[derive(Clone, Copy, Debug, PartialEq, Eq)]
pub enum ParameterFault {
    /// The device has no such entry.
    NoEntry,
    /// The type of the entry is not modelled.
    NotModelled,
    /// The entry is read-only or constant.
    NotWritable,
    /// The text spells no value of the entry's type at the node.
    Unreadable,
    /// The number is below the entry's low limit or above its high one.
    OutsideLimits,
}
