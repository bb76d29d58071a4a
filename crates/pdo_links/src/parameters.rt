//! The communication and mapping parameters of PDOs (CiA 301): the sub-indices of what they have.

/// COB-ID: the identifier, and whether the PDO is off.
pub(crate) const COB_ID: u8 = 1;

/// Transmission type.
pub(crate) const TRANSMISSION_TYPE: u8 = 2;

/// Inhibit time, in multiples of 100 microseconds.
pub(crate) const INHIBIT_TIME: u8 = 3;

/// Event timer, in milliseconds.
pub(crate) const EVENT_TIMER: u8 = 5;

/// SYNC start value.
pub(crate) const SYNC_START: u8 = 6;

/// The number of mapped entries, in a mapping parameter.
pub(crate) const MAPPED_COUNT: u8 = 0;

/// The transmission type of an RPDO that counts from the next SYNC on.
pub(crate) const WITH_SYNC: u8 = 0;

/// The transmission type of an RPDO that counts at once.
pub(crate) const AT_ONCE: u8 = 255;
