//! A heartbeat consumer.

ghost use Rattle.std.specs.Prelude.{◌≡◌};
ghost use Rattle.device_objects.specs.Consumers.{waiting_for_start};

use co_dict::Dict;

/// The index of the consumer heartbeat times (CiA 301).
pub(crate) const CONSUMER_HEARTBEAT_TIME: u16 = 0x1016;

/// A heartbeat consumer of a device (CiA 301, object 1016h) at a moment.
#[derive(Clone, Copy, Debug, PartialEq, Eq)]
pub struct Consumer {
    /// Its sub-index, from 1 on.
    pub sub: u8,
    /// Its consumer heartbeat time: bits 16 to 23 are the node that it expects, bits 0 to 15 the time in
    /// milliseconds.
    pub entry: u32,
    /// The moment at which it fails, in microseconds; none where it hasn't started.
    pub moment: Option<u64>,
    /// Whether it has failed.
    pub failed: bool,
}

impl Consumer {
    /// One that hasn't started and hasn't failed, and goes by its value. Takes time by the logarithm of the
    /// number of entries.
    pub(crate) fn waiting_for_start(sub: u8, values: &Dict) -> Consumer
        ensures { result ≡ waiting_for_start values.now sub }
    {
        Consumer {
            sub,
            entry: values.number_32(CONSUMER_HEARTBEAT_TIME, sub),
            moment: None,
            failed: false,
        }
    }
}
