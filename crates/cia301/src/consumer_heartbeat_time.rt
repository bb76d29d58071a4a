//! Consumer heartbeat times.

ghost use Rattle.std.specs.Prelude.{◌≡◌};
ghost use Rattle.cia301.specs.ConsumerHeartbeatTimes.{consumed_node, consumer_time};

use std::marker::Model;

/// A consumer heartbeat time (CiA 301, sub-indices of 1016h): a node whose heartbeat is expected, and within
/// which time.
#[derive(Clone, Copy, Debug)]
pub struct ConsumerHeartbeatTime {
    bits: u32,
}

impl Model for ConsumerHeartbeatTime {
    ghost use Rattle.std.specs.Prelude.{ℕ};

    ghost Value = { ℕ };

    ghost view = { λ time. time.bits };

    ghost inverse = { λ bits. record { bits = bits } };
}

impl ConsumerHeartbeatTime {
    /// That of 32 bits.
    pub fn of(bits: u32) -> ConsumerHeartbeatTime
        ensures { result ≡ bits }
    {
        ConsumerHeartbeatTime { bits }
    }

    /// The node whose heartbeat is expected: bits 16 to 23.
    pub fn node(&self) -> u8
        ensures { result ≡ consumed_node self.now }
    {
        (self.bits / 0x1_0000 % 0x100) as u8
    }

    /// The time in milliseconds, bits 0 to 15; 0 is off.
    pub fn time(&self) -> u16
        ensures { result ≡ consumer_time self.now }
    {
        (self.bits % 0x1_0000) as u16
    }
}
