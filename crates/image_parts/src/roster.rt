//! The network as a whole.

ghost use Rattle.std.specs.Prelude.{◌≡◌, ◌↔◌, IsTrue};
ghost use Rattle.image_parts.specs.Rosters.{has_controller};

use crate::start_mode::StartMode;
use base::Octets;
use can_frame::SlotRule;

/// The bit rate, the manager (CiA 302) and the nodes of a network.
#[derive(Debug, Drop)]
pub struct Roster {
    /// The bit rate in kbit/s.
    pub bit_rate: u16,
    /// Which bits of a frame take the bus.
    pub slots: SlotRule,
    /// The manager's node number.
    pub manager: u8,
    /// The time between two SYNC messages in microseconds; 0 for none.
    pub sync_us: u32,
    /// The last number that the counter of a SYNC message has before it begins again at 1 (CiA 301,
    /// synchronous counter overflow value), 2 to 240; 0 for SYNC messages without a counter.
    pub sync_counter: u8,
    /// The time between two time stamp messages (CiA 301, TIME) in microseconds; 0 for none.
    pub time_us: u32,
    /// The day of these messages at whose midnight the network is switched on; 0 without such messages.
    pub first_day: u16,
    /// The manager's producer heartbeat time in milliseconds; 0 for none.
    pub heartbeat_ms: u16,
    /// The longest wait of the manager for an SDO answer in milliseconds.
    pub timeout_ms: u16,
    /// When the manager starts nodes.
    pub start_mode: StartMode,
    /// The numbers of the mandatory nodes: those that have to be configured before the network is started as
    /// a whole. There is none where each node is started by itself.
    pub mandatory: Octets,
    /// The numbers of the nodes, each once: the devices of a bus stand in their order. One may be the manager's: the
    /// controller, the device that the manager runs in.
    pub nodes: Octets,
}

impl Roster {
    /// Whether there is a controller. Takes time by the number of nodes, and no memory.
    pub fn has_controller(&self) -> bool
        ensures { result ≡ has_controller self.now }
    {
        self.nodes
            .as_slice()
            .iter()
            .any(|node| *node == self.manager)
    }

    /// Whether the other roster is the same. Takes time by the number of nodes, and no memory.
    pub fn same(&self, other: &Roster) -> bool
        ensures { IsTrue result ↔ (self.now ≡ other.now) }
    {
        if self.bit_rate != other.bit_rate {
            return false;
        }
        if self.slots != other.slots {
            return false;
        }
        if self.manager != other.manager {
            return false;
        }
        if self.sync_us != other.sync_us {
            return false;
        }
        if self.sync_counter != other.sync_counter {
            return false;
        }
        if self.time_us != other.time_us {
            return false;
        }
        if self.first_day != other.first_day {
            return false;
        }
        if self.heartbeat_ms != other.heartbeat_ms {
            return false;
        }
        if self.timeout_ms != other.timeout_ms {
            return false;
        }
        if self.start_mode != other.start_mode {
            return false;
        }
        if self.mandatory.as_slice() != other.mandatory.as_slice() {
            return false;
        }
        self.nodes.as_slice() == other.nodes.as_slice()
    }
}
