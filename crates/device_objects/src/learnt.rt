//! What a device learns of its entries.

ghost use Rattle.std.specs.Prelude.{◌≡◌, false, ◌↔◌, IsTrue};
ghost use Rattle.device_objects.specs.Profile.{learnt_of};

use co_dict::Shape;

/// What a device learns of its entries at power-on and at each reset: which objects of the communication
/// profile area (CiA 301) are there with their types.
#[derive(Clone, Copy, Debug, PartialEq, Eq)]
pub struct Learnt {
    /// The error register, 1001h:00, as UNSIGNED8.
    pub has_error_register: bool,
    /// The COB-ID of SYNC messages, 1005h:00, as UNSIGNED32.
    pub has_sync_cob_id: bool,
    /// The producer heartbeat time, 1017h:00, as UNSIGNED16.
    pub has_producer_time: bool,
    /// The synchronous counter overflow value, 1019h:00, as UNSIGNED8.
    pub has_counter_overflow: bool,
}

impl Learnt {
    /// What a device without entries learns.
    pub fn nothing() -> Learnt
        ensures { result ≡ record {
          has_error_register = false;
          has_sync_cob_id = false;
          has_producer_time = false;
          has_counter_overflow = false;
        } }
    {
        Learnt {
            has_error_register: false,
            has_sync_cob_id: false,
            has_producer_time: false,
            has_counter_overflow: false,
        }
    }

    /// What a device of these entries learns. Takes time by the logarithm of the number of entries.
    #[tactic(auto, unfolding(crate::specs::Profile::learnt_of))]
    pub fn of(shape: &Shape) -> Learnt
        ensures { result ≡ learnt_of shape.now }
    {
        Learnt {
            has_error_register: shape.has_unsigned8(0x1001, 0),
            has_sync_cob_id: shape.has_unsigned32(0x1005, 0),
            has_producer_time: shape.has_unsigned16(0x1017, 0),
            has_counter_overflow: shape.has_unsigned8(0x1019, 0),
        }
    }

    /// Whether the other one is the same.
    pub fn same(&self, other: &Learnt) -> bool
        ensures { IsTrue result ↔ (self.now ≡ other.now) }
    {
        self == other
    }
}
