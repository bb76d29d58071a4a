//! The manager's numbers.

/// The manager (CiA 302): its node number, and the times that it works by.
#[derive(Clone, Copy, Debug, PartialEq, Eq)]
pub struct ManagerSettings {
    /// Its node number, 1 to 127.
    pub id: u8,
    /// The time between two SYNC messages in microseconds; 0 for none.
    pub sync_us: u32,
    /// Its heartbeat's producer time in milliseconds; 0 for none.
    pub heartbeat_ms: u16,
    /// The longest wait for an SDO answer in milliseconds, at least 1.
    pub timeout_ms: u16,
}
