//! The parts of a project: what each is made from and how, and what an edit changes of that.
#![tactic(auto)]

mod concise_from;
mod concise_now;
mod dcf_from;
mod dcf_now;
mod device_at;
mod device_parts;
mod device_writes;
mod diagnostics;
mod diagnostics_from;
mod diagnostics_now;
pub mod laws;
mod node_devices;
mod part;
mod plan_from;
mod plan_now;
mod roster_from;
mod roster_now;
mod touch;
mod writes_from;
mod writes_now;

pub use concise_from::ConciseFrom;
pub use concise_now::ConciseNow;
pub use dcf_from::DcfFrom;
pub use dcf_now::DcfNow;
pub use device_at::DeviceAt;
pub use device_parts::DeviceParts;
pub use device_writes::{DeviceWrites, share_written};
pub use diagnostics::Diagnostics;
pub use diagnostics_from::DiagnosticsFrom;
pub use diagnostics_now::DiagnosticsNow;
pub use node_devices::NodeDevices;
pub use part::Part;
pub use plan_from::PlanFrom;
pub use plan_now::PlanNow;
pub use roster_from::RosterFrom;
pub use roster_now::RosterNow;
pub use touch::{Touch, touch_of};
pub use writes_from::WritesFrom;
pub use writes_now::WritesNow;
