//! Frames of a CAN bus, the frames that wait for it, and which of them starts.
#![tactic(auto)]

mod arbitration;
mod check;
mod contender;
mod frame;
pub mod identifiers;
pub mod laws;
mod pending;
mod purpose;
mod senders;
mod slot_rule;
mod slots;
mod stuffing;
mod trace_line;
mod unwanted;
mod waiting;
mod walks;
mod wire;

pub use arbitration::winner;
pub use contender::Contender;
pub use frame::Frame;
pub use pending::Pending;
pub use purpose::Purpose;
pub use senders::{device_sender, manager_sender};
pub use slot_rule::SlotRule;
pub use slots::{bit_time, bits_of_slot, slot_bits, slot_time};
pub use trace_line::{line, write_line, write_time};
pub use unwanted::Unwanted;
pub use waiting::Waiting;
pub use wire::exact_bits;
