//! Shelves on which parts of a project are kept under keys of their own: devices by the names of their EDS, and windows of
//! events by their numbers.
#![tactic(auto)]

mod device_shelf;
mod device_slot;
mod eds_text;
mod numbers;
mod seat;
mod window_shelf;

pub use device_shelf::DeviceShelf;
pub use device_slot::DeviceSlot;
pub use eds_text::EdsText;
pub use numbers::node_flags;
pub use window_shelf::WindowShelf;
