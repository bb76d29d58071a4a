//! One instant of a CAN bus with its devices and its manager.
#![tactic(auto, using(image_parts::proofs::RecordLemmas::record_laws))]

mod arbitration;
mod bus_state;
mod due_moments;
mod line;
mod line_texts;
mod lines;
mod managing;
mod nodes;
mod note_line;
mod parts;
mod slot;
mod steps_left;
mod telling;
mod windows;

pub use bus_state::BusState;
pub use device_objects::Shapes;
pub use line::Line;
pub use line_texts::text;
pub use lines::Lines;
pub use node_boot::Boots;
pub use parts::Parts;
pub use slot::Slot;
