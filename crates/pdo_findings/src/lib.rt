//! What is found of the PDOs of a device as its vendor made it, beside what a plan makes of them (version 3): those that
//! send or take beside the plan, and writes that the device refuses by their limits.
#![tactic(auto)]

mod events;
mod lasting;
mod refused;
mod unplanned;
mod used;

pub use events::can_have_event;
pub use refused::refused_places;
pub use unplanned::{unplanned_rpdos, unplanned_tpdos};
