//! Which entries the sections of an EDS give, and where each stands (CiA 306).
#![tactic(auto)]

mod fault;
mod index;
pub mod laws;
mod origin;
mod places;
mod reading;
mod table;

pub use fault::DeviceFault;
pub use origin::Origin;
pub use places::places_of;
pub use reading::Reading;
pub use table::{Stand, stand_at};
