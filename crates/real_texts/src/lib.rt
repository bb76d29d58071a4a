//! Values of REAL32 and REAL64 (CiA 301, IEEE 754) as decimal texts.
#![tactic(auto)]

pub mod laws;
mod natural;
mod printing;
mod reading;
mod real;

pub use printing::{bits_text, real_text};
pub use reading::read_real;
pub use real::Real;
