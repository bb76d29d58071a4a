//! The parts of a project, kept with what they were made from: brought up to date as they are asked for, marked by
//! edits, and let go with what they are of.
#![tactic(auto)]

mod all;
mod bringing;
mod diagnosing;
mod kept_parts;
mod leaving;
mod network;
mod of_now;
mod remembered;
mod simulation;
mod touching;

pub use kept_parts::KeptParts;
