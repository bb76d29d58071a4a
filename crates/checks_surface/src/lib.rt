//! The public calls, named and called once with their arguments: so a call that is renamed, or takes or gives
//! something else, is an error here.
#![tactic(auto)]

pub mod bus;
pub mod devices;
pub mod dictionary;
pub mod edits;
pub mod files;
pub mod frames;
pub mod kept;
pub mod plans;
pub mod scenario;
pub mod segments;
pub mod sessions;
pub mod texts;
pub mod transfers;
