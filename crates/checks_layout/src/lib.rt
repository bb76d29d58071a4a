//! The edits that lines lay out, for the programs that run or ask what their input lays out, and the parts of the
//! network that these edits make.
#![tactic(auto)]

mod layout;
mod parts;
mod step;

pub use layout::Layout;
pub use parts::parts_of;
