//! What a diagnostic is: its code, what it is of, its place among others, and its line.
#![tactic(auto)]

mod code;
mod diag;
mod lines;
mod name;
mod sorting;
mod subject;

pub use code::Code;
pub use diag::Diag;
pub use lines::text;
pub use name::Name;
pub use sorting::sort_once;
pub use subject::Subject;
