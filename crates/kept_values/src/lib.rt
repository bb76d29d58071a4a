//! Values that are kept with what they were built from, so that each is built anew only where that is
//! another one now; and values of which the last used are kept.
//!
//! A *kept value* stands with the inputs that it was built from. A *mark* says that the inputs may be
//! others now. A value without a mark is built from the inputs of now. To *bring* a value up to date
//! is to compare its inputs with those of now where it has a mark, to build it anew where they differ,
//! and to take the mark away.
//!
//! The *last used* stand under keys that are never given twice, at most so many of them, and are found
//! by their keys or by a number.
#![tactic(auto)]

mod index;
mod kept;
pub mod laws;
mod makes;
mod memo;
mod meter;
mod numbered;
mod recent;
mod rest;
mod row;
mod shelf;

pub use kept::Kept;
pub use makes::{Makes, Offers};
pub use memo::Memo;
pub use meter::Meter;
pub use numbered::Numbered;
pub use recent::Recent;
pub use shelf::Shelf;
