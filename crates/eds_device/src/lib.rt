//! The device that an EDS text describes (CiA 306).
#![tactic(auto)]

mod common;
mod comparing;
mod data_sheet;
mod described;
mod entries;
mod given;
mod identity;
pub mod laws;
mod placed;
mod values;

pub use data_sheet::DataSheet;
pub use eds_entries::{
    ObjectType, compact_count, index_named, kind_of, place_named, sub_listed, values_named,
};
pub use eds_places::{DeviceFault, Origin};
pub use ini_text::{Pair, Section};
pub use placed::Placed;
