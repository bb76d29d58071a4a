//! The PDOs of a device at a moment (CiA 301).
#![tactic(auto)]

pub mod laws;
mod rpdo_state;
mod rpdos;
mod tpdo_state;
mod tpdos;

pub use rpdo_state::RpdoState;
pub use rpdos::{
    any_has_identifier, copy_rpdos, empty_rpdos, keep, rpdos_of, same_rpdos, write_rpdos,
};
pub use tpdo_state::TpdoState;
pub use tpdos::{
    copy_tpdos, forget_tpdos, free_tpdos, look_at_tpdos, next_moment, same_tpdos, tpdos_of,
    write_tpdos,
};
