//! A device as its vendor made it.
ghost use Rattle.std.specs.Prelude.{◌≡◌, IfOk};
ghost use Rattle.pdo_stations.specs.Devices.{as_made};

use co_dict::{Dict, Shape};
use eds_device::DataSheet;
use std::alloc::AllocError;

/// A device as its vendor made it: its entries at a node with the allowed dummies, and what they have by default.
#[derive(Drop)]
pub struct AsMade {
    /// Its entries and dummies.
    pub shape: Shape,
    /// What its entries of modelled types have by default.
    pub defaults: Dict,
}

impl AsMade {
    /// The device of a data sheet at a node. Takes time and memory as its shape and its defaults do; want of memory is
    /// the only error.
    pub fn of(device: &DataSheet, node: u8) -> Result<AsMade, AllocError>
        ensures { IfOk result (λ made. made ≡ as_made device.now node) }
    {
        Ok(AsMade {
            shape: device.shared_shape(node)?,
            defaults: device.defaults(node)?,
        })
    }
}
