//! What a simulation reads of a node by its device.
ghost use Rattle.std.specs.Prelude.{◌≡◌, IfOk};

use base::Shared;
use co_dict::{Dict, Shape};
use image_parts::Identity;
use std::alloc::{AllocError, Global};

/// What a simulation reads of a node by its device alone: three things that are found together, since they are
/// found of the same, and read each by itself.
#[derive(Drop)]
pub struct DeviceParts {
    /// The values that its entries have by its device.
    pub defaults: Shared<Dict>,
    /// Its entries.
    pub shape: Shared<Shape>,
    /// The device type and the identity that are expected of it.
    pub expect: Shared<Identity>,
}

impl DeviceParts {
    /// These three, each to be shared. Takes constant time and memory; want of memory is the only error.
    pub fn new(
        alloc: Global,
        defaults: Dict,
        shape: Shape,
        expect: Identity,
    ) -> Result<DeviceParts, AllocError>
        ensures { IfOk result (λ parts. parts ≡ record { defaults = defaults; shape = shape; expect = expect }) }
    {
        let defaults = Shared::new(alloc, defaults)?;
        let shape = Shared::new(alloc, shape)?;
        let expect = Shared::new(alloc, expect)?;
        Ok(DeviceParts {
            defaults,
            shape,
            expect,
        })
    }
}
