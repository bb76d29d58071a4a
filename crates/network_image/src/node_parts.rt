//! The parts of a node.
ghost use Rattle.std.specs.Prelude.{◌≡◌, ◌<◌, IfOk, IfSome, slice_get};
ghost use Rattle.image_parts.specs.Images.{greatest_place};
ghost use Rattle.concise_dcf.specs.Writes.{IsSized};
ghost use Rattle.image_parts.specs.Shared.{value_behind};

use crate::pointer::some_pointer;
use co_dict::{Dict, Shape};
use concise_dcf::Write;
use image_parts::Identity;
use project_plan::NodeWrites;
use std::alloc::{AllocError, Global};
use std::marker::Model;
use std::rc::Rc;

/// A pointer to a copy of a write.
fn copied(alloc: Global, write: &Write) -> Result<Rc<Write>, AllocError>
    ensures { IfOk result (λ copy. copy.value ≡ write.now) }
{
    let write = write.clone()?;
    let copy = Rc::new(alloc, write)?;
    Ok(copy)
}

/// The parts of a node, each shared.
#[derive(Drop)]
pub struct NodeParts {
    defaults: Rc<Dict>,
    shape: Rc<Shape>,
    expect: Rc<Identity>,
    writes: Rc<NodeWrites>,
}

impl Model for NodeParts {
    ghost use Rattle.std.specs.Coded.{coded_ℕ, coded_list, coded×};
    ghost use Rattle.std.specs.FinMap as map;
    ghost use Rattle.concise_dcf.specs.contracts.write.Write as written;
    ghost use Rattle.co_dict.specs.contracts.entry.Entry as described;
    ghost use Rattle.co_dict.specs.Shapes.{shaped_code};
    ghost use Rattle.image_parts.specs.contracts.identity.Identity as expected;
    ghost use Rattle.network_image.specs.Held.{parts_code, PartsOfNode};

    ghost Value = { PartsOfNode };

    ghost coded = { parts_code (map.code (coded× coded_ℕ coded_ℕ) (coded_list coded_ℕ))
        (shaped_code described.the_row.coded) expected.the_row.coded written.the_row.coded };

    ghost view = { λ node. record {
      defaults = node.defaults.value;
      shape = node.shape.value;
      expect = node.expect.value;
      writes = node.writes.value;
    } };
}

impl NodeParts {
    /// These parts, which others may hold too.
    pub fn from_shared(
        defaults: Rc<Dict>,
        shape: Rc<Shape>,
        expect: Rc<Identity>,
        writes: Rc<NodeWrites>,
    ) -> NodeParts
        ensures { result ≡ record {
          defaults = defaults.value;
          shape = shape.value;
          expect = expect.value;
          writes = writes.value;
        } }
    {
        NodeParts {
            defaults,
            shape,
            expect,
            writes,
        }
    }

    pub(crate) fn defaults(&self) -> Result<Option<Rc<Dict>>, AllocError>
        ensures { IfOk result (λ values. value_behind values ≡ Some self.now.defaults) }
    {
        some_pointer(&self.defaults)
    }

    pub(crate) fn shape(&self) -> Result<Option<Rc<Shape>>, AllocError>
        ensures { IfOk result (λ shape. value_behind shape ≡ Some self.now.shape) }
    {
        some_pointer(&self.shape)
    }

    pub(crate) fn expect(&self) -> Result<Option<Rc<Identity>>, AllocError>
        ensures { IfOk result (λ expect. value_behind expect ≡ Some self.now.expect) }
    {
        some_pointer(&self.expect)
    }

    /// A copy of the write at a place, counted from 0, if there are so many. Takes memory for the copy.
    pub(crate) fn write(&self, alloc: Global, place: u32) -> Result<Option<Rc<Write>>, AllocError>
        ensures write { IfOk result (λ write. value_behind write ≡ slice_get self.now.writes place) }
        ensures fits { IfOk result (λ write. IfSome (value_behind write) IsSized) }
        ensures last { IfOk result (λ write. IfSome (value_behind write) (λ one. place < greatest_place)) }
    {
        match self.writes.as_slice().get(place as usize) {
            Some(write) => {
                let copy = copied(alloc, write)?;
                Ok(Some(copy))
            }
            None => Ok(None),
        }
    }
}
