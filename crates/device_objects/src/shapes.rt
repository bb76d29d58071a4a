//! The parts that devices ask for.

ghost use Rattle.std.specs.Prelude.{◌≡◌, ◌+◌, ◌-◌, ◌^◌, min, IfOk, OnOk, unwrap_or};
ghost use Rattle.image_parts.specs.Asking.{after_ask};
ghost use Rattle.image_parts.specs.Record.{Lasts};
ghost use Rattle.image_parts.specs.Contents.{DefaultsAre, ShapeIs, no_shape};
ghost use Rattle.image_parts.specs.Shared.{value_behind};

use co_dict::{Dict, Shape};
use image_parts::{Asked, Part, PartContent};
use std::alloc::{AllocError, Global};
use std::rc::Rc;

/// Hands out the parts that devices ask for, and records what was asked.
pub trait Shapes: Asked<Part, PartContent> {
    /// The values of a node by its EDS, or none.
    fn defaults(&mut self, node: u8) -> Result<Option<Rc<Dict>>, AllocError>
        ensures value { IfOk result (λ r. (Self.seen self.old).image (Part.Defaults node) ≡ DefaultsAre (value_behind r)) }
        ensures noted { OnOk result (Self.seen self.new ≡ after_ask (Part.Defaults node) (Self.seen self.old)) }
        ensures counted { Self.asks self.new ≡ min (Self.asks self.old + 1) (2 ^ 64 - 1) }
        ensures lasts { Lasts (Self.seen self.old) (Self.seen self.new) };

    /// The entries of a node, or none.
    fn shape(&mut self, node: u8) -> Result<Option<Rc<Shape>>, AllocError>
        ensures value { IfOk result (λ r. (Self.seen self.old).image (Part.Shape node) ≡ ShapeIs (value_behind r)) }
        ensures noted { OnOk result (Self.seen self.new ≡ after_ask (Part.Shape node) (Self.seen self.old)) }
        ensures counted { Self.asks self.new ≡ min (Self.asks self.old + 1) (2 ^ 64 - 1) }
        ensures lasts { Lasts (Self.seen self.old) (Self.seen self.new) };
}

/// The entries of a device; where there are none, these of a device without entries.
pub fn shape_or<'a>(shape: &'a Option<Rc<Shape>>, none: &'a Shape) -> &'a Shape
    requires { none.now ≡ no_shape }
    ensures { result.now ≡ unwrap_or (value_behind shape.now) no_shape }
{
    match shape {
        None => none,
        Some(shape) => shape,
    }
}

/// The entries of a device without entries.
pub fn without_entries(alloc: Global) -> Shape
    ensures { result ≡ no_shape }
{
    Shape::new(alloc, [false; 7])
}
