//! The parts that the manager asks for.

ghost use Rattle.std.specs.Prelude.{◌≡◌, ◌<◌, ◌+◌, ◌-◌, ◌^◌, min, IfOk, IfSome, OnOk};
ghost use Rattle.image_parts.specs.Asking.{after_ask};
ghost use Rattle.image_parts.specs.Record.{Lasts};
ghost use Rattle.image_parts.specs.Contents.{BootIs, ExpectIs};
ghost use Rattle.image_parts.specs.Images.{greatest_place};
ghost use Rattle.concise_dcf.specs.Writes.{IsSized};
ghost use Rattle.image_parts.specs.Shared.{value_behind};

use concise_dcf::Write;
use image_parts::{Asked, Identity, Part, PartContent};
use std::alloc::AllocError;
use std::rc::Rc;

/// Hands out the parts that the manager asks for, and records what was asked.
pub trait Boots: Asked<Part, PartContent> {
    /// What is expected of a node, or none.
    fn expect(&mut self, node: u8) -> Result<Option<Rc<Identity>>, AllocError>
        ensures value { IfOk result (λ r. (Self.seen self.old).image (Part.Expect node) ≡ ExpectIs (value_behind r)) }
        ensures noted { OnOk result (Self.seen self.new ≡ after_ask (Part.Expect node) (Self.seen self.old)) }
        ensures counted { Self.asks self.new ≡ min (Self.asks self.old + 1) (2 ^ 64 - 1) }
        ensures lasts { Lasts (Self.seen self.old) (Self.seen self.new) };

    /// The write of a node's concise DCF with this number, from 0, or none: its data has 1 to 512 bytes, and its
    /// number isn't the greatest.
    fn boot(&mut self, node: u8, place: u32) -> Result<Option<Rc<Write>>, AllocError>
        ensures value { IfOk result (λ r. (Self.seen self.old).image (Part.Boot node place) ≡ BootIs (value_behind r)) }
        ensures fits { IfOk result (λ r. IfSome (value_behind r) IsSized) }
        ensures last { IfOk result (λ r. IfSome (value_behind r) (λ write. place < greatest_place)) }
        ensures noted { OnOk result (Self.seen self.new ≡ after_ask (Part.Boot node place) (Self.seen self.old)) }
        ensures counted { Self.asks self.new ≡ min (Self.asks self.old + 1) (2 ^ 64 - 1) }
        ensures lasts { Lasts (Self.seen self.old) (Self.seen self.new) };
}
