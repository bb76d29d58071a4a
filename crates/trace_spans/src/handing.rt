//! Parts by their names.

ghost use Rattle.std.specs.Prelude.{◌≡◌, ◌≤◌, ◌+◌, IfOk, OnOk};

use can_bus::Parts;
use image_parts::{Part, PartContent};
use std::alloc::AllocError;

/// Asks for the part of a name.
pub(crate) fn ask<P: Parts>(parts: &mut P, part: Part) -> Result<PartContent, AllocError>
    ensures value { IfOk result (λ content. content ≡ (P.seen parts.old).image part) }
    ensures counted { OnOk result (P.asks parts.new ≤ P.asks parts.old + 1) }
    ensures kept { (P.seen parts.new).image ≡ (P.seen parts.old).image }
{
    match part {
        Part::Roster => {
            let roster = parts.roster()?;
            Ok(PartContent::of_roster(roster))
        }
        Part::Defaults(node) => {
            let values = parts.defaults(node)?;
            Ok(PartContent::of_defaults(values))
        }
        Part::Shape(node) => {
            let shape = parts.shape(node)?;
            Ok(PartContent::of_shape(shape))
        }
        Part::Expect(node) => {
            let identity = parts.expect(node)?;
            Ok(PartContent::of_expect(identity))
        }
        Part::Boot(node, place) => {
            let write = parts.boot(node, place)?;
            Ok(PartContent::of_boot(write))
        }
        Part::Events(window) => {
            let events = parts.events(window)?;
            Ok(PartContent::of_events(events))
        }
    }
}
