//! The parts of nodes that are all alike, and of their network.

ghost use Rattle.std.specs.Prelude.{◌≡◌, ◌<◌, IfOk, IfSome, option_and_then, slice_get};
ghost use Rattle.image_parts.specs.Images.{greatest_place};
ghost use Rattle.concise_dcf.specs.Writes.{IsSized};
ghost use Rattle.image_parts.specs.Shared.{value_behind};
ghost use Rattle.checks_bus.specs.Alike.{fitting};

use crate::network::network;
use can_bus::Parts;
use can_frame::SlotRule;
use co_dict::{Dict, Shape};
use concise_dcf::Write;
use device_objects::Shapes;
use image_parts::{Asked, Identity, Part, PartContent, Read, Roster, Window};
use node_boot::Boots;
use std::alloc::{AllocError, Global};
use std::rc::Rc;

/// Hands out the same parts for each node, and the network with slots by a rule and without events, and records what was
/// asked.
#[derive(Drop)]
pub struct OneNode {
    pub alloc: Global,
    pub slots: SlotRule,
    pub defaults: Rc<Dict>,
    pub shape: Rc<Shape>,
    pub expect: Identity,
    pub writes: Vec<Write>,
    pub asked: Vec<Read>,
    pub asks: u64,
}

/// Another pointer to a part.
fn pointer<T: Drop>(part: &Rc<T>) -> Result<Option<Rc<T>>, AllocError>
    ensures { IfOk result (λ copy. value_behind copy ≡ value_behind (Some part.now)) }
{
    let copy = part.clone()?;
    Ok(Some(copy))
}

/// The greatest number of a part, which no write has.
const GREATEST_PLACE: u32 = 4_294_967_295;

/// The write at a place, if it is there, has 1 to 512 bytes, and its number isn't the greatest.
fn write_at(alloc: Global, writes: &[Write], place: u32) -> Result<Option<Rc<Write>>, AllocError>
    ensures write { IfOk result (λ write. value_behind write ≡ option_and_then (fitting place) (slice_get writes.now place)) }
    ensures fits { IfOk result (λ write. IfSome (value_behind write) IsSized) }
    ensures last { IfOk result (λ write. IfSome (value_behind write) (λ one. place < greatest_place)) }
{
    match writes.get(place as usize) {
        Some(write)
            if place < GREATEST_PLACE && write.bytes.len() >= 1 && write.bytes.len() <= 512 => {
            let copy = write.clone()?;
            Ok(Some(Rc::new(alloc, copy)?))
        }
        _ => Ok(None),
    }
}

impl Asked<Part, PartContent> for OneNode {
    ghost use Rattle.checks_bus.specs.Alike.{seen_of};

    ghost seen = { seen_of };

    ghost asks = { λ node. node.asks };
}

impl Shapes for OneNode {
    #[tactic(auto, using(image_parts::proofs::RecordLemmas::record_laws))]
    fn defaults(&mut self, node: u8) -> Result<Option<Rc<Dict>>, AllocError> {
        self.asks = self.asks.saturating_add(1);
        let answer = pointer(&self.defaults)?;
        let noted = pointer(&self.defaults)?;
        self.asked.push(Read::new(Part::Defaults(node), PartContent::of_defaults(noted)))?;
        Ok(answer)
    }

    #[tactic(auto, using(image_parts::proofs::RecordLemmas::record_laws))]
    fn shape(&mut self, node: u8) -> Result<Option<Rc<Shape>>, AllocError> {
        self.asks = self.asks.saturating_add(1);
        let answer = pointer(&self.shape)?;
        let noted = pointer(&self.shape)?;
        self.asked
            .push(Read::new(Part::Shape(node), PartContent::of_shape(noted)))?;
        Ok(answer)
    }
}

impl Boots for OneNode {
    #[tactic(auto, using(image_parts::proofs::RecordLemmas::record_laws))]
    fn expect(&mut self, node: u8) -> Result<Option<Rc<Identity>>, AllocError> {
        self.asks = self.asks.saturating_add(1);
        let answer = Some(Rc::new(self.alloc, self.expect)?);
        let noted = Some(Rc::new(self.alloc, self.expect)?);
        self.asked.push(Read::new(Part::Expect(node), PartContent::of_expect(noted)))?;
        Ok(answer)
    }

    #[tactic(auto, using(image_parts::proofs::RecordLemmas::record_laws))]
    fn boot(&mut self, node: u8, place: u32) -> Result<Option<Rc<Write>>, AllocError> {
        self.asks = self.asks.saturating_add(1);
        let answer = write_at(self.alloc, &self.writes, place)?;
        let noted = write_at(self.alloc, &self.writes, place)?;
        self.asked.push(Read::new(Part::Boot(node, place), PartContent::of_boot(noted)))?;
        Ok(answer)
    }
}

impl Parts for OneNode {
    #[tactic(auto, using(image_parts::proofs::RecordLemmas::record_laws))]
    fn roster(&mut self) -> Result<Option<Rc<Roster>>, AllocError> {
        self.asks = self.asks.saturating_add(1);
        let answer = Some(network(self.alloc, self.slots)?);
        let noted = Some(network(self.alloc, self.slots)?);
        self.asked
            .push(Read::new(Part::Roster, PartContent::of_roster(noted)))?;
        Ok(answer)
    }

    #[tactic(auto, using(image_parts::proofs::RecordLemmas::record_laws))]
    fn events(&mut self, i: u32) -> Result<Option<Rc<Window>>, AllocError> {
        self.asks = self.asks.saturating_add(1);
        self.asked
            .push(Read::new(Part::Events(i), PartContent::of_events(None)))?;
        Ok(None)
    }

    fn take_asked(&mut self) -> Vec<Read> {
        std::mem::replace(&mut self.asked, Vec::new(self.alloc))
    }

    fn asks(&self) -> u64 {
        self.asks
    }
}
