//! What hands out the parts of a project.
ghost use Rattle.std.specs.Prelude.{◌≡◌, []};
ghost use Rattle.network_image.specs.Network.{image_held};
ghost use Rattle.co_depend.specs.Supply.{seen_of};

use crate::pointer::pointer;
use can_bus::Parts;
use co_dict::{Dict, Shape};
use concise_dcf::Write;
use device_objects::Shapes;
use image_parts::{Asked, Identity, Part, PartContent, Read, Roster, Window};
use network_image::NetworkParts;
use node_boot::Boots;
use std::alloc::{AllocError, Global};
use std::marker::Model;
use std::rc::Rc;

/// Hands out the parts of a project, and records what was asked.
///
/// A call takes time by the logarithm of the number of nodes or of windows, and memory for the record alone; the parts
/// that it hands out are shared.
#[derive(Drop)]
pub struct RecordingParts {
    alloc: Global,
    parts: NetworkParts,
    asked: Vec<Read>,
    asks: u64,
}

impl Model for RecordingParts {
    ghost use Rattle.image_parts.specs.contracts.read.Read as noted;
    ghost use Rattle.network_image.specs.contracts.network_parts.NetworkParts as network;
    ghost use Rattle.co_depend.specs.Supply.{supply_code, Supply};

    ghost Value = { Supply };

    ghost coded = { supply_code network.the_row.coded noted.the_row.coded };

    ghost view = { λ p. record { parts = p.parts; asked = p.asked.items; asks = p.asks } };
}

impl RecordingParts {
    /// Hands these parts out, of which nothing was asked yet. Takes no memory.
    pub fn of(alloc: Global, parts: NetworkParts) -> RecordingParts
        ensures seen { seen_of result ≡ record { image = image_held parts; asked = [] } }
        ensures asks { result.asks ≡ 0 }
    {
        RecordingParts {
            alloc,
            parts,
            asked: Vec::new(alloc),
            asks: 0,
        }
    }
}

impl Asked<Part, PartContent> for RecordingParts {
    ghost use Rattle.co_depend.specs.Supply.{seen_of};

    ghost seen = { seen_of };

    ghost asks = { λ parts. parts.asks };
}

impl Shapes for RecordingParts {
    #[tactic(auto, using(image_parts::proofs::RecordLemmas::record_laws))]
    fn defaults(&mut self, node: u8) -> Result<Option<Rc<Dict>>, AllocError> {
        self.asks = self.asks.saturating_add(1);
        let answer = self.parts.defaults(node)?;
        let noted = pointer(&answer)?;
        self.asked.push(Read::new(Part::Defaults(node), PartContent::of_defaults(noted)))?;
        Ok(answer)
    }

    #[tactic(auto, using(image_parts::proofs::RecordLemmas::record_laws))]
    fn shape(&mut self, node: u8) -> Result<Option<Rc<Shape>>, AllocError> {
        self.asks = self.asks.saturating_add(1);
        let answer = self.parts.shape(node)?;
        let noted = pointer(&answer)?;
        self.asked
            .push(Read::new(Part::Shape(node), PartContent::of_shape(noted)))?;
        Ok(answer)
    }
}

impl Boots for RecordingParts {
    #[tactic(auto, using(image_parts::proofs::RecordLemmas::record_laws))]
    fn expect(&mut self, node: u8) -> Result<Option<Rc<Identity>>, AllocError> {
        self.asks = self.asks.saturating_add(1);
        let answer = self.parts.expect(node)?;
        let noted = pointer(&answer)?;
        self.asked.push(Read::new(Part::Expect(node), PartContent::of_expect(noted)))?;
        Ok(answer)
    }

    #[tactic(auto, using(image_parts::proofs::RecordLemmas::record_laws))]
    fn boot(&mut self, node: u8, place: u32) -> Result<Option<Rc<Write>>, AllocError> {
        self.asks = self.asks.saturating_add(1);
        let answer = self.parts.write(self.alloc, node, place)?;
        let noted = pointer(&answer)?;
        self.asked.push(Read::new(Part::Boot(node, place), PartContent::of_boot(noted)))?;
        Ok(answer)
    }
}

impl Parts for RecordingParts {
    #[tactic(auto, using(image_parts::proofs::RecordLemmas::record_laws))]
    fn roster(&mut self) -> Result<Option<Rc<Roster>>, AllocError> {
        self.asks = self.asks.saturating_add(1);
        let answer = self.parts.roster()?;
        let noted = pointer(&answer)?;
        self.asked
            .push(Read::new(Part::Roster, PartContent::of_roster(noted)))?;
        Ok(answer)
    }

    #[tactic(auto, using(image_parts::proofs::RecordLemmas::record_laws))]
    fn events(&mut self, i: u32) -> Result<Option<Rc<Window>>, AllocError> {
        self.asks = self.asks.saturating_add(1);
        let answer = self.parts.window(i)?;
        let noted = pointer(&answer)?;
        self.asked
            .push(Read::new(Part::Events(i), PartContent::of_events(noted)))?;
        Ok(answer)
    }

    fn take_asked(&mut self) -> Vec<Read> {
        std::mem::replace(&mut self.asked, Vec::new(self.alloc))
    }

    fn asks(&self) -> u64 {
        self.asks
    }
}
