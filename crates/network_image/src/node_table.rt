//! The parts of nodes by number.
ghost use Rattle.std.specs.Prelude.{◌≡◌, ◌<◌, IfOk, IfSome, OnOk, option_copied, option_map, option_and_then};
ghost use Rattle.std.specs.Prelude.{slice_get};
ghost use Rattle.std.specs.FinMap as map;
ghost use Rattle.network_image.specs.Held.{PartsOfNode};
ghost use Rattle.image_parts.specs.Images.{greatest_place};
ghost use Rattle.concise_dcf.specs.Writes.{IsSized};
ghost use Rattle.image_parts.specs.Shared.{value_behind};

use crate::node_parts::NodeParts;
use co_dict::{Dict, Shape};
use concise_dcf::Write;
use image_parts::Identity;
use std::alloc::{AllocError, Global};
use std::collections::BTreeMap;
use std::marker::Model;
use std::rc::Rc;

/// The parts of nodes by number. A look-up takes time by the logarithm of the number of nodes.
#[derive(Drop)]
pub struct NodeTable {
    nodes: BTreeMap<u8, NodeParts>,
}

impl Model for NodeTable {
    ghost use Rattle.std.specs.Coded.{coded_ℕ};
    ghost use Rattle.std.specs.FinMap as map;
    ghost use Rattle.network_image.specs.Held.{AllHeld};
    ghost use Rattle.network_image.specs.contracts.node_parts.NodeParts as parts;

    ghost Value = { AllHeld };

    ghost coded = { map.code coded_ℕ parts.the_row.coded };

    ghost view = { λ table. map.from_entries table.nodes.entries };
}

impl NodeTable {
    /// No nodes.
    pub fn new(alloc: Global) -> NodeTable
        ensures { result ≡ map.empty }
    {
        NodeTable {
            nodes: BTreeMap::new(alloc),
        }
    }

    /// Adds the parts of a node, in place of any that it has. Takes time by the logarithm of the number of
    /// nodes; want of memory is the only error.
    pub fn insert(&mut self, id: u8, parts: NodeParts) -> Result<(), AllocError>
        ensures { OnOk result (self.new ≡ map.insert self.old id parts) }
    {
        self.nodes.insert(id, parts)?;
        Ok(())
    }

    fn get(&self, id: u8) -> Option<&NodeParts>
        ensures { option_copied result ≡ map.get self.now id }
    {
        self.nodes.get(&id)
    }

    pub(crate) fn defaults(&self, id: u8) -> Result<Option<Rc<Dict>>, AllocError>
        ensures { IfOk result (λ values. value_behind values ≡ option_map (λ (h : PartsOfNode). h.defaults) (map.get self.now id)) }
    {
        match self.get(id) {
            Some(parts) => parts.defaults(),
            None => Ok(None),
        }
    }

    pub(crate) fn shape(&self, id: u8) -> Result<Option<Rc<Shape>>, AllocError>
        ensures { IfOk result (λ shape. value_behind shape ≡ option_map (λ (h : PartsOfNode). h.shape) (map.get self.now id)) }
    {
        match self.get(id) {
            Some(parts) => parts.shape(),
            None => Ok(None),
        }
    }

    pub(crate) fn expect(&self, id: u8) -> Result<Option<Rc<Identity>>, AllocError>
        ensures { IfOk result (λ expect. value_behind expect ≡ option_map (λ (h : PartsOfNode). h.expect) (map.get self.now id)) }
    {
        match self.get(id) {
            Some(parts) => parts.expect(),
            None => Ok(None),
        }
    }

    /// A copy of the write of a node at a place, counted from 0.
    pub(crate) fn write(
        &self,
        alloc: Global,
        id: u8,
        place: u32,
    ) -> Result<Option<Rc<Write>>, AllocError>
        ensures write { IfOk result (λ write. value_behind write ≡ option_and_then (λ (h : PartsOfNode). slice_get h.writes place)
            (map.get self.now id)) }
        ensures fits { IfOk result (λ write. IfSome (value_behind write) IsSized) }
        ensures last { IfOk result (λ write. IfSome (value_behind write) (λ one. place < greatest_place)) }
    {
        match self.get(id) {
            Some(parts) => parts.write(alloc, place),
            None => Ok(None),
        }
    }
}
