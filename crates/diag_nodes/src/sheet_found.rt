//! What was found of the nodes of a data sheet.
ghost use Rattle.std.specs.Prelude.{◌≡◌, ◌↔◌, IfOk, IfSome, IsTrue};
ghost use Rattle.eds_device.specs.Sheets.{Sheet};
ghost use Rattle.project_plan.specs.Network.{member_of};
ghost use Rattle.diag_nodes.specs.Held.{AreOfSheet};

use crate::node_found::NodeFound;
use base::Shared;
use co_project::{Node, Project};
use eds_device::DataSheet;
use project_plan::{SheetEntries, entries_of_sheet};
use std::alloc::{AllocError, Global};
use std::collections::BTreeMap;
use std::marker::Model;

/// What was found of the nodes of a data sheet by themselves, by their numbers. Contracts see the data sheet.
#[derive(Drop)]
pub(crate) struct SheetFound {
    device: Shared<DataSheet>,
    /// The entries of the data sheet that have to be looked at.
    entries: SheetEntries,
    found: BTreeMap<u8, NodeFound>,
}

impl Model for SheetFound {
    ghost use Rattle.eds_device.specs.Sheets.{Sheet};
    ghost use Rattle.project_plan.specs.Sheets.{AreEntriesOf};
    ghost use Rattle.diag_nodes.specs.Held.{AreOfSheet};

    ghost Value = { Sheet };

    ghost view = { λ s. s.device };

    ghost invariant = { λ s. AreEntriesOf s.device s.entries × AreOfSheet s.device s.found.entries };
}

/// Whether there is a node of a number, with the EDS of a name.
fn has_eds(project: &Project, id: u8, name: &[u8]) -> bool {
    match project.node(id) {
        Some(node) => node.eds.as_slice() == name,
        None => false,
    }
}

/// Lets go what was found of nodes that don't have the EDS of a name.
fn keep_nodes(found: &mut BTreeMap<u8, NodeFound>, project: &Project, name: &[u8])
    ensures { (sheet : Sheet) → AreOfSheet sheet found.old.entries → AreOfSheet sheet found.new.entries }
{
    found.retain(|id, _found| has_eds(project, *id, name));
}

impl SheetFound {
    /// Nothing was found yet of the nodes of a device. Takes time by the number of its entries and the logarithm of it.
    pub(crate) fn new(alloc: Global, device: Shared<DataSheet>) -> Result<SheetFound, AllocError>
        ensures { IfOk result (λ sheet. sheet ≡ device) }
    {
        let entries = entries_of_sheet(alloc, device.get())?;
        Ok(SheetFound {
            device,
            entries,
            found: BTreeMap::new(alloc),
        })
    }

    /// Whether it is of this device. Takes time by the length of its text, and no memory.
    pub(crate) fn is_of(&self, device: &DataSheet) -> bool
        ensures { IsTrue result ↔ (self.now ≡ device.now) }
    {
        self.device.get().same(device)
    }

    /// Lets go what was found of nodes that don't have the EDS of a name. Takes time by their number and its logarithm.
    pub(crate) fn let_go(&mut self, project: &Project, name: &[u8])
        ensures { self.new ≡ self.old }
    {
        keep_nodes(&mut self.found, project, name);
    }

    /// Whether anything was found of a node.
    pub(crate) fn has_nodes(&self) -> bool {
        !self.found.is_empty()
    }

    /// What was found of the node of a number.
    fn found_of(&self, id: u8) -> Option<&NodeFound>
        ensures { IfSome result (λ found. found.now.1.sheet ≡ self.now) }
    {
        self.found.get(&id)
    }

    /// What was found of a node that has this data sheet, as long as the node didn't change. Takes time by the length
    /// of its parameters.
    pub(crate) fn current(&self, id: u8, node: &Node) -> Option<&NodeFound>
        ensures { IfSome result (λ found. found.now ≡ member_of id node.now self.now) }
    {
        let found = self.found_of(id)?;
        if !found.is_of(id, node) {
            return None;
        }
        Some(found)
    }

    /// Finds it of such a node. Takes time by the number of the device's entries and of the node's parameters.
    pub(crate) fn find(&self, alloc: Global, id: u8, node: &Node) -> Result<NodeFound, AllocError>
        ensures { IfOk result (λ found. found ≡ member_of id node.now self.now) }
    {
        let device = self.device.share()?;
        let found = NodeFound::find(alloc, id, node, device, &self.entries)?;
        Ok(found)
    }

    /// Keeps what was found of a node that has this data sheet.
    pub(crate) fn put(&mut self, found: NodeFound) -> Result<(), AllocError>
        requires { self.old ≡ found.1.sheet }
        ensures { self.new ≡ self.old }
    {
        self.found.insert(found.id(), found)?;
        Ok(())
    }
}
