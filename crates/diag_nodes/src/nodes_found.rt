//! What was found of nodes by themselves, from one finding to the next.
ghost use Rattle.std.specs.Prelude.{◌≡◌, Some, IfOk, IfSome, IsTrue, OnOk, OnSome, option_copied};
ghost use Rattle.std.specs.FinMap as map;
ghost use Rattle.project_messages.specs.Messages.{by_name};
ghost use Rattle.project_plan.specs.Library.{AreRead};
ghost use Rattle.project_plan.specs.Network.{device_at, member_of};
ghost use Rattle.diag_nodes.specs.Held.{HoldsNoOther};

use crate::node_found::NodeFound;
use crate::sheet_found::SheetFound;
use base::Shared;
use co_project::Node;
use eds_device::DataSheet;
use project_plan::Library;
use std::alloc::{AllocError, Global};
use std::collections::BTreeMap;
use std::marker::Model;

/// What was found of nodes by themselves, by the names of their EDS, each with what it was found by: so
/// `diagnostics_by` finds it again where a node or its device changed. It changes no answer. Contracts see the data
/// sheets by these names.
#[derive(Drop)]
pub struct NodesFound {
    sheets: BTreeMap<Vec<u8>, SheetFound>,
}

impl Model for NodesFound {
    ghost use Rattle.std.specs.Coded.{coded_ℕ, coded_list};
    ghost use Rattle.std.specs.FinMap as map;
    ghost use Rattle.eds_device.specs.contracts.data_sheet.DataSheet as own_device;
    ghost use Rattle.project_messages.specs.Messages.{by_name};
    ghost use Rattle.project_plan.specs.Library.{Devices};

    ghost Value = { Devices };

    ghost coded = { map.code (coded_list coded_ℕ) own_device.the_row.coded };

    ghost view = { λ n. map.from_entries (by_name n.sheets.entries) };
}

/// Whether a data sheet is what a library has now by a name.
fn is_current(sheet: &SheetFound, library: &Library<'_>, name: &[u8]) -> bool
    ensures { IsTrue result → device_at library.now.project name.now ≡ Some sheet.now }
{
    match library.device(name) {
        Some(device) => sheet.is_of(device),
        None => false,
    }
}

/// Lets go what was found of nodes that don't have the EDS of a name. Whether anything is left, and the data sheet is
/// what a library has now by that name.
fn is_left(sheet: &mut SheetFound, library: &Library<'_>, name: &[u8]) -> bool
    ensures { IsTrue result → device_at library.now.project name.now ≡ Some sheet.new }
{
    sheet.let_go(library.project(), name);
    sheet.has_nodes() && is_current(sheet, library, name)
}

/// Lets go the data sheets that a library doesn't have now by their names, and those that no node has.
fn keep_current(sheets: &mut BTreeMap<Vec<u8>, SheetFound>, library: &Library<'_>)
    ensures { AreRead library.now.project (map.from_entries (by_name sheets.new.entries)) }
{
    sheets.retain(|name, sheet| is_left(sheet, library, name));
}

impl NodesFound {
    /// Nothing was found yet.
    pub fn new(alloc: Global) -> NodesFound
        ensures { result ≡ map.empty }
    {
        NodesFound {
            sheets: BTreeMap::new(alloc),
        }
    }

    /// Lets go what was found of nodes that are gone, or have another EDS or device now. Takes time by their number and
    /// its logarithm, and the length of the text of each data sheet that a node still has.
    pub(crate) fn let_go(&mut self, library: &Library<'_>)
        ensures { AreRead library.now.project self.new }
    {
        keep_current(&mut self.sheets, library);
    }

    /// What was found of the nodes of the EDS of a name.
    fn sheet(&self, name: &[u8]) -> Option<&SheetFound>
        ensures { option_copied result ≡ map.get self.now name.now }
    {
        self.sheets.get(name)
    }

    /// What was found of a node by itself, as long as that didn't change. Takes time by the length of the node's
    /// parameters.
    pub(crate) fn current(&self, id: u8, node: &Node, device: &DataSheet) -> Option<&NodeFound>
        requires { HoldsNoOther self.now node.now.eds device.now }
        ensures found { IfSome result (λ found. found.now ≡ member_of id node.now device.now) }
        ensures sheet { OnSome result (map.get self.now node.now.eds ≡ Some device.now) }
    {
        let _ = device;
        let sheet = self.sheet(node.eds.as_slice())?;
        let found = sheet.current(id, node)?;
        Some(found)
    }

    /// Adds what was found of the nodes of an EDS.
    fn add(&mut self, alloc: Global, name: &[u8], sheet: SheetFound) -> Result<(), AllocError>
        ensures { OnOk result (self.new ≡ map.insert self.old name.now sheet) }
    {
        let name = Vec::from_slice(alloc, name)?;
        self.sheets.insert(name, sheet)?;
        Ok(())
    }

    /// Finds a node by itself, the first of its EDS.
    fn find_first(
        &mut self,
        alloc: Global,
        id: u8,
        node: &Node,
        device: Shared<DataSheet>,
    ) -> Result<NodeFound, AllocError>
        ensures found { IfOk result (λ found. found ≡ member_of id node.now device) }
        ensures sheets { OnOk result (self.new ≡ map.insert self.old node.now.eds device) }
    {
        let sheet = SheetFound::new(alloc, device)?;
        let found = sheet.find(alloc, id, node)?;
        self.add(alloc, node.eds.as_slice(), sheet)?;
        Ok(found)
    }

    /// Finds a node by itself. Takes time by the number of the device's entries and of the node's parameters.
    pub(crate) fn find(
        &mut self,
        alloc: Global,
        id: u8,
        node: &Node,
        device: Shared<DataSheet>,
    ) -> Result<NodeFound, AllocError>
        requires { HoldsNoOther self.old node.now.eds device }
        ensures found { IfOk result (λ found. found ≡ member_of id node.now device) }
        ensures sheets { OnOk result (self.new ≡ map.insert self.old node.now.eds device) }
    {
        if let Some(sheet) = self.sheet(node.eds.as_slice()) {
            let found = sheet.find(alloc, id, node)?;
            return Ok(found);
        }
        let found = self.find_first(alloc, id, node, device)?;
        Ok(found)
    }

    /// Keeps what was found of a node.
    pub(crate) fn put(&mut self, node: &Node, found: NodeFound) -> Result<(), AllocError>
        requires { HoldsNoOther self.old node.now.eds found.1.sheet }
        ensures { self.new ≡ self.old }
    {
        let Some(sheet) = self.sheets.get_mut(node.eds.as_slice()) else {
            return Ok(());
        };
        sheet.put(found)
    }
}
