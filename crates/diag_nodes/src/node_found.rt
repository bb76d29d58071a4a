//! What is found of a node by itself, kept with what it was found by.
ghost use Rattle.std.specs.Prelude.{◌≡◌, IfOk, IsTrue};
ghost use Rattle.project_plan.specs.Network.{member_of};
ghost use Rattle.project_plan.specs.Sheets.{AreEntriesOf};
ghost use Rattle.project_plan.specs.Wanted.{values_given};
ghost use Rattle.diag_nodes.specs.Alone.{alone, IsKeptOf};
ghost use Rattle.diag_nodes.specs.Found.{unreadable_defaults};
ghost use Rattle.diag_nodes.specs.Sheets.{faults_of_node};

use crate::kept::{Kept, keep_values};
use crate::nodes::{find_defaults, find_faults};
use base::Shared;
use co_dict::Dict;
use co_project::Node;
use diag_lines::Diag;
use eds_device::DataSheet;
use project_plan::{SheetEntries, values_given};
use std::alloc::{AllocError, Global};
use std::marker::Model;

/// What is found of a node by its number, itself and its device, whatever messages are planned. Contracts see what it was
/// found by.
#[derive(Drop)]
pub(crate) struct NodeFound {
    id: u8,
    node: Node,
    device: Shared<DataSheet>,
    /// The faults of its parameters.
    faults: Vec<Diag>,
    /// Its unreadable defaults.
    defaults: Vec<Diag>,
    /// The values that diagnostics want of it, where it sends no message.
    given: Dict,
    /// What is kept of it then.
    kept: Kept,
}

impl Model for NodeFound {
    ghost use Rattle.std.specs.Prelude.{◌≡◌, ℕ};
    ghost use Rattle.co_project.specs.contracts.node.Node as own_node;
    ghost use Rattle.eds_device.specs.contracts.data_sheet.DataSheet as own_device;
    ghost use Rattle.project_plan.specs.Network.{Member, member_of};
    ghost use Rattle.project_plan.specs.Wanted.{values_given};
    ghost use Rattle.diag_nodes.specs.Alone.{alone, member_code, IsKeptOf};
    ghost use Rattle.diag_nodes.specs.Found.{unreadable_defaults};
    ghost use Rattle.diag_nodes.specs.Sheets.{faults_of_node};

    ghost Value = { ℕ × Member };

    ghost coded = { member_code own_node.the_row.coded own_device.the_row.coded };

    ghost view = { λ f. member_of f.id f.node f.device };

    ghost invariant = { λ f. (f.faults.items ≡ faults_of_node (member_of f.id f.node f.device))
        × (f.defaults.items ≡ unreadable_defaults (member_of f.id f.node f.device))
        × (f.given ≡ values_given f.device f.node.params f.id)
        × IsKeptOf alone (member_of f.id f.node f.device) f.kept };
}

/// The faults of a node's parameters.
fn faults_of(
    alloc: Global,
    id: u8,
    node: &Node,
    device: &DataSheet,
    entries: &SheetEntries,
) -> Result<Vec<Diag>, AllocError>
    requires { AreEntriesOf device.now entries.now }
    ensures { IfOk result (λ found. found.items ≡ faults_of_node (member_of id node.now device.now)) }
{
    let mut found = Vec::new(alloc);
    find_faults(&mut found, alloc, id, node, device, entries)?;
    Ok(found)
}

/// A node's unreadable defaults.
fn defaults_of(
    alloc: Global,
    id: u8,
    node: &Node,
    device: &DataSheet,
    entries: &SheetEntries,
) -> Result<Vec<Diag>, AllocError>
    requires { AreEntriesOf device.now entries.now }
    ensures { IfOk result (λ found. found.items ≡ unreadable_defaults (member_of id node.now device.now)) }
{
    let mut found = Vec::new(alloc);
    find_defaults(&mut found, id, node, device, entries)?;
    Ok(found)
}

/// What is kept of a node that sends no message, by the values that are given.
fn kept_of(
    alloc: Global,
    id: u8,
    node: &Node,
    device: &DataSheet,
    given: &Dict,
) -> Result<Kept, AllocError>
    requires { given.now ≡ values_given device.now node.now.params id }
    ensures { IfOk result (IsKeptOf alone (member_of id node.now device.now)) }
{
    let _ = node;
    let mut kept = Kept::new(alloc);
    keep_values(&mut kept, id, device, given)?;
    Ok(kept)
}

impl NodeFound {
    /// Finds it. Takes time by the number of the device's entries and of the node's parameters.
    pub(crate) fn find(
        alloc: Global,
        id: u8,
        node: &Node,
        device: Shared<DataSheet>,
        entries: &SheetEntries,
    ) -> Result<NodeFound, AllocError>
        requires { AreEntriesOf device entries.now }
        ensures { IfOk result (λ found. found ≡ member_of id node.now device) }
    {
        let faults = faults_of(alloc, id, node, device.get(), entries)?;
        let defaults = defaults_of(alloc, id, node, device.get(), entries)?;
        let given = values_given(alloc, id, &node.params, device.get())?;
        let kept = kept_of(alloc, id, node, device.get(), &given)?;
        let node = node.clone()?;
        Ok(NodeFound {
            id,
            node,
            device,
            faults,
            defaults,
            given,
            kept,
        })
    }

    /// Whether it was found by this, with the device that it has. Takes time by the length of the node's parameters,
    /// and no memory.
    pub(crate) fn is_of(&self, id: u8, node: &Node) -> bool
        ensures { IsTrue result → self.now ≡ member_of id node.now self.now.1.sheet }
    {
        self.id == id && self.node.same(node)
    }

    /// The number of the node.
    pub(crate) fn id(&self) -> u8
        ensures { result ≡ self.now.0 }
    {
        self.id
    }

    /// Its device.
    pub(crate) fn device(&self) -> &DataSheet
        ensures { result.now ≡ self.now.1.sheet }
    {
        self.device.get()
    }

    /// The faults of its parameters.
    pub(crate) fn faults(&self) -> &[Diag]
        ensures { result.now ≡ faults_of_node self.now }
    {
        &self.faults
    }

    /// Its unreadable defaults.
    pub(crate) fn defaults(&self) -> &[Diag]
        ensures { result.now ≡ unreadable_defaults self.now }
    {
        &self.defaults
    }

    /// The values that diagnostics want of it, where it sends no message.
    pub(crate) fn given(&self) -> &Dict
        ensures { result.now ≡ values_given self.now.1.sheet self.now.1.node.params self.now.0 }
    {
        &self.given
    }

    /// What is kept of it then.
    pub(crate) fn kept(&self) -> &Kept
        ensures { IsKeptOf alone self.now result.now }
    {
        &self.kept
    }
}
