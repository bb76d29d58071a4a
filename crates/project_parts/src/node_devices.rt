//! The devices of nodes.
ghost use Rattle.std.specs.Prelude.{◌≡◌, ◌↔◌, IsTrue, IfOk, OnOk, [], ◌++◌, filter, option_map};
ghost use Rattle.std.specs.Option.{option_to_list};
ghost use Rattle.pdo_stations.specs.Shown.{nodes_of};
ghost use Rattle.project_parts.specs.Made.{flagged};

use base::Shared;
use eds_device::DataSheet;
use project_plan::Named;
use std::alloc::{AllocError, Global};
use std::marker::Model;

/// Nodes with their devices, by number.
#[derive(Drop)]
pub struct NodeDevices {
    items: Vec<(u8, Shared<DataSheet>)>,
}

impl Model for NodeDevices {
    ghost use Rattle.std.specs.Prelude.{ℕ, List};
    ghost use Rattle.eds_device.specs.Sheets.{Sheet};

    ghost Value = { List (ℕ × Sheet) };

    ghost view = { λ d. d.items.items };
}

/// Whether both are the same node with the same device.
fn same_entry(a: &(u8, Shared<DataSheet>), b: &(u8, Shared<DataSheet>)) -> bool
    ensures { IsTrue result ↔ (a.now ≡ b.now) }
{
    a.0 == b.0 && a.1.get().same(b.1.get())
}

fn same_items(a: &[(u8, Shared<DataSheet>)], b: &[(u8, Shared<DataSheet>)]) -> bool
    ensures { IsTrue result ↔ (a.now ≡ b.now) }
{
    if a.len() != b.len() {
        return false;
    }
    for i in 0..a.len() {
        if !same_entry(&a[i], &b[i]) {
            return false;
        }
    }
    true
}

/// A list of the same devices, each shared.
fn copies(
    alloc: Global,
    items: &[(u8, Shared<DataSheet>)],
) -> Result<Vec<(u8, Shared<DataSheet>)>, AllocError>
    ensures { IfOk result (λ copy. copy.items ≡ items.now) }
{
    let mut copy = Vec::new(alloc);
    for (number, device) in items {
        let device = device.share()?;
        copy.push((*number, device))?;
    }
    Ok(copy)
}

/// Those of the nodes that are named, with references to their devices.
fn references<'a>(
    alloc: Global,
    items: &'a [(u8, Shared<DataSheet>)],
    named: &Named,
) -> Result<Vec<(u8, &'a DataSheet)>, AllocError>
    ensures { IfOk result (λ nodes. nodes_of nodes.items ≡ filter (flagged named.now) items.now) }
{
    let mut nodes = Vec::new(alloc);
    let mut rest = items;
    while let [(number, device), after @ ..] = rest {
        if named.contains(*number) {
            nodes.push((*number, device.get()))?;
        }
        rest = after;
    }
    Ok(nodes)
}

/// All of them, with references to their devices.
fn all_references<'a>(
    alloc: Global,
    items: &'a [(u8, Shared<DataSheet>)],
) -> Result<Vec<(u8, &'a DataSheet)>, AllocError>
    ensures { IfOk result (λ nodes. nodes_of nodes.items ≡ items.now) }
{
    let mut nodes = Vec::new(alloc);
    let mut rest = items;
    while let [(number, device), after @ ..] = rest {
        nodes.push((*number, device.get()))?;
        rest = after;
    }
    Ok(nodes)
}

impl NodeDevices {
    /// No nodes.
    pub fn new(alloc: Global) -> NodeDevices
        ensures { result ≡ [] }
    {
        NodeDevices {
            items: Vec::new(alloc),
        }
    }

    /// Adds a node with its device, if it has one. Want of memory is the only error.
    pub fn push(&mut self, number: u8, device: Option<Shared<DataSheet>>) -> Result<(), AllocError>
        ensures { OnOk result (self.new ≡ self.old ++ option_to_list (option_map (λ d. (number, d)) device)) }
    {
        if let Some(device) = device {
            self.items.push((number, device))?;
        }
        Ok(())
    }

    /// Whether both are the same nodes with the same devices. Takes time by the length of the devices'
    /// texts at most, and no memory.
    pub fn same(&self, other: &NodeDevices) -> bool
        ensures { IsTrue result ↔ (self.now ≡ other.now) }
    {
        same_items(&self.items, &other.items)
    }

    /// The same nodes with the same devices, each shared. Takes time and memory by their number; want
    /// of memory is the only error.
    pub fn copy(&self, alloc: Global) -> Result<NodeDevices, AllocError>
        ensures { IfOk result (λ d. d ≡ self.now) }
    {
        let items = copies(alloc, &self.items)?;
        Ok(NodeDevices { items })
    }

    /// The nodes that are named, with references to their devices. Takes time by the number of nodes, and
    /// memory by that of the named ones; want of memory is the only error.
    pub fn references(
        &self,
        alloc: Global,
        named: &Named,
    ) -> Result<Vec<(u8, &DataSheet)>, AllocError>
        ensures { IfOk result (λ nodes. nodes_of nodes.items ≡ filter (flagged named.now) self.now) }
    {
        references(alloc, &self.items, named)
    }

    /// All nodes, with references to their devices. Takes time and memory by their number; want of memory
    /// is the only error.
    pub fn all_references(&self, alloc: Global) -> Result<Vec<(u8, &DataSheet)>, AllocError>
        ensures { IfOk result (λ nodes. nodes_of nodes.items ≡ self.now) }
    {
        all_references(alloc, &self.items)
    }
}
