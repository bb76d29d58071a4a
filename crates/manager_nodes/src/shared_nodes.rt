//! Nodes with their boots that copies share.

ghost use Rattle.std.specs.Prelude.{◌≡◌, [], IfOk};

use crate::booting::Booting;
use std::alloc::{AllocError, Global};
use std::marker::Model;
use std::rc::Rc;

/// Nodes with their boots, by number, which copies share until one of them changes.
#[derive(Drop)]
pub(crate) struct SharedNodes {
    nodes: Option<Rc<Vec<Booting>>>,
}

impl Model for SharedNodes {
    ghost use Rattle.std.specs.Prelude.{List};
    ghost use Rattle.manager_nodes.specs.Shared.{nodes_behind};
    ghost use Rattle.manager_nodes.specs.declared.booting.Booting.{Booting};

    ghost Value = { List Booting };

    ghost view = { λ shared. nodes_behind shared.nodes };
}

impl SharedNodes {
    /// No nodes. Takes no memory.
    pub(crate) fn none() -> SharedNodes
        ensures { result ≡ [] }
    {
        SharedNodes { nodes: None }
    }

    /// These nodes.
    pub(crate) fn of(alloc: Global, nodes: Vec<Booting>) -> Result<SharedNodes, AllocError>
        ensures { IfOk result (λ shared. shared ≡ nodes.items) }
    {
        let nodes = Rc::new(alloc, nodes)?;
        Ok(SharedNodes { nodes: Some(nodes) })
    }

    /// Equal nodes, which it shares. Takes no memory.
    pub(crate) fn copy(&self) -> Result<SharedNodes, AllocError>
        ensures { IfOk result (λ shared. shared ≡ self.now) }
    {
        match &self.nodes {
            None => Ok(SharedNodes::none()),
            Some(nodes) => {
                let nodes = nodes.clone()?;
                Ok(SharedNodes { nodes: Some(nodes) })
            }
        }
    }

    /// The nodes.
    pub(crate) fn as_slice(&self) -> &[Booting]
        ensures { result.now ≡ self.now }
    {
        match &self.nodes {
            None => &[],
            Some(nodes) => nodes.as_slice(),
        }
    }

    /// The nodes as one's own, to be changed: a copy of them where others share them. None are left here.
    pub(crate) fn take(&mut self, alloc: Global) -> Result<Vec<Booting>, AllocError>
        ensures { IfOk result (λ nodes. nodes.items ≡ self.old) }
    {
        match self.nodes.take() {
            None => Ok(Vec::new(alloc)),
            Some(nodes) => Rc::unwrap_or_clone(nodes),
        }
    }
}
