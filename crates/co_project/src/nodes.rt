//! The nodes by number.
ghost use Rattle.std.specs.Prelude.{◌≡◌, ◌↔◌, IsErrOf, IsTrue, None, IfOk, OnOk, OnErr, option_copied};
ghost use Rattle.std.specs.FinMap as map;
ghost use Rattle.project_edits.specs.Accepts.{Accepts};
ghost use Rattle.co_project.specs.Tables.{node_at, name_taken, is_used, has_mandatory, put_node, put_need};
ghost use Rattle.co_project.specs.Tables.{adds_param, put_param, drop_param};

use crate::node::Node;
use base::Octets;
use node_parameters::Params;
use project_edits::EditFault;
use std::alloc::{AllocError, Global};
use std::collections::BTreeMap;
use std::collections::btree_map::Iter;
use std::marker::Model;

/// The nodes by number.
#[derive(Drop)]
pub(crate) struct Nodes {
    nodes: BTreeMap<u8, Node>,
}

impl Model for Nodes {
    ghost use Rattle.std.specs.Coded.{coded_ℕ};
    ghost use Rattle.std.specs.FinMap as map;
    ghost use Rattle.co_project.specs.contracts.node.Node as node;
    ghost use Rattle.co_project.specs.Tables.{Nodes as by_number};

    ghost Value = { by_number };

    ghost coded = { map.code coded_ℕ node.the_row.coded };

    ghost view = { λ n. map.from_entries n.nodes.entries };
}

/// Whether the same numbers have the same nodes.
fn same_nodes(a: &Nodes, b: &Nodes) -> bool
    ensures { IsTrue result ↔ (map.entries a.now ≡ map.entries b.now) }
{
    let mut others = b.iter();
    for (id, node) in a.iter() {
        let Some((other_id, other)) = others.next() else {
            return false;
        };
        if *id != *other_id || !node.same(other) {
            return false;
        }
    }
    others.next().is_none()
}

impl Nodes {
    pub fn new(alloc: Global) -> Self
        ensures { result ≡ map.empty }
    {
        Nodes {
            nodes: BTreeMap::new(alloc),
        }
    }

    /// Equal nodes. Takes time and memory by their number, that of their parameters and the length of
    /// the parameters' texts; want of memory is the only error.
    pub fn copy(&self) -> Result<Nodes, AllocError>
        ensures { IfOk result (λ nodes. nodes ≡ self.now) }
    {
        Ok(Nodes {
            nodes: self.nodes.clone()?,
        })
    }

    /// Whether the others are the same by the same numbers. Takes time by their number, that of their
    /// parameters and the length of the parameters' texts up to the first difference, and no memory.
    pub fn same(&self, other: &Nodes) -> bool
        ensures { IsTrue result ↔ (self.now ≡ other.now) }
    {
        same_nodes(self, other)
    }

    pub fn get(&self, id: u8) -> Option<&Node>
        ensures { option_copied result ≡ node_at self.now id }
    {
        self.nodes.get(&id)
    }

    pub fn contains(&self, id: u8) -> bool
        ensures { result ≡ map.contains_key self.now id }
    {
        self.get(id).is_some()
    }

    pub fn iter(&self) -> Iter<'_, u8, Node>
        ensures { result ≡ map.entries self.now }
    {
        self.nodes.iter()
    }

    /// Whether another node has the name.
    pub fn name_taken(&self, id: u8, name: &[u8]) -> bool
        ensures { result ≡ name_taken self.now id name.now }
    {
        self.iter().any(|(other, node)| *other != id && node.name.as_slice() == name)
    }

    /// Whether a node uses the text of a name.
    pub fn use_text(&self, name: &[u8]) -> bool
        ensures { result ≡ is_used self.now name.now }
    {
        self.iter().any(|(_, node)| node.eds.as_slice() == name)
    }

    /// Whether a node is mandatory.
    pub fn have_mandatory(&self) -> bool
        ensures { result ≡ has_mandatory self.now }
    {
        self.iter().any(|(_, node)| node.mandatory)
    }

    /// Gives a node its name and EDS. A known one keeps all else that it has, a new one is optional and
    /// has no parameters. Want of memory changes nothing, and can come at a new one alone.
    pub fn put(
        &mut self,
        alloc: Global,
        id: u8,
        name: Octets,
        eds: Octets,
    ) -> Result<(), AllocError>
        ensures ok { OnOk result (self.new ≡ put_node self.old id name eds) }
        ensures err { OnErr result (self.new ≡ self.old) }
        ensures absent { OnErr result (map.get self.old id ≡ None) }
    {
        if let Some(node) = self.nodes.get_mut(&id) {
            node.name = name;
            node.eds = eds;
            return Ok(());
        }
        let params = Params::new(alloc);
        let node = Node {
            name,
            eds,
            mandatory: false,
            params,
        };
        self.nodes.insert(id, node)?;
        Ok(())
    }

    /// Makes a node, if it is there, mandatory or optional.
    pub fn set_mandatory(&mut self, id: u8, mandatory: bool)
        ensures { self.new ≡ put_need self.old id mandatory }
    {
        let Some(node) = self.nodes.get_mut(&id) else {
            return;
        };
        node.mandatory = mandatory;
    }

    /// Gives a node the text of a parameter.
    pub fn put_param(&mut self, id: u8, index: u16, sub: u8, text: Octets) -> Result<(), EditFault>
        ensures accepts { Accepts self.old self.new result (put_param self.old id (index, sub) text) }
        ensures memory { IsErrOf result EditFault.Memory → IsTrue (adds_param self.old id (index, sub)) }
    {
        let Some(node) = self.nodes.get_mut(&id) else {
            return Err(EditFault::Unknown);
        };
        if node.params.is_full_for(index, sub) {
            return Err(EditFault::Limit);
        }
        node.params.put(index, sub, text)?;
        Ok(())
    }

    /// Takes a parameter of a node away.
    pub fn drop_param(&mut self, id: u8, index: u16, sub: u8) -> Result<(), EditFault>
        ensures accepts { Accepts self.old self.new result (drop_param self.old id (index, sub)) }
        ensures memory { IsErrOf result EditFault.Memory → ⊥ }
    {
        let Some(node) = self.nodes.get_mut(&id) else {
            return Err(EditFault::Unknown);
        };
        if !node.params.contains(index, sub) {
            return Err(EditFault::Unknown);
        }
        node.params.remove(index, sub);
        Ok(())
    }

    /// Takes a node away, and its parameters with it.
    pub fn remove(&mut self, id: u8)
        ensures { self.new ≡ map.remove self.old id }
    {
        self.nodes.remove(&id);
    }
}
