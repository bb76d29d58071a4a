//! A node of the network.

ghost use Rattle.std.specs.Prelude.{◌≡◌, ◌↔◌, IsTrue};

use base::Octets;
use node_parameters::Params;
use std::alloc::AllocError;

/// A node of the network, which its number names.
#[derive(Drop)]
pub struct Node {
    /// Its name, which no other node has.
    pub name: Octets,
    /// The name of the EDS that it is made from.
    pub eds: Octets,
    /// Whether it is mandatory (CiA 302): the manager starts the network only once it is configured.
    pub mandatory: bool,
    /// Its parameters.
    pub params: Params,
}

impl Node {
    /// Whether the other has the same name, EDS, need and parameters. Takes time by the number of parameters
    /// and the length of their texts up to the first difference, and no memory.
    pub fn same(&self, other: &Node) -> bool
        ensures { IsTrue result ↔ (self.now ≡ other.now) }
    {
        self.name.as_slice() == other.name.as_slice()
            && self.eds.as_slice() == other.eds.as_slice()
            && self.mandatory == other.mandatory
            && self.params.same(&other.params)
    }
}

impl Clone for Node {
    ghost is_clone = { λ a b. b ≡ a };

    fn clone(&self) -> Result<Node, AllocError> {
        let name = self.name.clone()?;
        let eds = self.eds.clone()?;
        let params = self.params.copy()?;
        Ok(Node {
            name,
            eds,
            mandatory: self.mandatory,
            params,
        })
    }
}
