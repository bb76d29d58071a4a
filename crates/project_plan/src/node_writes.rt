//! The writes of a node.
ghost use Rattle.std.specs.Prelude.{◌≡◌, ◌≤◌, All, length};
ghost use Rattle.concise_dcf.specs.Writes.{IsSized};

use concise_dcf::Write;
use std::marker::Model;

/// The writes that a node gets, in their order: each of data of 1 to 512 bytes, and so many that 32
/// bits count them.
#[derive(Drop)]
pub struct NodeWrites {
    writes: Vec<Write>,
}

impl Model for NodeWrites {
    ghost use Rattle.std.specs.Prelude.{◌≤◌, All, List, length};
    ghost use Rattle.concise_dcf.specs.Writes.{IsSized};
    ghost use Rattle.concise_dcf.specs.declared.write.Write.{Write as written};

    ghost Value = { List written };

    ghost view = { λ node. node.writes.items };

    ghost invariant = { λ node. (length node.writes.items ≤ 4294967295)
        × All IsSized node.writes.items };
}

impl NodeWrites {
    /// These writes.
    pub fn new(writes: Vec<Write>) -> NodeWrites
        requires count { length writes.items ≤ 4294967295 }
        requires sizes { All IsSized writes.items }
        ensures { result ≡ writes.items }
    {
        NodeWrites { writes }
    }

    /// The writes in their order.
    pub fn as_slice(&self) -> &[Write]
        ensures writes { result.now ≡ self.now }
        ensures count { length result.now ≤ 4294967295 }
        ensures sizes { All IsSized result.now }
    {
        &self.writes
    }
}
