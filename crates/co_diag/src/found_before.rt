//! What was found before of what may not have changed.

use crate::lines_found::LinesFound;
use diag_nodes::NodesFound;
use std::alloc::Global;

/// What `diagnostics_by` found before: of nodes by themselves, and of texts that no node has. It changes no answer.
#[derive(Drop)]
pub struct FoundBefore {
    pub(crate) nodes: NodesFound,
    pub(crate) lines: LinesFound,
}

impl FoundBefore {
    /// Nothing was found yet.
    pub fn new(alloc: Global) -> FoundBefore {
        FoundBefore {
            nodes: NodesFound::new(alloc),
            lines: LinesFound::new(alloc),
        }
    }
}
