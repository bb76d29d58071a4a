//! The inputs of a node's concise DCF as they are now.
ghost use Rattle.std.specs.Prelude.{◌≡◌, ◌↔◌, IfOk, IsTrue, option_map};
ghost use Rattle.project_parts.specs.Offered.{concise_by, offered_concise};

use crate::concise_from::ConciseFrom;
use crate::device_writes::DeviceWrites;
use base::{ListedBytes, Shared};
use concise_dcf::{encode, same_writes};
use kept_values::Offers;
use project_plan::NodeWrites;
use std::alloc::{AllocError, Global};

/// The writes of a node.
#[derive(Drop)]
pub struct ConciseNow {
    pub writes: Shared<NodeWrites>,
}

impl ConciseNow {
    /// What the concise DCF of a node is built from, if it is there with its device.
    pub fn of(written: Option<DeviceWrites>) -> Option<ConciseNow>
        ensures { option_map offered_concise result ≡ option_map concise_by written }
    {
        let written = written?;
        Some(ConciseNow {
            writes: written.into_writes(),
        })
    }
}

impl Offers<ConciseFrom, Shared<ListedBytes>> for ConciseNow {
    ghost offered = { λ o. record { writes = o.writes } };

    fn same(&self, kept: &ConciseFrom) -> bool {
        same_writes(kept.writes.get().as_slice(), self.writes.get().as_slice())
    }

    fn copy(&self, _alloc: Global) -> Result<ConciseFrom, AllocError> {
        let writes = self.writes.share()?;
        Ok(ConciseFrom { writes })
    }

    #[tactic(auto, unfolding(crate::specs::Made::concise_made))]
    fn make(&self, alloc: Global) -> Result<Shared<ListedBytes>, AllocError> {
        let bytes = encode(alloc, self.writes.get().as_slice())?;
        let listed = ListedBytes::new(alloc, bytes)?;
        Shared::new(alloc, listed)
    }
}
