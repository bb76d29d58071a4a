//! What the DCF of a node is built from.

use base::{ListedText, Octets, Shared};
use eds_device::DataSheet;
use kept_values::Makes;
use project_plan::NodeWrites;

/// The device, the name, the writes and the number of a node, and the bit rate in kbit/s.
#[derive(Drop)]
pub struct DcfFrom {
    /// The device of the node.
    pub device: Shared<DataSheet>,
    /// Its name.
    pub name: Octets,
    /// The bit rate in kbit/s.
    pub rate: u16,
    /// Its writes in their order.
    pub writes: Shared<NodeWrites>,
    /// Its number.
    pub node: u8,
}

impl Makes<Shared<ListedText>> for DcfFrom {
    ghost use Rattle.project_parts.specs.Made.{dcf_made};

    ghost made = { dcf_made };
}
