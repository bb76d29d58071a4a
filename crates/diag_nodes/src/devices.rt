//! The devices of a project's nodes, all of them read.
ghost use Rattle.std.specs.Prelude.{◌≡◌, IfOk, OnOk, option_copied};
ghost use Rattle.project_plan.specs.Network.{device_at};
ghost use Rattle.project_plan.specs.Library.{IsRead};
ghost use Rattle.diag_nodes.specs.Devices.{AreAllRead};
ghost use Rattle.diag_nodes.specs.Devices.{device_for};

use base::{Shared, share_of};
use eds_device::DataSheet;
use project_plan::Library;
use std::alloc::AllocError;

/// Reads the devices of all nodes of a project, each text once. Takes time by the number of nodes and the length of the
/// texts that weren't read, and memory for their devices; want of memory is the only error.
pub fn read_all(library: &mut Library<'_>) -> Result<(), AllocError>
    ensures project { library.new.project ≡ library.old.project }
    ensures read { OnOk result (AreAllRead library.new) }
{
    let project = library.project();
    for (_id, node) in project.nodes() {
        library.read(node.eds.as_slice())?;
    }
    Ok(())
}

/// The device of an EDS that was read, where the project has its text. Takes time by the logarithm of their number.
pub fn device_of<'b>(library: &'b Library<'_>, name: &[u8]) -> Option<&'b DataSheet>
    requires { IsRead library.now name.now }
    ensures { option_copied result ≡ device_at library.now.project name.now }
{
    library.device(name)
}

/// The same for others to hold.
pub(crate) fn shared_device(
    library: &Library<'_>,
    name: &[u8],
) -> Result<Option<Shared<DataSheet>>, AllocError>
    requires { IsRead library.now name.now }
    ensures { IfOk result (λ device. device ≡ device_at library.now.project name.now) }
{
    share_of(library.shared(name))
}

/// The device of a node, where it is there and its EDS has a text. Takes time by the logarithms of their numbers.
pub fn device_for<'b>(library: &'b Library<'_>, id: u8) -> Option<&'b DataSheet>
    requires { AreAllRead library.now }
    ensures { option_copied result ≡ device_for library.now.project id }
{
    let node = library.project().node(id)?;
    device_of(library, node.eds.as_slice())
}
