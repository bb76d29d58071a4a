//! The unreadable defaults of a node's device, put at the end of what was found.
ghost use Rattle.std.specs.Prelude.{◌≡◌, ◌++◌, OnOk, filter_map};
ghost use Rattle.diag_nodes.specs.Found.{unreadable_default};
ghost use Rattle.project_plan.specs.Network.{member_of};

use co_project::Node;
use diag_lines::{Code, Diag, Subject};
use eds_device::DataSheet;
use project_plan::spells_none;
use std::alloc::AllocError;

/// What is said of the default of an entry.
#[tactic(auto, unfolding(crate::specs::Found::unreadable_default))]
fn unreadable_default(id: u8, node: &Node, device: &DataSheet, index: u16, sub: u8) -> Option<Diag>
    ensures { result ≡ unreadable_default (member_of id node.now device.now) (index, sub) }
{
    let _ = node;
    let (text, kind) = device.default_given(index, sub)?;
    if !spells_none(id, &text, kind) {
        return None;
    }
    Some(Diag {
        code: Code::Unreadable,
        subject: Subject::Default(id, index, sub),
    })
}

/// Finds the unreadable defaults at places of a node's device.
pub(crate) fn find_unreadable(
    found: &mut Vec<Diag>,
    id: u8,
    node: &Node,
    device: &DataSheet,
    places: &[(u16, u8)],
) -> Result<(), AllocError>
    ensures { OnOk result (found.new.items ≡ found.old.items
        ++ filter_map (unreadable_default (member_of id node.now device.now)) places.now) }
{
    for place in places {
        if let Some(diag) = unreadable_default(id, node, device, place.0, place.1) {
            found.push(diag)?;
        }
    }
    Ok(())
}
