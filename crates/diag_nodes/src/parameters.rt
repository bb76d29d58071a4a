//! What is wrong with the parameters of nodes, put at the end of what was found.
ghost use Rattle.std.specs.Prelude.{◌≡◌, ◌++◌, OnOk, IfOk, filter_map};
ghost use Rattle.std.specs.FinMap as table;
ghost use Rattle.diag_nodes.specs.Codes.{parameter_code};
ghost use Rattle.diag_nodes.specs.Found.{parameter_diagnostic};
ghost use Rattle.project_plan.specs.Network.{member_of};

use co_project::Node;
use diag_lines::{Code, Diag, Subject};
use eds_device::DataSheet;
use node_parameters::{ParameterFault, judge, parameter_text};
use std::alloc::{AllocError, Global};

/// The code of a fault.
pub fn parameter_code(fault: ParameterFault) -> Code
    ensures { result ≡ parameter_code fault }
{
    match fault {
        ParameterFault::NoEntry => Code::NoEntry,
        ParameterFault::NotModelled => Code::NotModelled,
        ParameterFault::NotWritable => Code::NotWritable,
        ParameterFault::Unreadable => Code::Unreadable,
        ParameterFault::OutsideLimits => Code::OutsideLimits,
    }
}

/// What is said of the parameter of an entry.
#[tactic(auto, unfolding(crate::specs::Found::parameter_diagnostic))]
fn unfit_parameter(
    alloc: Global,
    id: u8,
    node: &Node,
    device: &DataSheet,
    index: u16,
    sub: u8,
) -> Result<Option<Diag>, AllocError>
    ensures { IfOk result (λ diag. diag ≡ parameter_diagnostic (member_of id node.now device.now) (index, sub)) }
{
    let Some(text) = parameter_text(&node.params, device, index, sub) else {
        return Ok(None);
    };
    match judge(alloc, device, id, index, sub, text)? {
        Ok(_bytes) => Ok(None),
        Err(fault) => Ok(Some(Diag {
            code: parameter_code(fault),
            subject: Subject::Param(id, index, sub),
        })),
    }
}

/// Finds the faults of a node's own parameters.
pub(crate) fn find_own(
    found: &mut Vec<Diag>,
    alloc: Global,
    id: u8,
    node: &Node,
    device: &DataSheet,
) -> Result<(), AllocError>
    ensures { OnOk result (found.new.items ≡ found.old.items
        ++ filter_map (λ own. parameter_diagnostic (member_of id node.now device.now) own.0)
        (table.entries node.now.params)) }
{
    for ((index, sub), _text) in node.params.iter() {
        if let Some(diag) = unfit_parameter(alloc, id, node, device, *index, *sub)? {
            found.push(diag)?;
        }
    }
    Ok(())
}

/// Finds the faults of the parameters of entries of a device.
pub(crate) fn find_given(
    found: &mut Vec<Diag>,
    alloc: Global,
    id: u8,
    node: &Node,
    device: &DataSheet,
    places: &[(u16, u8)],
) -> Result<(), AllocError>
    ensures { OnOk result (found.new.items ≡ found.old.items
        ++ filter_map (parameter_diagnostic (member_of id node.now device.now)) places.now) }
{
    for (index, sub) in places {
        if let Some(diag) = unfit_parameter(alloc, id, node, device, *index, *sub)? {
            found.push(diag)?;
        }
    }
    Ok(())
}
