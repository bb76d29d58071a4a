//! What is wrong with messages, put at the end of what was found.
ghost use Rattle.std.specs.Prelude.{◌≡◌, ◌++◌, OnOk, IfOk, map};
ghost use Rattle.std.specs.FinMap as table;
ghost use Rattle.std.specs.List.{flat_map};
ghost use Rattle.cia301.specs.TransmissionTypes.{is_on_request};
ghost use Rattle.diag_lines.specs.declared.code.Code.TheVariants.{NoSync, RemoteType, UnreachedStart};
ghost use Rattle.diag_lines.specs.declared.subject.Subject.TheVariants as of;
ghost use Rattle.co_diag.specs.Faults.{message_code};
ghost use Rattle.diag_nodes.specs.Found.{diagnostic};
ghost use Rattle.co_diag.specs.Found.{message_faults, message_warnings, said_if};
ghost use Rattle.co_diag.specs.Holds.{is_cyclic, starts_at_none, type_of, waits_for_none};

use cia301::TransmissionType;
use co_project::Project;
use diag_lines::{Code, Diag, Name, Subject};
use pdo_plan::{MessageFault, Outcome, Plan, PlannedMessage};
use project_messages::Linked;
use std::alloc::{AllocError, Global};

/// The code of a fault.
fn message_code(fault: MessageFault) -> Code
    ensures { result ≡ message_code fault }
{
    match fault {
        MessageFault::NoObjects => Code::NoObjects,
        MessageFault::TpdoTaken => Code::TpdoTaken,
        MessageFault::TooManyBits => Code::TooManyBits,
        MessageFault::NotMappable => Code::NotMappable,
        MessageFault::Mismatched => Code::Mismatched,
        MessageFault::NoRpdo => Code::NoRpdo,
        MessageFault::NoDummy => Code::NoDummy,
        MessageFault::BadIdentifier => Code::BadIdentifier,
        MessageFault::NoIdentifier => Code::NoIdentifier,
        MessageFault::ReservedType => Code::ReservedType,
    }
}

/// Says something of a message.
fn said_of(alloc: Global, code: Code, name: &[u8]) -> Result<Diag, AllocError>
    ensures { IfOk result (λ diag. diag ≡ diagnostic code (of.Message name.now)) }
{
    Ok(Diag {
        code,
        subject: Subject::Message(Name::from_slice(alloc, name)?),
    })
}

/// Finds the faults of a message.
fn find_faults(
    found: &mut Vec<Diag>,
    alloc: Global,
    name: &[u8],
    faults: &[MessageFault],
) -> Result<(), AllocError>
    ensures { OnOk result (found.new.items ≡ found.old.items
        ++ map (λ fault. diagnostic (message_code fault) (of.Message name.now)) faults.now) }
{
    for fault in faults {
        let diag = said_of(alloc, message_code(*fault), name)?;
        found.push(diag)?;
    }
    Ok(())
}

/// Finds what the plan says against a message.
#[tactic(auto, unfolding(crate::specs::Found::message_faults))]
fn find_of_message(
    found: &mut Vec<Diag>,
    alloc: Global,
    message: &PlannedMessage,
) -> Result<(), AllocError>
    ensures { OnOk result (found.new.items ≡ found.old.items ++ message_faults message.now) }
{
    match &message.outcome {
        Outcome::Planned(_clean) => Ok(()),
        Outcome::Faulty(faults) => {
            find_faults(found, alloc, message.name.as_slice(), faults.as_slice())
        }
    }
}

/// Finds the faults that keep messages out of the plan.
pub(crate) fn find_message_faults(
    found: &mut Vec<Diag>,
    alloc: Global,
    plan: &Plan,
) -> Result<(), AllocError>
    ensures { OnOk result (found.new.items ≡ found.old.items ++ flat_map message_faults plan.now) }
{
    for message in plan.messages() {
        find_of_message(found, alloc, message)?;
    }
    Ok(())
}

/// Says something of a message of which it holds.
fn say_if(
    found: &mut Vec<Diag>,
    alloc: Global,
    holds: bool,
    code: Code,
    name: &[u8],
) -> Result<(), AllocError>
    ensures { OnOk result (found.new.items ≡ found.old.items ++ said_if holds code name.now) }
{
    if holds {
        let diag = said_of(alloc, code, name)?;
        found.push(diag)?;
    }
    Ok(())
}

/// Whether a message waits for a SYNC, where the period of the manager's is 0.
fn waits_for_none(project: &Project, linked: &Linked) -> bool
    ensures { result ≡ waits_for_none project.now linked.now }
{
    TransmissionType::of(linked.message.transmission).is_synchronous()
        && project.manager().sync_us == 0
}

/// Whether SYNCs are counted by a type.
fn is_cyclic(kind: TransmissionType) -> bool
    ensures { result ≡ is_cyclic kind }
{
    matches!(kind, TransmissionType::Cyclic(_))
}

/// Whether a message counts SYNCs from a number on that none of them has.
fn starts_at_none(project: &Project, linked: &Linked) -> bool
    ensures { result ≡ starts_at_none project.now linked.now }
{
    is_cyclic(TransmissionType::of(linked.message.transmission))
        && project.sync_counter() < linked.start
}

/// Says what is to be said of the transmission type and the SYNC start value of a message.
fn find_of_linked(
    found: &mut Vec<Diag>,
    alloc: Global,
    project: &Project,
    name: &[u8],
    linked: &Linked,
) -> Result<(), AllocError>
    ensures { OnOk result (found.new.items ≡ found.old.items
        ++ said_if (is_on_request (type_of linked.now)) RemoteType name.now
        ++ said_if (waits_for_none project.now linked.now) NoSync name.now
        ++ said_if (starts_at_none project.now linked.now) UnreachedStart name.now) }
{
    let remote = TransmissionType::of(linked.message.transmission).is_on_request();
    say_if(found, alloc, remote, Code::RemoteType, name)?;
    let waits = waits_for_none(project, linked);
    say_if(found, alloc, waits, Code::NoSync, name)?;
    let starts = starts_at_none(project, linked);
    say_if(found, alloc, starts, Code::UnreachedStart, name)?;
    Ok(())
}

/// Finds the messages whose transmission types ask for remote frames, or wait for a SYNC where there is none, and
/// those whose SYNC start value is that of no SYNC.
pub(crate) fn find_warnings(
    found: &mut Vec<Diag>,
    alloc: Global,
    project: &Project,
) -> Result<(), AllocError>
    ensures { OnOk result (found.new.items ≡ found.old.items
        ++ flat_map (message_warnings project.now) (table.entries project.now.messages)) }
{
    for (name, linked) in project.messages().iter() {
        find_of_linked(found, alloc, project, name, linked)?;
    }
    Ok(())
}
