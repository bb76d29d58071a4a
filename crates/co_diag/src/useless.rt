//! Receives that are of no use, put at the end of what was found.
ghost use Rattle.std.specs.Prelude.{◌≡◌, ◌++◌, [], OnOk, IfOk, filter_map};
ghost use Rattle.std.specs.List.{cons_option, flat_map};
ghost use Rattle.diag_lines.specs.declared.code.Code.TheVariants.{UselessReceive};
ghost use Rattle.diag_lines.specs.declared.subject.Subject.TheVariants as of;
ghost use Rattle.diag_nodes.specs.Devices.{AreAllRead};
ghost use Rattle.diag_nodes.specs.Found.{diagnostic};
ghost use Rattle.co_diag.specs.Found.{useless_receive, useless_receives};
ghost use Rattle.co_diag.specs.Holds.{is_useless, lacks_event, rpdo_taken};

use diag_lines::{Code, Diag, Name, Subject};
use diag_nodes::device_for;
use pdo_findings::can_have_event;
use pdo_plan::{Outcome, Plan, PlannedMessage, consumer_at};
use pdo_stations::AsMade;
use project_messages::{Linked, Receive};
use project_plan::Library;
use std::alloc::{AllocError, Global};

/// The RPDO by which a node takes a message, where that is clean.
fn rpdo_taken(outcome: &Outcome, node: u8) -> Option<u16>
    ensures { result ≡ rpdo_taken outcome.now node }
{
    let Outcome::Planned(clean) = outcome else {
        return None;
    };
    let consumer = consumer_at(clean.consumers.as_slice(), node)?;
    Some(consumer.rpdo)
}

/// Whether an RPDO of a node can't have an event time.
fn lacks_event(library: &Library<'_>, node: u8, event: u16, rpdo: u16) -> Result<bool, AllocError>
    requires { AreAllRead library.now }
    ensures { IfOk result (λ lacks. lacks ≡ lacks_event library.now.project node event rpdo) }
{
    let Some(device) = device_for(library, node) else {
        return Ok(false);
    };
    let made = AsMade::of(device, node)?;
    Ok(!can_have_event(&made, rpdo, event))
}

/// Whether a receive of a message is of no use.
#[tactic(auto, unfolding(crate::specs::Holds::is_useless))]
fn is_useless(
    library: &Library<'_>,
    linked: &Linked,
    outcome: &Outcome,
    node: u8,
    receive: Receive,
) -> Result<bool, AllocError>
    requires { AreAllRead library.now }
    ensures { IfOk result (λ useless. useless
        ≡ is_useless library.now.project linked.now outcome.now (node, receive)) }
{
    if !linked.sinks.has_node(node) {
        return Ok(true);
    }
    match rpdo_taken(outcome, node) {
        Some(rpdo) => lacks_event(library, node, receive.event, rpdo),
        None => Ok(false),
    }
}

/// Says that a receive of a message is of no use.
fn useless_diagnostic(alloc: Global, name: &[u8], node: u8) -> Result<Diag, AllocError>
    ensures { IfOk result (λ diag. diag ≡ diagnostic UselessReceive (of.Receive name.now node)) }
{
    Ok(Diag {
        code: Code::UselessReceive,
        subject: Subject::Receive(Name::from_slice(alloc, name)?, node),
    })
}

/// Finds a receive of a message to be of no use, where it is.
fn find_if_useless(
    found: &mut Vec<Diag>,
    alloc: Global,
    library: &Library<'_>,
    message: &PlannedMessage,
    linked: &Linked,
    node: u8,
    receive: Receive,
) -> Result<(), AllocError>
    requires { AreAllRead library.now }
    ensures { OnOk result (found.new.items ≡ found.old.items
        ++ cons_option (useless_receive library.now.project message.now linked.now (node, receive)) []) }
{
    if is_useless(library, linked, &message.outcome, node, receive)? {
        let diag = useless_diagnostic(alloc, message.name.as_slice(), node)?;
        found.push(diag)?;
    }
    Ok(())
}

/// Finds those of a message.
fn find_of_linked(
    found: &mut Vec<Diag>,
    alloc: Global,
    library: &Library<'_>,
    message: &PlannedMessage,
    linked: &Linked,
) -> Result<(), AllocError>
    requires { AreAllRead library.now }
    ensures { OnOk result (found.new.items ≡ found.old.items
        ++ filter_map (useless_receive library.now.project message.now linked.now) linked.now.receives) }
{
    for (node, receive) in linked.receives.iter() {
        find_if_useless(found, alloc, library, message, linked, *node, *receive)?;
    }
    Ok(())
}

/// Finds those of a message of the plan.
#[tactic(auto, unfolding(crate::specs::Found::useless_receives))]
fn find_of_message(
    found: &mut Vec<Diag>,
    alloc: Global,
    library: &Library<'_>,
    message: &PlannedMessage,
) -> Result<(), AllocError>
    requires { AreAllRead library.now }
    ensures { OnOk result (found.new.items
        ≡ found.old.items ++ useless_receives library.now.project message.now) }
{
    match library.project().messages().get(message.name.as_slice()) {
        Some(linked) => find_of_linked(found, alloc, library, message, linked),
        None => Ok(()),
    }
}

/// Finds those of all messages of a plan.
pub(crate) fn find_useless_receives(
    found: &mut Vec<Diag>,
    alloc: Global,
    library: &Library<'_>,
    plan: &Plan,
) -> Result<(), AllocError>
    requires { AreAllRead library.now }
    ensures { OnOk result (found.new.items
        ≡ found.old.items ++ flat_map (useless_receives library.now.project) plan.now) }
{
    for message in plan.messages() {
        find_of_message(found, alloc, library, message)?;
    }
    Ok(())
}
