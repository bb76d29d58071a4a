//! The edits of messages: the messages, their sources, their sinks and their receives.
ghost use Rattle.std.specs.Prelude.{◌≡◌, IfOk};
ghost use Rattle.base.specs.Gives.{Gives};
ghost use Rattle.project_edits.specs.Faults.{is_memory};
ghost use Rattle.project_messages.specs.Messages.{IsMessage};
ghost use Rattle.script_commands.specs.Links.{stated_numbers, message_within, message_of, start_of, drop_message_of};
ghost use Rattle.script_commands.specs.Links.{source_of, unsource_of, sink_of, unsink_of, receive_of, unreceive_of};

use crate::numbers::{cob, decimal, index, sub_index};
use crate::stated::Stated;
use crate::words::{last_word, name};
use base::{Octets, next_word};
use project_edits::limits::{
    byte, identifier, node_number, position, rpdo_or_any, short, sync_start, tpdo_number,
};
use project_edits::{Command, Edit, EditFault};
use project_messages::Message;
use std::alloc::Global;

/// `ID TPDO TYPE INHIBIT EVENT COB`
#[tactic(auto, unfolding(crate::specs::Links::stated_numbers))]
fn stated(rest: &[u8]) -> Result<Stated, EditFault>
    ensures { Gives is_memory (λ s. s) result (stated_numbers rest.now) }
{
    let (node, rest) = next_word(rest);
    let (tpdo, rest) = next_word(rest);
    let (transmission, rest) = next_word(rest);
    let (inhibit, rest) = next_word(rest);
    let (event, rest) = next_word(rest);
    let last = last_word(rest)?;
    Ok(Stated {
        node: decimal(node)?,
        tpdo: decimal(tpdo)?,
        transmission: decimal(transmission)?,
        inhibit: decimal(inhibit)?,
        event: decimal(event)?,
        cob: cob(last)?,
    })
}

/// These numbers, where each is within its limits.
#[tactic(auto, unfolding(crate::specs::Links::message_within, project_messages::specs::Messages::IsMessage))]
fn message_within(stated: Stated) -> Result<Message, EditFault>
    ensures value { Gives is_memory (λ m. m) result (message_within stated) }
    ensures within { IfOk result (λ m. IsMessage m) }
{
    Ok(Message {
        node: node_number(stated.node)?,
        tpdo: tpdo_number(stated.tpdo)?,
        transmission: byte(stated.transmission)?,
        inhibit: short(stated.inhibit)?,
        event: short(stated.event)?,
        cob: identifier(stated.cob)?,
    })
}

/// `message NAME ID TPDO TYPE INHIBIT EVENT COB`
#[tactic(auto, unfolding(crate::specs::Links::message_of, project_edits::specs::Edits::IsEdit))]
pub(crate) fn message(alloc: Global, rest: &[u8]) -> Result<Command, EditFault>
    ensures { Gives is_memory (λ c. c) result (message_of rest.now) }
{
    let (called, rest) = next_word(rest);
    let called = name(called)?;
    let stated = stated(rest)?;
    let message = message_within(stated)?;
    let name = Octets::from_slice(alloc, called)?;
    Ok(Command::new(Edit::Message { name, message }))
}

/// `start MESSAGE N`
#[tactic(auto, unfolding(crate::specs::Links::start_of, project_edits::specs::Edits::IsEdit))]
pub(crate) fn start(alloc: Global, rest: &[u8]) -> Result<Command, EditFault>
    ensures { Gives is_memory (λ c. c) result (start_of rest.now) }
{
    let (called, rest) = next_word(rest);
    let number = last_word(rest)?;
    let called = name(called)?;
    let number = decimal(number)?;
    let start = sync_start(number)?;
    let message = Octets::from_slice(alloc, called)?;
    Ok(Command::new(Edit::Start { message, start }))
}

/// `drop-message NAME`
#[tactic(auto, unfolding(crate::specs::Links::drop_message_of, project_edits::specs::Edits::IsEdit))]
pub(crate) fn drop_message(alloc: Global, rest: &[u8]) -> Result<Command, EditFault>
    ensures { Gives is_memory (λ c. c) result (drop_message_of rest.now) }
{
    let called = name(last_word(rest)?)?;
    let name = Octets::from_slice(alloc, called)?;
    Ok(Command::new(Edit::DropMessage { name }))
}

/// `source MESSAGE POS INDEX SUB`
#[tactic(auto, unfolding(crate::specs::Links::source_of, project_edits::specs::Edits::IsEdit))]
pub(crate) fn source(alloc: Global, rest: &[u8]) -> Result<Command, EditFault>
    ensures { Gives is_memory (λ c. c) result (source_of rest.now) }
{
    let (called, rest) = next_word(rest);
    let (place, rest) = next_word(rest);
    let (entry, rest) = next_word(rest);
    let sub = last_word(rest)?;
    let called = name(called)?;
    let place = decimal(place)?;
    let index = index(entry)?;
    let sub = sub_index(sub)?;
    let position = position(place)?;
    let message = Octets::from_slice(alloc, called)?;
    Ok(Command::new(Edit::Source {
        message,
        position,
        index,
        sub,
    }))
}

/// `unsource MESSAGE POS`
#[tactic(auto, unfolding(crate::specs::Links::unsource_of, project_edits::specs::Edits::IsEdit))]
pub(crate) fn unsource(alloc: Global, rest: &[u8]) -> Result<Command, EditFault>
    ensures { Gives is_memory (λ c. c) result (unsource_of rest.now) }
{
    let (called, rest) = next_word(rest);
    let place = last_word(rest)?;
    let called = name(called)?;
    let place = decimal(place)?;
    let position = position(place)?;
    let message = Octets::from_slice(alloc, called)?;
    Ok(Command::new(Edit::Unsource { message, position }))
}

/// `sink MESSAGE POS ID INDEX SUB`
#[tactic(auto, unfolding(crate::specs::Links::sink_of, project_edits::specs::Edits::IsEdit))]
pub(crate) fn sink(alloc: Global, rest: &[u8]) -> Result<Command, EditFault>
    ensures { Gives is_memory (λ c. c) result (sink_of rest.now) }
{
    let (called, rest) = next_word(rest);
    let (place, rest) = next_word(rest);
    let (node, rest) = next_word(rest);
    let (entry, rest) = next_word(rest);
    let sub = last_word(rest)?;
    let called = name(called)?;
    let place = decimal(place)?;
    let node = decimal(node)?;
    let index = index(entry)?;
    let sub = sub_index(sub)?;
    let position = position(place)?;
    let node = node_number(node)?;
    let message = Octets::from_slice(alloc, called)?;
    Ok(Command::new(Edit::Sink {
        message,
        position,
        node,
        index,
        sub,
    }))
}

/// `unsink MESSAGE POS ID`
#[tactic(auto, unfolding(crate::specs::Links::unsink_of, project_edits::specs::Edits::IsEdit))]
pub(crate) fn unsink(alloc: Global, rest: &[u8]) -> Result<Command, EditFault>
    ensures { Gives is_memory (λ c. c) result (unsink_of rest.now) }
{
    let (called, rest) = next_word(rest);
    let (place, rest) = next_word(rest);
    let node = last_word(rest)?;
    let called = name(called)?;
    let place = decimal(place)?;
    let node = decimal(node)?;
    let position = position(place)?;
    let node = node_number(node)?;
    let message = Octets::from_slice(alloc, called)?;
    Ok(Command::new(Edit::Unsink {
        message,
        position,
        node,
    }))
}

/// `receive MESSAGE ID RPDO MS`
#[tactic(auto, unfolding(crate::specs::Links::receive_of, project_edits::specs::Edits::IsEdit))]
pub(crate) fn receive(alloc: Global, rest: &[u8]) -> Result<Command, EditFault>
    ensures { Gives is_memory (λ c. c) result (receive_of rest.now) }
{
    let (called, rest) = next_word(rest);
    let (node, rest) = next_word(rest);
    let (rpdo, rest) = next_word(rest);
    let event = last_word(rest)?;
    let called = name(called)?;
    let node = decimal(node)?;
    let rpdo = decimal(rpdo)?;
    let event = decimal(event)?;
    let node = node_number(node)?;
    let rpdo = rpdo_or_any(rpdo)?;
    let event = short(event)?;
    let message = Octets::from_slice(alloc, called)?;
    Ok(Command::new(Edit::Receive {
        message,
        node,
        rpdo,
        event,
    }))
}

/// `unreceive MESSAGE ID`
#[tactic(auto, unfolding(crate::specs::Links::unreceive_of, project_edits::specs::Edits::IsEdit))]
pub(crate) fn unreceive(alloc: Global, rest: &[u8]) -> Result<Command, EditFault>
    ensures { Gives is_memory (λ c. c) result (unreceive_of rest.now) }
{
    let (called, rest) = next_word(rest);
    let node = last_word(rest)?;
    let called = name(called)?;
    let node = decimal(node)?;
    let node = node_number(node)?;
    let message = Octets::from_slice(alloc, called)?;
    Ok(Command::new(Edit::Unreceive { message, node }))
}
