//! The edits of the scenario: events by their numbers.
ghost use Rattle.std.specs.Prelude.{◌≡◌};
ghost use Rattle.base.specs.Gives.{Gives};
ghost use Rattle.project_edits.specs.Faults.{is_memory};
ghost use Rattle.script_commands.specs.Requests.{set_of, switch, power_of, nmt, nmt_of, happening_of, event_of};
ghost use Rattle.script_commands.specs.Requests.{drop_event_of};

use crate::numbers::{decimal, index, sub_index};
use crate::words::{last_word, text};
use base::{Octets, next_word};
use co_scenario::{Event, NmtCommand, TimedEvent};
use project_edits::limits::{event_number, node_number, node_or_all, own_index, time};
use project_edits::{Command, Edit, EditFault};
use std::alloc::Global;

/// `event K TIME`, and what happens then.
#[tactic(auto, unfolding(crate::specs::Requests::event_of))]
pub(crate) fn event(alloc: Global, rest: &[u8]) -> Result<Command, EditFault>
    ensures { Gives is_memory (λ c. c) result (event_of rest.now) }
{
    let (number, rest) = next_word(rest);
    let (time, rest) = next_word(rest);
    let (kind, rest) = next_word(rest);
    let number = decimal(number)?;
    let time = decimal(time)?;
    happening(alloc, number, time, kind, rest)
}

/// `drop-event K`
#[tactic(auto, unfolding(crate::specs::Requests::drop_event_of, project_edits::specs::Edits::IsEdit))]
pub(crate) fn drop_event(rest: &[u8]) -> Result<Command, EditFault>
    ensures { Gives is_memory (λ c. c) result (drop_event_of rest.now) }
{
    let number = decimal(last_word(rest)?)?;
    let number = event_number(number)?;
    Ok(Command::new(Edit::DropEvent { number }))
}

fn happening(
    alloc: Global,
    number: u64,
    time: u64,
    kind: &[u8],
    rest: &[u8],
) -> Result<Command, EditFault>
    ensures { Gives is_memory (λ c. c) result (happening_of number time kind.now rest.now) }
{
    if kind == b"set".as_slice() {
        set(alloc, number, time, rest)
    } else if kind == b"power".as_slice() {
        power(number, time, rest)
    } else if kind == b"nmt".as_slice() {
        nmt(number, time, rest)
    } else {
        Err(EditFault::Syntax)
    }
}

/// `event K TIME set ID INDEX SUB TEXT`
#[tactic(auto, unfolding(crate::specs::Requests::set_of, project_edits::specs::Edits::IsEdit, project_edits::specs::Edits::IsEvent, project_edits::specs::Edits::IsSetting))]
fn set(alloc: Global, number: u64, moment: u64, rest: &[u8]) -> Result<Command, EditFault>
    ensures { Gives is_memory (λ c. c) result (set_of number moment rest.now) }
{
    let (node, rest) = next_word(rest);
    let (entry, rest) = next_word(rest);
    let (sub, rest) = next_word(rest);
    let node = decimal(node)?;
    let index = index(entry)?;
    let sub = sub_index(sub)?;
    let text = text(rest)?;
    let number = event_number(number)?;
    let time = time(moment)?;
    let node = node_number(node)?;
    let index = own_index(index)?;
    let text = Octets::from_slice(alloc, text)?;
    let event = Event::Set {
        node,
        index,
        sub,
        text,
    };
    Ok(Command::new(Edit::Event {
        number,
        event: TimedEvent { time, event },
    }))
}

/// `on` or `off`.
fn switch(word: &[u8]) -> Result<bool, EditFault>
    ensures { Gives is_memory (λ on. on) result (switch word.now) }
{
    if word == b"on".as_slice() {
        Ok(true)
    } else if word == b"off".as_slice() {
        Ok(false)
    } else {
        Err(EditFault::Syntax)
    }
}

/// `event K TIME power ID on` or `off`
#[tactic(auto, unfolding(crate::specs::Requests::power_of, project_edits::specs::Edits::IsEdit, project_edits::specs::Edits::IsEvent))]
fn power(number: u64, moment: u64, rest: &[u8]) -> Result<Command, EditFault>
    ensures { Gives is_memory (λ c. c) result (power_of number moment rest.now) }
{
    let (node, rest) = next_word(rest);
    let on = last_word(rest)?;
    let node = decimal(node)?;
    let on = switch(on)?;
    let number = event_number(number)?;
    let time = time(moment)?;
    let node = node_number(node)?;
    let event = Event::Power { node, on };
    Ok(Command::new(Edit::Event {
        number,
        event: TimedEvent { time, event },
    }))
}

/// A command of the network management (CiA 301) by its number.
fn nmt_command(number: u64) -> Result<NmtCommand, EditFault>
    ensures { Gives is_memory (λ c. c) result (nmt number) }
{
    NmtCommand::from_number(number).ok_or(EditFault::Range)
}

/// `event K TIME nmt CMD ID`
#[tactic(auto, unfolding(crate::specs::Requests::nmt_of, project_edits::specs::Edits::IsEdit, project_edits::specs::Edits::IsEvent))]
fn nmt(number: u64, moment: u64, rest: &[u8]) -> Result<Command, EditFault>
    ensures { Gives is_memory (λ c. c) result (nmt_of number moment rest.now) }
{
    let (command, rest) = next_word(rest);
    let node = last_word(rest)?;
    let command = decimal(command)?;
    let node = decimal(node)?;
    let number = event_number(number)?;
    let time = time(moment)?;
    let command = nmt_command(command)?;
    let node = node_or_all(node)?;
    let event = Event::Nmt { node, command };
    Ok(Command::new(Edit::Event {
        number,
        event: TimedEvent { time, event },
    }))
}
