//! Events of the scenario as text, written at the end of an output. Where memory runs out, what stood
//! there is the beginning of what stands there then, and a part of the text may follow.
#![tactic(auto, unfolding(crate::specs::Lines::event_words))]

ghost use Rattle.std.specs.Prelude.{◌≡◌, ◌++◌, ◌∷◌, OnOk, OnErr, codes, decimal};
ghost use Rattle.std.specs.Io.{StartsWith};
ghost use Rattle.co_scenario.specs.declared.event.Event.TheVariants as event;
ghost use Rattle.project_edits.specs.Lines.{event_words, line_of_words, text_of};
ghost use Rattle.project_edits.specs.declared.edit.Edit.TheVariants as edit;
ghost use Rattle.std.specs.Str.{byte};

use crate::written::{write_number, write_target, write_word};
use co_scenario::{Event, NmtCommand, TimedEvent};
use std::alloc::{AllocError, Global};

/// Writes ` set ID INDEX SUB TEXT`.
fn write_set(
    out: &mut Vec<u8>,
    node: u8,
    index: u16,
    sub: u8,
    text: &[u8],
) -> Result<(), AllocError>
    ensures written { OnOk result (out.new.items
        ≡ out.old.items ++ byte " " ∷ line_of_words (event_words (event.Set node index sub text.now))) }
    ensures kept { OnErr result (StartsWith out.new.items out.old.items) }
{
    write_word(out, b"set")?;
    write_target(out, node, index, sub)?;
    write_word(out, text)?;
    Ok(())
}

/// Writes ` power ID on` or ` power ID off`.
fn write_power(out: &mut Vec<u8>, node: u8, on: bool) -> Result<(), AllocError>
    ensures written { OnOk result (out.new.items
        ≡ out.old.items ++ byte " " ∷ line_of_words (event_words (event.Power node on))) }
    ensures kept { OnErr result (StartsWith out.new.items out.old.items) }
{
    write_word(out, b"power")?;
    write_number(out, u64::from(node))?;
    write_word(out, if on { b"on" } else { b"off" })?;
    Ok(())
}

/// Writes ` nmt CMD ID`.
fn write_command(out: &mut Vec<u8>, node: u8, command: NmtCommand) -> Result<(), AllocError>
    ensures written { OnOk result (out.new.items
        ≡ out.old.items ++ byte " " ∷ line_of_words (event_words (event.Nmt node command))) }
    ensures kept { OnErr result (StartsWith out.new.items out.old.items) }
{
    write_word(out, b"nmt")?;
    write_number(out, u64::from(command.number()))?;
    write_number(out, u64::from(node))?;
    Ok(())
}

/// Writes a space and what happens to a node.
fn write_words(out: &mut Vec<u8>, event: &Event) -> Result<(), AllocError>
    ensures written { OnOk result (out.new.items ≡ out.old.items ++ byte " " ∷ line_of_words (event_words event.now)) }
    ensures kept { OnErr result (StartsWith out.new.items out.old.items) }
{
    match event {
        Event::Set {
            node,
            index,
            sub,
            text,
        } => write_set(out, *node, *index, *sub, text.as_slice()),
        Event::Power { node, on } => write_power(out, *node, *on),
        Event::Nmt { node, command } => write_command(out, *node, *command),
    }
}

/// Writes `event K TIME`.
fn write_moment(out: &mut Vec<u8>, number: u16, time: u32) -> Result<(), AllocError>
    ensures written { OnOk result (out.new.items ≡ out.old.items ++ codes "event" ++ byte " " ∷ decimal number
        ++ byte " " ∷ decimal time) }
    ensures kept { OnErr result (StartsWith out.new.items out.old.items) }
{
    out.extend_from_slice(b"event")?;
    write_number(out, u64::from(number))?;
    write_number(out, u64::from(time))?;
    Ok(())
}

/// Writes `event K TIME` and what happens then.
pub fn write_event(
    out: &mut Vec<u8>,
    alloc: Global,
    number: u16,
    event: &TimedEvent,
) -> Result<(), AllocError>
    ensures written { OnOk result (out.new.items ≡ out.old.items ++ text_of (edit.Event number event.now)) }
    ensures kept { OnErr result (StartsWith out.new.items out.old.items) }
{
    write_moment(out, number, event.time)?;
    write_words(out, &event.event)?;
    out.push(b'\n')?;
    Ok(())
}
