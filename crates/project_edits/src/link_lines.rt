//! Messages, their sources, their sinks and their receives as text, written at the end of an output. Where memory runs
//! out, what stood there is the beginning of what stands there then, and a part of the text may follow.
#![tactic(auto, unfolding(crate::specs::Lines::text_of, crate::specs::Lines::line_of, crate::specs::Lines::words_of))]

ghost use Rattle.std.specs.Prelude.{◌≡◌, ◌++◌, ◌∷◌, ◌<◌, OnOk, OnErr, decimal};
ghost use Rattle.std.specs.Io.{StartsWith};
ghost use Rattle.std.specs.Str.{byte};
ghost use Rattle.base.specs.Digits.{identifier_digits};
ghost use Rattle.project_edits.specs.Lines.{text_of};
ghost use Rattle.project_edits.specs.declared.edit.Edit.TheVariants as edit;

use crate::written::{write_identifier, write_number, write_place, write_target, write_word};
use project_messages::{Message, Receive};
use std::alloc::{AllocError, Global};

/// Writes ` ID TPDO TYPE INHIBIT EVENT COB`.
fn write_numbers(out: &mut Vec<u8>, message: &Message) -> Result<(), AllocError>
    requires { message.now.cob < 4096 }
    ensures written { OnOk result (out.new.items ≡ out.old.items ++ byte " " ∷ decimal message.now.node
        ++ byte " " ∷ decimal message.now.tpdo ++ byte " " ∷ decimal message.now.transmission
        ++ byte " " ∷ decimal message.now.inhibit ++ byte " " ∷ decimal message.now.event
        ++ byte " " ∷ identifier_digits message.now.cob) }
    ensures kept { OnErr result (StartsWith out.new.items out.old.items) }
{
    write_number(out, u64::from(message.node))?;
    write_number(out, u64::from(message.tpdo))?;
    write_number(out, u64::from(message.transmission))?;
    write_number(out, u64::from(message.inhibit))?;
    write_number(out, u64::from(message.event))?;
    write_identifier(out, message.cob)?;
    Ok(())
}

/// Writes `message NAME ID TPDO TYPE INHIBIT EVENT COB`.
pub fn write_message(
    out: &mut Vec<u8>,
    alloc: Global,
    name: &[u8],
    message: &Message,
) -> Result<(), AllocError>
    requires { message.now.cob < 4096 }
    ensures written { OnOk result (out.new.items ≡ out.old.items ++ text_of (edit.Message name.now message.now)) }
    ensures kept { OnErr result (StartsWith out.new.items out.old.items) }
{
    out.extend_from_slice(b"message")?;
    write_word(out, name)?;
    write_numbers(out, message)?;
    out.push(b'\n')?;
    Ok(())
}

/// Writes `start MESSAGE N`.
pub fn write_start(
    out: &mut Vec<u8>,
    alloc: Global,
    message: &[u8],
    start: u8,
) -> Result<(), AllocError>
    ensures written { OnOk result (out.new.items ≡ out.old.items ++ text_of (edit.Start message.now start)) }
    ensures kept { OnErr result (StartsWith out.new.items out.old.items) }
{
    out.extend_from_slice(b"start")?;
    write_word(out, message)?;
    write_number(out, u64::from(start))?;
    out.push(b'\n')?;
    Ok(())
}

/// Writes `source MESSAGE POS INDEX SUB`.
pub fn write_source(
    out: &mut Vec<u8>,
    alloc: Global,
    message: &[u8],
    position: u8,
    index: u16,
    sub: u8,
) -> Result<(), AllocError>
    ensures written { OnOk result (out.new.items
        ≡ out.old.items ++ text_of (edit.Source message.now position index sub)) }
    ensures kept { OnErr result (StartsWith out.new.items out.old.items) }
{
    out.extend_from_slice(b"source")?;
    write_word(out, message)?;
    write_number(out, u64::from(position))?;
    write_place(out, index, sub)?;
    out.push(b'\n')?;
    Ok(())
}

/// Writes `sink MESSAGE POS ID INDEX SUB`.
pub fn write_sink(
    out: &mut Vec<u8>,
    alloc: Global,
    message: &[u8],
    position: u8,
    node: u8,
    index: u16,
    sub: u8,
) -> Result<(), AllocError>
    ensures written { OnOk result (out.new.items
        ≡ out.old.items ++ text_of (edit.Sink message.now position node index sub)) }
    ensures kept { OnErr result (StartsWith out.new.items out.old.items) }
{
    out.extend_from_slice(b"sink")?;
    write_word(out, message)?;
    write_number(out, u64::from(position))?;
    write_target(out, node, index, sub)?;
    out.push(b'\n')?;
    Ok(())
}

/// Writes ` ID RPDO MS`.
fn write_taker(out: &mut Vec<u8>, node: u8, receive: Receive) -> Result<(), AllocError>
    ensures written { OnOk result (out.new.items ≡ out.old.items ++ byte " " ∷ decimal node
        ++ byte " " ∷ decimal receive.rpdo ++ byte " " ∷ decimal receive.event) }
    ensures kept { OnErr result (StartsWith out.new.items out.old.items) }
{
    write_number(out, u64::from(node))?;
    write_number(out, u64::from(receive.rpdo))?;
    write_number(out, u64::from(receive.event))?;
    Ok(())
}

/// Writes `receive MESSAGE ID RPDO MS`.
pub fn write_receive(
    out: &mut Vec<u8>,
    alloc: Global,
    message: &[u8],
    node: u8,
    receive: Receive,
) -> Result<(), AllocError>
    ensures written { OnOk result (out.new.items
        ≡ out.old.items ++ text_of (edit.Receive message.now node receive.rpdo receive.event)) }
    ensures kept { OnErr result (StartsWith out.new.items out.old.items) }
{
    out.extend_from_slice(b"receive")?;
    write_word(out, message)?;
    write_taker(out, node, receive)?;
    out.push(b'\n')?;
    Ok(())
}
