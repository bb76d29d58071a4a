//! The plan of many messages, and the files by it.

use crate::random::Random;
use crate::sheet::put_eds;
use crate::size::Size;
use std::alloc::{AllocError, Global};
use std::fmt::Write;

/// Messages of one make over a network of nodes.
struct Messages {
    count: u32,
    nodes: u32,
    /// The entries that a message carries, each of them of 1 bit or of 8.
    sources: u32,
    bits: u32,
    /// The nodes that take each message.
    takers: u32,
    /// The PDOs of each node: enough for its messages.
    sent: u16,
    taken: u16,
    /// How often a message is changed, and the files asked again.
    turns: u32,
}

/// As many messages and sources as there can be.
const LARGEST: Messages = Messages {
    count: 1024,
    nodes: 126,
    sources: 64,
    bits: 1,
    takers: 6,
    sent: 9,
    taken: 51,
    turns: 1,
};

/// Messages of a few entries that are changed often.
const USUAL: Messages = Messages {
    count: 1000,
    nodes: 126,
    sources: 6,
    bits: 8,
    takers: 3,
    sent: 8,
    taken: 27,
    turns: 12,
};

const SMALL: Messages = Messages {
    count: 20,
    nodes: 10,
    sources: 8,
    bits: 8,
    takers: 2,
    sent: 2,
    taken: 5,
    turns: 2,
};

fn put_part(text: &mut String, index: u32, sub: u32, data_type: u32) -> Result<(), AllocError> {
    writeln!(text, "[{index:X}sub{sub:X}]\nDataType={data_type}")
}

/// Writes the lines of a PDO with room for so many entries.
fn put_pdo(text: &mut String, index: u32, room: u32) -> Result<(), AllocError> {
    put_part(text, index, 1, 7)?;
    put_part(text, index, 2, 5)?;
    put_part(text, index.wrapping_add(0x200), 0, 5)?;
    for sub in 0..room {
        put_part(text, index.wrapping_add(0x200), sub.wrapping_add(1), 7)?;
    }
    Ok(())
}

/// Writes the data sheet of all nodes.
fn put_sheet(alloc: Global, script: &mut String, messages: &Messages) -> Result<(), AllocError> {
    let mut text = String::new(alloc);
    let data_type = if messages.bits == 1 { 1 } else { 5 };
    for sub in 0..messages.sources {
        put_part(&mut text, 0x2000, sub.wrapping_add(1), data_type)?;
        text.push_str("PDOMapping=1\n")?;
    }
    for number in 0..messages.taken {
        put_pdo(&mut text, 0x1400 + u32::from(number), messages.sources)?;
    }
    for number in 0..messages.sent {
        put_pdo(&mut text, 0x1800 + u32::from(number), messages.sources)?;
    }
    put_eds(script, "s", text.as_str())
}

/// The node that is so many behind another one: they go round.
fn node_after(messages: &Messages, number: u32, more: u32) -> u32 {
    number.wrapping_add(more) % messages.nodes.max(1) % 126 + 1
}

/// Writes a message without what it carries.
fn put_head(
    script: &mut String,
    messages: &Messages,
    number: u32,
    kind: u32,
) -> Result<(), AllocError> {
    let sender = node_after(messages, number, 0);
    let pdo = number / messages.nodes.max(1) % 512 + 1;
    let identifier = 0x181 + number % 1024;
    writeln!(
        script,
        "message m{number} {sender} {pdo} {kind} 0 0 {identifier:X}"
    )
}

/// Writes a message with what it carries and who takes it.
fn put_message(
    script: &mut String,
    messages: &Messages,
    number: u32,
    apart: u32,
) -> Result<(), AllocError> {
    put_head(script, messages, number, 255)?;
    for position in 0..messages.sources {
        let position = position.wrapping_add(1);
        writeln!(script, "source m{number} {position} 2000 {position:X}")?;
    }
    for taker in 0..messages.takers {
        let node = node_after(messages, number, taker.wrapping_mul(apart).wrapping_add(1));
        for position in 0..messages.sources {
            let position = position.wrapping_add(1);
            writeln!(script, "sink m{number} {position} {node} 2000 {position:X}")?;
        }
    }
    Ok(())
}

fn put_questions(script: &mut String, messages: &Messages) -> Result<(), AllocError> {
    for node in 0..messages.nodes {
        writeln!(script, "cdcf {}", node.wrapping_add(1))?;
    }
    script.push_str("diag\n")
}

/// A network of many messages, and the concise files of all its nodes, again and again as messages change.
pub fn plan(
    alloc: Global,
    size: Size,
    random: &mut Random,
    session: u32,
) -> Result<String, AllocError> {
    let messages = match size {
        Size::Small => &SMALL,
        Size::Whole if session == 0 => &LARGEST,
        Size::Whole => &USUAL,
    };
    let mut script = String::new(alloc);
    put_sheet(alloc, &mut script, messages)?;
    for node in 0..messages.nodes {
        let node = node.wrapping_add(1);
        writeln!(script, "node {node} n{node} s")?;
    }
    let apart = random.below(8) % 8 + 2;
    for number in 0..messages.count {
        put_message(&mut script, messages, number, apart)?;
    }
    put_questions(&mut script, messages)?;
    for turn in 0..messages.turns {
        let number = random.below(messages.count);
        put_head(&mut script, messages, number, turn % 200 + 1)?;
        put_questions(&mut script, messages)?;
    }
    Ok(script)
}
