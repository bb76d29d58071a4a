//! Scripts of many edits.

use crate::digits::Word::{Decimal, Hex, Text};
use crate::digits::put_all;
use crate::random::Random;
use crate::sheet::{Sheet, put_sheet};
use crate::size::Size;
use std::alloc::{AllocError, Global};
use std::fmt::Write;

const SHEET: Sheet = Sheet {
    pdos: 8,
    settings: 400,
    tables: 4,
    subs: 16,
    comments: 0,
};

const MESSAGES: u32 = 900;

/// How many of each thousand edits set parameters, and how many set sources or sinks; the others set events.
struct Mix {
    parameters: u32,
    links: u32,
}

const MIXES: [Mix; 3] = [
    Mix {
        parameters: 950,
        links: 30,
    },
    Mix {
        parameters: 300,
        links: 650,
    },
    Mix {
        parameters: 500,
        links: 100,
    },
];

/// Sets a parameter.
fn put_parameter(script: &mut String, node: u32, random: &mut Random) -> Result<(), AllocError> {
    let number = random.below(4000) as u16;
    let index = 0x2000 + u32::from(number);
    let value = random.below(100_000);
    put_all(
        script,
        &[
            Text("param "),
            Decimal(node),
            Text(" "),
            Hex(index),
            Text(" 0 "),
        ],
    )?;
    match number % 8 {
        6 => put_all(
            script,
            &[
                Text("Axis "),
                Decimal(value),
                Text(" of line "),
                Decimal(node),
                Text("\n"),
            ],
        ),
        3 => put_all(script, &[Text("-"), Decimal(value % 100), Text("\n")]),
        _ => put_all(script, &[Decimal(value % 200), Text("\n")]),
    }
}

/// Sets a source or a sink, or changes a message.
fn put_link(script: &mut String, node: u32, random: &mut Random) -> Result<(), AllocError> {
    let message = random.below(MESSAGES);
    let position = random.below(8) % 8 + 1;
    match random.below(10) {
        0 => writeln!(
            script,
            "message m{message} {node} 2 1 0 {} 0",
            random.below(100)
        ),
        1 | 2 => put_all(
            script,
            &[
                Text("source m"),
                Decimal(message),
                Text(" "),
                Decimal(position),
                Text(" 6064 0\n"),
            ],
        ),
        3 => put_all(
            script,
            &[
                Text("unsink m"),
                Decimal(message),
                Text(" "),
                Decimal(position),
                Text(" "),
                Decimal(node),
                Text("\n"),
            ],
        ),
        _ => put_all(
            script,
            &[
                Text("sink m"),
                Decimal(message),
                Text(" "),
                Decimal(position),
                Text(" "),
                Decimal(node),
                Text(" 607A 0\n"),
            ],
        ),
    }
}

/// Sets an event.
fn put_event(script: &mut String, node: u32, random: &mut Random) -> Result<(), AllocError> {
    let number = random.below(10_000) % 10_000 + 1;
    let time = random.below(10_000_000);
    let value = random.below(30_000);
    match random.below(8) {
        0 => writeln!(script, "event {number} {time} power {node} on"),
        1 => writeln!(script, "event {number} {time} nmt 128 {node}"),
        2 => writeln!(script, "drop-event {number}"),
        _ => put_all(
            script,
            &[
                Text("event "),
                Decimal(number),
                Text(" "),
                Decimal(time),
                Text(" set "),
                Decimal(node),
                Text(" 6064 0 "),
                Decimal(value),
                Text("\n"),
            ],
        ),
    }
}

/// An edit that is refused: of a node, a message or a number that isn't there.
fn put_refused(script: &mut String, random: &mut Random) -> Result<(), AllocError> {
    let value = random.below(100_000);
    match random.below(4) {
        0 => writeln!(script, "param 127 2000 0 {value}"),
        1 => writeln!(script, "sink x{value} 1 2 607A 0"),
        2 => writeln!(script, "param 5 1400 1 {value}"),
        _ => writeln!(script, "parma 5 2000 0 {value}"),
    }
}

fn put_edit(script: &mut String, mix: &Mix, random: &mut Random) -> Result<(), AllocError> {
    let node = random.below(126) % 126 + 1;
    let kind = random.below(1000);
    if kind < mix.parameters {
        return put_parameter(script, node, random);
    }
    if kind - mix.parameters < mix.links {
        return put_link(script, node, random);
    }
    if kind >= 985 {
        return put_refused(script, random);
    }
    put_event(script, node, random)
}

/// A network, and many edits of its parameters, messages and events.
pub fn many_edits(
    alloc: Global,
    size: Size,
    random: &mut Random,
    session: u32,
) -> Result<String, AllocError> {
    let mut script = String::new(alloc);
    put_sheet(alloc, &mut script, "s", &SHEET, random)?;
    for node in 1..127 {
        writeln!(script, "node {node} n{node} s")?;
    }
    for message in 0..MESSAGES {
        let node = message % 126 + 1;
        writeln!(script, "message m{message} {node} 1 255 0 0 0")?;
    }
    let mix = &MIXES[session as usize % 3];
    for _ in 0..size.of(2_000, 700_000) {
        put_edit(&mut script, mix, random)?;
    }
    script.push_str("project\n")?;
    Ok(script)
}
