//! All files of a network.

use crate::objects::put_value;
use crate::random::Random;
use crate::sheet::{Sheet, put_sheet};
use crate::size::Size;
use std::alloc::{AllocError, Global};
use std::fmt::Write;

/// Data sheets of 2,000 to 60,000 lines: settings, tables, their highest sub-index, and comments behind each setting.
const SHEETS: [(u16, u16, u8, u8); 8] = [
    (100, 4, 16, 1),
    (400, 8, 32, 3),
    (900, 8, 32, 6),
    (1600, 16, 32, 2),
    (2400, 4, 254, 4),
    (2800, 4, 254, 6),
    (3300, 16, 32, 6),
    (3800, 2, 32, 6),
];

/// The data sheet of a number.
fn sheet(number: usize) -> Sheet {
    let (settings, tables, subs, comments) = SHEETS[number % 8];
    Sheet {
        pdos: 4,
        settings,
        tables,
        subs,
        comments,
    }
}

/// The data sheet of a node, by number.
fn sheet_of(node: u8, size: Size) -> usize {
    match size {
        Size::Small => usize::from(node) % 2,
        Size::Whole => usize::from(node) % 8,
    }
}

/// Sets a value of a node.
fn put_parameter(
    script: &mut String,
    node: u8,
    size: Size,
    random: &mut Random,
) -> Result<(), AllocError> {
    let settings = sheet(sheet_of(node, size)).settings;
    let number = random.below(u32::from(settings)) as u16;
    let index = 0x2000 + u32::from(number);
    let value = random.below(100_000);
    write!(script, "param {node} {index:X} 0 ")?;
    put_value(script, number, value)?;
    script.push('\n')
}

/// Writes a node with its parameters: 100 to 1,000 of them, and one in a table.
fn put_node(
    script: &mut String,
    node: u8,
    size: Size,
    random: &mut Random,
) -> Result<(), AllocError> {
    writeln!(script, "node {node} n{node} s{}", sheet_of(node, size))?;
    for _ in 0..size.of(20, 100 + u32::from(node % 10) * 100) {
        put_parameter(script, node, size, random)?;
    }
    writeln!(script, "param {node} 5001 3 77\nparam {node} 1017 0 100")
}

/// Writes a message from a node to the next one.
fn put_message(script: &mut String, node: u8) -> Result<(), AllocError> {
    let taker = u32::from(node) + 1;
    writeln!(
        script,
        "message m{node} {node} 1 255 0 0 0\nsource m{node} 1 6041 0"
    )?;
    writeln!(
        script,
        "source m{node} 2 6064 0\nsink m{node} 1 {taker} 6040 0\nsink m{node} 2 {taker} 607A 0"
    )
}

/// A network of data sheets of all lengths, and the questions of its commissioning: all files, what is wrong, and the
/// project as text; then files again as values change.
pub fn files(alloc: Global, size: Size, random: &mut Random) -> Result<String, AllocError> {
    let nodes: u8 = match size {
        Size::Small => 4,
        Size::Whole => 126,
    };
    let mut script = String::new(alloc);
    for number in 0..size.of(2, 8) {
        let name = format!(in alloc; "s{number}")?;
        put_sheet(alloc, &mut script, name.as_str(), &sheet(number), random)?;
    }
    for node in 1..=nodes {
        put_node(&mut script, node, size, random)?;
    }
    for node in 1..nodes {
        put_message(&mut script, node)?;
    }
    for node in 1..=nodes {
        writeln!(script, "dcf {node}\ncdcf {node}")?;
    }
    script.push_str("diag\nproject\n")?;
    for turn in 0..size.of(6, 60) {
        let node = turn % nodes + 1;
        put_parameter(&mut script, node, size, random)?;
        writeln!(script, "dcf {node}")?;
    }
    Ok(script)
}
