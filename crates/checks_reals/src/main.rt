//! What values of REAL32 and REAL64 are as texts, by the lines of its input. Of `32 TEXT` or `64 TEXT` it prints the
//! bits of the value in hexadecimal digits and its exact decimal number, or `none`. Of `sweep 32 FIRST STEP COUNT`,
//! in hexadecimal digits, it prints the values of so many bit patterns, reads their texts back, and prints how many
//! are finite and how many of these were read as other bits.
#![tactic(auto)]

mod shown;
mod sweep;

use anyhow::Result;
use real_texts::Real;
use shown::show;
use std::io;
use std::io::{BufWriter, Write};
use sweep::Sweep;

/// The type that a word names.
fn type_of(word: &str) -> Option<Real> {
    match word {
        "32" => Some(Real::Real32),
        "64" => Some(Real::Real64),
        _ => None,
    }
}

/// Shows the value of a line, a word and a text.
fn show_line<W: Write>(rt: &HostRuntime, out: &mut W, line: &str) -> Result<()> {
    let Some((word, text)) = line.split_once(' ') else {
        return Ok(());
    };
    if let Some(real) = type_of(word) {
        show(rt.alloc(), out, real, text.as_bytes())?;
    } else if let Some(sweep) = Sweep::read(text) {
        let (finite, wrong) = sweep.run(rt.alloc())?;
        writeln!(out, "{finite} finite, {wrong} wrong")?;
    }
    Ok(())
}

fn main(rt: HostRuntime) -> Result<()> {
    let text = io::read_to_string(rt.alloc(), rt.stdin())?;
    let mut out = BufWriter::new(rt.alloc(), io::writer(&rt))?;
    for line in text.lines() {
        show_line(&rt, &mut out, line)?;
    }
    out.flush()?;
    Ok(())
}
