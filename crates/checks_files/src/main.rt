//! Shows what the calls of the crates that read, keep and write what files say answer, by the lines of its
//! input: a word and what it is about. It prints each line and what comes of it. Before that it reads the
//! INI texts of the files that its words name, and prints the numbers of their sections and warned lines:
//! `bench/ini.py` times this.
#![tactic(auto)]

mod bytes;
mod dictionaries;
mod lists;
mod scenarios;
mod texts;
mod values;
mod words;

use anyhow::Result;
use bytes::plain;
use co_scenario::Script;
use dictionaries::{Kept, change_kept, show_kept};
use ini_text::{Ini, IniFault};
use lists::show_list;
use scenarios::show_event;
use std::alloc::Global;
use std::{env, fs, io};
use texts::{Texts, show_ini};
use values::show_value;
use words::{Word, word_of};

/// What lines change.
#[derive(Drop)]
struct State {
    texts: Texts,
    kept: Kept,
    script: Script,
}

impl State {
    /// What stands before the first line: an empty text, no values and no events.
    fn new(alloc: Global) -> Result<State, IniFault> {
        let texts = Texts::new(alloc)?;
        Ok(State {
            texts,
            kept: Kept::new(alloc),
            script: Script::new(alloc),
        })
    }
}

/// Shows what comes of a word and the bytes that it is about.
fn show_word(rt: &HostRuntime, state: &mut State, word: Word, text: &[u8]) -> Result<()> {
    match word {
        Word::Values(word) => Ok(show_value(rt, word, text)?),
        Word::Lists(word) => show_list(rt, word, text),
        Word::Texts(word) => show_ini(rt, &mut state.texts, word, text),
        Word::Events(word) => Ok(show_event(rt, &mut state.script, word, text)?),
        Word::Dicts(word) => Ok(show_kept(rt, &state.kept, word, text)?),
        Word::Changes(word) => Ok(change_kept(&mut state.kept, word, text)?),
    }
}

/// Shows what comes of a line.
fn show(rt: &HostRuntime, state: &mut State, line: &str) -> Result<()> {
    let (word, text) = line.split_once(' ').unwrap_or((line, ""));
    let Some(word) = word_of(word) else {
        return Ok(());
    };
    let text = plain(rt.alloc(), text.as_bytes())?;
    show_word(rt, state, word, &text)
}

/// Shows how many sections and warned lines a text has.
fn show_size(rt: &HostRuntime, text: &[u8]) -> Result<()> {
    let ini = Ini::read(rt.alloc(), text)?;
    println!(rt; "{} {}", ini.sections().len(), ini.warnings().len())?;
    Ok(())
}

/// Shows how many sections and warned lines the text of a file has.
fn show_file(rt: &HostRuntime, path: &str) -> Result<()> {
    let text = fs::read(rt, path)?;
    show_size(rt, &text)
}

/// Shows the sizes of the files that the words name.
fn show_files(rt: &HostRuntime) -> Result<()> {
    for path in env::args(rt)?.skip(1) {
        show_file(rt, path.as_str())?;
    }
    Ok(())
}

/// Shows a line and what comes of it.
fn show_line(rt: &HostRuntime, state: &mut State, line: &str) -> Result<()> {
    println!(rt; "{line}")?;
    show(rt, state, line)
}

/// Shows what comes of the lines of a text.
fn show_lines(rt: &HostRuntime, state: &mut State, text: &str) -> Result<()> {
    for line in text.lines() {
        show_line(rt, state, line)?;
    }
    Ok(())
}

/// Begins with a state of nothing, and plays the lines of the input.
fn play(rt: &HostRuntime) -> Result<()> {
    let text = io::read_to_string(rt.alloc(), rt.stdin())?;
    let mut state = State::new(rt.alloc())?;
    show_lines(rt, &mut state, text.as_str())
}

fn main(rt: HostRuntime) -> Result<()> {
    show_files(&rt)?;
    play(&rt)
}
