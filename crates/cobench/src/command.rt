//! What the words ask for.

use crate::guide::GUIDE;
use clap::error::ErrorKind;
use clap::{Arg, ArgAction, Command, Error};
use std::alloc::Global;
use std::io::{Read, Write};
use std::rt::Files;
use std::{fs, io};
use workbench::{Counted, SessionFault, Work, session_of_process};

const SUCCESS: u8 = 0;

const FAILURE: u8 = 1;

const USAGE: u8 = 2;

const VERSION: &str = "0.1.0";

/// Runs `cobench [--script FILE] [--work]`, and gives its exit status.
///
/// The words begin with the program's name. They are judged first, then FILE is opened, then
/// commands are read from it, or from the input where there is no FILE. Replies go to the output,
/// `cobench: N NAME` and the text on wrong words to the faults. `--help` (`-h`) writes what the
/// words can be, the commands and the replies to the output, and `--version` (`-V`) the program's
/// name and version, `cobench 0.1.0`. With `--work` a session that came to its end is followed by
/// `work SEGMENTS PARTS` on the faults: how many kept segments and parts were made anew for its
/// answers. The status is 0 where the session came to its end and after
/// these two, 1 after a session fault (2 Read where FILE can't be opened), and 2 after wrong words.
pub(crate) fn run<R: Files + AllocGlobal, I: Read, O: Write, E: Write>(
    rt: &R,
    words: &[String],
    input: &mut I,
    output: &mut O,
    faults: &mut E,
) -> u8 {
    let asked = match asked_by(rt.alloc(), words) {
        Ok(asked) => asked,
        Err(error) => return explain(&error, output, faults),
    };
    match asked.script {
        None => serve(rt.alloc(), asked.work, input, output, faults),
        Some(path) => match fs::open(rt, path) {
            Ok(mut file) => serve(rt.alloc(), asked.work, &mut file, output, faults),
            Err(error) => tell(fault_of(&error), faults),
        },
    }
}

/// What the words ask for.
#[derive(Drop)]
struct Asked<'a> {
    /// The FILE of `--script`.
    script: Option<&'a str>,
    /// Whether `--work` is among them.
    work: bool,
}

fn asked_by<'a>(alloc: Global, words: &'a [String]) -> Result<Asked<'a>, Error> {
    let script = Arg::new(alloc, "script")
        .long("script")
        .value_name("FILE")
        .help("Read commands from FILE, not from the standard input")
        .action(ArgAction::Set);
    let work = Arg::new(alloc, "work")
        .long("work")
        .help("Tell on the standard error how much was made anew")
        .action(ArgAction::SetTrue);
    let command = Command::new(alloc, "cobench")
        .bin_name("cobench")?
        .version(VERSION)
        .about("An engineering workbench for one CANopen network")
        .after_help(GUIDE)
        .arg(script)?
        .arg(work)?;
    let matches = command.try_get_matches_from(words)?;
    Ok(Asked {
        script: matches.get_str("script"),
        work: matches.get_flag("work"),
    })
}

fn serve<I: Read, O: Write, E: Write>(
    alloc: Global,
    work: bool,
    input: &mut I,
    output: &mut O,
    faults: &mut E,
) -> u8 {
    let mut reader = Counted::new(input);
    let mut writer = Counted::new(output);
    match session_of_process(alloc, &mut reader, &mut writer) {
        Ok(done) => {
            if work {
                tell_work(done, faults);
            }
            SUCCESS
        }
        Err(fault) => tell(fault, faults),
    }
}

/// Tells how much was made anew. A writer that fails here changes nothing.
fn tell_work<E: Write>(done: Work, faults: &mut E) {
    let Work { segments, parts } = done;
    let _ = writeln!(faults, "work {segments} {parts}");
    let _ = faults.flush();
}

/// Why FILE can't be opened, as a session fault.
fn fault_of(error: &io::Error) -> SessionFault {
    if error.kind() == io::ErrorKind::OutOfMemory {
        SessionFault::Memory
    } else {
        SessionFault::Read
    }
}

/// Names the fault. A writer that fails here changes nothing.
fn tell<E: Write>(fault: SessionFault, faults: &mut E) -> u8 {
    let _ = writeln!(faults, "cobench: {fault}");
    let _ = faults.flush();
    FAILURE
}

/// The text on wrong words, on the help, or on want of memory.
fn explain<O: Write, E: Write>(error: &Error, output: &mut O, faults: &mut E) -> u8 {
    if error.kind() == ErrorKind::OutOfMemory {
        return tell(SessionFault::Memory, faults);
    }
    if error.use_stderr() {
        let _ = write!(faults, "{error}");
        let _ = faults.flush();
        return USAGE;
    }
    let _ = write!(output, "{error}");
    let _ = output.flush();
    SUCCESS
}

/// What is said where the words can't be had: want of memory, or a word that isn't UTF-8.
pub(crate) fn complain<E: Write>(error: &io::Error, faults: &mut E) -> u8 {
    if error.kind() == io::ErrorKind::OutOfMemory {
        return tell(SessionFault::Memory, faults);
    }
    let _ = writeln!(
        faults,
        "error: invalid UTF-8 was detected in one or more arguments"
    );
    let _ = faults.flush();
    USAGE
}
