//! How the answers of an SDO server and a client are shown.

use co_sdo::Reply;
use sdo_client::Progress;
use std::io;

/// Shows bytes, two digits each, to the end of the line.
fn show_bytes(rt: &HostRuntime, bytes: &[u8]) -> io::Result<()> {
    for byte in bytes {
        print!(rt; " {byte:02X}")?;
    }
    println!(rt; "")
}

/// Shows a frame to send.
pub fn show_frame(rt: &HostRuntime, frame: &[u8; 8]) -> io::Result<()> {
    print!(rt; "send")?;
    show_bytes(rt, frame)
}

/// Shows the answer of a server, if it has one.
pub fn show_answer(rt: &HostRuntime, answer: &Option<[u8; 8]>) -> io::Result<()> {
    match answer {
        Some(frame) => show_frame(rt, frame),
        None => println!(rt; "no answer"),
    }
}

/// Shows the answer of a server, and which entry it wrote.
pub fn show_reply(rt: &HostRuntime, reply: &Reply) -> io::Result<()> {
    if let Some((index, sub)) = reply.wrote {
        println!(rt; "wrote {index:04X}:{sub:02X}")?;
    }
    show_answer(rt, &reply.answer)
}

/// Shows a value that was read.
fn show_value(rt: &HostRuntime, value: &[u8]) -> io::Result<()> {
    print!(rt; "read")?;
    show_bytes(rt, value)
}

/// Shows the code of an abort, and the frame to send, if there is one.
fn show_failure(rt: &HostRuntime, code: u32, frame: &Option<[u8; 8]>) -> io::Result<()> {
    println!(rt; "failed {code:08X}")?;
    match frame {
        Some(frame) => show_frame(rt, frame),
        None => Ok(()),
    }
}

/// Shows how the transfer of a client goes on.
pub fn show_progress(rt: &HostRuntime, progress: &Option<Progress>) -> io::Result<()> {
    match progress {
        Some(Progress::Ask(frame)) => show_frame(rt, frame),
        Some(Progress::Written) => println!(rt; "written"),
        Some(Progress::Read(value)) => show_value(rt, value.as_slice()),
        Some(Progress::Failed { abort, frame }) => show_failure(rt, abort.code(), frame),
        None => println!(rt; "ignored"),
    }
}
