//! One line of the input.

use crate::entries;
use crate::pair::Pair;
use crate::sheets::device;
use crate::shown::{show_answer, show_frame, show_progress, show_reply};
use anyhow::Result;
use co_dict::{Dict, Shape};
use eds_device::DataSheet;
use sdo_client::Client;
use std::alloc::{AllocError, Global};
use std::io;

/// A server with its device, and a client; and the two that are kept.
#[derive(Drop)]
pub struct Asked {
    pub pair: Pair,
    pub kept: Pair,
    pub shape: Shape,
    pub dict: Dict,
}

impl Asked {
    /// A server whose device has its values at the start, and a client, both without a transfer.
    pub fn new(alloc: Global) -> Result<Asked, AllocError> {
        let shape = entries::shape(alloc)?;
        let dict = entries::values(alloc)?;
        Ok(Asked {
            pair: Pair::new(alloc),
            kept: Pair::new(alloc),
            shape,
            dict,
        })
    }

    /// A server whose device is node 5 of a data sheet at its start, and a client, both without a transfer.
    fn of(alloc: Global, device: &DataSheet) -> Result<Asked, AllocError> {
        let shape = device.shape(5)?;
        let dict = device.defaults(5)?;
        Ok(Asked {
            pair: Pair::new(alloc),
            kept: Pair::new(alloc),
            shape,
            dict,
        })
    }
}

/// The first eight of some bytes, with zeros where there are fewer.
fn frame_of(bytes: &[u8]) -> [u8; 8] {
    let mut frame = [0; 8];
    for (i, byte) in bytes.iter().enumerate() {
        if i < 8 {
            frame[i] = *byte;
        }
    }
    frame
}

/// Starts the upload of an entry.
fn start_read(rt: &HostRuntime, client: &mut Client, index: u16, sub: u8) -> io::Result<()> {
    let frame = client.start_read(index, sub)?;
    show_frame(rt, &frame)
}

/// Starts the download of a value of at most 512 bytes to an entry.
fn start_write(
    rt: &HostRuntime,
    client: &mut Client,
    index: u16,
    sub: u8,
    value: &[u8],
) -> io::Result<()> {
    if 512 < value.len() {
        return Ok(());
    }
    let frame = client.start_write(index, sub, value)?;
    show_frame(rt, &frame)
}

/// Starts the download of the bytes after an index and a sub, or the upload of that entry.
fn start(rt: &HostRuntime, client: &mut Client, is_write: bool, bytes: &[u8]) -> io::Result<()> {
    let [high, low, sub, value @ ..] = bytes else {
        return Ok(());
    };
    let index = u16::from(*high) * 256 + u16::from(*low);
    if is_write {
        start_write(rt, client, index, *sub, value)
    } else {
        start_read(rt, client, index, *sub)
    }
}

/// Asks the server by a frame, and shows its answer and which entry it wrote.
fn serve(rt: &HostRuntime, asked: &mut Asked, request: &[u8; 8]) -> io::Result<()> {
    let server = &mut asked.pair.server;
    let reply = server.serve(request, &asked.shape, &mut asked.dict)?;
    show_reply(rt, &reply)
}

/// Asks the server by a frame, and shows its answer.
fn request(rt: &HostRuntime, asked: &mut Asked, request: &[u8; 8]) -> io::Result<()> {
    let server = &mut asked.pair.server;
    let answer = server.on_request(request, &asked.shape, &mut asked.dict)?;
    show_answer(rt, &answer)
}

/// Keeps a copy of the server and the client (`copy`), goes back to the kept ones (`back`), or drops the
/// open transfers (`close`).
fn change(asked: &mut Asked, word: &str) -> Result<(), AllocError> {
    match word {
        "copy" => asked.kept.become_copy(&asked.pair),
        "back" => asked.pair.become_copy(&asked.kept),
        "close" => {
            asked.pair.close();
            Ok(())
        }
        _ => Ok(()),
    }
}

/// Changes the server and the client, or what is kept of them. Shows whether the two are those kept.
fn turn(rt: &HostRuntime, asked: &mut Asked, word: &str) -> io::Result<()> {
    change(asked, word)?;
    asked.pair.show_beside(rt, &asked.kept)
}

/// Hands the client the answer to its request.
fn answer(rt: &HostRuntime, client: &mut Client, frame: &[u8; 8]) -> io::Result<()> {
    let progress = client.on_answer(frame)?;
    show_progress(rt, &progress)
}

/// Lets the time of the client's request run out.
fn time_out(rt: &HostRuntime, client: &mut Client) -> io::Result<()> {
    let progress = client.on_time_out()?;
    show_progress(rt, &progress)
}

/// Does what a word and the bytes after it say.
fn ask_with(rt: &HostRuntime, asked: &mut Asked, word: &str, bytes: &[u8]) -> io::Result<()> {
    match word {
        "server" => serve(rt, asked, &frame_of(bytes)),
        "request" => request(rt, asked, &frame_of(bytes)),
        "client" => answer(rt, &mut asked.pair.client, &frame_of(bytes)),
        "timeout" => time_out(rt, &mut asked.pair.client),
        "write" | "read" => start(rt, &mut asked.pair.client, word == "write", bytes),
        _ => turn(rt, asked, word),
    }
}

/// Goes over to the device of a data sheet, and to a server and a client without a transfer.
fn go_over(rt: &HostRuntime, asked: &mut Asked, path: &str) -> Result<()> {
    let device = device(rt, path)?;
    *asked = Asked::of(rt.alloc(), &device)?;
    Ok(())
}

/// Does what a line says: `server`, `request` and `client` take a frame, `write` and `read` an index, a sub
/// and a value; `timeout`, `copy`, `back`, `close` and `compare` take nothing; `device` takes a data sheet.
pub fn ask(rt: &HostRuntime, asked: &mut Asked, line: &str) -> Result<()> {
    let (word, digits) = line.split_once(' ').unwrap_or((line, ""));
    if word == "device" {
        return go_over(rt, asked, digits);
    }
    let bytes = hex::decode(rt.alloc(), digits.as_bytes())?;
    Ok(ask_with(rt, asked, word, &bytes)?)
}
