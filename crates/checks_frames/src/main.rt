//! What the calls on frames answer: frames and their lines, a thousand waiting frames and their
//! winners, waiting frames that are replaced and dropped, values of a dictionary in a frame, and those that a
//! frame leaves in a device of a data sheet. Then it asks an SDO server, and plays an SDO client, by the lines of
//! its input: a word, and bytes as hexadecimal digits or the file of a data sheet. It shows each answer.
#![tactic(auto)]

mod asked;
mod carried;
mod entries;
mod pair;
mod queues;
mod sheets;
mod shown;

use anyhow::Result;
use asked::{Asked, ask};
use can_frame::{Frame, SlotRule, exact_bits, line, slot_bits, slot_time};
use sheets::device;
use std::io;
use std::io::Write;

/// Identifiers and bytes, the last two of no frame.
const FRAMES: [(u16, &[u8]); 11] = [
    (0x000, &[0x01, 0x05]),
    (0x080, &[]),
    (0x185, &[0x09, 0x34, 0x12]),
    (0x605, &[0x2B, 0x17, 0x10, 0x00, 0x64, 0x00, 0x00, 0x00]),
    (0x7FF, &[0xFF]),
    (0x000, &[0; 8]),
    (0x7FF, &[0xFF; 8]),
    (0x07C, &[0x1F, 0x07, 0xC1, 0xF0]),
    (0x2AA, &[0x3C; 8]),
    (0x800, &[]),
    (0x001, &[0; 9]),
];

/// Bit rates in kbit/s.
const RATES: [u16; 7] = [10, 20, 50, 125, 250, 500, 1000];

/// Prints the time of a frame in microseconds by a rule, at each bit rate.
fn show_times(rt: &HostRuntime, rule: SlotRule, frame: &Frame) -> io::Result<()> {
    for rate in &RATES {
        print!(rt; " {}", slot_time(rule, *rate, frame))?;
    }
    Ok(())
}

/// Prints the slot of a frame without and with its stuff bits, in bits and in microseconds at each bit rate.
fn show_slot(rt: &HostRuntime, frame: &Frame) -> io::Result<()> {
    print!(rt; " bits {} us", slot_bits(frame))?;
    show_times(rt, SlotRule::Unstuffed, frame)?;
    print!(rt; " exact {} us", exact_bits(frame))?;
    show_times(rt, SlotRule::Stuffed, frame)?;
    println!(rt; "")
}

/// Prints a frame at a time, and its slot.
fn show(rt: &HostRuntime, time: u32, frame: &Frame) -> io::Result<()> {
    let text = line(rt.alloc(), time, frame)?;
    rt.stdout().write_all(&text)?;
    show_slot(rt, frame)
}

/// Shows the frame of an identifier and bytes at two times, or that they are none.
fn show_made(rt: &HostRuntime, id: u16, bytes: &[u8]) -> io::Result<()> {
    let Some(frame) = Frame::new(id, bytes) else {
        return println!(rt; "no frame");
    };
    show(rt, 55, &frame)?;
    show(rt, 10_009_999, &frame)
}

/// Shows frames, and those that are none.
fn show_frames(rt: &HostRuntime) -> io::Result<()> {
    for (id, bytes) in &FRAMES {
        show_made(rt, *id, bytes)?;
    }
    Ok(())
}

/// Shows what a frame leaves in a device of a data sheet.
fn show_taken(rt: &HostRuntime) -> Result<()> {
    let module = device(rt, "module.eds")?;
    Ok(carried::taken(rt, &module)?)
}

/// Asks by the lines of a text.
fn play_lines(rt: &HostRuntime, asked: &mut Asked, text: &str) -> Result<()> {
    for line in text.lines() {
        ask(rt, asked, line)?;
    }
    Ok(())
}

/// Plays the SDO server and the client by the lines of the input.
fn play_transfers(rt: &HostRuntime) -> Result<()> {
    let text = io::read_to_string(rt.alloc(), rt.stdin())?;
    let mut asked = Asked::new(rt.alloc())?;
    play_lines(rt, &mut asked, text.as_str())
}

fn main(rt: HostRuntime) -> Result<()> {
    show_frames(&rt)?;
    queues::many(&rt)?;
    queues::few(&rt)?;
    carried::both_ways(&rt)?;
    show_taken(&rt)?;
    play_transfers(&rt)
}
