//! Shows what each data sheet that the words name says of its device, call by call, at node 5. Then it
//! lays out networks of two sensors and two drives by the lines of its input, and shows the messages of
//! each, their plan, and the concise DCF of each node.
#![tactic(auto)]

mod entry;
mod files;
mod layouts;
mod messages_shown;
mod network;
mod plan_shown;
mod sheet;
mod shown;
#[cfg(test)]
mod templates;
mod writes_shown;

use anyhow::Result;
use eds_device::DataSheet;
use network::play_all;
use sheet::{Sheet, show_sheet};
use std::{env, fs};

/// Shows a device.
fn show_device(rt: &HostRuntime, device: &DataSheet) -> Result<()> {
    let sheet = Sheet::new(device)?;
    Ok(show_sheet(rt, &sheet)?)
}

/// Shows the device of a text, or why the text is of none.
fn show_text(rt: &HostRuntime, text: &[u8]) -> Result<()> {
    match DataSheet::read(rt.alloc(), false, text) {
        Ok(device) => show_device(rt, &device),
        Err(fault) => Ok(println!(rt; "! {fault}")?),
    }
}

/// Shows the device of a data sheet, or why the text is of none.
fn show(rt: &HostRuntime, path: &str) -> Result<()> {
    println!(rt; "=== {path}")?;
    let text = fs::read(rt, path)?;
    show_text(rt, &text)
}

/// Shows the devices of the data sheets that the words name.
fn show_all(rt: &HostRuntime) -> Result<()> {
    for path in env::args(rt)?.skip(1) {
        show(rt, path.as_str())?;
    }
    Ok(())
}

/// The device of a data sheet.
fn device(rt: &HostRuntime, path: &str) -> Result<DataSheet> {
    let text = fs::read(rt, path)?;
    Ok(DataSheet::read(rt.alloc(), false, &text)?)
}

/// Plays the lines of the input with two of a sensor and two drives.
fn play_with(rt: &HostRuntime, sensor: &DataSheet) -> Result<()> {
    let drive = device(rt, "drive.eds")?;
    let nodes = [(5, sensor), (6, sensor), (7, &drive), (8, &drive)];
    Ok(play_all(rt, &nodes)?)
}

/// Plays the lines of the input with two sensors and two drives.
fn play(rt: &HostRuntime) -> Result<()> {
    let sensor = device(rt, "sensor.eds")?;
    play_with(rt, &sensor)
}

fn main(rt: HostRuntime) -> Result<()> {
    show_all(&rt)?;
    play(&rt)
}
