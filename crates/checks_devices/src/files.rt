//! The writes and the file that a node gets.

use crate::sheet::NODE;
use crate::shown::show_octets;
use base::Octets;
use concise_dcf::Write as Entry;
use eds_dcf::dcf_text;
use eds_device::DataSheet;
use node_parameters::{Params, writes};
use std::alloc::{AllocError, Global};
use std::io;
use std::io::Write;

/// The parameter 1 for each entry.
fn ones(alloc: Global, device: &DataSheet) -> Result<Params, AllocError> {
    let mut params = Params::new(alloc);
    for (index, sub) in device.pairs() {
        params.put(*index, *sub, Octets::from_slice(alloc, b"1")?)?;
    }
    Ok(params)
}

fn show_write(rt: &HostRuntime, entry: &Entry) -> io::Result<()> {
    let (index, sub) = (entry.index, entry.sub);
    print!(rt; "  {index:04X}:{sub:02X}")?;
    show_octets(rt, Some(entry.bytes.as_slice()))
}

fn show_writes(rt: &HostRuntime, entries: &[Entry]) -> io::Result<()> {
    for entry in entries {
        show_write(rt, entry)?;
    }
    Ok(())
}

/// Shows writes under a title.
fn show_titled(rt: &HostRuntime, title: &[u8], entries: &[Entry]) -> io::Result<()> {
    rt.stdout().write_all(title)?;
    show_writes(rt, entries)
}

/// Shows the writes of the text's own parameters.
fn show_own(rt: &HostRuntime, device: &DataSheet) -> io::Result<()> {
    let own = writes(rt.alloc(), &Params::new(rt.alloc()), device, NODE)?;
    show_titled(rt, b"writes of its text:\n", &own)
}

/// Shows a DCF under its title.
fn show_dcf(rt: &HostRuntime, text: &[u8]) -> io::Result<()> {
    println!(rt; "DCF of these:")?;
    rt.stdout().write_all(text)
}

/// Shows the writes of the parameter 1 for each entry, and the DCF with these.
fn show_ones(rt: &HostRuntime, device: &DataSheet) -> io::Result<()> {
    let all = writes(rt.alloc(), &ones(rt.alloc(), device)?, device, NODE)?;
    show_titled(rt, b"writes of 1 to each entry:\n", &all)?;
    let text = dcf_text(rt.alloc(), device, NODE, b"pump", 1000, &all)?;
    show_dcf(rt, &text)
}

/// Shows the writes of the text's own parameters, those of the parameter 1 for each entry, and the
/// DCF with these.
pub fn show_files(rt: &HostRuntime, device: &DataSheet) -> io::Result<()> {
    show_own(rt, device)?;
    show_ones(rt, device)
}
