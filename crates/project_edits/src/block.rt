//! The lines of an EDS.
ghost use Rattle.std.specs.Prelude.{◌≡◌, IfOk};
ghost use Rattle.std.specs.List.{list_any};
ghost use Rattle.base.specs.Gives.{Gives};
ghost use Rattle.eds_device.specs.Faults.{device_of};
ghost use Rattle.project_edits.specs.Faults.{is_memory, device_verdict};
ghost use Rattle.project_edits.specs.Eds.{block_lines, text_of, is_bad_in_line, has_bad_line, has_long_line};

use crate::fault::EditFault;
use base::{Octets, Shared, without_crs};
use eds_device::DataSheet;
use ini_text::{is_bad_byte, is_long_line};
use std::alloc::{AllocError, Global};

/// The text of the lines.
pub(crate) fn text_of(alloc: Global, lines: &[Vec<u8>]) -> Result<Vec<u8>, AllocError>
    ensures { IfOk result (λ text. text.items ≡ text_of (block_lines lines.now)) }
{
    let mut text = Vec::new(alloc);
    for line in lines {
        text.extend_from_slice(without_crs(line))?;
        text.push(b'\n')?;
    }
    Ok(text)
}

/// The text of an EDS, to be shared by the projects that keep it.
pub(crate) fn shared_text(alloc: Global, text: Vec<u8>) -> Result<Shared<Octets>, AllocError>
    ensures { IfOk result (λ shared. shared ≡ text.items) }
{
    let shared = Shared::new(alloc, Octets::from_vec(text))?;
    Ok(shared)
}

/// Whether a line has over 4,096 bytes, the CRs at its end not counted.
pub(crate) fn has_long_line(lines: &[Vec<u8>]) -> bool
    ensures { result ≡ has_long_line (block_lines lines.now) }
{
    for line in lines {
        if is_long_line(line) {
            return true;
        }
    }
    false
}

fn is_bad_in_line(byte: u8) -> bool
    ensures { result ≡ is_bad_in_line byte }
{
    is_bad_byte(byte) || byte == b'\n'
}

fn has_bad_byte(line: &[u8]) -> bool
    ensures { result ≡ list_any is_bad_in_line line.now }
{
    line.iter().any(|b| is_bad_in_line(*b))
}

/// Whether a line has a byte that no line of an EDS may have.
pub(crate) fn has_bad_line(lines: &[Vec<u8>]) -> bool
    ensures { result ≡ has_bad_line (block_lines lines.now) }
{
    for line in lines {
        if has_bad_byte(line) {
            return true;
        }
    }
    false
}

/// Refuses a text that can't be read as a device.
pub(crate) fn check(alloc: Global, text: &[u8]) -> Result<(), EditFault>
    ensures { Gives is_memory (λ u. u) result (device_verdict (device_of text.now)) }
{
    DataSheet::check(alloc, text)?;
    Ok(())
}
