//! Writing a concise DCF.
ghost use Rattle.std.specs.Prelude.{◌≡◌, ◌<◌, ◌≤◌, ◌^◌, ◌++◌, length, All, OnOk, IfOk};
ghost use Rattle.concise_dcf.specs.Concise.{IsTextOf, Fits, entry_of};
ghost use Rattle.concise_dcf.specs.Writes.{IsSized};

use crate::write::{COUNT_LEN, HEADER_LEN, Write};
use byteorder::{ByteOrder, LittleEndian};
use std::alloc::{AllocError, Global};

/// The index and the sub-index of a write.
fn address_of(write: &Write) -> (u16, u8)
    ensures index { result.0 ≡ write.now.index }
    ensures sub { result.1 ≡ write.now.sub }
{
    (write.index, write.sub)
}

/// Adds the entry of a write behind what is there.
fn put_entry(out: &mut Vec<u8>, write: &Write) -> Result<(), AllocError>
    requires some { 0 < length write.now.bytes }
    requires size { length write.now.bytes < 2 ^ 32 }
    ensures text { OnOk result (out.new.items ≡ out.old.items ++ entry_of write.now) }
    ensures fits { Fits write.now }
{
    let (index, sub) = address_of(write);
    let mut header = [0u8; HEADER_LEN];
    LittleEndian::write_u16(&mut header, index);
    header[2] = sub;
    LittleEndian::write_u32(&mut header[3..], write.bytes.len() as u32);
    out.extend_from_slice(&header)?;
    out.extend_from_slice(write.bytes.as_slice())?;
    Ok(())
}

/// The concise DCF (CiA 302) of a list of writes: their count, and the entry of each.
///
/// The only error is want of memory.
pub fn encode(alloc: Global, writes: &[Write]) -> Result<Vec<u8>, AllocError>
    requires count { length writes.now ≤ 4294967295 }
    requires sizes { All IsSized writes.now }
    ensures { IfOk result (λ text. IsTextOf writes.now text.items) }
{
    let mut out = Vec::new(alloc);
    let mut count = [0u8; COUNT_LEN];
    LittleEndian::write_u32(&mut count, writes.len() as u32);
    out.extend_from_slice(&count)?;
    for write in writes {
        put_entry(&mut out, write)?;
    }
    Ok(out)
}
