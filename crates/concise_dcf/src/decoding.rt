//! Reading a concise DCF.
ghost use Rattle.std.specs.Prelude.{◌≡◌, List, IfOk, IfErr, Ok, Err};
ghost use Rattle.base.specs.Gives.{Gives};
ghost use Rattle.concise_dcf.specs.declared.write.Write.{Write as written};
ghost use Rattle.concise_dcf.specs.Concise.{IsTextOf, HasFault, is_memory};
ghost use Rattle.concise_dcf.specs.Reading.{entry_at, entries_at, all_of};

use crate::fault::ConciseFault;
use crate::write::{COUNT_LEN, HEADER_LEN, Write};
use base::Octets;
use byteorder::{ByteOrder, LittleEndian};
use std::alloc::Global;

/// The entry at the front, and what stands behind it.
#[tactic(auto, unfolding(crate::specs::Reading::entry_at))]
fn read_entry(alloc: Global, bytes: &[u8]) -> Result<(Write, &[u8]), ConciseFault>
    ensures { Gives is_memory (λ x. (x.0, x.1.now)) result (entry_at bytes.now) }
{
    if bytes.len() < HEADER_LEN {
        return Err(ConciseFault::Short);
    }
    let index = LittleEndian::read_u16(bytes);
    let sub = bytes[2];
    let size = LittleEndian::read_u32(&bytes[3..]) as usize;
    if size == 0 {
        return Err(ConciseFault::Empty);
    }
    if bytes.len() < HEADER_LEN + size {
        return Err(ConciseFault::Short);
    }
    let (data, rest) = bytes[HEADER_LEN..].split_at(size);
    let bytes = Octets::from_slice(alloc, data)?;
    Ok((Write { index, sub, bytes }, rest))
}

/// That many entries from the front, and what stands behind them. The list grows entry by entry.
fn read_entries(
    alloc: Global,
    count: u32,
    bytes: &[u8],
) -> Result<(Vec<Write>, &[u8]), ConciseFault>
    ensures { Gives is_memory (λ x. (x.0.items, x.1.now)) result (entries_at count bytes.now) }
{
    let mut writes = Vec::new(alloc);
    let mut rest = bytes;
    for _ in 0..count {
        let (write, after) = read_entry(alloc, rest)?;
        writes.push(write)?;
        rest = after;
    }
    Ok((writes, rest))
}

/// All of the bytes.
#[tactic(auto, unfolding(crate::specs::Reading::all_of))]
fn read_all(alloc: Global, bytes: &[u8]) -> Result<Vec<Write>, ConciseFault>
    ensures { Gives is_memory (λ v. v.items) result (all_of bytes.now) }
{
    if bytes.len() < COUNT_LEN {
        return Err(ConciseFault::Short);
    }
    let count = LittleEndian::read_u32(bytes);
    let (writes, rest) = read_entries(alloc, count, &bytes[COUNT_LEN..])?;
    if !rest.is_empty() {
        return Err(ConciseFault::Extra);
    }
    Ok(writes)
}

/// The list of writes whose concise DCF (CiA 302) these bytes are.
///
/// Bytes that are none have one fault, that of the first place from the front. Memory is taken
/// entry by entry, never by the count that the bytes say, so the work is linear in the bytes.
pub fn decode(alloc: Global, bytes: &[u8]) -> Result<Vec<Write>, ConciseFault>
    // What is read is spelled so.
    ensures found { IfOk result (λ writes. IsTextOf writes.items bytes.now) }
    // What is spelled so is read, unless memory runs out.
    ensures only { (writes : List written) → IsTextOf writes bytes.now
        → Gives is_memory (λ v. v.items) result (Ok writes) }
    // A fault that is answered is there.
    ensures fault { IfErr result (λ f. (f ≡ ConciseFault.Memory → ⊥) → HasFault f bytes.now) }
    // A fault that is there is answered, unless memory runs out.
    ensures exact { (f : ConciseFault) → HasFault f bytes.now
        → Gives is_memory (λ v. v.items) result (Err f) }
{
    read_all(alloc, bytes)
}
