//! Writes of numbers, the lowest byte first.
ghost use Rattle.std.specs.Prelude.{◌≡◌, [], ◌∷◌, ◌++◌, ◌<◌, ◌≤◌, OnOk};
ghost use Rattle.co_values.specs.Types.{octets};
ghost use Rattle.byteorder.specs.Endian.{little_bytes};
ghost use Rattle.pdo_links.specs.PdoWrites.{write_at};

use base::Octets;
use byteorder::{ByteOrder, LittleEndian};
use co_values::Width;
use concise_dcf::Write;
use std::alloc::AllocError;

/// Adds a write of bytes.
pub(crate) fn put(
    writes: &mut Vec<Write>,
    index: u16,
    sub: u8,
    bytes: &[u8],
) -> Result<(), AllocError>
    ensures { OnOk result (writes.new.items ≡ writes.old.items ++ write_at index sub bytes.now ∷ []) }
{
    let bytes = Octets::from_slice(*writes.allocator(), bytes)?;
    writes.push(Write { index, sub, bytes })?;
    Ok(())
}

/// Adds a write of an UNSIGNED8.
pub(crate) fn put_u8(
    writes: &mut Vec<Write>,
    index: u16,
    sub: u8,
    number: u8,
) -> Result<(), AllocError>
    ensures write { OnOk result (writes.new.items ≡ writes.old.items ++ write_at index sub (number ∷ []) ∷ []) }
    ensures range { number < 256 }
{
    put(writes, index, sub, &[number])
}

/// Adds a write of an UNSIGNED16.
pub(crate) fn put_u16(
    writes: &mut Vec<Write>,
    index: u16,
    sub: u8,
    number: u16,
) -> Result<(), AllocError>
    ensures { OnOk result (writes.new.items ≡ writes.old.items ++ write_at index sub (little_bytes 2 number) ∷ []) }
{
    let mut bytes = [0u8; 2];
    LittleEndian::write_u16(&mut bytes, number);
    put(writes, index, sub, &bytes)
}

/// Adds a write of an UNSIGNED32.
pub(crate) fn put_u32(
    writes: &mut Vec<Write>,
    index: u16,
    sub: u8,
    number: u32,
) -> Result<(), AllocError>
    ensures { OnOk result (writes.new.items ≡ writes.old.items ++ write_at index sub (little_bytes 4 number) ∷ []) }
{
    let mut bytes = [0u8; 4];
    LittleEndian::write_u32(&mut bytes, number);
    put(writes, index, sub, &bytes)
}

/// Adds a write of a number of up to 16 bits as an UNSIGNEDn of a width of up to 32.
pub(crate) fn put_number(
    writes: &mut Vec<Write>,
    index: u16,
    sub: u8,
    width: Width,
    number: u16,
) -> Result<(), AllocError>
    requires { octets width ≤ 4 }
    ensures { OnOk result (writes.new.items
        ≡ writes.old.items ++ write_at index sub (little_bytes (octets width) number) ∷ []) }
{
    let mut bytes = [0u8; 4];
    LittleEndian::write_u32(&mut bytes, u32::from(number));
    put(writes, index, sub, &bytes[..width.octets()])
}
