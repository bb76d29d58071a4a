//! The writes of a mapping.
ghost use Rattle.std.specs.Prelude.{◌≡◌, ◌≤◌, [], ◌∷◌, ◌++◌, length, OnOk};
ghost use Rattle.base.specs.Bytes.{AreBytes};
ghost use Rattle.pdo_plan.specs.Mapping.{mapped_bytes};
ghost use Rattle.pdo_links.specs.Tables.{AreMapped};
ghost use Rattle.pdo_links.specs.PdoWrites.{write_at, mapped_writes, mapping_writes};

use crate::parameters::MAPPED_COUNT;
use crate::put::{put, put_u8};
use byteorder::{ByteOrder, LittleEndian};
use concise_dcf::Write;
use pdo_plan::Mapped;
use std::alloc::AllocError;

/// The bytes of a mapping entry: index, sub-index and length in bits are one UNSIGNED32, the index in
/// its highest bits.
fn mapped_bytes(mapped: &Mapped) -> [u8; 4]
    ensures { result ≡ mapped_bytes mapped.now }
{
    let mut bytes = [mapped.bits, mapped.sub, 0, 0];
    LittleEndian::write_u16(&mut bytes[2..], mapped.index);
    bytes
}

/// Adds the write of a mapping entry.
fn put_mapped(
    writes: &mut Vec<Write>,
    object: u16,
    sub: u8,
    mapped: &Mapped,
) -> Result<(), AllocError>
    ensures writes { OnOk result (writes.new.items ≡ writes.old.items ++ write_at object sub (mapped_bytes mapped.now)
        ∷ []) }
    ensures bytes { AreBytes (mapped_bytes mapped.now) }
{
    let bytes = mapped_bytes(mapped);
    put(writes, object, sub, &bytes)
}

/// Adds the writes of mapping entries from sub-index 1 on.
fn put_entries(writes: &mut Vec<Write>, object: u16, mapping: &[Mapped]) -> Result<(), AllocError>
    requires { length mapping.now ≤ 64 }
    ensures writes { OnOk result (writes.new.items ≡ writes.old.items ++ mapped_writes object 1 mapping.now) }
    ensures bytes { OnOk result (AreMapped mapping.now) }
{
    for (place, mapped) in mapping.iter().enumerate() {
        put_mapped(writes, object, (place + 1) as u8, mapped)?;
    }
    Ok(())
}

/// Adds the writes of a mapping of at most 64 entries: it is switched off by count 0, its entries
/// are written, and then their count.
pub(crate) fn put_mapping(
    writes: &mut Vec<Write>,
    object: u16,
    mapping: &[Mapped],
) -> Result<(), AllocError>
    requires { length mapping.now ≤ 64 }
    ensures writes { OnOk result (writes.new.items ≡ writes.old.items ++ mapping_writes object mapping.now) }
    ensures bytes { OnOk result (AreMapped mapping.now) }
{
    put_u8(writes, object, MAPPED_COUNT, 0)?;
    put_entries(writes, object, mapping)?;
    put_u8(writes, object, MAPPED_COUNT, mapping.len() as u8)
}
