//! How many mapping entries a PDO has room for.
ghost use Rattle.std.specs.Prelude.{◌≡◌, ◌≤◌, ◌<◌, ◌+◌, ℕ, nat_le};
ghost use Rattle.std.specs.List.{list_all, range_with_len};
ghost use Rattle.pdo_stations.specs.Devices.{is_unsigned, takes_unsigned, has_unsigned};
ghost use Rattle.pdo_stations.specs.Rooms.{device_with, IsRoomOf};

use co_dict::{Entry, Shape};
use co_values::{DataType, Width};

/// The most entries of a mapping (CiA 301).
pub(crate) const MAX_ENTRIES: u8 = 64;

/// Whether a type is UNSIGNEDn of a width.
pub fn is_unsigned(kind: DataType, width: Width) -> bool
    ensures { result ≡ is_unsigned kind width }
{
    match kind {
        DataType::Unsigned8 => matches!(width, Width::Bits8),
        DataType::Unsigned16 => matches!(width, Width::Bits16),
        DataType::Unsigned24 => matches!(width, Width::Bits24),
        DataType::Unsigned32 => matches!(width, Width::Bits32),
        DataType::Unsigned40 => matches!(width, Width::Bits40),
        DataType::Unsigned48 => matches!(width, Width::Bits48),
        DataType::Unsigned56 => matches!(width, Width::Bits56),
        DataType::Unsigned64 => matches!(width, Width::Bits64),
        _ => false,
    }
}

/// Whether an entry is an UNSIGNEDn of a width that can be written.
pub fn takes_unsigned(width: Width, entry: &Entry) -> bool
    ensures { result ≡ takes_unsigned width entry.now }
{
    is_unsigned(entry.kind, width) && entry.access.is_writable()
}

/// Whether a device has such an entry.
pub(crate) fn has_unsigned(shape: &Shape, width: Width, index: u16, sub: u8) -> bool
    ensures { result ≡ has_unsigned (device_with shape.now) 0 width (index, sub) }
{
    match shape.entry(index, sub) {
        Some(entry) => takes_unsigned(width, entry),
        None => false,
    }
}

/// How many entries from sub 1 on a mapping object has, up to 64.
fn mapping_entries(shape: &Shape, object: u16) -> u8
    ensures { (count : ℕ) → count ≤ 64 → nat_le count result
        ≡ list_all (λ sub. has_unsigned (device_with shape.now) 0 Width.Bits32 (object, sub)) (range_with_len 1 count) }
{
    for sub in 1..65 {
        if !has_unsigned(shape, Width::Bits32, object, sub) {
            return sub - 1;
        }
    }
    MAX_ENTRIES
}

/// How many mapping entries, up to 64, a PDO has room for. `None` where it lacks another entry that
/// its writes name.
#[tactic(auto, unfolding(crate::specs::Devices::has_mapping))]
pub(crate) fn room(shape: &Shape, object: u16) -> Option<u8>
    requires { object < 0xFE00 }
    ensures { IsRoomOf shape.now object result }
{
    let mapping = object + 0x200;
    if has_unsigned(shape, Width::Bits32, object, 1)
        && has_unsigned(shape, Width::Bits8, object, 2)
        && has_unsigned(shape, Width::Bits8, mapping, 0)
    {
        Some(mapping_entries(shape, mapping))
    } else {
        None
    }
}
