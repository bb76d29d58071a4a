//! The mapping of a PDO.
ghost use Rattle.std.specs.Prelude.{◌≡◌, ◌≤◌, ◌+◌, length, map};
ghost use Rattle.std.specs.List.{enumerate_from, list_all, range_with_len};
ghost use Rattle.co_values.specs.declared.form.Width.TheVariants as width;
ghost use Rattle.vendor_pdos.specs.Mappings.{mapping_serves, mapping_stands, stands_at, writes_mapping};
ghost use Rattle.vendor_pdos.specs.Parameters.{takes_at};

use crate::parameters::{has_at, is_open, takes_at};
use crate::wanted::Wants;
use cia301::mapping_object;
use co_values::Width;
use pdo_stations::{AsMade, Carried};

/// Whether so many entries of a mapping object, up to 64, can be written: those from sub 1 on.
fn takes_entries(device: &AsMade, mapping: u16, count: u8) -> bool
    requires { count ≤ 64 }
    ensures { result ≡ list_all (λ sub. takes_at device.now width.Bits32 (mapping, sub)) (range_with_len 1 count) }
{
    for sub in 1..count + 1 {
        if !takes_at(device, Width::Bits32, mapping, sub) {
            return false;
        }
    }
    true
}

/// Whether the mapping of the PDO with this communication object can be written with so many entries, up to 64: there is
/// one at least, the PDO is open, and the count and as many entries are writable.
#[tactic(auto, unfolding(crate::specs::Mappings::writes_mapping))]
pub fn writes_mapping(device: &AsMade, object: u16, count: usize) -> bool
    requires object { object ≤ 0xFDFF }
    requires few { count ≤ 64 }
    ensures { result ≡ writes_mapping device.now object count }
{
    let mapping = mapping_object(object);
    count >= 1
        && is_open(device, object)
        && takes_at(device, Width::Bits8, mapping, 0)
        && takes_entries(device, mapping, count as u8)
}

/// Whether an entry that serves at the position of a source stands at a sub-index of a mapping object by default.
fn stands_at<W: Wants>(device: &AsMade, mapping: u16, sub: u8, wants: &W, source: &Carried) -> bool
    ensures { result ≡ stands_at device.now (W.choices wants.now source.now) (mapping, sub) }
{
    has_at(device, Width::Bits32, mapping, sub)
        && wants.serves(source, device.defaults.number_32(mapping, sub))
}

/// Whether such entries stand by default at the positions of all sources, up to 64, from sub 1 on.
fn entries_stand<W: Wants>(device: &AsMade, mapping: u16, wants: &W, carried: &[Carried]) -> bool
    requires { length carried.now ≤ 64 }
    ensures { result ≡ list_all (λ e. stands_at device.now e.1 (mapping, e.0))
        (enumerate_from 1 (map (W.choices wants.now) carried.now)) }
{
    let mut sub = 1;
    let mut rest = carried;
    while let [source, after @ ..] = rest {
        if !stands_at(device, mapping, sub, wants, source) {
            return false;
        }
        sub += 1;
        rest = after;
    }
    true
}

/// Whether the mapping of the PDO with this communication object stands by default, as it is wanted for sources, up to
/// 64: there is one at least, their count is the default, and at the position of each an entry that serves.
#[tactic(auto, unfolding(crate::specs::Mappings::mapping_stands))]
fn mapping_stands<W: Wants>(device: &AsMade, object: u16, wants: &W, carried: &[Carried]) -> bool
    requires object { object ≤ 0xFDFF }
    requires few { length carried.now ≤ 64 }
    ensures { result ≡ mapping_stands device.now object (map (W.choices wants.now) carried.now) }
{
    let mapping = mapping_object(object);
    let count = carried.len();
    count >= 1
        && has_at(device, Width::Bits8, mapping, 0)
        && usize::from(device.defaults.number_8(mapping, 0)) == count
        && entries_stand(device, mapping, wants, carried)
}

/// Whether the mapping of the PDO with this communication object serves, as it is wanted for sources, up to 64: it can
/// be written, or stands by default.
pub(crate) fn mapping_serves<W: Wants>(
    device: &AsMade,
    object: u16,
    wants: &W,
    carried: &[Carried],
) -> bool
    requires object { object ≤ 0xFDFF }
    requires few { length carried.now ≤ 64 }
    ensures { result ≡ mapping_serves device.now object (map (W.choices wants.now) carried.now) }
{
    writes_mapping(device, object, carried.len()) || mapping_stands(device, object, wants, carried)
}
