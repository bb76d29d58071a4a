//! How a PDO is switched, as its device lets it be.
ghost use Rattle.std.specs.Prelude.{◌≡◌, ◌≤◌, ◌+◌, true, if◌then◌else◌, [], ◌∷◌, ◌++◌, length, OnOk};
ghost use Rattle.cia301.specs.CobIds.{off_bit};
ghost use Rattle.cia301.specs.PdoObjects.{mapping_object};
ghost use Rattle.vendor_pdos.specs.Mappings.{writes_mapping};
ghost use Rattle.vendor_pdos.specs.Parameters.{is_open};
ghost use Rattle.pdo_links.specs.PdoWrites.{cob_write, mapping_writes};
ghost use Rattle.pdo_links.specs.Tables.{AreMapped};
ghost use Rattle.pdo_links.specs.VendorWrites.{is_switched_off, unused_writes};

use crate::mapping::put_mapping;
use crate::parameters::COB_ID;
use crate::put::put_u32;
use crate::settings::allows;
use cia301::{CobId, mapping_object};
use concise_dcf::Write;
use pdo_stations::{AsMade, Mapped};
use std::alloc::AllocError;
use vendor_pdos::{is_open, parameter_default, writes_mapping};

/// Adds the write that switches an open PDO off.
pub(crate) fn put_off(
    writes: &mut Vec<Write>,
    device: &AsMade,
    object: u16,
    cob: u32,
) -> Result<(), AllocError>
    requires { cob ≤ 0x7FFFFFFF }
    ensures { OnOk result (writes.new.items ≡ writes.old.items ++ (if is_open device.now object
        then cob_write object (off_bit + cob) ∷ [] else [])) }
{
    if is_open(device, object) {
        put_u32(writes, object, COB_ID, CobId::OFF_BIT + cob)?;
    }
    Ok(())
}

/// Adds the writes of a mapping of at most 64 entries, where it can be written.
fn put_items(
    writes: &mut Vec<Write>,
    device: &AsMade,
    object: u16,
    mapping: &[Mapped],
) -> Result<(), AllocError>
    requires object { object ≤ 0xFDFF }
    requires short { length mapping.now ≤ 64 }
    ensures writes { OnOk result (writes.new.items ≡ writes.old.items ++ (if writes_mapping device.now object
        (length mapping.now) then mapping_writes (mapping_object object) mapping.now else [])) }
    ensures bytes { writes_mapping device.now object (length mapping.now) ≡ true
        → OnOk result (AreMapped mapping.now) }
{
    if writes_mapping(device, object, mapping.len()) {
        put_mapping(writes, mapping_object(object), mapping)?;
    }
    Ok(())
}

/// Adds the writes of an open PDO's mapping of at most 64 entries, where it can be written, and the write
/// that switches the PDO on.
pub(crate) fn put_on(
    writes: &mut Vec<Write>,
    device: &AsMade,
    object: u16,
    cob: u32,
    mapping: &[Mapped],
) -> Result<(), AllocError>
    requires object { object ≤ 0xFDFF }
    requires short { length mapping.now ≤ 64 }
    ensures writes { OnOk result (writes.new.items ≡ writes.old.items ++ (if is_open device.now object
        then (if writes_mapping device.now object (length mapping.now)
        then mapping_writes (mapping_object object) mapping.now else []) ++ cob_write object cob ∷ [] else [])) }
    ensures bytes { is_open device.now object ≡ true → writes_mapping device.now object (length mapping.now) ≡ true
        → OnOk result (AreMapped mapping.now) }
{
    if !is_open(device, object) {
        return Ok(());
    }
    put_items(writes, device, object, mapping)?;
    put_u32(writes, object, COB_ID, cob)
}

/// Whether a PDO that no message uses is switched off: it is on by default, and its COB-ID can be written and allows that.
pub fn is_switched_off(device: &AsMade, object: u16) -> bool
    ensures { result ≡ is_switched_off device.now object }
{
    if !is_open(device, object) {
        return false;
    }
    let cob = parameter_default(device, object, COB_ID);
    CobId::of(cob).is_valid() && allows(device, object, COB_ID, CobId::OFF_BIT + cob)
}

/// Adds the write that switches a PDO off that no message uses, where that is done.
#[tactic(auto, unfolding(crate::specs::VendorWrites::unused_writes))]
pub(crate) fn put_unused(
    writes: &mut Vec<Write>,
    device: &AsMade,
    object: u16,
) -> Result<(), AllocError>
    ensures { OnOk result (writes.new.items ≡ writes.old.items ++ unused_writes device.now object) }
{
    if is_switched_off(device, object) {
        let cob = parameter_default(device, object, COB_ID);
        put_u32(writes, object, COB_ID, CobId::OFF_BIT + cob)?;
    }
    Ok(())
}
