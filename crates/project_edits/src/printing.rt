//! Edits of the network as text, written at the end of an output. Where memory runs out, what stood
//! there is the beginning of what stands there then, and a part of the text may follow.
#![tactic(auto, unfolding(crate::specs::Lines::text_of, crate::specs::Lines::line_of, crate::specs::Lines::words_of))]

ghost use Rattle.std.specs.Prelude.{◌≡◌, ◌++◌, ◌∷◌, OnOk, OnErr, Some, decimal};
ghost use Rattle.std.specs.Io.{StartsWith};
ghost use Rattle.std.specs.Str.{byte};
ghost use Rattle.project_edits.specs.Lines.{text_of};
ghost use Rattle.project_edits.specs.declared.edit.Edit.TheVariants as edit;

use crate::manager_settings::ManagerSettings;
use crate::script_version::ScriptVersion;
use crate::time_stamps::TimeStamps;
use crate::written::{write_number, write_target, write_word};
use base::line_count;
use std::alloc::{AllocError, Global};

/// Writes `version V`.
pub fn write_version(
    out: &mut Vec<u8>,
    alloc: Global,
    version: ScriptVersion,
) -> Result<(), AllocError>
    ensures written { OnOk result (out.new.items ≡ out.old.items ++ text_of (edit.Version version)) }
    ensures kept { OnErr result (StartsWith out.new.items out.old.items) }
{
    out.extend_from_slice(b"version")?;
    write_number(out, u64::from(version.number()))?;
    out.push(b'\n')?;
    Ok(())
}

/// Writes `bitrate K`.
pub fn write_bitrate(out: &mut Vec<u8>, alloc: Global, rate: u16) -> Result<(), AllocError>
    ensures written { OnOk result (out.new.items ≡ out.old.items ++ text_of (edit.Bitrate rate)) }
    ensures kept { OnErr result (StartsWith out.new.items out.old.items) }
{
    out.extend_from_slice(b"bitrate")?;
    write_number(out, u64::from(rate))?;
    out.push(b'\n')?;
    Ok(())
}

/// Writes `horizon US`.
pub fn write_horizon(out: &mut Vec<u8>, alloc: Global, time: u32) -> Result<(), AllocError>
    ensures written { OnOk result (out.new.items ≡ out.old.items ++ text_of (edit.Horizon time)) }
    ensures kept { OnErr result (StartsWith out.new.items out.old.items) }
{
    out.extend_from_slice(b"horizon")?;
    write_number(out, u64::from(time))?;
    out.push(b'\n')?;
    Ok(())
}

/// Writes ` SYNC_US HB_MS TIMEOUT_MS`.
fn write_periods(out: &mut Vec<u8>, manager: ManagerSettings) -> Result<(), AllocError>
    ensures written { OnOk result (out.new.items ≡ out.old.items ++ byte " " ∷ decimal manager.sync_us
        ++ byte " " ∷ decimal manager.heartbeat_ms ++ byte " " ∷ decimal manager.timeout_ms) }
    ensures kept { OnErr result (StartsWith out.new.items out.old.items) }
{
    write_number(out, u64::from(manager.sync_us))?;
    write_number(out, u64::from(manager.heartbeat_ms))?;
    write_number(out, u64::from(manager.timeout_ms))?;
    Ok(())
}

/// Writes `manager ID SYNC_US HB_MS TIMEOUT_MS`.
pub fn write_manager(
    out: &mut Vec<u8>,
    alloc: Global,
    manager: ManagerSettings,
) -> Result<(), AllocError>
    ensures written { OnOk result (out.new.items ≡ out.old.items ++ text_of (edit.Manager manager)) }
    ensures kept { OnErr result (StartsWith out.new.items out.old.items) }
{
    out.extend_from_slice(b"manager")?;
    write_number(out, u64::from(manager.id))?;
    write_periods(out, manager)?;
    out.push(b'\n')?;
    Ok(())
}

/// Writes ` US DAYS`.
fn write_period_and_day(out: &mut Vec<u8>, stamps: TimeStamps) -> Result<(), AllocError>
    ensures written { OnOk result (out.new.items ≡ out.old.items ++ byte " " ∷ decimal stamps.period_us
        ++ byte " " ∷ decimal stamps.first_day) }
    ensures kept { OnErr result (StartsWith out.new.items out.old.items) }
{
    write_number(out, u64::from(stamps.period_us))?;
    write_number(out, u64::from(stamps.first_day))?;
    Ok(())
}

/// Writes `time-period US DAYS`.
pub fn write_time_stamps(
    out: &mut Vec<u8>,
    alloc: Global,
    stamps: TimeStamps,
) -> Result<(), AllocError>
    ensures written { OnOk result (out.new.items ≡ out.old.items ++ text_of (edit.TimeStamps (Some stamps))) }
    ensures kept { OnErr result (StartsWith out.new.items out.old.items) }
{
    out.extend_from_slice(b"time-period")?;
    write_period_and_day(out, stamps)?;
    out.push(b'\n')?;
    Ok(())
}

/// Writes `sync-counter N`.
pub fn write_sync_counter(out: &mut Vec<u8>, alloc: Global, last: u8) -> Result<(), AllocError>
    ensures written { OnOk result (out.new.items ≡ out.old.items ++ text_of (edit.SyncCounter last)) }
    ensures kept { OnErr result (StartsWith out.new.items out.old.items) }
{
    out.extend_from_slice(b"sync-counter")?;
    write_number(out, u64::from(last))?;
    out.push(b'\n')?;
    Ok(())
}

/// Writes `eds NAME LINES` and the lines.
pub fn write_eds(
    out: &mut Vec<u8>,
    alloc: Global,
    name: &[u8],
    text: &[u8],
) -> Result<(), AllocError>
    ensures written { OnOk result (out.new.items ≡ out.old.items ++ text_of (edit.Eds name.now text.now)) }
    ensures kept { OnErr result (StartsWith out.new.items out.old.items) }
{
    out.extend_from_slice(b"eds")?;
    write_word(out, name)?;
    write_number(out, line_count(text) as u64)?;
    out.push(b'\n')?;
    out.extend_from_slice(text)?;
    Ok(())
}

/// Writes `node ID NAME EDS`.
pub fn write_node(
    out: &mut Vec<u8>,
    alloc: Global,
    id: u8,
    name: &[u8],
    eds: &[u8],
) -> Result<(), AllocError>
    ensures written { OnOk result (out.new.items ≡ out.old.items ++ text_of (edit.Node id name.now eds.now)) }
    ensures kept { OnErr result (StartsWith out.new.items out.old.items) }
{
    out.extend_from_slice(b"node")?;
    write_number(out, u64::from(id))?;
    write_word(out, name)?;
    write_word(out, eds)?;
    out.push(b'\n')?;
    Ok(())
}

/// Writes `need ID mandatory` or `need ID optional`.
pub fn write_need(
    out: &mut Vec<u8>,
    alloc: Global,
    id: u8,
    mandatory: bool,
) -> Result<(), AllocError>
    ensures written { OnOk result (out.new.items ≡ out.old.items ++ text_of (edit.Need id mandatory)) }
    ensures kept { OnErr result (StartsWith out.new.items out.old.items) }
{
    out.extend_from_slice(b"need")?;
    write_number(out, u64::from(id))?;
    write_word(out, if mandatory { b"mandatory" } else { b"optional" })?;
    out.push(b'\n')?;
    Ok(())
}

/// Writes `param ID INDEX SUB TEXT`.
pub fn write_param(
    out: &mut Vec<u8>,
    alloc: Global,
    id: u8,
    index: u16,
    sub: u8,
    text: &[u8],
) -> Result<(), AllocError>
    ensures written { OnOk result (out.new.items ≡ out.old.items ++ text_of (edit.Param id index sub text.now)) }
    ensures kept { OnErr result (StartsWith out.new.items out.old.items) }
{
    out.extend_from_slice(b"param")?;
    write_target(out, id, index, sub)?;
    write_word(out, text)?;
    out.push(b'\n')?;
    Ok(())
}
