//! The limits that the numbers of edits keep to. A number outside them is refused with Range.
ghost use Rattle.std.specs.Prelude.{◌≡◌, true, IfOk};
ghost use Rattle.base.specs.Gives.{Gives};
ghost use Rattle.project_edits.specs.Faults.{is_memory};
ghost use Rattle.base.specs.Ranges.{is_between};
ghost use Rattle.project_messages.specs.Messages.{is_position, is_rpdo_or_any, is_start};
ghost use Rattle.project_edits.specs.Forms.{number_within, is_node_or_all, is_own_index, is_bit_rate, is_time};
ghost use Rattle.cia301.specs.Limits.{is_node_number, is_pdo_number};
ghost use Rattle.project_edits.specs.Forms.{is_sync_counter, is_period, is_identifier};
ghost use Rattle.project_edits.specs.Forms.{is_event_number};
ghost use Rattle.project_edits.specs.Versions.{version_of};

use crate::fault::EditFault;
use crate::script_version::ScriptVersion;
use cia301::is_of_pdos;

const MAX_TIME: u64 = 10_000_000;

const MIN_PERIOD: u64 = 1000;

const MIN_COUNTER: u64 = 2;

const MAX_COUNTER: u64 = 240;

const MAX_PDO: u64 = 512;

const MAX_POSITION: u64 = 64;

const MAX_IDENTIFIER: u16 = 0x7FF;

const MAX_EVENTS: u64 = 10_000;

/// A number from `low` to `high`, both included.
pub fn number_within(number: u64, low: u64, high: u64) -> Result<u64, EditFault>
    ensures value { Gives is_memory (λ n. n) result (number_within (is_between low high) number) }
    ensures within { IfOk result (λ n. is_between low high n ≡ true) }
{
    if number < low || number > high {
        return Err(EditFault::Range);
    }
    Ok(number)
}

/// A node number, 1 to 127.
pub fn node_number(number: u64) -> Result<u8, EditFault>
    ensures value { Gives is_memory (λ n. n) result (number_within is_node_number number) }
    ensures within { IfOk result (λ n. is_node_number n ≡ true) }
{
    let number = number_within(number, 1, 127)?;
    Ok(number as u8)
}

/// A node number, or 0 for all nodes.
pub fn node_or_all(number: u64) -> Result<u8, EditFault>
    ensures value { Gives is_memory (λ n. n) result (number_within is_node_or_all number) }
    ensures within { IfOk result (λ n. is_node_or_all n ≡ true) }
{
    let number = number_within(number, 0, 127)?;
    Ok(number as u8)
}

/// An index outside 1400h to 1BFFh, which the plan of messages owns.
pub fn own_index(index: u16) -> Result<u16, EditFault>
    ensures value { Gives is_memory (λ n. n) result (number_within is_own_index index) }
    ensures within { IfOk result (λ n. is_own_index n ≡ true) }
{
    if is_of_pdos(index) {
        return Err(EditFault::Range);
    }
    Ok(index)
}

fn is_bit_rate(number: u64) -> bool
    ensures { result ≡ is_bit_rate number }
{
    matches!(number, 10 | 20 | 50 | 125 | 250 | 500 | 1000)
}

/// A bit rate in kbit/s.
pub fn bit_rate(number: u64) -> Result<u16, EditFault>
    ensures value { Gives is_memory (λ n. n) result (number_within is_bit_rate number) }
    ensures within { IfOk result (λ n. is_bit_rate n ≡ true) }
{
    if !is_bit_rate(number) {
        return Err(EditFault::Range);
    }
    Ok(number as u16)
}

/// A time from power-on in microseconds, up to ten seconds.
pub fn time(number: u64) -> Result<u32, EditFault>
    ensures value { Gives is_memory (λ n. n) result (number_within is_time number) }
    ensures within { IfOk result (λ n. is_time n ≡ true) }
{
    let time = number_within(number, 0, MAX_TIME)?;
    Ok(time as u32)
}

/// The time between two SYNC messages, or two time stamps, in microseconds, a millisecond to ten seconds; 0 for none.
pub fn period(number: u64) -> Result<u32, EditFault>
    ensures value { Gives is_memory (λ n. n) result (number_within is_period number) }
    ensures within { IfOk result (λ n. is_period n ≡ true) }
{
    if number == 0 {
        return Ok(0);
    }
    let period = number_within(number, MIN_PERIOD, MAX_TIME)?;
    Ok(period as u32)
}

/// The last number of the counter of SYNC messages, 2 to 240; 0 for no counter.
pub fn sync_counter(number: u64) -> Result<u8, EditFault>
    ensures value { Gives is_memory (λ n. n) result (number_within is_sync_counter number) }
    ensures within { IfOk result (λ n. is_sync_counter n ≡ true) }
{
    if number == 0 {
        return Ok(0);
    }
    let last = number_within(number, MIN_COUNTER, MAX_COUNTER)?;
    Ok(last as u8)
}

/// A SYNC start value, 1 to 240; 0 for any SYNC.
pub fn sync_start(number: u64) -> Result<u8, EditFault>
    ensures value { Gives is_memory (λ n. n) result (number_within is_start number) }
    ensures within { IfOk result (λ n. is_start n ≡ true) }
{
    let start = number_within(number, 0, MAX_COUNTER)?;
    Ok(start as u8)
}

/// The version of a script: 1, 2 or 3.
pub fn script_version(number: u64) -> Result<ScriptVersion, EditFault>
    ensures { Gives is_memory (λ v. v) result (version_of number) }
{
    match number {
        1 => Ok(ScriptVersion::One),
        2 => Ok(ScriptVersion::Two),
        3 => Ok(ScriptVersion::Three),
        _ => Err(EditFault::Range),
    }
}

/// A number of 8 bits.
pub fn byte(number: u64) -> Result<u8, EditFault>
    ensures value { Gives is_memory (λ n. n) result (number_within (is_between 0 0xFF) number) }
    ensures within { IfOk result (λ n. is_between 0 0xFF n ≡ true) }
{
    let number = number_within(number, 0, 0xFF)?;
    Ok(number as u8)
}

/// A number of 16 bits.
pub fn short(number: u64) -> Result<u16, EditFault>
    ensures value { Gives is_memory (λ n. n) result (number_within (is_between 0 0xFFFF) number) }
    ensures within { IfOk result (λ n. is_between 0 0xFFFF n ≡ true) }
{
    let number = number_within(number, 0, 0xFFFF)?;
    Ok(number as u16)
}

/// The number of a TPDO (CiA 301), 1 to 512.
pub fn tpdo_number(number: u64) -> Result<u16, EditFault>
    ensures value { Gives is_memory (λ n. n) result (number_within is_pdo_number number) }
    ensures within { IfOk result (λ n. is_pdo_number n ≡ true) }
{
    let number = number_within(number, 1, MAX_PDO)?;
    Ok(number as u16)
}

/// The number of an RPDO (CiA 301), 1 to 512, or 0 for the one that the plan gives.
pub fn rpdo_or_any(number: u64) -> Result<u16, EditFault>
    ensures value { Gives is_memory (λ n. n) result (number_within is_rpdo_or_any number) }
    ensures within { IfOk result (λ n. is_rpdo_or_any n ≡ true) }
{
    let number = number_within(number, 0, MAX_PDO)?;
    Ok(number as u16)
}

/// A position in a message, 1 to 64.
pub fn position(number: u64) -> Result<u8, EditFault>
    ensures value { Gives is_memory (λ n. n) result (number_within is_position number) }
    ensures within { IfOk result (λ n. is_position n ≡ true) }
{
    let number = number_within(number, 1, MAX_POSITION)?;
    Ok(number as u8)
}

/// An identifier of 11 bits, 0 to 7FFh.
pub fn identifier(number: u16) -> Result<u16, EditFault>
    ensures value { Gives is_memory (λ n. n) result (number_within is_identifier number) }
    ensures within { IfOk result (λ n. is_identifier n ≡ true) }
{
    if number > MAX_IDENTIFIER {
        return Err(EditFault::Range);
    }
    Ok(number)
}

/// The number of an event, 1 to 10,000.
pub fn event_number(number: u64) -> Result<u16, EditFault>
    ensures value { Gives is_memory (λ n. n) result (number_within is_event_number number) }
    ensures within { IfOk result (λ n. is_event_number n ≡ true) }
{
    let number = number_within(number, 1, MAX_EVENTS)?;
    Ok(number as u16)
}
