//! The write check.

ghost use Rattle.std.specs.Prelude.{◌≡◌, ◌≤◌, ℕ, IsOk, OnOk, Some, false, length};
ghost use Rattle.std.specs.FinMap as map;
ghost use Rattle.co_values.specs.Values.{IsValueOf, longest_value};
ghost use Rattle.co_dict.specs.Checks.{access_check, is_no_flag, first_refusal, value_lines};
ghost use Rattle.co_dict.specs.Shapes.{Shaped};
ghost use Rattle.co_dict.specs.WriteCheck.{write_check};

use crate::abort::Abort;
use crate::checks::{
    check_length_of, check_writable, is_above_limit, is_below_limit, is_no_flag, writable_entry,
};
use crate::entry::Entry;
use crate::pdo_checks::{check_cob_id, check_mapping_object, check_new_count};
use crate::shape::Shape;
use dict_values::Dict;

/// Whether bytes of an entry's length are a value of it, within its limits.
fn check_value(entry: &Entry, bytes: &[u8]) -> Result<(), Abort>
    requires { is_no_flag bytes.now entry.now ≡ false → IsValueOf entry.now.kind bytes.now }
    ensures { (shape : Shaped) (place : ℕ × ℕ) → map.get shape.entries place ≡ Some entry.now
        → result ≡ first_refusal (value_lines shape place bytes.now) }
{
    if is_no_flag(entry, bytes) {
        return Err(Abort::INVALID_VALUE);
    }
    if is_below_limit(entry, bytes) {
        return Err(Abort::VALUE_TOO_LOW);
    }
    if is_above_limit(entry, bytes) {
        return Err(Abort::VALUE_TOO_HIGH);
    }
    Ok(())
}

/// What `check_write` says of an entry that may be written.
fn check_rest(
    shape: &Shape,
    entry: &Entry,
    dict: &Dict,
    index: u16,
    sub: u8,
    bytes: &[u8],
) -> Result<(), Abort>
    requires there { map.get shape.now.entries (index, sub) ≡ Some entry.now }
    requires granted { IsOk (access_check shape.now (index, sub)) }
    ensures answer { result ≡ write_check shape.now dict.now (index, sub) bytes.now }
    ensures short { OnOk result (length bytes.now ≤ longest_value) }
{
    check_length_of(entry, bytes.len())?;
    check_value(entry, bytes)?;
    check_cob_id(shape, dict, index, sub, bytes)?;
    check_mapping_object(shape, dict, index, sub)?;
    check_new_count(shape, dict, index, sub, bytes)
}

/// Whether a device takes the bytes for an entry (CiA 301), by the values that it holds now. The
/// abort is that of the first of these that applies:
///
/// - those of `check_access`, and then those of `check_length`;
/// - `INVALID_VALUE` for a BOOLEAN over 1; `VALUE_TOO_LOW` and `VALUE_TOO_HIGH` for an integer
///   outside a limit;
/// - `INVALID_VALUE` for the COB-ID of a PDO that is to exist under a restricted identifier, or whose
///   frames would change while it exists;
/// - `UNSUPPORTED_ACCESS` for an entry of a mapping object whose PDO exists, or one from sub 1 on
///   while the mapping is in force;
/// - those of `check_mapping` for the new count of a mapping object.
///
/// A value that the dictionary lacks counts as the number 0, as do bytes that it lacks. Needs no
/// memory, and takes time by the logarithm of the number of entries, for a new count by as many times
/// it as the count says, up to 64.
pub fn check_write(
    shape: &Shape,
    dict: &Dict,
    index: u16,
    sub: u8,
    bytes: &[u8],
) -> Result<(), Abort>
    ensures answer { result ≡ write_check shape.now dict.now (index, sub) bytes.now }
    ensures short { OnOk result (length bytes.now ≤ longest_value) }
{
    let entry = writable_entry(shape, index, sub)?;
    check_rest(shape, entry, dict, index, sub, bytes)
}

/// What `check_write` answers where this is the entry that the shape has there, which isn't looked up again.
pub fn check_write_of(
    shape: &Shape,
    entry: &Entry,
    dict: &Dict,
    index: u16,
    sub: u8,
    bytes: &[u8],
) -> Result<(), Abort>
    requires { map.get shape.now.entries (index, sub) ≡ Some entry.now }
    ensures answer { result ≡ write_check shape.now dict.now (index, sub) bytes.now }
    ensures short { OnOk result (length bytes.now ≤ longest_value) }
{
    check_writable(entry)?;
    check_rest(shape, entry, dict, index, sub, bytes)
}
