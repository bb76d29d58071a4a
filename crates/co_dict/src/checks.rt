//! What a device answers to an access.

ghost use Rattle.std.specs.Prelude.{◌≡◌, ◌≤◌, ◌∷◌, [], if◌then◌else◌, nat_lt, ℕ, Some, Err, IfOk, IfErr, IsOk, OnOk};
ghost use Rattle.std.specs.FinMap as map;
ghost use Rattle.co_dict.specs.Aborts.{length_too_high, no_object, no_sub_index};
ghost use Rattle.co_dict.specs.Shapes.{Shaped};
ghost use Rattle.co_values.specs.Values.{IsValueOf, longest_value};
ghost use Rattle.co_dict.specs.Checks.{first_refusal, has_index, entry_lines, access_check, read_check, length_check};
ghost use Rattle.co_dict.specs.Checks.{is_no_flag, is_below_limit, is_above_limit};

use crate::abort::Abort;
use crate::entry::Entry;
use crate::shape::Shape;
use co_values::{DataType, number_8, number_in};

/// The longest value, in bytes, of a type without a fixed length.
const LONGEST_VALUE: usize = 512;

/// What an index without the sub is refused by: `NO_OBJECT` where no entry has it, else `NO_SUB_INDEX`.
fn no_entry(shape: &Shape, index: u16) -> Abort
    ensures { result ≡ if has_index shape.now index then no_sub_index else no_object }
{
    if shape.has_index(index) {
        Abort::NO_SUB_INDEX
    } else {
        Abort::NO_OBJECT
    }
}

/// The entry at an index and sub, where its type is modelled; else the abort of the first of these
/// that applies: `NO_OBJECT`, `NO_SUB_INDEX`, `UNSUPPORTED_ACCESS`.
fn modelled_entry(shape: &Shape, index: u16, sub: u8) -> Result<&Entry, Abort>
    ensures entry { IfOk result (λ entry. map.get shape.now.entries (index, sub) ≡ Some entry.now) }
    ensures granted { OnOk result (IsOk (first_refusal (entry_lines shape.now (index, sub)))) }
    ensures refused { IfErr result (λ abort. first_refusal (entry_lines shape.now (index, sub)) ≡ Err abort) }
{
    let Some(entry) = shape.entry(index, sub) else {
        return Err(no_entry(shape, index));
    };
    if !entry.kind.is_modelled() {
        return Err(Abort::UNSUPPORTED_ACCESS);
    }
    Ok(entry)
}

/// The entry at an index and sub, where a device takes writes of it; else the abort of `check_access`.
#[tactic(auto, unfolding(crate::specs::Checks::access_check))]
pub(crate) fn writable_entry(shape: &Shape, index: u16, sub: u8) -> Result<&Entry, Abort>
    ensures entry { IfOk result (λ entry. map.get shape.now.entries (index, sub) ≡ Some entry.now) }
    ensures granted { OnOk result (IsOk (access_check shape.now (index, sub))) }
    ensures refused { IfErr result (λ abort. access_check shape.now (index, sub) ≡ Err abort) }
{
    let entry = modelled_entry(shape, index, sub)?;
    if entry.access.is_writable() {
        Ok(entry)
    } else {
        Err(Abort::READ_ONLY)
    }
}

/// Whether a device takes writes of an entry that is there, whatever the value; else the abort of `check_access`.
pub(crate) fn check_writable(entry: &Entry) -> Result<(), Abort>
    ensures { (shape : Shaped) (place : ℕ × ℕ) → map.get shape.entries place ≡ Some entry.now
        → result ≡ access_check shape place }
{
    if !entry.kind.is_modelled() {
        return Err(Abort::UNSUPPORTED_ACCESS);
    }
    if !entry.access.is_writable() {
        return Err(Abort::READ_ONLY);
    }
    Ok(())
}

/// Whether a device takes writes of an entry, whatever the value (CiA 301). The abort is that of the
/// first of these that applies: `NO_OBJECT`, `NO_SUB_INDEX`, `UNSUPPORTED_ACCESS` where its type is
/// not modelled, `READ_ONLY` where it is read-only or constant.
pub fn check_access(shape: &Shape, index: u16, sub: u8) -> Result<(), Abort>
    ensures { result ≡ access_check shape.now (index, sub) }
{
    writable_entry(shape, index, sub)?;
    Ok(())
}

/// Whether a device gives the value of an entry (CiA 301). The abort is that of the first of these
/// that applies: `NO_OBJECT`, `NO_SUB_INDEX`, `UNSUPPORTED_ACCESS` where its type is not modelled,
/// `WRITE_ONLY`.
#[tactic(auto, unfolding(crate::specs::Checks::read_check))]
pub fn check_read(shape: &Shape, index: u16, sub: u8) -> Result<(), Abort>
    ensures { result ≡ read_check shape.now (index, sub) }
{
    let entry = modelled_entry(shape, index, sub)?;
    if entry.access.is_readable() {
        Ok(())
    } else {
        Err(Abort::WRITE_ONLY)
    }
}

/// Whether a value can have so many bytes, whatever its type.
fn check_size(size: usize) -> Result<(), Abort>
    ensures answer { result ≡ first_refusal ((nat_lt longest_value size, length_too_high) ∷ []) }
    ensures short { OnOk result (size ≤ longest_value) }
{
    if size > LONGEST_VALUE {
        return Err(Abort::LENGTH_TOO_HIGH);
    }
    Ok(())
}

/// Whether this entry can have a value of so many bytes.
#[tactic(auto, unfolding(crate::specs::Checks::length_check))]
pub(crate) fn check_length_of(entry: &Entry, size: usize) -> Result<(), Abort>
    ensures answer { (shape : Shaped) (place : ℕ × ℕ) → map.get shape.entries place ≡ Some entry.now
        → result ≡ length_check shape place size }
    ensures short { OnOk result (size ≤ longest_value) }
{
    if let Some(length) = entry.kind.fixed_len()
        && size != length
    {
        return Err(Abort::LENGTH_DOES_NOT_MATCH);
    }
    check_size(size)
}

/// Whether an entry can have a value of so many bytes (CiA 301): `LENGTH_DOES_NOT_MATCH` where each
/// value of its type has one length and this is another, `LENGTH_TOO_HIGH` over 512 bytes. An entry
/// that is not there has no type.
#[tactic(auto, unfolding(crate::specs::Checks::length_check))]
pub fn check_length(shape: &Shape, index: u16, sub: u8, size: usize) -> Result<(), Abort>
    ensures answer { result ≡ length_check shape.now (index, sub) size }
    ensures short { OnOk result (size ≤ longest_value) }
{
    match shape.entry(index, sub) {
        Some(entry) => check_length_of(entry, size),
        None => check_size(size),
    }
}

/// Whether bytes are that of no BOOLEAN, where the entry is one.
pub(crate) fn is_no_flag(entry: &Entry, bytes: &[u8]) -> bool
    ensures { result ≡ is_no_flag bytes.now entry.now }
{
    matches!(entry.kind, DataType::Boolean) && number_8(bytes) > 1
}

/// Whether the number of an integer is below the low limit of its entry.
pub(crate) fn is_below_limit(entry: &Entry, bytes: &[u8]) -> bool
    requires { IsValueOf entry.now.kind bytes.now }
    ensures { result ≡ is_below_limit bytes.now entry.now }
{
    if entry.kind.is_integer()
        && let Some(number) = number_in(entry.kind, bytes)
        && let Some(low) = entry.low
    {
        number < low
    } else {
        false
    }
}

/// Whether the number of an integer is above the high limit of its entry.
pub(crate) fn is_above_limit(entry: &Entry, bytes: &[u8]) -> bool
    requires { IsValueOf entry.now.kind bytes.now }
    ensures { result ≡ is_above_limit bytes.now entry.now }
{
    if entry.kind.is_integer()
        && let Some(number) = number_in(entry.kind, bytes)
        && let Some(high) = entry.high
    {
        number > high
    } else {
        false
    }
}
