//! Tables of PDOs by their numbers.
ghost use Rattle.std.specs.Prelude.{◌≡◌, ◌<◌, ◌≤◌, ℕ, Some, None, OnOk, if◌then◌else◌};
ghost use Rattle.std.specs.BTreeMap.{is_at};
ghost use Rattle.std.specs.Map.{lookup};
ghost use Rattle.std.specs.Option.{option_or};
ghost use Rattle.std.specs.Ordering.{nat_cmp};

use std::alloc::AllocError;
use std::collections::BTreeMap;

/// Gives a number its PDO, unless it has one.
pub(crate) fn put_first<T: Drop>(
    table: &mut BTreeMap<u16, T>,
    number: u16,
    pdo: T,
) -> Result<(), AllocError>
    ensures { OnOk result ((key : ℕ) → lookup (is_at (nat_cmp key)) table.new.entries
        ≡ option_or (lookup (is_at (nat_cmp key)) table.old.entries)
        (if is_at (nat_cmp key) number then Some pdo else None)) }
{
    if !table.contains_key(&number) {
        table.insert(number, pdo)?;
    }
    Ok(())
}

/// The least number, from a given one on and below an end, that has a PDO; the end where none has. Takes time by the
/// logarithm of the number of PDOs.
pub(crate) fn next_number<T>(table: &BTreeMap<u16, T>, from: u16, end: u16) -> u16
    requires { from ≤ end }
    ensures low { from ≤ result }
    ensures high { result ≤ end }
    ensures before { (number : ℕ) → from ≤ number → number < result
        → lookup (is_at (nat_cmp number)) table.now.entries ≡ None }
{
    match table.range(from..).next() {
        Some((number, _)) => end.min(*number),
        None => end,
    }
}
