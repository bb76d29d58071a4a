//! Steps on a row of values in the order of their numbers, and on the values beside it.

ghost use Rattle.std.specs.Prelude.{◌≡◌, ◌≤◌, ◌<◌, ◌+◌, ◌-◌, ◌^◌, ◌++◌, ◌∷◌, [], IsSome, Some, OnOk, OnErr};
ghost use Rattle.std.specs.Prelude.{drop, length, nat_eq, reverse, take};
ghost use Rattle.std.specs.List.{IsDistinct};
ghost use Rattle.std.specs.Map.{keys_of, lookup, remove_entry};
ghost use Rattle.kept_values.specs.Rows.{IsEndOf, IsRow};

use crate::numbered::Numbered;
use crate::rest::Rest;
use std::alloc::AllocError;

/// Puts the values of a row before the others, the last first. Where memory fails, some are gone.
fn put_all<V: Numbered + Drop>(row: Vec<(u64, V)>, rest: &mut Rest<V>) -> Result<(), AllocError>
    requires { IsDistinct nat_eq (keys_of (reverse row.items ++ rest.old)) }
    ensures ok { OnOk result (rest.new ≡ reverse row.items ++ rest.old) }
    ensures fewer { IsEndOf (reverse row.items ++ rest.old) rest.new }
{
    let mut left = row;
    left.reverse();
    'left: while let Some((key, value)) = left.pop() {
        rest.put(key, value)?;
    }
    Ok(())
}

/// Takes what lies ahead out of a row, and puts it before the others, the last first. Where memory fails, it is gone
/// or some of it.
pub(crate) fn put_back<V: Numbered + Drop>(
    row: &mut Vec<(u64, V)>,
    used: usize,
    rest: &mut Rest<V>,
) -> Result<(), AllocError>
    requires used { used ≤ length row.old.items }
    requires distinct { IsDistinct nat_eq (keys_of (reverse (drop used row.old.items) ++ rest.old)) }
    ensures row { row.new.items ≡ take used row.old.items }
    ensures ok { OnOk result (rest.new ≡ reverse (drop used row.old.items) ++ rest.old) }
    ensures fewer { IsEndOf (reverse (drop used row.old.items) ++ rest.old) rest.new }
{
    if used == row.len() {
        return Ok(());
    }
    match row.split_off(used) {
        Ok(ahead) => put_all(ahead, rest),
        Err(failed) => {
            row.truncate(used);
            Err(failed)
        }
    }
}

/// Moves the value under a key to the end of the row. Want of memory is the only error, and changes nothing.
pub(crate) fn bring<V: Numbered + Drop>(
    row: &mut Vec<(u64, V)>,
    rest: &mut Rest<V>,
    key: u64,
) -> Result<(), AllocError>
    requires { IsSome (lookup (nat_eq key) rest.old) }
    ensures row { OnOk result ((v : V) → lookup (nat_eq key) rest.old ≡ Some v → row.new.items ≡ row.old.items ++ (key, v) ∷ []) }
    ensures rest { OnOk result (rest.new ≡ remove_entry (nat_eq key) rest.old) }
    ensures err { OnErr result ((row.new.items ≡ row.old.items) × (rest.new ≡ rest.old)) }
{
    row.reserve(1)?;
    match rest.take_out(key) {
        None => Ok(()),
        Some(value) => {
            row.push_reserved((key, value));
            Ok(())
        }
    }
}

/// Lets go of the last value where there are more than the capacity, and returns the row's first number. Takes time
/// by the length of the row where all values stand in it.
pub(crate) fn fit<V: Numbered + Drop>(
    row: &mut Vec<(u64, V)>,
    first: u64,
    rest: &mut Rest<V>,
    capacity: usize,
) -> u64
    requires some { 0 < length row.old.items }
    requires room { length row.old.items + length rest.old ≤ capacity + 1 }
    requires below { first < 2 ^ 64 - 1 }
    requires numbers { IsRow V.number_of first row.old.items }
    ensures entries { reverse row.new.items ++ rest.new ≡ take capacity (reverse row.old.items ++ rest.old) }
    ensures turn { result + length row.new.items ≡ first + length row.old.items }
    ensures numbers { IsRow V.number_of result row.new.items }
{
    let others = rest.len();
    if row.len() <= capacity && others <= capacity - row.len() {
        return first;
    }
    if others > 0 {
        rest.drop_last();
        return first;
    }
    let _first = row.remove(0);
    first + 1
}
