//! Keys by the numbers of their values.

ghost use Rattle.std.specs.Prelude.{◌≡◌, ◌<◌, ◌-◌, ◌∷◌, [], length, map, take, drop, nat_eq, slice_get, IfSome, OnErr, OnOk};
ghost use Rattle.std.specs.List.{position};
ghost use Rattle.kept_values.specs.Numbers.{Changes, HasSameKeys, keys_under, without_key};

use std::alloc::{AllocError, Global};
use std::marker::Model;

/// For each number the keys of its values, in their order. Takes memory by the greatest number.
#[derive(Drop)]
pub(crate) struct Index {
    alloc: Global,
    keys: Vec<Vec<u64>>,
}

impl Model for Index {
    ghost use Rattle.std.specs.Prelude.{ℕ, List, map};

    ghost Value = { List (List ℕ) };

    ghost view = { λ a. map (λ k. k.items) a.keys.items };
}

/// Puts a new key first.
fn put_first(keys: &mut Vec<u64>, key: u64) -> Result<(), AllocError>
    ensures ok { OnOk result (keys.new.items ≡ key ∷ keys.old.items) }
    ensures err { OnErr result (keys.new.items ≡ keys.old.items) }
{
    match keys.insert(0, key) {
        Ok(()) => Ok(()),
        Err(_failed) => Err(AllocError),
    }
}

/// The place of a key, if it is there.
fn place_of(keys: &[u64], key: u64) -> Option<usize>
    ensures place { result ≡ position (nat_eq key) keys.now }
    ensures within { IfSome result (λ i. i < length keys.now) }
{
    keys.iter().position(|own| key == *own)
}

/// Takes a key out, if it is there.
fn take_out(keys: &mut Vec<u64>, key: u64)
    ensures { keys.new.items ≡ without_key key keys.old.items }
{
    let place = place_of(keys, key);
    if let Some(place) = place {
        let _key = keys.remove(place);
    }
}

/// Takes the first key away, if there is one.
fn drop_first(keys: &mut Vec<u64>)
    ensures { keys.new.items ≡ drop 1 keys.old.items }
{
    if !keys.is_empty() {
        let _first = keys.remove(0);
    }
}

/// Takes the last key away, if there is one.
fn drop_last(keys: &mut Vec<u64>)
    ensures { keys.new.items ≡ take (length keys.old.items - 1) keys.old.items }
{
    let _last = keys.pop();
}

/// Makes a place for the keys of a number.
fn make_place(alloc: Global, keys: &mut Vec<Vec<u64>>, number: u64) -> Result<(), AllocError>
    ensures same { HasSameKeys (map (λ k. k.items) keys.old.items) (map (λ k. k.items) keys.new.items) }
    ensures there { OnOk result (number < length keys.new.items) }
{
    'places: while keys.len() as u64 <= number {
        keys.push(Vec::new(alloc))?;
    }
    Ok(())
}

impl Index {
    /// An index without keys.
    pub fn new(alloc: Global) -> Index
        ensures { result ≡ [] }
    {
        Index {
            alloc,
            keys: Vec::new(alloc),
        }
    }

    /// The keys of the values of a number.
    pub fn keys(&self, number: u64) -> &[u64]
        ensures { result.now ≡ keys_under number self.now }
    {
        match self.keys.get(number as usize) {
            None => &[],
            Some(keys) => keys,
        }
    }

    /// The key at a place among those of a number.
    pub fn key(&self, number: u64, place: usize) -> Option<u64>
        ensures { result ≡ slice_get (keys_under number self.now) place }
    {
        self.keys(number).get(place).copied()
    }

    /// Puts a new key first among those of a number.
    pub fn add(&mut self, number: u64, key: u64) -> Result<(), AllocError>
        ensures ok { OnOk result (Changes number (λ keys. key ∷ keys) self.old self.new) }
        ensures err { OnErr result (HasSameKeys self.old self.new) }
    {
        make_place(self.alloc, &mut self.keys, number)?;
        put_first(&mut self.keys[number as usize], key)?;
        Ok(())
    }

    /// Takes the first key of a number away.
    pub fn drop_first(&mut self, number: u64)
        ensures { Changes number (drop 1) self.old self.new }
    {
        let place = number as usize;
        if place < self.keys.len() {
            drop_first(&mut self.keys[place]);
        }
    }

    /// Takes the last key of a number away.
    pub fn drop_last(&mut self, number: u64)
        ensures { Changes number (λ keys. take (length keys - 1) keys) self.old self.new }
    {
        let place = number as usize;
        if place < self.keys.len() {
            drop_last(&mut self.keys[place]);
        }
    }

    /// Takes a key out from those of its number.
    pub fn take_out(&mut self, number: u64, key: u64)
        ensures { Changes number (without_key key) self.old self.new }
    {
        let place = number as usize;
        if place < self.keys.len() {
            take_out(&mut self.keys[place], key);
        }
    }
}
