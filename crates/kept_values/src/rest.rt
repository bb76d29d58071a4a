//! Values by their keys and by their numbers.

ghost use Rattle.std.specs.Prelude.{◌≡◌, ◌<◌, ◌^◌, ◌-◌, ◌∷◌, [], None, Some, nat_eq, length, slice_get, take};
ghost use Rattle.std.specs.Prelude.{option_copied, option_map, IfOk, IfSome, OnOk, OnErr};
ghost use Rattle.std.specs.List.{IsDistinct};
ghost use Rattle.std.specs.Map.{keys_of, lookup, lookup_entry, remove_entry};
ghost use Rattle.lru.specs.LruCache.{lru_cache};
ghost use Rattle.kept_values.specs.Numbers.{of_number};

use crate::index::Index;
use crate::numbered::Numbered;
use lru::LruCache;
use std::alloc::{AllocError, Global};
use std::marker::Model;

/// Values under keys, the last put first. An index has the keys of the values of each number.
#[derive(Drop)]
pub(crate) struct Rest<V: Numbered> {
    cache: LruCache<u64, V>,
    index: Index,
}

impl<V: Numbered> Model for Rest<V> {
    ghost use Rattle.std.specs.Prelude.{◌≡◌, ◌-◌, ◌^◌, ℕ, List};
    ghost use Rattle.std.specs.Coded.{coded×, coded_list, coded_ℕ};
    ghost use Rattle.kept_values.specs.Numbers.{IsIndexOf};

    ghost Value = { List (ℕ × V) };

    ghost coded = { coded_list (coded× coded_ℕ V.code) };

    ghost view = { λ a. a.cache.entries };

    ghost invariant = { λ a. (a.cache.cap ≡ 2 ^ 64 - 1) × IsIndexOf V.number_of a.cache.entries a.index };
}

impl<V: Numbered + Drop> Rest<V> {
    /// No values.
    pub fn new(alloc: Global) -> Result<Rest<V>, AllocError>
        ensures { IfOk result (λ rest. rest ≡ []) }
    {
        let cache = LruCache::unbounded(alloc)?;
        Ok(Rest {
            cache,
            index: Index::new(alloc),
        })
    }

    /// The number of values. No key stands twice.
    pub fn len(&self) -> usize
        ensures len { result ≡ length self.now }
        ensures small { result < 2 ^ 63 }
        ensures distinct { IsDistinct nat_eq (keys_of self.now) }
    {
        self.cache.len()
    }

    /// The value under a key.
    pub fn get(&self, key: u64) -> Option<&V>
        ensures { option_copied result ≡ lookup (nat_eq key) self.now }
    {
        self.cache.peek(&key)
    }

    /// How many values have a number.
    pub fn count(&self, number: u64) -> usize
        ensures { result ≡ length (of_number V.number_of number self.now) }
    {
        self.index.keys(number).len()
    }

    /// The value at a place among those of a number, with its key.
    pub fn at(&self, number: u64, place: usize) -> Option<(u64, &V)>
        ensures is { option_map (λ found. (found.0, found.1.now)) result ≡ slice_get (of_number V.number_of number self.now) place }
        ensures held { IfSome result (λ found. lookup (nat_eq found.0) self.now ≡ Some found.1.now) }
    {
        let _count = self.len();
        match self.index.key(number, place) {
            None => None,
            Some(key) => match self.get(key) {
                None => None,
                Some(value) => Some((key, value)),
            },
        }
    }

    /// Puts a value first, under a key that no other has. Want of memory is the only error, and changes nothing.
    pub fn put(&mut self, key: u64, value: V) -> Result<(), AllocError>
        requires { lookup_entry (nat_eq key) self.old ≡ None }
        ensures ok { OnOk result (self.new ≡ (key, value) ∷ self.old) }
        ensures err { OnErr result (self.new ≡ self.old) }
    {
        let number = value.number();
        self.index.add(number, key)?;
        match put_first(&mut self.cache, key, value) {
            Ok(()) => Ok(()),
            Err(failed) => {
                self.index.drop_first(number);
                Err(failed)
            }
        }
    }

    /// Takes the value under a key out.
    pub fn take_out(&mut self, key: u64) -> Option<V>
        ensures value { result ≡ lookup (nat_eq key) self.old }
        ensures others { self.new ≡ remove_entry (nat_eq key) self.old }
    {
        let value = self.cache.pop(&key)?;
        self.index.take_out(value.number(), key);
        Some(value)
    }

    /// Lets go of the last value, if there is one.
    pub fn drop_last(&mut self)
        ensures { self.new ≡ take (length self.old - 1) self.old }
    {
        if let Some((_key, value)) = self.cache.pop_lru() {
            self.index.drop_last(value.number());
        }
    }
}

/// Puts a value first, under a key that no other has.
fn put_first<V: Drop>(cache: &mut LruCache<u64, V>, key: u64, value: V) -> Result<(), AllocError>
    requires cap { cache.old.cap ≡ 2 ^ 64 - 1 }
    requires none { lookup_entry (nat_eq key) cache.old.entries ≡ None }
    ensures ok { OnOk result (cache.new ≡ lru_cache ((key, value) ∷ cache.old.entries) cache.old.cap) }
    ensures err { OnErr result (cache.new ≡ cache.old) }
{
    let _count = cache.len();
    match cache.put(key, value) {
        Ok(_replaced) => Ok(()),
        Err(_failed) => Err(AllocError),
    }
}
