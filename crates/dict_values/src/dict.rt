//! The values of a device's entries.

ghost use Rattle.std.specs.Prelude.{false, ◌≡◌, ◌≤◌, ◌↔◌, IsTrue, length, OnOk, OnErr, IfOk, IfSome, Some};
ghost use Rattle.std.specs.Prelude.{option_copied};
ghost use Rattle.std.specs.FinMap as map;
ghost use Rattle.dict_values.specs.Places.{place_cmp};
ghost use Rattle.dict_values.specs.Layers.{AgreeOn, HasEach, HasWritten};
ghost use Rattle.dict_values.specs.Restored.{is_kept, with_restored};
ghost use Rattle.dict_values.specs.Values.{bytes_at, number_at};
ghost use Rattle.co_values.specs.Values.{longest_value};

use crate::fingerprint::{changed, weight, weight_above, weight_of};
use crate::held::{Held, IN_PLACE};
use crate::layer::Layer;
use crate::places::{agree_on, has_each, write_each};
use base::{Octets, Shared};
use co_values::{number_8, number_16, number_32, number_64};
use std::alloc::{AllocError, Global};
use std::marker::Model;

/// The values that the entries of a device hold, by index and sub.
///
/// Each value has at most 512 bytes. A call takes time by the logarithm of the number of entries. What
/// was there when a copy was made the copies share; what one of them writes since then is its own.
#[derive(Drop)]
pub struct Dict {
    alloc: Global,
    /// What is shared, if it has been copied.
    base: Layer,
    /// What was written since then, which hides what the base has at the same places.
    own: Layer,
    /// What tells its values from others at once.
    fingerprint: u64,
}

impl Model for Dict {
    ghost use Rattle.std.specs.Coded.{coded_ℕ, coded_list, coded×};
    ghost use Rattle.std.specs.FinMap as map;
    ghost use Rattle.std.specs.Prelude.{◌≡◌};
    ghost use Rattle.dict_values.specs.Fingerprint.{fingerprint_of};
    ghost use Rattle.dict_values.specs.Layers.{both_layers};
    ghost use Rattle.dict_values.specs.Values.{Values};

    ghost Value = { Values };

    ghost coded = { map.code (coded× coded_ℕ coded_ℕ) (coded_list coded_ℕ) };

    ghost view = { λ dict. both_layers dict.base dict.own };

    ghost invariant = { λ dict. dict.fingerprint ≡ fingerprint_of (both_layers dict.base dict.own) };
}

impl Dict {
    /// A dictionary in which no entry has a value.
    pub fn new(alloc: Global) -> Dict
        ensures { result ≡ map.empty }
    {
        Dict {
            alloc,
            base: Layer::new(),
            own: Layer::new(),
            fingerprint: 0,
        }
    }

    /// Whether an entry has this value.
    fn holds(&self, index: u16, sub: u8, bytes: &[u8]) -> bool
        ensures { IsTrue result → map.get self.now (index, sub) ≡ Some bytes.now }
    {
        match self.read(index, sub) {
            Some(value) => value == bytes,
            None => false,
        }
    }

    /// Whether a value is set with no look at the one that is there: no copy shares the values, and it takes no
    /// memory of its own.
    fn is_set_unseen(&self, bytes: &[u8]) -> bool {
        bytes.len() <= IN_PLACE && self.own.is_empty() && !self.base.is_shared()
    }

    /// Sets the value at a place, and at that one alone. Takes memory for a place that had none, and where copies
    /// share the values.
    fn set(&mut self, place: (u16, u8), value: Held) -> Result<(), AllocError>
        ensures ok { OnOk result (self.new ≡ map.insert self.old place value) }
        ensures err { OnErr result (self.new ≡ self.old) }
    {
        let added = weight(place, value.as_slice());
        if self.own.is_empty() && !self.base.is_shared() {
            let before = self.base.insert(self.alloc, place, value)?;
            self.fingerprint = changed(self.fingerprint, weight_of(place, before), added);
            Ok(())
        } else {
            let before = self.own.insert(self.alloc, place, value)?;
            let taken = weight_above(place, before, &self.base);
            self.fingerprint = changed(self.fingerprint, taken, added);
            Ok(())
        }
    }

    /// Sets the value of an entry, and of that entry alone. Takes no memory where it has that value.
    pub fn write(&mut self, index: u16, sub: u8, bytes: &[u8]) -> Result<(), AllocError>
        requires { length bytes.now ≤ longest_value }
        ensures ok { OnOk result (self.new ≡ map.insert self.old (index, sub) bytes.now) }
        ensures err { OnErr result (self.new ≡ self.old) }
    {
        if !self.is_set_unseen(bytes) && self.holds(index, sub, bytes) {
            return Ok(());
        }
        let value = Held::of(self.alloc, bytes)?;
        self.set((index, sub), value)
    }

    /// The same of a value that others hold too: more than eight bytes are shared with them.
    pub fn write_shared(
        &mut self,
        index: u16,
        sub: u8,
        bytes: &Shared<Octets>,
    ) -> Result<(), AllocError>
        requires { length bytes.now ≤ longest_value }
        ensures ok { OnOk result (self.new ≡ map.insert self.old (index, sub) bytes.now) }
        ensures err { OnErr result (self.new ≡ self.old) }
    {
        let octets = bytes.get().as_slice();
        if !self.is_set_unseen(octets) && self.holds(index, sub, octets) {
            return Ok(());
        }
        let value = Held::shared(bytes)?;
        self.set((index, sub), value)
    }

    /// The value of an entry, if it has one.
    pub fn read(&self, index: u16, sub: u8) -> Option<&[u8]>
        ensures value { option_copied result ≡ map.get self.now (index, sub) }
        ensures short { IfSome result (λ bytes. length bytes.now ≤ longest_value) }
    {
        match self.own.get((index, sub)) {
            Some(bytes) => Some(bytes),
            None => self.base.get((index, sub)),
        }
    }

    /// The bytes that an entry holds; none where it has no value.
    fn bytes(&self, index: u16, sub: u8) -> &[u8]
        ensures { result.now ≡ bytes_at self.now (index, sub) }
    {
        match self.read(index, sub) {
            Some(bytes) => bytes,
            None => &[],
        }
    }

    /// The number in the first byte that an entry holds; 0 where it holds none.
    pub fn number_8(&self, index: u16, sub: u8) -> u8
        ensures { result ≡ number_at 1 self.now (index, sub) }
    {
        number_8(self.bytes(index, sub))
    }

    /// The number in the first two bytes that an entry holds, the lowest first (CiA 301); a byte that
    /// it lacks counts as 0.
    pub fn number_16(&self, index: u16, sub: u8) -> u16
        ensures { result ≡ number_at 2 self.now (index, sub) }
    {
        number_16(self.bytes(index, sub))
    }

    /// The same of the first four bytes.
    pub fn number_32(&self, index: u16, sub: u8) -> u32
        ensures { result ≡ number_at 4 self.now (index, sub) }
    {
        number_32(self.bytes(index, sub))
    }

    /// The same of the first eight bytes.
    pub fn number_64(&self, index: u16, sub: u8) -> u64
        ensures { result ≡ number_at 8 self.now (index, sub) }
    {
        number_64(self.bytes(index, sub))
    }

    /// An equal dictionary. Takes neither memory nor time by the number of entries.
    pub fn copy(&self) -> Result<Dict, AllocError>
        ensures { IfOk result (λ dict. dict ≡ self.now) }
    {
        Ok(Dict {
            alloc: self.alloc,
            base: self.base.copy()?,
            own: self.own.copy()?,
            fingerprint: self.fingerprint,
        })
    }

    /// An equal dictionary that shares no places with this one, so that what is written next goes among its own.
    /// Takes time and memory by the number of entries, which is less than to write them one by one; values of more
    /// than eight bytes are shared.
    pub fn duplicate(&self) -> Result<Dict, AllocError>
        ensures { IfOk result (λ dict. dict ≡ self.now) }
    {
        Ok(Dict {
            alloc: self.alloc,
            base: self.base.duplicate(self.alloc)?,
            own: self.own.duplicate(self.alloc)?,
            fingerprint: self.fingerprint,
        })
    }

    /// Whether the other dictionary has the same at each place of a layer.
    fn agrees_on(&self, other: &Dict, places: &Layer) -> bool
        ensures { IsTrue result ↔ AgreeOn places.now self.now other.now }
    {
        match places.table() {
            None => true,
            Some(table) => agree_on(self, other, table),
        }
    }

    /// Whether the other dictionary has the same at each place of two layers.
    fn agrees_on_both(&self, other: &Dict, one: &Layer, another: &Layer) -> bool
        ensures agree { IsTrue result → AgreeOn one.now self.now other.now }
        ensures both_agree { IsTrue result → AgreeOn another.now self.now other.now }
        ensures where_same { self.now ≡ other.now → IsTrue result }
    {
        self.agrees_on(other, one) && self.agrees_on(other, another)
    }

    /// The same, by the places of both.
    fn same_by_places(&self, other: &Dict) -> bool
        ensures { IsTrue result ↔ (self.now ≡ other.now) }
    {
        if !self.agrees_on_both(other, &self.own, &other.own) {
            return false;
        }
        if self.base.is_like(&other.base) {
            return true;
        }
        self.agrees_on_both(other, &self.base, &other.base)
    }

    /// Whether the other dictionary may be the same: a quick look ahead of `same`, at their fingerprints. Hardly ever
    /// said of others, and takes constant time.
    pub fn may_be(&self, other: &Dict) -> bool
        ensures { self.now ≡ other.now → IsTrue result }
    {
        self.fingerprint == other.fingerprint
    }

    /// Whether the other dictionary has the same entries with the same values. Takes time by the number of
    /// entries that were written, and, where those are the same, by the length of both dictionaries.
    pub fn same(&self, other: &Dict) -> bool
        ensures { IsTrue result ↔ (self.now ≡ other.now) }
    {
        if !self.may_be(other) {
            return false;
        }
        if self.own.is_like(&other.own) && self.base.is_like(&other.base) {
            return true;
        }
        self.same_by_places(other)
    }

    /// Writes each value of a layer whose index is from `first` to `last`; with `inside` false, each
    /// other one.
    fn write_layer(
        &mut self,
        first: u16,
        last: u16,
        inside: bool,
        from: &Layer,
    ) -> Result<(), AllocError>
        ensures { OnOk result (HasWritten (λ place. is_kept first last inside place.0) from.now
            self.old self.new) }
    {
        match from.table() {
            None => Ok(()),
            Some(table) => write_each(self, first, last, inside, table),
        }
    }

    /// Writes each value of another dictionary whose index is from `first` to `last`; with `inside`
    /// false, each other one.
    fn write_from(
        &mut self,
        first: u16,
        last: u16,
        inside: bool,
        from: &Dict,
    ) -> Result<(), AllocError>
        ensures { OnOk result (HasWritten (λ place. is_kept first last inside place.0) from.now
            self.old self.new) }
    {
        self.write_layer(first, last, inside, &from.base)?;
        self.write_layer(first, last, inside, &from.own)
    }

    /// Whether a dictionary has a value at each place of a layer whose index isn't from `first` to `last`.
    fn has_layer(&self, first: u16, last: u16, places: &Layer) -> bool
        ensures { IsTrue result → HasEach (λ place. is_kept first last false place.0) places.now self.now }
    {
        match places.table() {
            None => true,
            Some(table) => has_each(self, first, last, table),
        }
    }

    /// Whether a dictionary has a value wherever another has one, if the index isn't from `first` to `last`.
    fn has_all(&self, first: u16, last: u16, other: &Dict) -> bool
        ensures { IsTrue result → HasEach (λ place. is_kept first last false place.0) other.now self.now }
    {
        self.has_layer(first, last, &other.base) && self.has_layer(first, last, &other.own)
    }

    /// The dictionary with the entries from `first` to `last` of another, all of it anew.
    fn restored_anew(&self, from: &Dict, first: u16, last: u16) -> Result<Dict, AllocError>
        ensures { IfOk result (λ dict. dict ≡ with_restored first last from.now self.now) }
    {
        let mut dict = Dict::new(self.alloc);
        dict.write_from(first, last, false, self)?;
        dict.write_from(first, last, true, from)?;
        Ok(dict)
    }

    /// The dictionary with the entries from `first` to `last` of another, which it shares with that one.
    fn restored_over(&self, from: &Dict, first: u16, last: u16) -> Result<Dict, AllocError>
        requires { HasEach (λ place. is_kept first last false place.0) from.now self.now }
        ensures { IfOk result (λ dict. dict ≡ with_restored first last from.now self.now) }
    {
        let mut dict = from.copy()?;
        dict.write_from(first, last, false, self)?;
        Ok(dict)
    }

    /// The dictionary with the entries from `first` to `last` of another.
    fn restored(&self, from: &Dict, first: u16, last: u16) -> Result<Dict, AllocError>
        ensures { IfOk result (λ dict. dict ≡ with_restored first last from.now self.now) }
    {
        if self.has_all(first, last, from) {
            self.restored_over(from, first, last)
        } else {
            self.restored_anew(from, first, last)
        }
    }

    /// Makes the entries whose index is from `first` to `last` those of another dictionary: each has
    /// the value that it has there, and is gone where it has none there. All others stay. Takes time
    /// by the length of both dictionaries, and memory by what was written in both.
    pub fn restore(&mut self, from: &Dict, first: u16, last: u16) -> Result<(), AllocError>
        ensures ok { OnOk result (self.new ≡ with_restored first last from.now self.old) }
        ensures err { OnErr result (self.new ≡ self.old) }
    {
        let Dict {
            base,
            own,
            fingerprint,
            ..
        } = self.restored(from, first, last)?;
        self.base = base;
        self.own = own;
        self.fingerprint = fingerprint;
        Ok(())
    }
}
