//! Kept values by number, each with its mark.
ghost use Rattle.std.specs.Bool.{IsFalse};
ghost use Rattle.std.specs.Prelude.{◌≡◌, ◌↔◌, ◌==◌, ◌||◌, ◌&&◌, ◌+◌, ◌-◌, ◌^◌, min, not, ℕ, true, false, None, Some};
ghost use Rattle.std.specs.Prelude.{if◌then◌else◌, IsTrue, IfNone, IfSome, OnOk, OnErr};
ghost use Rattle.std.specs.Option.{option_map, option_copied};
ghost use Rattle.kept_values.specs.At.{at};
ghost use Rattle.kept_values.specs.Shelved.{is_flagged, is_fresh, kept_at};
ghost use Rattle.kept_values.specs.Work.{Refreshes, Rises};

use crate::kept::Kept;
use crate::makes::{Makes, Offers};
use crate::meter::Meter;
use std::alloc::{AllocError, Global};
use std::collections::BTreeMap;
use std::marker::Model;

/// Kept values by number, 0 to 255, and a mark for each number, also where nothing is kept. Without a
/// mark what is kept at a number is built from the inputs of now, and nothing is kept there if there
/// are none now.
///
/// Contracts see the inputs at each number, and at which numbers they are known to be those of now
/// (*fresh*): those without a mark. The marks take 256 bytes, and a value is found by the logarithm of
/// the number of kept values.
#[derive(Drop)]
pub struct Shelf<I: Makes<T>, T> {
    kept: BTreeMap<u8, Kept<I, T>>,
    fresh: [bool; 256],
}

impl<I: Makes<T>, T> Model for Shelf<I, T> {
    ghost use Rattle.kept_values.specs.Shelved.{Shelved};

    ghost Value = { Shelved I };

    ghost view = { λ s. record { kept = s.kept.entries; fresh = s.fresh } };
}

/// Lets go what stands at the numbers without a flag.
fn keep_flagged<V: Drop>(kept: &mut BTreeMap<u8, V>, flags: &[bool; 256])
    ensures { (q : ℕ) → at kept.new.entries q ≡ (if is_flagged flags.now q then at kept.old.entries q else None) }
{
    kept.retain(|number, _value| flags[usize::from(*number)]);
}

impl<I: Makes<T> + Drop, T: Drop> Shelf<I, T> {
    /// Nothing kept, and a mark at each number. Takes no memory from the allocator.
    pub fn new(alloc: Global) -> Shelf<I, T>
        ensures kept { (q : ℕ) → kept_at result q ≡ None }
        ensures fresh { (q : ℕ) → is_fresh result q ≡ false }
    {
        Shelf {
            kept: BTreeMap::new(alloc),
            fresh: [false; 256],
        }
    }

    /// Whether there is no mark at a number: the inputs there are known to be those of now. Takes
    /// constant time.
    pub fn is_fresh(&self, key: u8) -> bool
        ensures { result ≡ is_fresh self.now key }
    {
        self.fresh[usize::from(key)]
    }

    /// Sets the mark at a number: the inputs there may be others now. What is kept stays. Takes constant
    /// time.
    pub fn mark(&mut self, key: u8)
        ensures kept { self.new.kept ≡ self.old.kept }
        ensures fresh { (q : ℕ) → is_fresh self.new q ≡ (not (q == key) && is_fresh self.old q) }
    {
        self.fresh[usize::from(key)] = false;
    }

    /// Sets the mark at each number. What is kept stays. Takes constant time: it writes 256 bytes.
    pub fn mark_all(&mut self)
        ensures kept { self.new.kept ≡ self.old.kept }
        ensures fresh { (q : ℕ) → is_fresh self.new q ≡ false }
    {
        self.fresh = [false; 256];
    }

    /// The inputs that the value at a number was built from, if one is kept there. Takes time by the
    /// logarithm of the number of kept values.
    pub fn inputs(&self, key: u8) -> Option<&I>
        ensures { option_copied result ≡ kept_at self.now key }
    {
        match self.kept.get(&key) {
            Some(kept) => Some(kept.inputs()),
            None => None,
        }
    }

    /// The value at a number, if one is kept there: with a mark or without. Takes time by the logarithm
    /// of the number of kept values.
    pub fn value(&self, key: u8) -> Option<&T>
        ensures { option_copied result ≡ option_map I.made (kept_at self.now key) }
    {
        match self.kept.get(&key) {
            Some(kept) => Some(kept.value()),
            None => None,
        }
    }

    /// Takes the mark at a number away.
    fn clear(&mut self, key: u8)
        ensures kept { self.new.kept ≡ self.old.kept }
        ensures fresh { (q : ℕ) → is_fresh self.new q ≡ (q == key || is_fresh self.old q) }
    {
        self.fresh[usize::from(key)] = true;
    }

    /// Lets what is kept at a number go.
    fn remove(&mut self, key: u8)
        ensures kept { (q : ℕ) → kept_at self.new q ≡ (if q == key then None else kept_at self.old q) }
        ensures fresh { self.new.fresh ≡ self.old.fresh }
    {
        self.kept.remove(&key);
    }

    /// Lets go what is kept at the numbers without a flag. The marks stay. Takes time by the number of kept
    /// values.
    pub fn keep_flagged(&mut self, flags: &[bool; 256])
        ensures kept { (q : ℕ) → kept_at self.new q
            ≡ (if is_flagged flags.now q then kept_at self.old q else None) }
        ensures fresh { self.new.fresh ≡ self.old.fresh }
    {
        keep_flagged(&mut self.kept, flags);
    }

    /// Keeps a value at a number, in place of any that is kept there. Want of memory changes nothing.
    fn insert(&mut self, key: u8, kept: Kept<I, T>) -> Result<(), AllocError>
        ensures ok { OnOk result ((q : ℕ)
            → kept_at self.new q ≡ (if q == key then Some kept else kept_at self.old q)) }
        ensures err { OnErr result (self.new ≡ self.old) }
        ensures fresh { self.new.fresh ≡ self.old.fresh }
    {
        self.kept.insert(key, kept)?;
        Ok(())
    }

    /// Whether what is kept at a number is built from the inputs of now, and nothing is kept there if there
    /// are none.
    fn has<O: Offers<I, T>>(&self, key: u8, now: &Option<O>) -> bool
        ensures { IsTrue result ↔ (kept_at self.now key ≡ option_map O.offered now.now) }
    {
        match (self.kept.get(&key), now) {
            (Some(kept), Some(now)) => now.same(kept.inputs()),
            (None, None) => true,
            _ => false,
        }
    }

    /// Whether the value at a number is up to date: whether its inputs are those of now, or none is kept and
    /// there are none now. Then it takes the mark at the number away. Where there is no mark, the inputs that
    /// are kept must be those of now: whoever changes inputs sets the mark.
    ///
    /// Without a mark it looks at nothing and takes constant time. Else it takes time by the logarithm of the
    /// number of kept values, with one comparison of inputs.
    pub fn settle<O: Offers<I, T>>(&mut self, key: u8, now: &Option<O>) -> bool
        requires { is_fresh self.old key ≡ true → kept_at self.old key ≡ option_map O.offered now.now }
        ensures same { IsTrue result ↔ (kept_at self.old key ≡ option_map O.offered now.now) }
        ensures kept { self.new.kept ≡ self.old.kept }
        ensures fresh { IsTrue result → (q : ℕ) → is_fresh self.new q ≡ (q == key || is_fresh self.old q) }
        ensures stale { IsFalse result → self.new ≡ self.old }
    {
        if self.is_fresh(key) {
            return true;
        }
        if !self.has(key, now) {
            return false;
        }
        self.clear(key);
        true
    }

    /// Builds the value at a number from the inputs of now, in place of any that is kept there, and tells the
    /// meter; lets it go where there are no inputs now; and takes the mark at the number away. Takes time by
    /// the logarithm of the number of kept values, and the time and the memory of one copy and of one
    /// building. Want of memory is the only error, and changes nothing.
    pub fn build<O: Offers<I, T> + Drop>(
        &mut self,
        alloc: Global,
        key: u8,
        now: Option<O>,
        meter: &mut Meter,
    ) -> Result<(), AllocError>
        ensures ok { OnOk result ((q : ℕ)
            → kept_at self.new q ≡ (if q == key then option_map O.offered now else kept_at self.old q)) }
        ensures fresh { OnOk result ((q : ℕ) → is_fresh self.new q ≡ (q == key || is_fresh self.old q)) }
        ensures err { OnErr result (self.new ≡ self.old) }
        ensures counted { OnOk result (IfSome now (λ _.
            meter.new ≡ record meter.old { parts = min (meter.old.parts + 1) (2 ^ 64 - 1) })) }
        ensures nothing_built { OnOk result (IfNone now (meter.new ≡ meter.old)) }
        ensures uncounted { OnErr result (meter.new ≡ meter.old) }
        ensures rises { Rises meter.old meter.new }
    {
        let Some(now) = now else {
            self.remove(key);
            self.clear(key);
            return Ok(());
        };
        let kept = Kept::build(alloc, &now)?;
        self.insert(key, kept)?;
        self.clear(key);
        meter.refreshed();
        Ok(())
    }

    /// Brings the value at a number up to date: builds it anew where none is kept or the inputs of now
    /// are other ones, and tells the meter if it did; lets it go where there are no inputs now; and takes
    /// the mark at the number away. Where there is no mark, the inputs that are kept must be those of
    /// now: whoever changes inputs sets the mark.
    ///
    /// Without a mark it looks at nothing and takes constant time. Else it takes time by the logarithm of
    /// the number of kept values, with one comparison of inputs, and where they differ the time and the
    /// memory of one copy and of one building. Want of memory is the only error, and changes nothing.
    pub fn bring<O: Offers<I, T> + Drop>(
        &mut self,
        alloc: Global,
        key: u8,
        now: Option<O>,
        meter: &mut Meter,
    ) -> Result<(), AllocError>
        requires { is_fresh self.old key ≡ true → kept_at self.old key ≡ option_map O.offered now }
        ensures ok { OnOk result ((q : ℕ)
            → kept_at self.new q ≡ (if q == key then option_map O.offered now else kept_at self.old q)) }
        ensures fresh { OnOk result ((q : ℕ) → is_fresh self.new q ≡ (q == key || is_fresh self.old q)) }
        ensures err { OnErr result (self.new ≡ self.old) }
        ensures counted { OnOk result (Refreshes (kept_at self.old key) (option_map O.offered now) meter.old meter.new) }
        ensures uncounted { OnErr result (meter.new ≡ meter.old) }
        ensures rises { Rises meter.old meter.new }
    {
        if self.settle(key, &now) {
            return Ok(());
        }
        self.build(alloc, key, now, meter)
    }
}
