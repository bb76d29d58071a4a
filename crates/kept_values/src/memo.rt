//! One kept value with its mark.
ghost use Rattle.std.specs.Prelude.{◌≡◌, ◌↔◌, ◌+◌, ◌-◌, ◌^◌, min, true, false, None, Some, IsTrue, OnOk, OnErr};
ghost use Rattle.std.specs.Bool.{IsFalse};
ghost use Rattle.std.specs.Option.{option_map, option_copied};
ghost use Rattle.kept_values.specs.Work.{Refreshes, Rises};

use crate::kept::Kept;
use crate::makes::{Makes, Offers};
use crate::meter::Meter;
use std::alloc::{AllocError, Global};
use std::marker::Model;

/// One kept value with its mark, or the place for it. Where nothing is kept yet there is a mark.
///
/// Contracts see the inputs of the value, and whether they are known to be those of now (*fresh*):
/// whether there is no mark.
#[derive(Drop)]
pub struct Memo<I: Makes<T>, T> {
    kept: Option<Kept<I, T>>,
    fresh: bool,
}

impl<I: Makes<T>, T> Model for Memo<I, T> {
    ghost use Rattle.kept_values.specs.Shelved.{Single};

    ghost Value = { Single I };

    ghost view = { λ m. record { kept = m.kept; fresh = m.fresh } };
}

impl<I: Makes<T>, T> Memo<I, T> {
    /// Nothing kept, and a mark. Takes no memory.
    pub fn new() -> Memo<I, T>
        ensures kept { result.kept ≡ None }
        ensures fresh { result.fresh ≡ false }
    {
        Memo {
            kept: None,
            fresh: false,
        }
    }

    /// Whether there is no mark: the inputs are known to be those of now. Takes constant time.
    pub fn is_fresh(&self) -> bool
        ensures { result ≡ self.now.fresh }
    {
        self.fresh
    }

    /// Sets the mark: the inputs may be others now. What is kept stays. Takes constant time.
    pub fn mark(&mut self)
        ensures { self.new ≡ record self.old { fresh = false } }
    {
        self.fresh = false;
    }

    /// Takes the mark away: whoever does it knows that the value is built from the inputs of now. Takes constant
    /// time.
    pub fn unmark(&mut self)
        ensures { self.new ≡ record self.old { fresh = true } }
    {
        self.fresh = true;
    }

    /// The inputs that the value was built from, if one is kept. Takes constant time.
    pub fn inputs(&self) -> Option<&I>
        ensures { option_copied result ≡ self.now.kept }
    {
        match &self.kept {
            Some(kept) => Some(kept.inputs()),
            None => None,
        }
    }

    /// The value, if one is kept: with a mark or without. Takes constant time.
    pub fn value(&self) -> Option<&T>
        ensures { option_copied result ≡ option_map I.made self.now.kept }
    {
        match &self.kept {
            Some(kept) => Some(kept.value()),
            None => None,
        }
    }
}

impl<I: Makes<T> + Drop, T: Drop> Memo<I, T> {
    /// Whether a value is kept, and its inputs are those of now.
    fn has<O: Offers<I, T>>(&self, now: &O) -> bool
        ensures { IsTrue result ↔ (self.now.kept ≡ Some (O.offered now.now)) }
    {
        match &self.kept {
            Some(kept) => now.same(kept.inputs()),
            None => false,
        }
    }

    /// Whether the value is up to date: whether one is kept, and its inputs are those of now. Then it takes
    /// the mark away. Where there is no mark, the inputs that are kept must be those of now: whoever
    /// changes inputs sets the mark.
    ///
    /// Without a mark it looks at nothing and takes constant time, else the time of one comparison of
    /// inputs.
    pub fn settle<O: Offers<I, T>>(&mut self, now: &O) -> bool
        requires { self.old.fresh ≡ true → self.old.kept ≡ Some (O.offered now.now) }
        ensures same { IsTrue result ↔ (self.old.kept ≡ Some (O.offered now.now)) }
        ensures settled { IsTrue result → self.new ≡ record self.old { fresh = true } }
        ensures stale { IsFalse result → self.new ≡ self.old }
    {
        if self.fresh {
            return true;
        }
        if !self.has(now) {
            return false;
        }
        self.fresh = true;
        true
    }

    /// Builds the value from the inputs of now, in place of any that is kept, tells the meter, and takes the
    /// mark away. Takes the time and the memory of one copy and of one building. Want of memory is the only
    /// error, and changes nothing.
    pub fn build<O: Offers<I, T> + Drop>(
        &mut self,
        alloc: Global,
        now: O,
        meter: &mut Meter,
    ) -> Result<(), AllocError>
        ensures ok { OnOk result (self.new ≡ record { kept = Some (O.offered now); fresh = true }) }
        ensures err { OnErr result (self.new ≡ self.old) }
        ensures counted { OnOk result
            (meter.new ≡ record meter.old { parts = min (meter.old.parts + 1) (2 ^ 64 - 1) }) }
        ensures uncounted { OnErr result (meter.new ≡ meter.old) }
        ensures rises { Rises meter.old meter.new }
    {
        let kept = Kept::build(alloc, &now)?;
        self.kept = Some(kept);
        self.fresh = true;
        meter.refreshed();
        Ok(())
    }

    /// Brings the value up to date: builds it anew where nothing is kept or the inputs of now are other
    /// ones, tells the meter if it did, and takes the mark away. Where there is no mark, the inputs that
    /// are kept must be those of now: whoever changes inputs sets the mark.
    ///
    /// Without a mark it looks at nothing and takes constant time. Else it takes the time of one
    /// comparison of inputs, and where they differ the time and the memory of one copy and of one
    /// building. Want of memory is the only error, and changes nothing.
    pub fn bring<O: Offers<I, T> + Drop>(
        &mut self,
        alloc: Global,
        now: O,
        meter: &mut Meter,
    ) -> Result<(), AllocError>
        requires { self.old.fresh ≡ true → self.old.kept ≡ Some (O.offered now) }
        ensures ok { OnOk result (self.new ≡ record { kept = Some (O.offered now); fresh = true }) }
        ensures err { OnErr result (self.new ≡ self.old) }
        ensures counted { OnOk result (Refreshes self.old.kept (Some (O.offered now)) meter.old meter.new) }
        ensures uncounted { OnErr result (meter.new ≡ meter.old) }
        ensures rises { Rises meter.old meter.new }
    {
        if self.settle(&now) {
            return Ok(());
        }
        self.build(alloc, now, meter)
    }
}
