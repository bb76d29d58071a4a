//! The windows of a scenario, each with its mark.
ghost use Rattle.std.specs.Prelude.{◌≡◌, ◌↔◌, ◌==◌, ◌||◌, ◌&&◌, ◌<◌, not, ℕ, false, None, Some, OnOk, OnErr};
ghost use Rattle.std.specs.Prelude.{if◌then◌else◌, IfOk, IsTrue, option_copied};
ghost use Rattle.kept_values.specs.Shelved.{is_fresh, kept_at};
ghost use Rattle.kept_values.specs.Work.{Refreshes, Rises};
ghost use Rattle.part_shelves.specs.Busy.{has_steps};

use base::Shared;
use co_scenario::{TimedStep, same_steps, share_values};
use image_parts::Window;
use kept_values::Meter;
use std::alloc::{AllocError, Global};
use std::collections::BTreeMap;
use std::marker::Model;

/// The windows of a scenario by number, each kept with its steps, and a mark for each number below 1024.
/// Without a mark the steps that are kept at a number are those of now.
///
/// The marks take 1,024 bytes, and as many say at which numbers a window with steps is kept. A window is
/// found by the logarithm of their number.
#[derive(Drop)]
pub struct WindowShelf {
    kept: BTreeMap<u16, Shared<Window>>,
    fresh: [bool; 1024],
    busy: [bool; 1024],
}

impl Model for WindowShelf {
    ghost use Rattle.std.specs.Prelude.{List};
    ghost use Rattle.kept_values.specs.Shelved.{Shelved};
    ghost use Rattle.co_scenario.specs.declared.timed_step.TimedStep.{TimedStep};
    ghost use Rattle.part_shelves.specs.Busy.{AreBusy};

    ghost Value = { Shelved (List TimedStep) };

    ghost view = { λ s. record { kept = s.kept.entries; fresh = s.fresh } };

    ghost invariant = { λ s. AreBusy s.busy s.kept.entries };
}

impl WindowShelf {
    /// Nothing kept, and a mark at each number. Takes no memory from the allocator.
    pub fn new(alloc: Global) -> WindowShelf
        ensures kept { (q : ℕ) → kept_at result q ≡ None }
        ensures fresh { (q : ℕ) → is_fresh result q ≡ false }
    {
        WindowShelf {
            kept: BTreeMap::new(alloc),
            fresh: [false; 1024],
            busy: [false; 1024],
        }
    }

    /// Whether there is no mark at a number. Takes constant time.
    pub fn is_fresh(&self, i: u16) -> bool
        requires { i < 1024 }
        ensures { result ≡ is_fresh self.now i }
    {
        self.fresh[usize::from(i)]
    }

    /// Sets the mark at a number; from 1024 on there is one always. What is kept stays. Takes constant time.
    pub fn mark(&mut self, i: u64)
        ensures kept { self.new.kept ≡ self.old.kept }
        ensures fresh { (q : ℕ) → is_fresh self.new q ≡ (not (q == i) && is_fresh self.old q) }
    {
        if i < 1024 {
            self.fresh[i as usize] = false;
        }
    }

    /// Sets the mark at each number. What is kept stays. Takes constant time: it writes 1,024 bytes.
    pub fn mark_all(&mut self)
        ensures kept { self.new.kept ≡ self.old.kept }
        ensures fresh { (q : ℕ) → is_fresh self.new q ≡ false }
    {
        self.fresh = [false; 1024];
    }

    /// The window of a number, if one is kept. Takes time by the logarithm of the number of kept windows.
    pub fn value(&self, i: u16) -> Option<&Shared<Window>>
        ensures { option_copied result ≡ kept_at self.now i }
    {
        self.kept.get(&i)
    }

    /// Whether a window with steps is kept at a number. Takes constant time.
    pub fn has_steps(&self, i: u16) -> bool
        requires { i < 1024 }
        ensures { result ≡ has_steps (kept_at self.now i) }
    {
        self.busy[usize::from(i)]
    }

    /// Takes the mark at a number away.
    fn clear(&mut self, i: u16)
        requires { i < 1024 }
        ensures kept { self.new.kept ≡ self.old.kept }
        ensures fresh { (q : ℕ) → is_fresh self.new q ≡ (q == i || is_fresh self.old q) }
    {
        self.fresh[usize::from(i)] = true;
    }

    /// Keeps a window at a number, in place of any that is kept there. Want of memory changes nothing.
    fn insert(&mut self, i: u16, window: Shared<Window>) -> Result<(), AllocError>
        requires { i < 1024 }
        ensures ok { OnOk result ((q : ℕ)
            → kept_at self.new q ≡ (if q == i then Some window else kept_at self.old q)) }
        ensures err { OnErr result (self.new ≡ self.old) }
        ensures fresh { self.new.fresh ≡ self.old.fresh }
    {
        let busy = !window.get().steps().is_empty();
        self.kept.insert(i, window)?;
        self.busy[usize::from(i)] = busy;
        Ok(())
    }

    /// Whether a window with these steps is kept at a number.
    fn has(&self, i: u16, steps: &[TimedStep]) -> bool
        ensures { IsTrue result ↔ (kept_at self.now i ≡ Some steps.now) }
    {
        match self.value(i) {
            Some(window) => same_steps(window.get().steps(), steps),
            None => false,
        }
    }

    /// These steps, with the values that are kept at a number: where a kept step of the same time and number sets an
    /// equal value, they share it.
    fn sharing(&self, i: u16, steps: Vec<TimedStep>) -> Result<Vec<TimedStep>, AllocError>
        ensures { IfOk result (λ sharing. sharing.items ≡ steps.items) }
    {
        let mut steps = steps;
        if let Some(window) = self.value(i) {
            share_values(steps.as_mut_slice(), window.get().steps())?;
        }
        Ok(steps)
    }

    /// Keeps the steps of now at a number and takes the mark there away. A window of other steps is let go,
    /// and the meter is told; what both set alike is kept once. Takes time by the logarithm of the number of kept
    /// windows and by the number of steps; want of memory is the only error, and changes nothing.
    pub fn keep(
        &mut self,
        alloc: Global,
        i: u16,
        steps: Vec<TimedStep>,
        meter: &mut Meter,
    ) -> Result<(), AllocError>
        requires { i < 1024 }
        ensures ok { OnOk result ((q : ℕ)
            → kept_at self.new q ≡ (if q == i then Some steps.items else kept_at self.old q)) }
        ensures fresh { OnOk result ((q : ℕ) → is_fresh self.new q ≡ (q == i || is_fresh self.old q)) }
        ensures err { OnErr result (self.new ≡ self.old) }
        ensures counted { OnOk result (Refreshes (kept_at self.old i) (Some steps.items) meter.old meter.new) }
        ensures uncounted { OnErr result (meter.new ≡ meter.old) }
        ensures rises { Rises meter.old meter.new }
    {
        if self.has(i, &steps) {
            self.clear(i);
            return Ok(());
        }
        let steps = self.sharing(i, steps)?;
        let window = Shared::new(alloc, Window::new(steps))?;
        self.insert(i, window)?;
        self.clear(i);
        meter.refreshed();
        Ok(())
    }
}
