//! The events of a window that have not run.

ghost use Rattle.std.specs.Prelude.{◌≡◌, ◌≤◌, ◌↔◌, [], length, IfOk, IsTrue};
ghost use Rattle.std.specs.List.{prefix_len};
ghost use Rattle.base.specs.Moments.{earliest};
ghost use Rattle.bus_devices.specs.Steps.{has_time, in_window, steps_due, steps_left as are_left, times, AreFree};
ghost use Rattle.image_parts.specs.Images.{AreInOrder};

use co_scenario::{TimedStep, same_steps};
use image_parts::Window;
use std::alloc::AllocError;
use std::marker::Model;
use std::rc::Rc;

/// The events of a window that have not run, by time and then by number.
#[derive(Drop)]
pub(crate) struct StepsLeft {
    window: Option<Rc<Window>>,
    next: usize,
}

impl Model for StepsLeft {
    ghost use Rattle.std.specs.Prelude.{◌≡◌, ◌≤◌, List, drop, length};
    ghost use Rattle.bus_devices.specs.Steps.{in_window, AreFree};
    ghost use Rattle.image_parts.specs.Images.{AreInOrder};
    ghost use Rattle.co_scenario.specs.declared.timed_step.TimedStep.{TimedStep};

    ghost Value = { List TimedStep };

    ghost view = { λ steps. drop steps.next (in_window steps.window) };

    ghost invariant = { λ steps. (steps.next ≤ length (in_window steps.window)) × AreFree (in_window steps.window)
        × AreInOrder (in_window steps.window) };
}

/// The events of a window; none where it is absent.
fn steps_of(window: &Option<Rc<Window>>) -> &[TimedStep]
    ensures { result.now ≡ in_window window.now }
{
    match window {
        None => &[],
        Some(window) => window.steps(),
    }
}

/// How many of the first events have the time t.
fn count_at(steps: &[TimedStep], t: u64) -> usize
    ensures count { result ≡ prefix_len (has_time t) steps.now }
    ensures within { result ≤ length steps.now }
{
    steps
        .iter()
        .take_while(|step| u64::from(step.time) == t)
        .count()
}

impl StepsLeft {
    /// No events. Takes no memory.
    pub fn none() -> StepsLeft
        ensures { result ≡ [] }
    {
        StepsLeft {
            window: None,
            next: 0,
        }
    }

    /// The events of a window; none where it is absent.
    pub fn of_window(window: Option<Rc<Window>>) -> StepsLeft
        requires free { AreFree (in_window window) }
        requires order { AreInOrder (in_window window) }
        ensures { result ≡ in_window window }
    {
        StepsLeft { window, next: 0 }
    }

    /// The events.
    pub fn as_slice(&self) -> &[TimedStep]
        ensures steps { result.now ≡ self.now }
        ensures free { AreFree result.now }
        ensures order { AreInOrder result.now }
    {
        &steps_of(&self.window)[self.next..]
    }

    /// The first of their times, in microseconds, if one is left: that of the first event. Takes constant time.
    #[tactic(auto, using(crate::proofs::FirstTimeLemmas::none_left, crate::proofs::FirstTimeLemmas::first_left))]
    pub fn first(&self) -> Option<u64>
        ensures { result ≡ earliest (times self.now) }
    {
        let step = self.as_slice().first()?;
        Some(u64::from(step.time))
    }

    /// The events that are due at the moment t: those at the front that have this time. Takes time by their
    /// number.
    #[tactic(auto, unfolding(bus_devices::specs::Steps::steps_due))]
    pub fn due(&self, t: u64) -> &[TimedStep]
        ensures steps { result.now ≡ steps_due t self.now }
        ensures free { AreFree result.now }
    {
        let steps = self.as_slice();
        &steps[..count_at(steps, t)]
    }

    /// Forgets the events that are due at the moment t. Takes time by their number.
    #[tactic(auto, unfolding(bus_devices::specs::Steps::steps_left))]
    pub fn forget(&mut self, t: u64)
        ensures { self.new ≡ are_left t self.old }
    {
        let steps = steps_of(&self.window);
        self.next += count_at(&steps[self.next..], t);
    }

    /// Equal events. Takes no memory.
    pub fn copy(&self) -> Result<StepsLeft, AllocError>
        ensures { IfOk result (λ steps. steps ≡ self.now) }
    {
        let window = match &self.window {
            None => None,
            Some(window) => Some(window.clone()?),
        };
        Ok(StepsLeft {
            window,
            next: self.next,
        })
    }

    /// Whether the same events are left.
    pub fn same(&self, other: &StepsLeft) -> bool
        ensures { IsTrue result ↔ (self.now ≡ other.now) }
    {
        same_steps(self.as_slice(), other.as_slice())
    }
}
