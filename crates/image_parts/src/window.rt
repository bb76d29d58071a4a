//! The events of a window.

ghost use Rattle.std.specs.Prelude.{◌≡◌, ◌↔◌, IsTrue};

use co_scenario::{TimedStep, same_steps};
use std::marker::Model;

/// The time that a window takes, in microseconds.
pub const WINDOW: u64 = 10_000;

/// The moment after the last that a simulation reaches, in microseconds from the power-on of the network: the
/// end of the window in which the greatest horizon lies.
pub const END: u64 = 10_010_000;

/// The events of a window, by time and then by number.
#[derive(Debug, Drop)]
pub struct Window {
    steps: Vec<TimedStep>,
}

impl Model for Window {
    ghost use Rattle.std.specs.Prelude.{List};
    ghost use Rattle.co_scenario.specs.declared.timed_step.TimedStep.{TimedStep};

    ghost Value = { List TimedStep };

    ghost view = { λ window. window.steps.items };
}

impl Window {
    /// The window of these events.
    pub fn new(steps: Vec<TimedStep>) -> Window
        ensures { result ≡ steps.items }
    {
        Window { steps }
    }

    /// The events.
    pub fn steps(&self) -> &[TimedStep]
        ensures { result.now ≡ self.now }
    {
        &self.steps
    }

    /// Whether the other window has the same events. Takes time by their number, and no memory.
    pub fn same(&self, other: &Window) -> bool
        ensures { IsTrue result ↔ (self.now ≡ other.now) }
    {
        same_steps(&self.steps, &other.steps)
    }
}
