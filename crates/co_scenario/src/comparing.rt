//! Whether two lists of events are the same.

ghost use Rattle.std.specs.Prelude.{◌≡◌, ◌↔◌, IsTrue};

use crate::step::Step;
use crate::timed_step::TimedStep;

/// Whether two events do the same.
fn same_step(step: &Step, other: &Step) -> bool
    ensures { IsTrue result ↔ (step.now ≡ other.now) }
{
    match (step, other) {
        (
            Step::Set {
                node,
                index,
                sub,
                bytes,
            },
            Step::Set {
                node: n,
                index: i,
                sub: s,
                bytes: b,
            },
        ) => node == n && index == i && sub == s && bytes.get().as_slice() == b.get().as_slice(),
        (Step::Power { node, on }, Step::Power { node: n, on: o }) => node == n && on == o,
        (
            Step::Nmt { node, command },
            Step::Nmt {
                node: n,
                command: c,
            },
        ) => { node == n && command == c }
        _ => false,
    }
}

/// Whether two events are the same: by number, by time, and by what they do.
fn same_event(step: &TimedStep, other: &TimedStep) -> bool
    ensures { IsTrue result ↔ (step.now ≡ other.now) }
{
    step.number == other.number && step.time == other.time && same_step(&step.step, &other.step)
}

/// Whether two lists of events are the same. Takes time by their length.
pub fn same_steps(steps: &[TimedStep], others: &[TimedStep]) -> bool
    ensures { IsTrue result ↔ (steps.now ≡ others.now) }
{
    if steps.len() != others.len() {
        return false;
    }
    for place in 0..steps.len() {
        if !same_event(&steps[place], &others[place]) {
            return false;
        }
    }
    true
}
