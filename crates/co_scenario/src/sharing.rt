//! Values that lists of events share.

ghost use Rattle.std.specs.Prelude.{◌≡◌, OnOk};

use crate::step::Step;
use crate::timed_step::TimedStep;
use std::alloc::AllocError;

/// Shares the value that an event sets with another event, where that sets an equal one. It does the same.
fn share_value(step: &mut Step, other: &Step) -> Result<(), AllocError>
    ensures { OnOk result (step.new ≡ step.old) }
{
    let Step::Set { bytes, .. } = step else {
        return Ok(());
    };
    let Step::Set { bytes: others, .. } = other else {
        return Ok(());
    };
    if bytes.get().as_slice() == others.get().as_slice() {
        *bytes = others.share()?;
    }
    Ok(())
}

/// Whether an event comes before another one: by time, and then by number.
fn is_before(step: &TimedStep, other: &TimedStep) -> bool {
    step.time < other.time || (step.time == other.time && step.number < other.number)
}

/// The events from the first on that doesn't come before another one.
fn from<'a>(steps: &'a [TimedStep], other: &TimedStep) -> &'a [TimedStep] {
    let count = steps
        .iter()
        .take_while(|step| is_before(step, other))
        .count();
    &steps[count..]
}

/// Shares the values that events set with those of others, where an event of the same time and number sets an equal
/// one: they do the same. Takes time by the length of both lists and of the values, and no memory.
pub fn share_values(steps: &mut [TimedStep], others: &[TimedStep]) -> Result<(), AllocError>
    ensures { OnOk result (steps.new ≡ steps.old) }
{
    let mut rest = others;
    for step in steps.iter_mut() {
        rest = from(rest, step);
        if let Some(other) = rest.first() {
            share_value(&mut step.step, &other.step)?;
        }
    }
    Ok(())
}
