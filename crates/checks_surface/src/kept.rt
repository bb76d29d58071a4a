//! The parts of a project, kept and handed out: `co_depend`.

ghost use Rattle.std.specs.Prelude.{◌≡◌, Some, true};
ghost use Rattle.kept_parts.specs.Kept.{IsCurrent, IsOf};
ghost use Rattle.kept_parts.specs.Left.{IsSwept};
ghost use Rattle.project_parts.specs.Reached.{IsPart};

use base::{ListedBytes, ListedText, Shared};
use co_depend::{Image, Inputs, Makes, Memo, Meter, Offers, Part, RecordingParts};
use co_project::{Command, EditFault};
use pdo_links::Plan;
use project_parts::DeviceWrites;
use std::alloc::{AllocError, Global};

/// The first inputs.
pub fn inputs(alloc: Global) -> Inputs {
    Inputs::new(alloc)
}

/// The inputs change by an edit, or stay.
pub fn accept(inputs: &mut Inputs, command: Command) -> Result<(), EditFault> {
    inputs.accept(command)
}

/// Nothing is kept.
pub fn memo<I: Makes<T>, T>() -> Memo<I, T> {
    Memo::new()
}

/// A value is kept with the inputs that it is made from.
pub fn keep<I: Makes<T> + Drop, T: Drop, O: Offers<I, T> + Drop>(
    memo: &mut Memo<I, T>,
    alloc: Global,
    now: O,
    meter: &mut Meter,
) -> Result<(), AllocError> {
    memo.build(alloc, now, meter)
}

/// The inputs that were kept last.
pub fn kept_inputs<I: Makes<T>, T>(memo: &Memo<I, T>) -> Option<&I> {
    memo.inputs()
}

/// The value that was kept last.
pub fn kept_value<I: Makes<T>, T>(memo: &Memo<I, T>) -> Option<&T> {
    memo.value()
}

/// Nothing was counted.
pub fn meter() -> Meter {
    Meter::new()
}

/// What was counted: segments run, and parts made anew.
pub fn counted(meter: &Meter) -> (u64, u64) {
    (meter.segments(), meter.parts())
}

/// One segment more.
pub fn ran(meter: &mut Meter) {
    meter.ran();
}

/// One part more.
pub fn refreshed(meter: &mut Meter) {
    meter.refreshed();
}

/// No parts.
pub fn image(alloc: Global) -> Image {
    Image::new(alloc)
}

/// A part is brought up to date.
pub fn refresh(
    image: &mut Image,
    part: &Part,
    inputs: &Inputs,
    meter: &mut Meter,
) -> Result<(), AllocError>
    requires is_of { IsOf inputs.now image.old }
    requires swept { IsSwept inputs.now image.old }
    requires part { IsPart part.now }
{
    image.refresh(part, inputs, meter)
}

/// All parts that a simulation reads are brought up to date.
pub fn refresh_all(image: &mut Image, inputs: &Inputs, meter: &mut Meter) -> Result<(), AllocError>
    requires is_of { IsOf inputs.now image.old }
    requires swept { IsSwept inputs.now image.old }
{
    image.refresh_all(inputs, meter)
}

/// The plan that is kept.
pub fn plan(image: &Image) -> Option<&Shared<Plan>> {
    image.plan()
}

/// The writes of a node that are kept.
pub fn writes(image: &Image, node: u8) -> Option<&DeviceWrites> {
    image.writes(node)
}

/// The DCF of a node that is kept.
pub fn dcf(image: &Image, node: u8) -> Option<&Shared<ListedText>> {
    image.dcf(node)
}

/// The concise DCF of a node that is kept.
pub fn concise(image: &Image, node: u8) -> Option<&Shared<ListedBytes>> {
    image.concise(node)
}

/// What hands the parts out to a simulation.
pub fn handed_out(
    image: &Image,
    alloc: Global,
    inputs: &Inputs,
) -> Result<RecordingParts, AllocError>
    requires { IsCurrent inputs.now image.now }
{
    let network = image.network(inputs)?;
    Ok(RecordingParts::of(alloc, network))
}
