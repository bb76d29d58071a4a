//! The trace of a project.
ghost use Rattle.std.specs.Prelude.{◌≡◌, ◌+◌, ◌/◌, IfOk};
ghost use Rattle.co_segments.specs.Segments.{TraceState, Traced, at_power_on};
ghost use Rattle.network_image.specs.Image.{image_of};
ghost use Rattle.network_image.specs.Network.{image_held};
ghost use Rattle.workbench.specs.Queries.{trace_of};
ghost use Rattle.kept_values.specs.Work.{Rises};

use co_depend::RecordingParts;
use co_project::Project;
use co_segments::Store;
use kept_values::Meter;
use network_image::NetworkParts;
use std::alloc::{AllocError, Global};
use trace_spans::TraceText;

/// The trace of the network of a project with its text, by its parts and the segments that are kept. Want of memory is the
/// only error; other segments may then be held, each of them valid.
#[tactic(auto, unfolding(crate::specs::Queries::trace_of))]
pub(crate) fn traced(
    alloc: Global,
    project: &Project,
    network: NetworkParts,
    store: &mut Store,
    meter: &mut Meter,
) -> Result<TraceText, AllocError>
    requires { image_held network ≡ image_of project.now }
    ensures lines { IfOk result (λ told. told ≡ trace_of project.now) }
    ensures traced { IfOk result (λ told. (end : TraceState) × (
        Traced (image_of project.now) store.old.capacity (at_power_on store.old.segments meter.old)
        (project.now.horizon / 10000 + 1) end
        × (store.new.segments ≡ end.held) × (meter.new ≡ end.work))) }
    ensures capacity { store.new.capacity ≡ store.old.capacity }
    ensures rises { Rises meter.old meter.new }
{
    project.keeps_to_rules();
    let horizon = project.horizon();
    let mut parts = RecordingParts::of(alloc, network);
    let told = store.trace_text(&mut parts, horizon, meter)?;
    Ok(told)
}
