//! The parts of the network that is laid out.

ghost use Rattle.std.specs.Prelude.{◌≡◌, [], IfOk};
ghost use Rattle.co_depend.specs.Supply.{seen_of};
ghost use Rattle.image_parts.specs.Images.{IsImage};
ghost use Rattle.network_image.specs.Image.{image_of};

use co_depend::RecordingParts;
use co_project::Project;
use kept_parts::KeptParts;
use kept_values::Meter;
use std::alloc::{AllocError, Global};

/// The parts of a project's network, made as a workbench makes those of a new project, of which nothing was asked
/// yet. Want of memory is the only error.
pub fn parts_of(alloc: Global, project: &Project) -> Result<RecordingParts, AllocError>
    ensures seen { IfOk result (λ parts. seen_of parts ≡ record { image = image_of project.now; asked = [] }) }
    ensures asks { IfOk result (λ parts. parts.asks ≡ 0) }

    // So what holds of every image holds of it.
    ensures image { IfOk result (λ parts. IsImage (seen_of parts).image) }
{
    project.keeps_to_rules();
    let mut kept = KeptParts::new(alloc);
    let mut meter = Meter::new();
    kept.refresh_all(project, &mut meter)?;
    let network = kept.network(project)?;
    let parts = RecordingParts::of(alloc, network);
    Ok(parts)
}
