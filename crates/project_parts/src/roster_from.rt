//! What the roster is built from.

use base::Shared;
use image_parts::Roster;
use kept_values::Makes;

/// The roster itself: bit rate, manager, when it starts nodes, and node numbers.
#[derive(Drop)]
pub struct RosterFrom {
    /// The roster.
    pub roster: Roster,
}

impl Makes<Shared<Roster>> for RosterFrom {
    ghost use Rattle.project_parts.specs.Made.{roster_made};

    ghost made = { roster_made };
}
