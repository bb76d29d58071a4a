//! The roster as it lies in a project.
ghost use Rattle.project_parts.specs.Given.{roster_from};

use crate::roster_from::RosterFrom;
use base::Shared;
use co_project::Project;
use image_parts::Roster;
use kept_values::Offers;
use network_image::{is_roster, make_roster};
use std::alloc::{AllocError, Global};

/// A project, for its roster.
#[derive(Drop)]
pub struct RosterNow<'a> {
    pub project: &'a Project,
}

impl<'a> Offers<RosterFrom, Shared<Roster>> for RosterNow<'a> {
    ghost use Rattle.project_parts.specs.Given.{roster_from};

    ghost offered = { λ o. roster_from o.project.now };

    fn same(&self, kept: &RosterFrom) -> bool {
        is_roster(&kept.roster, self.project)
    }

    fn copy(&self, alloc: Global) -> Result<RosterFrom, AllocError> {
        let roster = make_roster(alloc, self.project)?;
        Ok(RosterFrom { roster })
    }

    fn make(&self, alloc: Global) -> Result<Shared<Roster>, AllocError> {
        let roster = make_roster(alloc, self.project)?;
        Shared::new(alloc, roster)
    }
}
