//! The jobs.

use crate::editing::editing;
use crate::files::files;
use crate::full_bus::{BUSES, full_bus};
use crate::plan::plan;
use crate::random::Random;
use crate::script::many_edits;
use crate::size::Size;
use crate::traces::{TRACES, first_trace};
use std::alloc::{AllocError, Global};

/// What users of a workbench wait for.
#[derive(Clone, Copy)]
pub enum Job {
    /// A machine builder edits a network and asks, by turns.
    Edits,
    /// The first traces of networks of different make.
    FirstTrace,
    /// All files of a network.
    Files,
    /// A script of many edits is read.
    Script,
    /// The plan of many messages, and the files by it.
    Plan,
    /// Networks with more frames than the bus takes, large data sheets, and more windows than are kept.
    FullBus,
}

impl Job {
    pub const ALL: [Job; 6] = [
        Job::Edits,
        Job::FirstTrace,
        Job::Files,
        Job::Script,
        Job::Plan,
        Job::FullBus,
    ];

    pub fn named(name: &str) -> Option<Job> {
        match name {
            "edits" => Some(Job::Edits),
            "first_trace" => Some(Job::FirstTrace),
            "files" => Some(Job::Files),
            "script" => Some(Job::Script),
            "plan" => Some(Job::Plan),
            "full_bus" => Some(Job::FullBus),
            _ => None,
        }
    }

    pub fn name(self) -> &'static str {
        match self {
            Job::Edits => "edits",
            Job::FirstTrace => "first_trace",
            Job::Files => "files",
            Job::Script => "script",
            Job::Plan => "plan",
            Job::FullBus => "full_bus",
        }
    }

    pub fn number(self) -> u32 {
        match self {
            Job::Edits => 0,
            Job::FirstTrace => 1,
            Job::Files => 2,
            Job::Script => 3,
            Job::Plan => 4,
            Job::FullBus => 5,
        }
    }

    /// How many sessions it has.
    pub fn sessions(self, size: Size) -> u32 {
        match self {
            Job::Edits => 2,
            Job::FirstTrace => TRACES,
            Job::Files => size.of(1, 2),
            Job::Script => size.of(1, 3),
            Job::Plan => size.of(1, 2),
            Job::FullBus => BUSES,
        }
    }

    /// The input of a session.
    pub fn script(
        self,
        alloc: Global,
        size: Size,
        random: &mut Random,
        session: u32,
    ) -> Result<String, AllocError> {
        match self {
            Job::Edits => editing(alloc, size, random, session),
            Job::FirstTrace => first_trace(alloc, size, random, session),
            Job::Files => files(alloc, size, random),
            Job::Script => many_edits(alloc, size, random, session),
            Job::Plan => plan(alloc, size, random, session),
            Job::FullBus => full_bus(alloc, size, random, session),
        }
    }
}
