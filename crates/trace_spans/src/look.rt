//! What a trace knows, and where it looks first.

ghost use Rattle.std.specs.Prelude.{◌≡◌, []};

use crate::place::Place;
use crate::reads_now::ReadsNow;
use co_scenario::{Step, TimedStep};
use image_parts::Window;
use std::alloc::Global;
use std::rc::Rc;

/// What is known of the image during a trace.
#[derive(Drop)]
pub struct Look {
    /// The parts that are known.
    pub reads: ReadsNow,
    /// The last window that has other events than were recorded, if there is one: those that it has are known.
    pub known_events: Option<u32>,
    /// An entry that an event sets, if one was met: buses that edits of events led to mostly differ there.
    pub place: Option<Place>,
    /// The place, among the reads of a span, of the one by which the last span that didn't match was told: others of its
    /// number mostly differ there too. At first it is one that no read has.
    pub differing: usize,
}

/// The entry that the last of some events sets, if that event sets one.
fn last_set(steps: &[TimedStep]) -> Option<Place> {
    let last = steps.last()?;
    match &last.step {
        Step::Set {
            node,
            index,
            sub,
            ..
        } => Some(Place {
            node: *node,
            index: *index,
            sub: *sub,
        }),
        _ => None,
    }
}

impl Look {
    /// Nothing is known yet. Takes no memory.
    pub fn new(alloc: Global) -> Look
        ensures { result.reads ≡ [] }
    {
        Look {
            reads: ReadsNow::new(alloc),
            known_events: None,
            place: None,
            differing: usize::MAX,
        }
    }

    /// Notes the entry that the last event of a window sets.
    pub fn note_events(&mut self, window: &Option<Rc<Window>>)
        ensures { self.new.reads ≡ self.old.reads }
    {
        if let Some(window) = window {
            self.place = last_set(window.steps()).or(self.place);
        }
    }
}
