//! What one trace has come to know and to tell.

ghost use Rattle.std.specs.Prelude.{◌≡◌, []};

use std::alloc::Global;
use trace_spans::{Look, TraceText};

/// What is known of the image during a trace, and what was told so far.
#[derive(Drop)]
pub(crate) struct Telling {
    /// What is known of the image.
    pub look: Look,
    /// What was told.
    pub told: TraceText,
}

impl Telling {
    /// Nothing is known or told yet. Takes no memory.
    pub fn new(alloc: Global) -> Telling
        ensures known { result.look.reads ≡ [] }
        ensures told { result.told ≡ [] }
    {
        let told = TraceText::new(alloc);
        let look = Look::new(alloc);
        Telling { look, told }
    }
}
