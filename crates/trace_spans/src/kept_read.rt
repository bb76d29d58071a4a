//! What was read, with a number.
#![tactic(auto)]

ghost use Rattle.std.specs.Prelude.{◌≡◌, ◌+◌, ◌↔◌, IfOk, IsTrue, OnErr, OnOk};

use image_parts::{Part, PartContent, Read};
use std::alloc::{AllocError, Global};
use std::marker::Model;
use std::rc::Rc;

/// A part that was read, with its content, shared, and the private number of the content.
#[derive(Drop)]
pub struct KeptRead {
    number: u64,
    read: Rc<Read>,
}

impl Model for KeptRead {
    ghost use Rattle.image_parts.specs.contracts.read.Read as noted;
    ghost use Rattle.trace_spans.specs.Reads.{Recorded, recorded_code};

    ghost Value = { Recorded };

    ghost coded = { recorded_code noted.the_row.coded };

    ghost view = { λ a. record { name = a.read.value.0; number = a.number; content = a.read.value.1 } };
}

impl KeptRead {
    /// Gives what was read the next number.
    pub(crate) fn give(alloc: Global, given: &mut u64, read: Read) -> Result<KeptRead, AllocError>
        ensures is { IfOk result (λ kept. kept ≡ record { name = read.0; number = given.old; content = read.1 }) }
        ensures ok { OnOk result (given.new ≡ given.old + 1) }
        ensures err { OnErr result (given.new ≡ given.old) }
    {
        if *given == u64::MAX {
            return Err(AllocError);
        }
        let read = Rc::new(alloc, read)?;
        let kept = KeptRead {
            number: *given,
            read,
        };
        *given += 1;
        Ok(kept)
    }

    /// The same, shared. Takes no memory.
    pub(crate) fn share(&self) -> Result<KeptRead, AllocError>
        ensures { IfOk result (λ copy. copy ≡ self.now) }
    {
        let read = self.read.clone()?;
        Ok(KeptRead {
            number: self.number,
            read,
        })
    }

    /// The name of the part.
    pub fn part(&self) -> Part
        ensures { result ≡ self.now.name }
    {
        self.read.part()
    }

    /// The number of the content.
    pub(crate) fn number(&self) -> u64
        ensures { result ≡ self.now.number }
    {
        self.number
    }

    /// The content.
    pub(crate) fn content(&self) -> &PartContent
        ensures { result.now ≡ self.now.content }
    {
        self.read.content()
    }

    /// Whether a content is what was read. Takes time by the length of both, and no memory.
    pub fn is(&self, content: &PartContent) -> bool
        ensures { IsTrue result ↔ (content.now ≡ self.now.content) }
    {
        content.same(self.read.content())
    }
}
