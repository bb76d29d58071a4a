//! What is known of a part.
#![tactic(auto)]

ghost use Rattle.std.specs.Prelude.{◌≡◌, ◌↔◌, ℕ, IfOk, IfSome, IsTrue, Some};
ghost use Rattle.image_parts.specs.Contents.{Content, Image};
ghost use Rattle.image_parts.specs.declared.part.Part.{Part as Name};
ghost use Rattle.trace_spans.specs.Reads.{IsKnown, IsMarked};

use crate::kept_read::KeptRead;
use std::alloc::AllocError;
use std::marker::Model;

/// A part as the image has it now, and the number of a content that it hasn't, if one was met.
#[derive(Drop)]
pub(crate) struct KnownRead {
    read: KeptRead,
    other: Option<u64>,
}

impl Model for KnownRead {
    ghost use Rattle.trace_spans.specs.contracts.kept_read.KeptRead as noted;
    ghost use Rattle.trace_spans.specs.Reads.{Known, known_code};

    ghost Value = { Known };

    ghost coded = { known_code noted.the_row.coded };

    ghost view = { λ a. record { read = a.read; other = a.other } };
}

impl KnownRead {
    /// The part as the image has it now, and the number of another content.
    pub fn new(read: KeptRead, other: Option<u64>) -> KnownRead
        ensures { result ≡ record { read = read; other = other } }
    {
        KnownRead { read, other }
    }

    /// The part as the image has it now.
    pub fn read(&self) -> &KeptRead
        ensures { result.now ≡ self.now.read }
    {
        &self.read
    }

    /// Whether the content is that of a read, as far as the numbers tell.
    pub fn by_number(&self, read: &KeptRead) -> Option<bool>
        requires { (image : Image) × ((contents : ℕ → Content) × ((given : ℕ) × ((part : Name) × (
            IsKnown image contents given part self.now × IsMarked contents given read.now)))) }
        ensures { IfSome result (λ b. IsTrue b ↔ (self.now.read.content ≡ read.now.content)) }
    {
        if self.read.number() == read.number() {
            return Some(true);
        }
        match self.other {
            Some(other) if other == read.number() => Some(false),
            _ => None,
        }
    }

    /// Whether the content is that of a read, by value, and what is known then: the part with the number of
    /// the read, or that number as another one.
    pub fn by_value(&self, read: &KeptRead) -> Result<(bool, KnownRead), AllocError>
        ensures answer { IfOk result (λ r. IsTrue r.0 ↔ (self.now.read.content ≡ read.now.content)) }
        ensures known { IfOk result (λ r. (image : Image) (contents : ℕ → Content) (given : ℕ)
            → IsKnown image contents given read.now.name self.now → IsMarked contents given read.now
            → IsKnown image contents given read.now.name r.1) }
    {
        let same = self.read.content().same(read.content());
        if same {
            let known = KnownRead::new(read.share()?, self.other);
            Ok((true, known))
        } else {
            let known = KnownRead::new(self.read.share()?, Some(read.number()));
            Ok((false, known))
        }
    }
}
