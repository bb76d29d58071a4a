//! What is known of an image.
#![tactic(auto)]

ghost use Rattle.std.specs.Prelude.{◌≡◌, ◌≤◌, ◌↔◌, ℕ, [], IfOk, IfSome, IsNone, IsTrue, None, OnErr, OnOk, Some, cond};
ghost use Rattle.std.specs.BTreeMap.{is_at};
ghost use Rattle.image_parts.specs.Contents.{Content, Image};
ghost use Rattle.image_parts.specs.declared.part.Part.{Part as Name};
ghost use Rattle.trace_spans.specs.Reads.{AreNumbered, LearnsMore, IsMarked, known_at, part_cmp, plain_read};

use crate::kept_read::KeptRead;
use crate::known_read::KnownRead;
use image_parts::{Part, PartContent, Read};
use std::alloc::{AllocError, Global};
use std::collections::BTreeMap;
use std::marker::Model;

/// What is known of an image as it is now: the parts that were asked for, each once, with the numbers of
/// their contents.
///
/// A call takes time by the logarithm of the number of parts, and that of at most one comparison.
#[derive(Drop)]
pub struct ReadsNow {
    known: BTreeMap<Part, KnownRead>,
}

impl Model for ReadsNow {
    ghost use Rattle.std.specs.Coded.{coded_list, coded×};
    ghost use Rattle.std.specs.Prelude.{List};
    ghost use Rattle.image_parts.specs.contracts.part.Part as named;
    ghost use Rattle.image_parts.specs.declared.part.Part.{Part};
    ghost use Rattle.trace_spans.specs.contracts.known_read.KnownRead as known_read;
    ghost use Rattle.trace_spans.specs.Reads.{Known};

    ghost Value = { List (Part × Known) };

    ghost coded = { coded_list (coded× named.the_row.coded known_read.the_row.coded) };

    ghost view = { λ a. a.known.entries };
}

/// Sets what is known of a part.
fn learn(
    known: &mut BTreeMap<Part, KnownRead>,
    part: Part,
    read: KnownRead,
) -> Result<(), AllocError>
    ensures { OnOk result ((q : Name) → known_at known.new.entries q
        ≡ cond (is_at (part_cmp part) q) (Some read) (known_at known.old.entries q)) }
{
    known.insert(part, read)?;
    Ok(())
}

// It is known already.
fn let_go(_read: Read) {}

impl ReadsNow {
    /// Nothing is known yet. Takes no memory.
    pub fn new(alloc: Global) -> ReadsNow
        ensures { result ≡ [] }
    {
        ReadsNow {
            known: BTreeMap::new(alloc),
        }
    }

    /// Whether the image has what was read, where the part is known: by the numbers, where these tell.
    pub fn compare(&mut self, read: &KeptRead) -> Result<Option<bool>, AllocError>
        requires { (image : Image) × ((contents : ℕ → Content) × ((given : ℕ) × (
            AreNumbered image contents given self.old × IsMarked contents given read.now))) }
        ensures answer { IfOk result (λ answer. (image : Image) (contents : ℕ → Content) (given : ℕ)
            → AreNumbered image contents given self.old
            → IfSome answer (λ b. IsTrue b ↔ (image read.now.name ≡ read.now.content))) }
        ensures unknown { IfOk result (λ answer. IsNone answer ↔ (known_at self.old read.now.name ≡ None)) }
        ensures known { OnOk result ((image : Image) (contents : ℕ → Content) (given : ℕ)
            → AreNumbered image contents given self.old → IsMarked contents given read.now
            → AreNumbered image contents given self.new) }
    {
        let (same, learnt) = match self.known.get(&read.part()) {
            None => return Ok(None),
            Some(known) => {
                if let Some(same) = known.by_number(read) {
                    return Ok(Some(same));
                }
                known.by_value(read)?
            }
        };
        learn(&mut self.known, read.part(), learnt)?;
        Ok(Some(same))
    }

    /// Notes that a part is what was read, with the number of the read.
    fn take_over(&mut self, read: &KeptRead) -> Result<(), AllocError>
        ensures { OnOk result ((image : Image) (contents : ℕ → Content) (given : ℕ)
            → image read.now.name ≡ read.now.content → AreNumbered image contents given self.old
            → IsMarked contents given read.now → LearnsMore image contents given given self.new) }
    {
        let known = KnownRead::new(read.share()?, None);
        learn(&mut self.known, read.part(), known)?;
        Ok(())
    }

    /// Whether the content of a part that wasn't known is what was read. It takes over the number of the
    /// read where it is, and else gets a new one.
    pub fn meet(
        &mut self,
        alloc: Global,
        given: &mut u64,
        content: PartContent,
        read: &KeptRead,
    ) -> Result<bool, AllocError>
        ensures answer { IfOk result (λ b. IsTrue b ↔ (content ≡ read.now.content)) }
        ensures known { OnOk result ((image : Image) (contents : ℕ → Content)
            → image read.now.name ≡ content → AreNumbered image contents given.old self.old
            → IsMarked contents given.old read.now
            → LearnsMore image contents given.old given.new self.new) }
        ensures more { given.old ≤ given.new }
    {
        let recorded = read.content();
        let same = content.same(recorded);
        if same {
            self.take_over(read)?;
            return Ok(true);
        }
        let now = KeptRead::give(alloc, given, Read::new(read.part(), content))?;
        let known = KnownRead::new(now, Some(read.number()));
        learn(&mut self.known, read.part(), known)?;
        Ok(false)
    }

    /// What was read of a part that wasn't known, with a new number.
    fn mark_new(
        &mut self,
        alloc: Global,
        given: &mut u64,
        read: Read,
    ) -> Result<KeptRead, AllocError>
        ensures is { IfOk result (λ kept. plain_read kept ≡ read) }
        ensures known { IfOk result (λ kept. (image : Image) (contents : ℕ → Content)
            → AreNumbered image contents given.old self.old → image read.0 ≡ read.1
            → (e : LearnsMore image contents given.old given.new self.new) × IsMarked e.meaning given.new kept) }
        ensures more { given.old ≤ given.new }
    {
        let part = read.part();
        let kept = KeptRead::give(alloc, given, read)?;
        let copy = kept.share()?;
        let known = KnownRead::new(kept, None);
        learn(&mut self.known, part, known)?;
        Ok(copy)
    }

    /// What was read of the image, with the number that it is known by, or a new one.
    pub(crate) fn mark(
        &mut self,
        alloc: Global,
        given: &mut u64,
        read: Read,
    ) -> Result<KeptRead, AllocError>
        ensures is { IfOk result (λ kept. (image : Image) (contents : ℕ → Content)
            → AreNumbered image contents given.old self.old → image read.0 ≡ read.1 → plain_read kept ≡ read) }
        ensures known { IfOk result (λ kept. (image : Image) (contents : ℕ → Content)
            → AreNumbered image contents given.old self.old → image read.0 ≡ read.1
            → (e : LearnsMore image contents given.old given.new self.new) × IsMarked e.meaning given.new kept) }
        ensures more { given.old ≤ given.new }
    {
        match self.known.get(&read.part()) {
            Some(known) => {
                let_go(read);
                let copy = known.read().share()?;
                Ok(copy)
            }
            None => {
                let marked = self.mark_new(alloc, given, read)?;
                Ok(marked)
            }
        }
    }
}
