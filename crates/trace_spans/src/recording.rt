//! What is kept of what was read.
#![tactic(auto)]

ghost use Rattle.std.specs.Prelude.{◌≡◌, ◌≤◌, ◌<◌, ◌↔◌, ℕ, length, slice_index_or, IfOk, OnOk, MatchOption};
ghost use Rattle.image_parts.specs.Asking.{Agrees};
ghost use Rattle.image_parts.specs.Contents.{Content, Image};
ghost use Rattle.trace_spans.specs.Reads.{AreNumbered, AreMarked, LearnsMore, plain};
ghost use Rattle.trace_spans.specs.Records.{IsNewAmong, IsOnce, IsRecordOf};

use crate::kept_read::KeptRead;
use crate::reads_now::ReadsNow;
use image_parts::{Part, Read};
use std::alloc::{AllocError, Global};

/// The place at which a part stands.
fn place_of(reads: &[KeptRead], name: Part) -> Option<usize>
    ensures { MatchOption result (IsNewAmong name reads.now)
        (λ k. (k < length reads.now) × ((d : _) → (slice_index_or reads.now k d).name ≡ name)) }
{
    for (place, read) in reads.iter().enumerate() {
        if read.part() == name {
            return Some(place);
        }
    }
    None
}

// It is not kept.
fn let_go(_read: Read) {}

/// One more, if no part of that name is kept.
fn add(
    alloc: Global,
    now: &mut ReadsNow,
    given: &mut u64,
    kept: &mut Vec<KeptRead>,
    read: Read,
) -> Result<(), AllocError>
    requires consistent { (image : Image) × ((contents : ℕ → Content) × (AreNumbered image contents given.old now.old
        × (Agrees image (plain kept.now.items) × (image read.0 ≡ read.1)))) }
    requires once { IsOnce (plain kept.now.items) }
    ensures once { OnOk result (IsOnce (plain kept.new.items)) }
    ensures same { OnOk result ((image : Image) → Agrees image (plain kept.new.items)
        ↔ (Agrees image (plain kept.old.items) × (image read.0 ≡ read.1))) }
    ensures known { OnOk result ((image : Image) (contents : ℕ → Content)
        → AreNumbered image contents given.old now.old → image read.0 ≡ read.1
        → AreMarked contents given.old kept.old.items
        → (e : LearnsMore image contents given.old given.new now.new)
        × AreMarked e.meaning given.new kept.new.items) }
    ensures more { given.old ≤ given.new }
{
    match place_of(kept, read.part()) {
        Some(_place) => {
            let_go(read);
            Ok(())
        }
        None => {
            let marked = now.mark(alloc, given, read)?;
            kept.push(marked)?;
            Ok(())
        }
    }
}

/// Each part once, as one image had it, with the number that its content is known by, or a new one.
pub fn recorded(
    alloc: Global,
    now: &mut ReadsNow,
    given: &mut u64,
    all: Vec<Read>,
) -> Result<Vec<KeptRead>, AllocError>
    requires { (image : Image) × ((contents : ℕ → Content) × (AreNumbered image contents given.old now.old
        × Agrees image all.items)) }
    ensures recorded { IfOk result (λ kept. IsRecordOf all.items (plain kept.items)) }
    ensures known { IfOk result (λ kept. (image : Image) (contents : ℕ → Content)
        → AreNumbered image contents given.old now.old → Agrees image all.items
        → (e : LearnsMore image contents given.old given.new now.new)
        × AreMarked e.meaning given.new kept.items) }
    ensures more { given.old ≤ given.new }
{
    let mut kept: Vec<KeptRead> = Vec::new(alloc);
    for read in all {
        add(alloc, now, given, &mut kept, read)?;
    }
    Ok(kept)
}
