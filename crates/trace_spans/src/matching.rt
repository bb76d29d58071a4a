//! Whether an image has what was recorded.

ghost use Rattle.std.specs.Prelude.{◌≡◌, ◌≤◌, ◌+◌, ◌↔◌, ℕ, length, IfOk, OnOk, IsTrue};
ghost use Rattle.image_parts.specs.Asking.{Agrees};
ghost use Rattle.image_parts.specs.Contents.{Content, Image};
ghost use Rattle.image_parts.specs.declared.part.Part.TheVariants.{Events};
ghost use Rattle.trace_spans.specs.Reads.{AreNumbered, AreMarked, LearnsMore, IsMarked, plain};

use crate::handing::ask;
use crate::kept_read::KeptRead;
use crate::look::Look;
use can_bus::Parts;
use image_parts::{Part, PartContent};
use std::alloc::{AllocError, Global};

/// Whether the image has the recorded events of a window, which aren't known yet: asks for them. They are read in that
/// window alone, so they are noted only where they are others.
fn has_events<P: Parts>(
    alloc: Global,
    now: &mut Look,
    given: &mut u64,
    parts: &mut P,
    window: u32,
    read: &KeptRead,
) -> Result<bool, AllocError>
    requires { read.now.name ≡ Events window }
    ensures answer { IfOk result (λ b. IsTrue b ↔ ((P.seen parts.old).image read.now.name ≡ read.now.content)) }
    ensures known { OnOk result ((contents : ℕ → Content)
        → AreNumbered (P.seen parts.old).image contents given.old now.old.reads → IsMarked contents given.old read.now
        → LearnsMore (P.seen parts.old).image contents given.old given.new now.new.reads) }
    ensures more { given.old ≤ given.new }
    ensures counted { OnOk result (P.asks parts.new ≤ P.asks parts.old + 1) }
    ensures kept { (P.seen parts.new).image ≡ (P.seen parts.old).image }
{
    let events = parts.events(window)?;
    now.note_events(&events);
    let content = PartContent::of_events(events);
    if read.is(&content) {
        return Ok(true);
    }
    now.known_events = Some(window);
    let same = now.reads.meet(alloc, given, content, read)?;
    Ok(same)
}

/// Whether the image has a recorded value: asks for the part where it isn't known yet.
fn has<P: Parts>(
    alloc: Global,
    now: &mut Look,
    given: &mut u64,
    parts: &mut P,
    read: &KeptRead,
) -> Result<bool, AllocError>
    requires { (contents : ℕ → Content) × (AreNumbered (P.seen parts.now).image contents given.now now.now.reads
        × IsMarked contents given.now read.now) }
    ensures answer { IfOk result (λ b. IsTrue b ↔ ((P.seen parts.old).image read.now.name ≡ read.now.content)) }
    ensures known { OnOk result ((contents : ℕ → Content)
        → AreNumbered (P.seen parts.old).image contents given.old now.old.reads → IsMarked contents given.old read.now
        → LearnsMore (P.seen parts.old).image contents given.old given.new now.new.reads) }
    ensures more { given.old ≤ given.new }
    ensures counted { OnOk result (P.asks parts.new ≤ P.asks parts.old + 1) }
    ensures kept { (P.seen parts.new).image ≡ (P.seen parts.old).image }
{
    if let Part::Events(window) = read.part() {
        if now.known_events != Some(window) {
            let had = has_events(alloc, now, given, parts, window, read)?;
            return Ok(had);
        }
    }
    match now.reads.compare(read)? {
        Some(same) => Ok(same),
        None => {
            let content = ask(parts, read.part())?;
            let same = now.reads.meet(alloc, given, content, read)?;
            Ok(same)
        }
    }
}

/// Whether the image is known to lack one of the recorded values: that by which the last ones that didn't match were
/// told. Asks for nothing.
fn differs_there(now: &mut Look, reads: &[KeptRead]) -> Result<bool, AllocError>
    requires { (image : Image) × ((contents : ℕ → Content) × ((given : ℕ) × (
        AreNumbered image contents given now.old.reads × AreMarked contents given reads.now))) }
    ensures answer { IfOk result (λ b. (image : Image) (contents : ℕ → Content) (given : ℕ)
        → AreNumbered image contents given now.old.reads → IsTrue b → Agrees image (plain reads.now) → ⊥) }
    ensures known { OnOk result ((image : Image) (contents : ℕ → Content) (given : ℕ)
        → AreNumbered image contents given now.old.reads → AreMarked contents given reads.now
        → AreNumbered image contents given now.new.reads) }
{
    let place = now.differing;
    if place >= reads.len() {
        return Ok(false);
    }
    let read = &reads[place];
    match now.reads.compare(read)? {
        Some(same) => Ok(!same),
        None => Ok(false),
    }
}

/// Whether the image has all recorded values. Looks first at the one by which the last ones that didn't match were told.
pub fn matches<P: Parts>(
    alloc: Global,
    now: &mut Look,
    given: &mut u64,
    parts: &mut P,
    reads: &[KeptRead],
) -> Result<bool, AllocError>
    requires { (contents : ℕ → Content) × (AreNumbered (P.seen parts.now).image contents given.now now.now.reads
        × AreMarked contents given.now reads.now) }
    ensures answer { IfOk result (λ b. IsTrue b ↔ Agrees (P.seen parts.old).image (plain reads.now)) }
    ensures known { OnOk result ((contents : ℕ → Content)
        → AreNumbered (P.seen parts.old).image contents given.old now.old.reads → AreMarked contents given.old reads.now
        → LearnsMore (P.seen parts.old).image contents given.old given.new now.new.reads) }
    ensures more { given.old ≤ given.new }
    ensures counted { OnOk result (P.asks parts.new ≤ P.asks parts.old + length reads.now) }
    ensures kept { (P.seen parts.new).image ≡ (P.seen parts.old).image }
{
    let differs = differs_there(now, reads)?;
    if differs {
        return Ok(false);
    }
    for place in 0..reads.len() {
        let read = &reads[place];
        let same = has(alloc, now, given, parts, read)?;
        if !same {
            now.differing = place;
            return Ok(false);
        }
    }
    Ok(true)
}
