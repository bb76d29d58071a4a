//! The frames of a node that wait for the bus.
ghost use Rattle.std.specs.Prelude.{◌≡◌, ◌==◌, ◌<◌, ◌++◌, ◌∷◌, [], ◌↔◌, false, length, remove, slice_get, Some, IfOk};
ghost use Rattle.std.specs.Prelude.{OnOk, OnErr, IsTrue};
ghost use Rattle.can_frame.specs.WaitingFrames.{with_latest, waiting, waits_for, without_unwanted};
ghost use Rattle.can_frame.specs.Winner.{contenders_of, IsWinner};

use crate::contender::Contender;
use crate::frame::Frame;
use crate::purpose::Purpose;
use crate::unwanted::Unwanted;
use crate::waiting::Waiting;
use crate::walks::{are_same, drop_unwanted, least_place, place_of};
use std::alloc::{AllocError, Global};
use std::marker::Model;

/// The frames of a node that wait for the bus, in order of place.
///
/// The place of the least identifier is kept, so that asking for it takes constant time.
#[derive(Debug, Drop)]
pub struct Pending {
    frames: Vec<Waiting>,
    least: usize,
}

impl Model for Pending {
    ghost use Rattle.std.specs.Prelude.{List, length};
    ghost use Rattle.can_frame.specs.declared.waiting.Waiting.{Waiting};
    ghost use Rattle.can_frame.specs.Least.{IsFirstLeast};
    ghost use Rattle.can_frame.specs.WaitingFrames.{identifiers};

    ghost Value = { List Waiting };

    ghost view = { λ pending. pending.frames.items };

    ghost invariant = { λ pending. IsFirstLeast (identifiers pending.frames.items)
        (length pending.frames.items) pending.least };
}

impl Pending {
    /// No frames. Takes no memory.
    pub fn new(alloc: Global) -> Self
        ensures { result ≡ [] }
    {
        Pending {
            frames: Vec::new(alloc),
            least: 0,
        }
    }

    /// The number of frames.
    pub fn len(&self) -> usize
        ensures { result ≡ length self.now }
    {
        self.frames.len()
    }

    /// Whether no frame waits.
    pub fn is_empty(&self) -> bool
        ensures { result ≡ (length self.now == 0) }
    {
        self.frames.is_empty()
    }

    /// The frames in order of place.
    pub fn as_slice(&self) -> &[Waiting]
        ensures { result.now ≡ self.now }
    {
        &self.frames
    }

    /// Adds a frame at the end. Takes constant time, but where the list has to grow. Want of memory
    /// changes nothing.
    pub fn add(&mut self, purpose: Purpose, frame: Frame) -> Result<(), AllocError>
        ensures ok { OnOk result (self.new ≡ self.old ++ waiting purpose frame ∷ []) }
        ensures err { OnErr result (self.new ≡ self.old) }
    {
        let place = self.frames.len();
        self.frames.push(Waiting { purpose, frame })?;
        if frame.id() < self.frames[self.least].frame.id() {
            self.least = place;
        }
        Ok(())
    }

    /// Gives a frame the place of the first one of its purpose, and adds it at the end where none
    /// of its purpose waits. Walks the list, and once more where its identifier isn't the one before.
    /// Want of memory changes nothing, and can come only where none of its purpose waits.
    pub fn replace(&mut self, purpose: Purpose, frame: Frame) -> Result<(), AllocError>
        ensures ok { OnOk result (self.new ≡ with_latest purpose frame self.old) }
        ensures err { OnErr result (self.new ≡ self.old) }
        ensures absent { OnErr result (waits_for purpose self.old ≡ false) }
    {
        match place_of(&self.frames, purpose) {
            Some(place) => {
                let was = self.frames[place].frame.id();
                self.frames[place] = Waiting { purpose, frame };
                if frame.id() != was {
                    self.least = least_place(&self.frames);
                }
                Ok(())
            }
            None => self.add(purpose, frame),
        }
    }

    /// Drops what is unwanted; the others keep their order. Walks the list, and takes no memory.
    pub fn drop_of(&mut self, unwanted: Unwanted)
        ensures { self.new ≡ without_unwanted unwanted self.old }
    {
        drop_unwanted(&mut self.frames, unwanted);
        self.least = least_place(&self.frames);
    }

    /// Takes the frame at a place away; the others keep their order. Walks the list.
    pub fn take(&mut self, place: usize) -> Waiting
        requires { place < length self.old }
        ensures frame { slice_get self.old place ≡ Some result }
        ensures left { self.new ≡ remove self.old place }
    {
        let taken = self.frames.remove(place);
        self.least = least_place(&self.frames);
        taken
    }

    /// The frame with which a sender that has this list contends for the bus: the first of those with
    /// the least identifier; `None` where no frame waits. Takes constant time.
    pub fn contender(&self, sender: u16) -> Option<Contender>
        ensures { IsWinner (contenders_of (sender, self.now)) result }
    {
        let waiting = self.frames.get(self.least)?;
        Some(Contender {
            id: waiting.frame.id(),
            sender,
            place: self.least,
        })
    }

    /// An equal list.
    pub fn copy(&self) -> Result<Pending, AllocError>
        ensures { IfOk result (λ pending. pending ≡ self.now) }
    {
        Ok(Pending {
            frames: Vec::from_slice(*self.frames.allocator(), &self.frames)?,
            least: self.least,
        })
    }

    /// Whether two lists are the same: the same frames for the same purposes at the same places.
    pub fn same(&self, other: &Pending) -> bool
        ensures { IsTrue result ↔ (self.now ≡ other.now) }
    {
        are_same(&self.frames, &other.frames)
    }
}
