//! The notes of an instant.

ghost use Rattle.std.specs.Prelude.{◌≡◌, ◌++◌, ◌∷◌, [], OnOk, OnErr};

use crate::note::Note;
use std::alloc::{AllocError, Global};
use std::marker::Model;

/// A list of notes, in order.
#[derive(Debug, Drop)]
pub struct Notes {
    items: Vec<Note>,
}

impl Model for Notes {
    ghost use Rattle.std.specs.Prelude.{List};
    ghost use Rattle.node_boot.specs.declared.note.Note.{Note};

    ghost Value = { List Note };

    ghost view = { λ notes. notes.items.items };
}

impl Notes {
    /// No notes. Takes no memory.
    pub fn new(alloc: Global) -> Notes
        ensures { result ≡ [] }
    {
        Notes {
            items: Vec::new(alloc),
        }
    }

    /// One more note. Want of memory changes nothing.
    pub fn add(&mut self, note: Note) -> Result<(), AllocError>
        ensures ok { OnOk result (self.new ≡ self.old ++ note ∷ []) }
        ensures err { OnErr result (self.new ≡ self.old) }
    {
        self.items.push(note)?;
        Ok(())
    }

    /// The notes in order.
    pub fn as_slice(&self) -> &[Note]
        ensures { result.now ≡ self.now }
    {
        &self.items
    }

    /// Forgets them all. Takes no memory and gives none back.
    pub fn clear(&mut self)
        ensures { self.new ≡ [] }
    {
        self.items.clear();
    }
}
