//! The lines that aren't used of texts that no node has, from one finding to the next.
ghost use Rattle.std.specs.Prelude.{◌≡◌, IfOk, IfSome, Ok};
ghost use Rattle.eds_device.specs.Faults.{device_of};
ghost use Rattle.ini_text.specs.Content.{content_of};

use base::{Octets, Shared};
use co_project::read_device;
use project_plan::Library;
use std::alloc::{AllocError, Global};
use std::collections::BTreeMap;
use std::marker::Model;

/// A text, and the numbers of its lines that aren't used.
#[derive(Drop)]
pub(crate) struct TextLines {
    text: Shared<Octets>,
    lines: Vec<u32>,
}

impl Model for TextLines {
    ghost use Rattle.std.specs.Prelude.{◌≡◌, ℕ, List};
    ghost use Rattle.ini_text.specs.Content.{content_of};

    ghost Value = { List ℕ };

    ghost view = { λ t. t.text };

    ghost invariant = { λ t. t.lines.items ≡ (content_of t.text).warnings };
}

impl TextLines {
    /// Reads a text that describes a device.
    fn find(alloc: Global, text: &Shared<Octets>) -> Result<TextLines, AllocError>
        requires { device_of text.now ≡ Ok (content_of text.now) }
        ensures { IfOk result (λ found. found ≡ text.now) }
    {
        // These lines are the same, whichever data types count.
        let device = read_device(alloc, false, text.get().as_slice())?;
        let lines = Vec::from_slice(alloc, device.warnings())?;
        let text = text.share()?;
        Ok(TextLines { text, lines })
    }

    /// The numbers of the lines that aren't used.
    pub(crate) fn as_slice(&self) -> &[u32]
        ensures { result.now ≡ (content_of self.now).warnings }
    {
        &self.lines
    }
}

/// What was found of a text, as long as it was found of this one.
fn still_of(taken: Option<TextLines>, text: &[u8]) -> Option<TextLines>
    ensures { IfSome result (λ found. found ≡ text.now) }
{
    let found = taken?;
    if found.text.get().as_slice() == text {
        Some(found)
    } else {
        None
    }
}

/// The lines that aren't used of texts that no node has, each with its text: so `diagnostics_by` reads such a text again
/// where it changed. Contracts see nothing of it, since it changes no answer.
#[derive(Drop)]
pub(crate) struct LinesFound {
    found: BTreeMap<Vec<u8>, TextLines>,
}

impl Model for LinesFound {
    ghost Value = { Unit {0} };

    ghost view = { λ l. tt };
}

impl LinesFound {
    /// Nothing was found yet.
    pub(crate) fn new(alloc: Global) -> LinesFound {
        LinesFound {
            found: BTreeMap::new(alloc),
        }
    }

    /// Lets go what was found of texts that a project doesn't have, or of which the device is in its library. Takes time
    /// by their number and its logarithm.
    pub(crate) fn let_go(&mut self, library: &Library<'_>) {
        let project = library.project();
        self.found.retain(|name, _lines| {
            project.text(name).is_some() && library.device(name).is_none()
        });
    }

    /// Takes out what was found of the text of a name; reads the text if it is another one than it was. Takes time by the
    /// length of the text.
    pub(crate) fn take(
        &mut self,
        alloc: Global,
        name: &[u8],
        text: &Shared<Octets>,
    ) -> Result<TextLines, AllocError>
        requires { device_of text.now ≡ Ok (content_of text.now) }
        ensures { IfOk result (λ found. found ≡ text.now) }
    {
        let taken = self.found.remove(name);
        if let Some(found) = still_of(taken, text.get().as_slice()) {
            return Ok(found);
        }
        TextLines::find(alloc, text)
    }

    /// Puts back what was found of the text of a name.
    pub(crate) fn put(
        &mut self,
        alloc: Global,
        name: &[u8],
        found: TextLines,
    ) -> Result<(), AllocError> {
        let name = Vec::from_slice(alloc, name)?;
        self.found.insert(name, found)?;
        Ok(())
    }
}
