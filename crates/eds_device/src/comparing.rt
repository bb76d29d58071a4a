//! Whether devices are the same.
ghost use Rattle.std.specs.Prelude.{◌≡◌, ◌↔◌, IsTrue};
ghost use Rattle.std.specs.Arc.{arc_value};
ghost use Rattle.eds_device.specs.Sheets.{content_in};
ghost use Rattle.ini_text.specs.Content.{content_of};

use crate::data_sheet::DataSheet;
use base::Octets;
use ini_text::{Section, same_sections};
use std::alloc::AllocError;
use std::sync::Arc;

/// The bytes of a text for each section and pair of its content, up to which texts are compared in their place.
const MOST_BYTES: usize = 32;

/// Whether a text is short beside its sections and their pairs: comments are no part of them.
fn is_dense(text: &[u8], sections: &[Section]) -> bool {
    let mut left = text.len();
    for section in sections {
        let own = section.pairs().len().saturating_add(1);
        left = left.saturating_sub(own.saturating_mul(MOST_BYTES));
    }
    left == 0
}

impl DataSheet {
    /// Holds on to the text of this device, by which `same` then tells that it is the same as another that has
    /// its text too, letter by letter: if that has at most 32 bytes for each section and pair. Takes time by the
    /// number of sections, and no memory; the only error is that the count of handles is full.
    pub fn keep_text(&mut self, text: &Arc<Octets>) -> Result<(), AllocError>
        requires { content_in self.old ≡ content_of (arc_value text.now) }
        ensures { self.new ≡ self.old }
    {
        if is_dense(text.as_slice(), self.sections()) {
            let text = Arc::try_clone(text)?;
            self.text = Some(text);
        }
        Ok(())
    }

    /// Whether both are known to have the same text, letter by letter: then they are the same, if the same data types
    /// count.
    fn has_text_of(&self, other: &DataSheet) -> bool
        ensures { IsTrue result → self.now.is_three ≡ other.now.is_three → self.now ≡ other.now }
    {
        match (&self.text, &other.text) {
            (Some(text), Some(given)) => text.as_slice() == given.as_slice(),
            _ => false,
        }
    }

    /// Whether the texts of both have the same content, and the same data types count: the same sections, letter by
    /// letter and in the same order, and the same warned lines. Takes time by the length of the texts up to the first
    /// difference, and no memory.
    pub fn same(&self, other: &DataSheet) -> bool
        ensures { IsTrue result ↔ (self.now ≡ other.now) }
    {
        self.is_three == other.is_three
            && (self.has_text_of(other)
                || self.warnings() == other.warnings()
                    && same_sections(self.sections(), other.sections()))
    }
}
