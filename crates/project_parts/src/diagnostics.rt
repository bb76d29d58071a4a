//! Diagnostics with their lines and the reply that shows these.
ghost use Rattle.std.specs.Prelude.{◌≡◌, IfOk};
ghost use Rattle.diag_lines.specs.Lines.{diag_text};
ghost use Rattle.base.specs.Replies.{lines_reply};

use base::ListedText;
use diag_lines::Diag;
use std::alloc::{AllocError, Global};
use std::marker::Model;

/// Diagnostics with their lines and the reply that shows these. Contracts see the list of diagnostics.
#[derive(Drop)]
pub struct Diagnostics {
    list: Vec<Diag>,
    lines: ListedText,
}

impl Model for Diagnostics {
    ghost use Rattle.std.specs.Prelude.{◌≡◌, List};
    ghost use Rattle.diag_lines.specs.Lines.{diag_text};
    ghost use Rattle.diag_lines.specs.declared.diag.Diag.{Diag as found};

    ghost Value = { List found };

    ghost view = { λ d. d.list.items };

    ghost invariant = { λ d. d.lines ≡ diag_text d.list.items };
}

impl Diagnostics {
    /// These diagnostics, with their lines and the reply that shows these. Takes time and memory by the
    /// length of the lines; want of memory is the only error.
    pub fn new(alloc: Global, list: Vec<Diag>) -> Result<Diagnostics, AllocError>
        ensures { IfOk result (λ d. d ≡ list.items) }
    {
        let text = diag_lines::text(alloc, &list)?;
        let lines = ListedText::new(alloc, &text)?;
        Ok(Diagnostics { list, lines })
    }

    /// The diagnostics in their order. Takes constant time.
    pub fn as_slice(&self) -> &[Diag]
        ensures { result.now ≡ self.now }
    {
        &self.list
    }

    /// Their lines, each ended by LF. Takes constant time: they were made with the list.
    pub fn text(&self) -> &[u8]
        ensures { result.now ≡ diag_text self.now }
    {
        self.lines.text()
    }

    /// `lines K`, and the K lines. Takes constant time: they were made with the list.
    pub fn reply(&self) -> &[u8]
        ensures { result.now ≡ lines_reply (diag_text self.now) }
    {
        self.lines.reply()
    }
}
