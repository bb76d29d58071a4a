//! Answers with their replies.
ghost use Rattle.std.specs.Prelude.{◌≡◌};
ghost use Rattle.base.specs.Replies.{lines_reply};
ghost use Rattle.workbench.specs.Texts.{text_of};

use base::{ListedBytes, ListedText, Shared};
use project_parts::Diagnostics;

/// The answer to a query, with the reply that shows its lines. What is kept is shared, not copied.
#[derive(Drop)]
pub enum Answer {
    /// The DCF of a node.
    File(Shared<ListedText>),
    /// The concise DCF of a node.
    Concise(Shared<ListedBytes>),
    /// All that is wrong.
    Diagnostics(Shared<Diagnostics>),
    /// Lines that were made for it.
    Made(ListedText),
}

impl Answer {
    /// `lines K`, and the K lines of the answer. Takes constant time: they were made with the answer, or with
    /// what is kept.
    pub fn reply(&self) -> &[u8]
        ensures { result.now ≡ lines_reply (text_of self.now) }
    {
        match self {
            Answer::File(file) => file.get().reply(),
            Answer::Concise(file) => file.get().reply(),
            Answer::Diagnostics(found) => found.get().reply(),
            Answer::Made(lines) => lines.reply(),
        }
    }
}
