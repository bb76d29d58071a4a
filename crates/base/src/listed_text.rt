//! A text with the reply that shows its lines.
ghost use Rattle.std.specs.Prelude.{◌≡◌, ◌≤◌, IfOk, drop, length};
ghost use Rattle.base.specs.Replies.{lines_reply};

use crate::lines::line_count;
use crate::reply_head::head;
use std::alloc::{AllocError, Global};
use std::marker::Model;

/// A text with the reply that shows its lines: `lines K`, and the K lines. Contracts see the text.
#[derive(Debug, Drop)]
pub struct ListedText {
    /// The line `lines K`, and behind it the text.
    reply: Vec<u8>,
    /// Where the text begins.
    start: usize,
}

impl Model for ListedText {
    ghost use Rattle.std.specs.Prelude.{◌≡◌, ◌≤◌, List, ℕ, drop, length};
    ghost use Rattle.base.specs.Replies.{lines_reply};

    ghost Value = { List ℕ };

    ghost view = { λ t. drop t.start t.reply.items };

    ghost invariant = { λ t. (t.start ≤ length t.reply.items)
        × (t.reply.items ≡ lines_reply (drop t.start t.reply.items)) };
}

impl ListedText {
    /// A copy of this text, with its reply. Takes time and memory by its length; want of memory is the
    /// only error.
    #[tactic(auto, unfolding(crate::specs::Replies::lines_reply))]
    pub fn new(alloc: Global, text: &[u8]) -> Result<ListedText, AllocError>
        ensures { IfOk result (λ t. t ≡ text.now) }
    {
        let mut reply = head(alloc, line_count(text), text.len())?;
        let start = reply.len();
        reply.extend_from_slice(text)?;
        Ok(ListedText { reply, start })
    }

    /// The text behind the first `start` bytes of a reply that shows its lines. Takes constant time and no
    /// memory.
    pub fn of_reply(reply: Vec<u8>, start: usize) -> ListedText
        requires start_in { start ≤ length reply.items }
        requires is_reply { reply.items ≡ lines_reply (drop start reply.items) }
        ensures { result ≡ drop start reply.items }
    {
        ListedText { reply, start }
    }

    /// The text. Takes constant time.
    pub fn text(&self) -> &[u8]
        ensures { result.now ≡ self.now }
    {
        &self.reply[self.start..]
    }

    /// `lines K`, and the K lines of the text. Takes constant time: they were put together with it.
    pub fn reply(&self) -> &[u8]
        ensures { result.now ≡ lines_reply self.now }
    {
        &self.reply
    }
}
