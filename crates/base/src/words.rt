//! The words of a line, which blanks part.
ghost use Rattle.std.specs.Prelude.{◌≡◌, ◌≤◌, length};
ghost use Rattle.std.specs.List.{prefix_len};
ghost use Rattle.base.specs.Words.{is_word_byte, word, after};

use crate::blanks::{is_blank, without_first_blanks};

/// The number of bytes before the first blank.
fn word_len(bytes: &[u8]) -> usize
    ensures count { result ≡ prefix_len is_word_byte bytes.now }
    ensures bound { result ≤ length bytes.now }
{
    bytes.iter().take_while(|byte| !is_blank(**byte)).count()
}

/// The first word of a line, which is empty where there is none, and what follows it.
#[tactic(auto, unfolding(crate::specs::Words::word, crate::specs::Words::after))]
pub fn next_word(line: &[u8]) -> (&[u8], &[u8])
    ensures word { result.0.now ≡ word line.now }
    ensures rest { result.1.now ≡ after line.now }
{
    let rest = without_first_blanks(line);
    rest.split_at(word_len(rest))
}
