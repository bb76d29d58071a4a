//! The words of a command.
ghost use Rattle.std.specs.Prelude.{◌≡◌, true, IfOk};
ghost use Rattle.base.specs.Gives.{Gives};
ghost use Rattle.project_edits.specs.Faults.{is_memory};
ghost use Rattle.project_edits.specs.Forms.{is_name, is_text};
ghost use Rattle.script_commands.specs.Words.{last_word, is_bad_line, name, text};

use base::{is_blank_line, next_word, trim};
use project_edits::{EditFault, has_control, is_name, is_plain};

const MAX_LINE: usize = 4096;

/// The only word of the rest of a line.
pub(crate) fn last_word(rest: &[u8]) -> Result<&[u8], EditFault>
    ensures { Gives is_memory (λ w. w.now) result (last_word rest.now) }
{
    let (word, behind) = next_word(rest);
    if !is_blank_line(behind) {
        return Err(EditFault::Syntax);
    }
    Ok(word)
}

/// Over 4,096 bytes, or with a byte 00h to 1Fh other than tab.
pub(crate) fn is_bad_line(line: &[u8]) -> bool
    ensures { result ≡ is_bad_line line.now }
{
    line.len() > MAX_LINE || has_control(line)
}

/// A word that is a name.
pub(crate) fn name(word: &[u8]) -> Result<&[u8], EditFault>
    ensures value { Gives is_memory (λ w. w.now) result (name word.now) }
    ensures form { IfOk result (λ w. is_name w.now ≡ true) }
{
    if !is_name(word) {
        return Err(EditFault::Syntax);
    }
    Ok(word)
}

/// The text of the rest of a line: 1 to 4,000 bytes, none of them 00h to 1Fh other than tab,
/// without spaces and tabs at its ends.
#[tactic(auto, using(project_edits::proofs::TextLemmas::trimmed_is_text))]
pub(crate) fn text(rest: &[u8]) -> Result<&[u8], EditFault>
    ensures value { Gives is_memory (λ t. t.now) result (text rest.now) }
    ensures form { IfOk result (λ t. is_text t.now ≡ true) }
{
    let text = trim(rest);
    if !is_plain(text) {
        return Err(EditFault::Syntax);
    }
    Ok(text)
}
