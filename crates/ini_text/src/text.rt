//! Lines, blanks, and the bytes that a text may have.
ghost use Rattle.std.specs.Prelude.{◌≡◌, ℕ, ◌==◌, ◌<◌, ◌≤◌, List, ◌∷◌, length, Option, Some, None, IsTrue, nat_lt};
ghost use Rattle.std.specs.List.{position, list_any};
ghost use Rattle.std.specs.Bool.{IsFalse};
ghost use Rattle.std.specs.Option.{option_map};
ghost use Rattle.ini_text.specs.Text.{is_blank, is_cr, trim_start, trim_end, trim_line, split_once, lines_of};
ghost use Rattle.ini_text.specs.Text.{without_mark, is_long_line, is_out_of_range, is_bad_byte, has_bad_byte};

use base::{next_line, without_crs};

const MAX_LINE: usize = 4096;

const MAX_TEXT: usize = 1_048_576;

fn is_blank(byte: u8) -> bool
    ensures { result ≡ is_blank byte }
{
    byte == b' ' || byte == b'\t' || byte == b'\r'
}

fn trim_start(bytes: &[u8]) -> &[u8]
    ensures { result.now ≡ trim_start is_blank bytes.now }
{
    let mut start = 0;
    while start < bytes.len() && is_blank(bytes[start]) {
        start += 1;
    }
    &bytes[start..]
}

fn trim_end(bytes: &[u8]) -> &[u8]
    ensures { result.now ≡ trim_end is_blank bytes.now }
{
    let mut end = bytes.len();
    while end > 0 && is_blank(bytes[end - 1]) {
        end -= 1;
    }
    &bytes[..end]
}

/// Without spaces, tabs and CRs at its ends.
#[tactic(auto, unfolding(crate::specs::Text::trim_line))]
pub(crate) fn trim_line(bytes: &[u8]) -> &[u8]
    ensures { result.now ≡ trim_line bytes.now }
{
    trim_end(trim_start(bytes))
}

/// Without the bytes EF BB BF at its front.
pub(crate) fn without_mark(text: &[u8]) -> &[u8]
    ensures text { result.now ≡ without_mark text.now }
    ensures shorter { length result.now ≤ length text.now }
{
    if text.starts_with(b"\xEF\xBB\xBF") {
        &text[3..]
    } else {
        text
    }
}

/// Whether a text may not have a byte: one below 20h other than tab, LF and CR.
pub fn is_bad_byte(byte: u8) -> bool
    ensures { result ≡ is_bad_byte byte }
{
    byte < 0x20 && !(byte == b'\t' || byte == b'\n' || byte == b'\r')
}

/// Looks at each byte of the text, also after a bad one, so that many are taken at a time.
pub(crate) fn has_bad_byte(text: &[u8]) -> bool
    ensures { result ≡ has_bad_byte text.now }
{
    let mut has_bad = false;
    for byte in text {
        has_bad |= is_bad_byte(*byte);
    }
    has_bad
}

/// Whether a line has over 4,096 bytes, the CRs at its end not counted.
pub fn is_long_line(line: &[u8]) -> bool
    ensures { result ≡ is_long_line line.now }
{
    without_crs(line).len() > MAX_LINE
}

#[tactic(auto, using(base::proofs::LineLemmas::lines_of_empty))]
fn has_long_line(text: &[u8]) -> bool
    ensures { result ≡ list_any is_long_line (lines_of text.now) }
{
    let mut rest = text;
    while !rest.is_empty() {
        let (line, after) = next_line(rest);
        if is_long_line(line) {
            return true;
        }
        rest = after;
    }
    false
}

/// Over 1,048,576 bytes, or with a line over 4,096.
pub(crate) fn is_out_of_range(text: &[u8]) -> bool
    ensures test { result ≡ is_out_of_range text.now }
    ensures short { IsFalse result → length text.now ≤ 1048576 }
{
    text.len() > MAX_TEXT || has_long_line(text)
}
