//! The forms of words and texts.
ghost use Rattle.std.specs.Prelude.{◌≡◌, ◌≤◌, ◌+◌, false, length};
ghost use Rattle.std.specs.List.{count_by, list_all, list_any};
ghost use Rattle.std.specs.Simd.Lanes.{chunk};
ghost use Rattle.project_edits.specs.Forms.{is_control, is_low, is_name_byte, is_name, is_plain};

use std::simd::prelude::*;

const MAX_TEXT: usize = 4000;

const MAX_NAME: usize = 32;

fn is_name_byte(byte: u8) -> bool
    ensures { result ≡ is_name_byte byte }
{
    matches!(byte, b'A'..=b'Z' | b'a'..=b'z' | b'0'..=b'9' | b'_')
}

fn are_name_bytes(word: &[u8]) -> bool
    ensures { result ≡ list_all is_name_byte word.now }
{
    word.iter().all(|b| is_name_byte(*b))
}

/// Whether a word is 1 to 32 of `A-Z a-z 0-9 _`.
pub fn is_name(word: &[u8]) -> bool
    ensures { result ≡ is_name word.now }
{
    !word.is_empty() && word.len() <= MAX_NAME && are_name_bytes(word)
}

fn is_control(byte: u8) -> bool
    ensures { result ≡ is_control byte }
{
    byte < b' ' && byte != b'\t'
}

/// How many bytes are looked at side by side.
const LANES: usize = 16;

/// How many of the 16 bytes from a place on are below a space, as control bytes and tabs are.
fn low_at(text: &[u8], at: usize) -> usize
    requires { at + LANES ≤ length text.now }
    ensures { result ≡ count_by is_low (chunk at LANES text.now) }
{
    u8x16::from_slice(&text[at..])
        .simd_lt(u8x16::splat(b' '))
        .to_bitmask()
        .count_ones() as usize
}

/// Whether a text of at least 16 bytes has a byte below a space, a tab too: where it has none, it has no control
/// byte.
fn has_low(text: &[u8]) -> bool
    requires { LANES ≤ length text.now }
    ensures { result ≡ false → list_any is_control text.now ≡ false }
{
    let mut at = 0;
    'blocks: while text.len() - at > LANES {
        if low_at(text, at) > 0 {
            return true;
        }
        at += LANES;
    }
    low_at(text, text.len() - LANES) > 0
}

/// Whether a line has a byte 00h to 1Fh other than tab.
pub fn has_control(line: &[u8]) -> bool
    ensures { result ≡ list_any is_control line.now }
{
    if line.len() >= LANES && !has_low(line) {
        return false;
    }
    line.iter().any(|b| is_control(*b))
}

/// Whether a text has 1 to 4,000 bytes, none of them 00h to 1Fh other than tab.
pub fn is_plain(text: &[u8]) -> bool
    ensures { result ≡ is_plain text.now }
{
    !text.is_empty() && text.len() <= MAX_TEXT && !has_control(text)
}
