//! The lines of a text, and its parts before and after a byte.
ghost use Rattle.std.specs.Prelude.{◌≡◌, ◌+◌, ◌==◌, ◌<◌, ◌≤◌, ◌∷◌, length, option_map, IfSome};
ghost use Rattle.std.specs.List.{position, suffix_len};
ghost use Rattle.std.specs.Simd.Lanes.{chunk};
ghost use Rattle.base.specs.Blanks.{trim_end};
ghost use Rattle.base.specs.Lines.{is_cr, split_once, lines_of, line_count};

use memchr::memchr;
use std::simd::prelude::*;

/// The number of CRs that a line ends with.
fn last_crs(line: &[u8]) -> usize
    ensures count { result ≡ suffix_len is_cr line.now }
    ensures within { result ≤ length line.now }
{
    line.iter().rev().take_while(|byte| **byte == b'\r').count()
}

/// A line without the CRs at its end.
pub fn without_crs(line: &[u8]) -> &[u8]
    ensures { result.now ≡ trim_end is_cr line.now }
{
    &line[..line.len() - last_crs(line)]
}

/// The position of the first `byte`.
#[tactic(auto, using(crate::proofs::FoundLemmas::first_is_position))]
fn position_of(text: &[u8], byte: u8) -> Option<usize>
    ensures { result ≡ position (λ b. b == byte) text.now }
{
    memchr(byte, text)
}

/// What stands before the first `byte`, and what stands after it; `None` where there is none.
#[tactic(auto, unfolding(crate::specs::Lines::split_once))]
pub fn split_once(text: &[u8], byte: u8) -> Option<(&[u8], &[u8])>
    ensures parts { option_map (λ p. (p.0.now, p.1.now)) result ≡ split_once byte text.now }
    ensures shorter { IfSome result (λ p. length p.1.now < length text.now) }
{
    match position_of(text, byte) {
        Some(at) => Some((&text[..at], &text[at + 1..])),
        None => None,
    }
}

/// The first line, without its LF, and what follows it.
pub fn next_line(text: &[u8]) -> (&[u8], &[u8])
    requires { 0 < length text.now }
    ensures lines { lines_of text.now ≡ result.0.now ∷ lines_of result.1.now }
    ensures shorter { length result.1.now < length text.now }
{
    match position_of(text, b'\n') {
        Some(at) => (&text[..at], &text[at + 1..]),
        None => (text, &text[text.len()..]),
    }
}

/// How many bytes are looked at side by side.
const LANES: usize = 32;

/// How many of the 32 bytes from a place on are LFs.
fn feeds_at(text: &[u8], at: usize) -> usize
    requires { at + LANES ≤ length text.now }
    ensures { result ≡ line_count (chunk at LANES text.now) }
{
    u8x32::from_slice(&text[at..])
        .simd_eq(u8x32::splat(b'\n'))
        .to_bitmask()
        .count_ones() as usize
}

/// How many of the bytes are LFs, looked at one by one.
fn feeds(text: &[u8]) -> usize
    ensures { result ≡ line_count text.now }
{
    text.iter().filter(|byte| **byte == b'\n').count()
}

/// How many lines a text has, each ended by LF.
pub fn line_count(text: &[u8]) -> usize
    ensures { result ≡ line_count text.now }
{
    let mut count = 0;
    let mut at = 0;
    while text.len() - at >= LANES {
        count += feeds_at(text, at);
        at += LANES;
    }
    count + feeds(&text[at..])
}
