//! The content of an INI text.
ghost use Rattle.std.specs.Prelude.{◌≡◌, ◌+◌, ◌<◌, ◌≤◌, ◌^◌, Bool, false, not, [], ◌∷◌, ◌++◌, IfOk, OnErr, OnOk};
ghost use Rattle.std.specs.Prelude.{IsErrOf, IsTrue, ◌↔◌, length, List, ℕ, ◌&&◌, Some};
ghost use Rattle.std.specs.Option.{option_copied};
ghost use Rattle.indexmap.specs.IndexMap.{values};
ghost use Rattle.ini_text.specs.Keyed.{AreFolded};
ghost use Rattle.ini_text.specs.Line.{line_of};
ghost use Rattle.ini_text.specs.Content.{line_list, is_misused};
ghost use Rattle.std.specs.Bool.{IsFalse};
ghost use Rattle.ini_text.specs.Reading.{State, state_of, step, run, start};
ghost use Rattle.ini_text.specs.Text.{without_mark, is_out_of_range, has_bad_byte};

use crate::fault::IniFault;
use crate::line::{Line, line_of};
use crate::name::{Name, same};
use crate::number::is_zero;
use crate::section::Section;
use crate::table::{add_at, open, print, set_in};
use crate::text::{has_bad_byte, is_out_of_range, without_mark};
use crate::text_hash::TextHash;
use base::next_line;
use indexmap::IndexMap;
use std::alloc::{AllocError, Global};
use std::marker::Model;

/// The content of an INI text, as EDS and DCF files of CiA 306 use it: its sections with their
/// pairs, and the numbers of its warned lines. Names of sections and keys are equal without ASCII
/// case, and the first spelling stands.
#[derive(Drop)]
pub struct Ini {
    sections: IndexMap<Vec<u8>, Section, TextHash>,
    warnings: Vec<u32>,
}

impl Model for Ini {
    ghost use Rattle.ini_text.specs.Content.{Content};
    ghost use Rattle.ini_text.specs.Keyed.{AreFolded};
    ghost use Rattle.indexmap.specs.IndexMap.{values};

    ghost Value = { Content };

    ghost view = { λ a. record { sections = values a.sections; warnings = a.warnings.items } };

    ghost invariant = { λ a. AreFolded (λ s. s.name) a.sections.entries };
}

const COMPACT_PDO: &[u8] = b"CompactPDO";

/// Whether a pair gives CompactPDO another value than 0.
fn is_misused(key: &[u8], value: &[u8]) -> bool
    ensures { result ≡ is_misused key.now value.now }
{
    same(COMPACT_PDO, key) && !is_zero(value)
}

/// Takes one line, and answers the position of the section that the next lines stand in.
fn take_line(
    sections: &mut IndexMap<Vec<u8>, Section, TextHash>,
    warnings: &mut Vec<u32>,
    alloc: Global,
    current: Option<usize>,
    count: u32,
    line: &[u8],
) -> Result<Option<usize>, AllocError>
    requires folded { AreFolded (λ s. s.name) sections.old.entries }
    requires counts { count + 1 < 2 ^ 32 }
    ensures folded { AreFolded (λ s. s.name) sections.new.entries }
    ensures step { IfOk result (λ now.
        state_of (values sections.new) warnings.new.items now (count + 1)
        ≡ step (state_of (values sections.old) warnings.old.items current count) (line_of line.now)) }
{
    match line_of(line) {
        Line::Nothing => Ok(current),
        Line::Header(name) => {
            let position = open(sections, alloc, name)?;
            Ok(Some(position))
        }
        Line::Pair(key, value) => {
            let is_taken = match current {
                Some(position) => add_at(sections, alloc, position, key, value)?
                    && !is_misused(key, value),
                None => false,
            };
            if !is_taken {
                warnings.push(count + 1)?;
            }
            Ok(current)
        }
        Line::Other => {
            warnings.push(count + 1)?;
            Ok(current)
        }
    }
}

/// Takes the lines of a text.
fn read_lines(alloc: Global, text: &[u8]) -> Result<Ini, AllocError>
    requires { length text.now ≤ 1048576 }
    ensures { IfOk result (λ ini. ini ≡ (run start (line_list text.now)).content) }
{
    let mut sections = IndexMap::with_hasher(alloc, TextHash::of(text));
    let mut warnings = Vec::new(alloc);
    let mut current = None;
    let mut count = 0;
    let mut rest = text;
    'lines: while !rest.is_empty() {
        let (line, after) = next_line(rest);
        current = take_line(&mut sections, &mut warnings, alloc, current, count, line)?;
        count += 1;
        rest = after;
    }
    Ok(Ini { sections, warnings })
}

impl Ini {
    ghost use Rattle.ini_text.specs.Content.{content_of, content_at, same};
    ghost use Rattle.ini_text.specs.Change.{with_value, text_of};

    /// Reads a text of at most 1,048,576 bytes with lines of at most 4,096 bytes, the LF of a line
    /// and the CRs before it not counted (own limits). A byte order mark at the front counts there,
    /// and is skipped then. The bytes 80h to FFh are kept as they are. Sections of one name are
    /// one, and of equal keys the first counts.
    ///
    /// Longer texts and lines are `Range`, and a byte below 20h other than tab, LF and CR is
    /// `BadByte`; `Range` goes first. Takes time and memory linear in the text, whatever names it has:
    /// they are hashed from a number that all its bytes make.
    #[tactic(auto, using(crate::proofs::StateLemmas::run_start), unfolding(crate::specs::Content::content_of))]
    pub fn read(alloc: Global, text: &[u8]) -> Result<Ini, IniFault>
        ensures range { IsErrOf result IniFault.Range ↔ IsTrue (is_out_of_range text.now) }
        ensures bad_byte { IsErrOf result IniFault.BadByte
            ↔ (IsFalse (is_out_of_range text.now) × IsTrue (has_bad_byte text.now)) }
        ensures content { IfOk result (λ ini. ini ≡ content_of text.now) }
    {
        if is_out_of_range(text) {
            return Err(IniFault::Range);
        }
        if has_bad_byte(text) {
            return Err(IniFault::BadByte);
        }
        Ok(read_lines(alloc, without_mark(text))?)
    }

    /// The numbers of the warned lines, from 1, in rising order: of those that are neither empty, a
    /// comment, a header nor a key with its value under a header, that give a key of their section
    /// again, or that give CompactPDO another value than the number 0.
    pub fn warnings(&self) -> &[u32]
        ensures { result.now ≡ self.now.warnings }
    {
        self.warnings.as_slice()
    }

    /// The sections, in the order of their first headers.
    pub fn sections(&self) -> &[Section]
        ensures { result.now ≡ self.now.sections }
    {
        self.sections.values().as_slice()
    }

    /// The value of a key in a section, each in any case of ASCII letters. Takes time linear in the
    /// two names.
    #[tactic(auto, using(crate::proofs::TableLemmas::content_found))]
    pub fn get(&self, section: &[u8], key: &[u8]) -> Option<&[u8]>
        ensures { option_copied result ≡ content_at self.now.sections section.now key.now }
    {
        let section = self.sections.get(Name(section))?;
        section.get(key)
    }

    /// Sets the value of a key in its place, or adds the key last in its section, or adds the
    /// section last. No byte is refused: what a text can't hold is kept, and printed as it is.
    /// Where memory is refused, nothing is changed.
    #[tactic(auto, using(crate::proofs::LawLemmas::value_set, crate::proofs::LawLemmas::others_stay))]
    pub fn set(&mut self, section: &[u8], key: &[u8], value: &[u8]) -> Result<(), AllocError>
        ensures ok { OnOk result (self.new ≡ record {
          sections = with_value self.old.sections section.now key.now value.now;
          warnings = self.old.warnings;
        }) }
        ensures gives { OnOk result (content_at self.new.sections section.now key.now ≡ Some value.now) }
        ensures others { OnOk result ((s k : List ℕ)
            → (same section.now s && same key.now k) ≡ false
            → content_at self.new.sections s k ≡ content_at self.old.sections s k) }
        ensures err { OnErr result (self.new ≡ self.old) }
    {
        let alloc = *self.sections.allocator();
        set_in(&mut self.sections, alloc, section, key, value)
    }

    /// The sections as a text: in their order `[name]`, also of those without keys, and each
    /// `key=value`, each line ended by an LF.
    pub fn print(&self) -> Result<Vec<u8>, AllocError>
        ensures { IfOk result (λ text. text.items ≡ text_of self.now.sections) }
    {
        print(*self.sections.allocator(), self.sections())
    }
}
