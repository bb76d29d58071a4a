//! What came of a run.

use anyhow::Result;
use std::io::Write;

/// The moments that are shown.
const SHOWN: usize = 12;

/// The moments of the turns of both halves of a run, the number of lines that it told, and how the copy did
/// that was taken between them: whether it was equal, was left behind, and came to the same.
#[derive(Drop)]
pub struct Outcome {
    pub first: Vec<u64>,
    pub second: Vec<u64>,
    pub told: usize,
    pub is_equal: bool,
    pub is_left_behind: bool,
    pub comes_to_the_same: bool,
}

/// Shows up to so many moments.
fn show_moments<W: Write>(out: &mut W, moments: &[u64], most: usize) -> Result<()> {
    for moment in moments.iter().take(most) {
        write!(out, " {moment}")?;
    }
    Ok(())
}

impl Outcome {
    /// The number of turns.
    fn count(&self) -> usize {
        self.first.len().saturating_add(self.second.len())
    }

    /// Shows the numbers and how the copy did.
    fn show_numbers<W: Write>(&self, out: &mut W) -> Result<()> {
        let count = self.count();
        let told = self.told;
        write!(out, "  turns {count}, lines {told}")?;
        Ok(())
    }

    /// Shows how the copy did.
    fn show_copy<W: Write>(&self, out: &mut W) -> Result<()> {
        let equal = self.is_equal;
        let moved = self.is_left_behind;
        let same = self.comes_to_the_same;
        writeln!(out, ", equal {equal}, moved {moved}, the same {same}")?;
        Ok(())
    }

    /// Shows the first moments.
    fn show_first<W: Write>(&self, out: &mut W) -> Result<()> {
        out.write_all(b"  at")?;
        show_moments(out, &self.first, SHOWN)?;
        let most = SHOWN.saturating_sub(self.first.len());
        show_moments(out, &self.second, most)?;
        writeln!(out, "")?;
        Ok(())
    }

    /// Shows all.
    pub fn show<W: Write>(&self, out: &mut W) -> Result<()> {
        self.show_numbers(out)?;
        self.show_copy(out)?;
        self.show_first(out)
    }
}
