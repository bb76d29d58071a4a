//! A diagnostic.
ghost use Rattle.std.specs.Prelude.{◌≡◌, IfOk};
ghost use Rattle.diag_lines.specs.Lines.{diag_line};

use crate::code::Code;
use crate::lines::write_line;
use crate::subject::Subject;
use std::alloc::{AllocError, Global};

/// A diagnostic: what is wrong, and of what. Diagnostics stand in the order of the codes' numbers,
/// and then in that of the subjects' words, numbers as numbers and names by their bytes.
#[derive(Debug, PartialEq, Eq, PartialOrd, Ord, Drop)]
pub struct Diag {
    /// What is wrong.
    pub code: Code,
    /// Of what.
    pub subject: Subject,
}

impl Diag {
    /// The same diagnostic. Takes time and memory by the length of the name that is in it, if one is; want of memory
    /// is the only error.
    pub fn copy(&self, alloc: Global) -> Result<Diag, AllocError>
        ensures { IfOk result (λ diag. diag ≡ self.now) }
    {
        let subject = self.subject.copy(alloc)?;
        Ok(Diag {
            code: self.code,
            subject,
        })
    }

    /// Its line, without the LF: the code, and the words of the subject, each after a space.
    pub fn line(&self, alloc: Global) -> Result<Vec<u8>, AllocError>
        ensures { IfOk result (λ line. line.items ≡ diag_line self.now) }
    {
        let mut out = Vec::new(alloc);
        write_line(&mut out, alloc, self)?;
        Ok(out)
    }
}
