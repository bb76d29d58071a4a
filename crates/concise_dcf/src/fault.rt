//! What keeps bytes from being a concise DCF.
ghost use Rattle.std.specs.Prelude.{◌≡◌};

use std::alloc::{AllocError, AllocFailed};
use thiserror::Error;

/// Why bytes are no concise DCF: the fault of the first place from the front.
#[derive(Clone, Copy, Debug, PartialEq, Eq, Error)]
pub enum ConciseFault {
    /// A growth was refused.
    #[error("Memory")]
    Memory = 1,
    /// The bytes end inside the count or inside an entry.
    #[error("Short")]
    Short = 2,
    /// Bytes stand after the last entry.
    #[error("Extra")]
    Extra = 3,
    /// An entry has no data.
    #[error("Empty")]
    Empty = 4,
}

impl From<AllocError> for ConciseFault {
    ghost use Rattle.concise_dcf.specs.declared.fault.ConciseFault.TheVariants.{Memory};

    ghost from_gives = { λ _ e. e ≡ Memory };

    fn from(_e: AllocError) -> ConciseFault {
        ConciseFault::Memory
    }
}

impl<T: Drop> From<AllocFailed<T>> for ConciseFault {
    ghost use Rattle.concise_dcf.specs.declared.fault.ConciseFault.TheVariants.{Memory};

    ghost from_gives = { λ _ e. e ≡ Memory };

    fn from(_e: AllocFailed<T>) -> ConciseFault {
        ConciseFault::Memory
    }
}
