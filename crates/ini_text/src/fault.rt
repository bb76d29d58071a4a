//! Why a text is refused.
ghost use Rattle.std.specs.Prelude.{◌≡◌};

use std::alloc::{AllocError, AllocFailed};
use thiserror::Error;

/// Why a text is refused. `Range` goes before `BadByte`; `Memory` can come in place of each answer
/// to a text that is taken.
#[derive(Clone, Copy, Debug, PartialEq, Eq, Error)]
pub enum IniFault {
    /// A growth was refused.
    #[error("Memory")]
    Memory = 1,
    /// The text has over 1,048,576 bytes, or a line over 4,096, its LF and the CRs before it not
    /// counted.
    #[error("Range")]
    Range = 3,
    /// A byte below 20h other than tab, LF and CR.
    #[error("BadByte")]
    BadByte = 8,
}

impl From<AllocError> for IniFault {
    ghost use Rattle.ini_text.specs.declared.fault.IniFault.TheVariants.{Memory};

    ghost from_gives = { λ _ e. e ≡ Memory };

    fn from(_e: AllocError) -> IniFault {
        IniFault::Memory
    }
}

impl<T: Drop> From<AllocFailed<T>> for IniFault {
    ghost use Rattle.ini_text.specs.declared.fault.IniFault.TheVariants.{Memory};

    ghost from_gives = { λ _ e. e ≡ Memory };

    fn from(_e: AllocFailed<T>) -> IniFault {
        IniFault::Memory
    }
}
