//! Why a text is refused.
ghost use Rattle.std.specs.Prelude.{◌≡◌};
ghost use Rattle.eds_places.specs.declared.fault.DeviceFault.TheVariants.{Memory};
ghost use Rattle.eds_places.specs.FaultOf.{fault_of};

use ini_text::IniFault;
use std::alloc::{AllocError, AllocFailed};
use thiserror::Error;

/// Why a text is no device.
#[derive(Clone, Copy, Debug, PartialEq, Eq, Error)]
pub enum DeviceFault {
    /// A growth was refused.
    #[error("Memory")]
    Memory = 1,
    /// A line or the text is too long for an INI text.
    #[error("Range")]
    Range = 3,
    /// The text gives over 4,096 entries.
    #[error("Limit")]
    Limit = 7,
    /// A byte that no INI text may have.
    #[error("BadByte")]
    BadByte = 8,
}

impl From<IniFault> for DeviceFault {
    ghost from_gives = { λ f e. e ≡ fault_of f };

    fn from(fault: IniFault) -> DeviceFault {
        match fault {
            IniFault::Memory => DeviceFault::Memory,
            IniFault::Range => DeviceFault::Range,
            IniFault::BadByte => DeviceFault::BadByte,
        }
    }
}

impl From<AllocError> for DeviceFault {
    ghost from_gives = { λ _ e. e ≡ Memory };

    fn from(_e: AllocError) -> DeviceFault {
        DeviceFault::Memory
    }
}

impl<T: Drop> From<AllocFailed<T>> for DeviceFault {
    ghost from_gives = { λ _ e. e ≡ Memory };

    fn from(_e: AllocFailed<T>) -> DeviceFault {
        DeviceFault::Memory
    }
}
