//! Why a command is refused.
ghost use Rattle.std.specs.Prelude.{◌≡◌};
ghost use Rattle.project_edits.specs.declared.fault.EditFault.TheVariants.{Memory};
ghost use Rattle.project_edits.specs.Faults.{fault_of, refusal_text};

use eds_device::DeviceFault;
use std::alloc::{AllocError, AllocFailed};
use thiserror::Error;

/// Why a command is refused. Its text is its number and its name, as a reply shows them.
#[derive(Clone, Copy, Debug, PartialEq, Eq, Error)]
pub enum EditFault {
    /// A growth was refused.
    #[error("1 Memory")]
    Memory = 1,
    /// An unknown command, a wrong number of words, or a word or a line not of its form.
    #[error("2 Syntax")]
    Syntax = 2,
    /// A number outside its limits or not allowed there; in an EDS, a line or the text is too long.
    #[error("3 Range")]
    Range = 3,
    /// What is named isn't there.
    #[error("4 Unknown")]
    Unknown = 4,
    /// A node number or a node's name is another's.
    #[error("5 Taken")]
    Taken = 5,
    /// What would go is still used.
    #[error("6 InUse")]
    InUse = 6,
    /// A count would pass its limit.
    #[error("7 Limit")]
    Limit = 7,
    /// An EDS has a byte that no text may have.
    #[error("8 BadByte")]
    BadByte = 8,
    /// The input ended inside an EDS.
    #[error("9 Truncated")]
    Truncated = 9,
}

impl From<AllocError> for EditFault {
    ghost from_gives = { λ _ e. e ≡ Memory };

    fn from(_e: AllocError) -> EditFault {
        EditFault::Memory
    }
}

impl<T: Drop> From<AllocFailed<T>> for EditFault {
    ghost from_gives = { λ _ e. e ≡ Memory };

    fn from(_e: AllocFailed<T>) -> EditFault {
        EditFault::Memory
    }
}

impl From<DeviceFault> for EditFault {
    ghost from_gives = { λ f e. e ≡ fault_of f };

    fn from(fault: DeviceFault) -> EditFault {
        match fault {
            DeviceFault::Memory => EditFault::Memory,
            DeviceFault::Range => EditFault::Range,
            DeviceFault::Limit => EditFault::Limit,
            DeviceFault::BadByte => EditFault::BadByte,
        }
    }
}

/// The reply to a refused command: `refused`, the fault's number and its name, ended by LF.
pub fn refusal(fault: EditFault) -> &'static [u8]
    ensures { result.now ≡ refusal_text fault }
{
    match fault {
        EditFault::Memory => b"refused 1 Memory\n",
        EditFault::Syntax => b"refused 2 Syntax\n",
        EditFault::Range => b"refused 3 Range\n",
        EditFault::Unknown => b"refused 4 Unknown\n",
        EditFault::Taken => b"refused 5 Taken\n",
        EditFault::InUse => b"refused 6 InUse\n",
        EditFault::Limit => b"refused 7 Limit\n",
        EditFault::BadByte => b"refused 8 BadByte\n",
        EditFault::Truncated => b"refused 9 Truncated\n",
    }
}
