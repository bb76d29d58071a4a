//! What a server has open.

ghost use Rattle.std.specs.Prelude.{◌≡◌, ◌↔◌, IsTrue, IfOk};

use crate::rest::Rest;
use base::Octets;
use std::alloc::AllocError;

/// The open transfer of a server (CiA 301).
#[derive(Drop)]
pub enum Transfer {
    Idle,
    /// A segmented download: the entry, the size told at its initiate, the bytes that came so far,
    /// and the toggle of the next segment.
    Download {
        place: (u16, u8),
        size: u32,
        taken: Octets,
        toggle: bool,
    },
    /// A segmented upload: the entry, the bytes not yet asked for of the value at its initiate, and
    /// the toggle of the next segment.
    Upload {
        place: (u16, u8),
        rest: Rest,
        toggle: bool,
    },
}

/// An equal transfer.
pub fn copy(transfer: &Transfer) -> Result<Transfer, AllocError>
    ensures { IfOk result (λ made. made ≡ transfer.now) }
{
    match transfer {
        Transfer::Idle => Ok(Transfer::Idle),
        Transfer::Download {
            place,
            size,
            taken,
            toggle,
        } => {
            let taken = taken.clone()?;
            let (place, size, toggle) = (*place, *size, *toggle);
            Ok(Transfer::Download {
                place,
                size,
                taken,
                toggle,
            })
        }
        Transfer::Upload {
            place,
            rest,
            toggle,
        } => {
            let rest = rest.copy()?;
            let (place, toggle) = (*place, *toggle);
            Ok(Transfer::Upload {
                place,
                rest,
                toggle,
            })
        }
    }
}

/// Whether two transfers are the same.
pub fn same(transfer: &Transfer, other: &Transfer) -> bool
    ensures { IsTrue result ↔ (transfer.now ≡ other.now) }
{
    match (transfer, other) {
        (Transfer::Idle, Transfer::Idle) => true,
        (
            Transfer::Download {
                place,
                size,
                taken,
                toggle,
            },
            Transfer::Download {
                place: p,
                size: s,
                taken: t,
                toggle: g,
            },
        ) => place == p && size == s && taken.as_slice() == t.as_slice() && toggle == g,
        (
            Transfer::Upload {
                place,
                rest,
                toggle,
            },
            Transfer::Upload {
                place: p,
                rest: r,
                toggle: g,
            },
        ) => place == p && rest.same(r) && toggle == g,
        _ => false,
    }
}
