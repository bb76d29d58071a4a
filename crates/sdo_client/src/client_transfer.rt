//! What a client has open.

ghost use Rattle.std.specs.Prelude.{◌≡◌, ◌↔◌, IsTrue, IfOk};
ghost use Rattle.sdo_client.specs.Client.{entry_of as place_open, is_idle as is_none_open};

use base::Octets;
use co_sdo::Rest;
use std::alloc::AllocError;

/// What a client awaits (CiA 301); each stage has the entry of the open transfer.
#[derive(Drop)]
pub enum ClientTransfer {
    /// No transfer is open.
    Idle,
    /// The confirmation of an expedited download.
    Downloading {
        place: (u16, u8),
    },
    /// The confirmation of the initiate of a segmented download, of this value.
    Offering {
        place: (u16, u8),
        rest: Rest,
    },
    /// The confirmation of a segment: the value from that segment on, and the segment's toggle.
    SendingSegments {
        place: (u16, u8),
        rest: Rest,
        toggle: bool,
    },
    /// The answer to an upload request.
    Uploading {
        place: (u16, u8),
    },
    /// A segment: the size of the value, the bytes that came so far, and the segment's toggle.
    TakingSegments {
        place: (u16, u8),
        size: u32,
        taken: Octets,
        toggle: bool,
    },
}

/// Whether no transfer is open.
pub fn is_idle(stage: &ClientTransfer) -> bool
    ensures { result ≡ is_none_open stage.now }
{
    matches!(stage, ClientTransfer::Idle)
}

/// The entry of the open transfer.
pub fn entry_of(stage: &ClientTransfer) -> (u16, u8)
    ensures { result ≡ place_open stage.now }
{
    match stage {
        ClientTransfer::Idle => (0, 0),
        ClientTransfer::Downloading { place } => *place,
        ClientTransfer::Offering { place, .. } => *place,
        ClientTransfer::SendingSegments { place, .. } => *place,
        ClientTransfer::Uploading { place } => *place,
        ClientTransfer::TakingSegments { place, .. } => *place,
    }
}

/// An equal stage.
pub fn copy(stage: &ClientTransfer) -> Result<ClientTransfer, AllocError>
    ensures { IfOk result (λ made. made ≡ stage.now) }
{
    match stage {
        ClientTransfer::Idle => Ok(ClientTransfer::Idle),
        ClientTransfer::Downloading { place } => Ok(ClientTransfer::Downloading { place: *place }),
        ClientTransfer::Offering { place, rest } => {
            let rest = rest.copy()?;
            let place = *place;
            Ok(ClientTransfer::Offering { place, rest })
        }
        ClientTransfer::SendingSegments {
            place,
            rest,
            toggle,
        } => {
            let rest = rest.copy()?;
            let (place, toggle) = (*place, *toggle);
            Ok(ClientTransfer::SendingSegments {
                place,
                rest,
                toggle,
            })
        }
        ClientTransfer::Uploading { place } => Ok(ClientTransfer::Uploading { place: *place }),
        ClientTransfer::TakingSegments {
            place,
            size,
            taken,
            toggle,
        } => {
            let taken = taken.clone()?;
            let (place, size, toggle) = (*place, *size, *toggle);
            Ok(ClientTransfer::TakingSegments {
                place,
                size,
                taken,
                toggle,
            })
        }
    }
}

/// Whether two stages are the same.
pub fn same(stage: &ClientTransfer, other: &ClientTransfer) -> bool
    ensures { IsTrue result ↔ (stage.now ≡ other.now) }
{
    match (stage, other) {
        (ClientTransfer::Idle, ClientTransfer::Idle) => true,
        (ClientTransfer::Downloading { place }, ClientTransfer::Downloading { place: p }) => place
            == p,
        (
            ClientTransfer::Offering { place, rest },
            ClientTransfer::Offering { place: p, rest: r },
        ) => { place == p && rest.same(r) }
        (
            ClientTransfer::SendingSegments {
                place,
                rest,
                toggle,
            },
            ClientTransfer::SendingSegments {
                place: p,
                rest: r,
                toggle: g,
            },
        ) => place == p && rest.same(r) && toggle == g,
        (ClientTransfer::Uploading { place }, ClientTransfer::Uploading { place: p }) => place == p,
        (
            ClientTransfer::TakingSegments {
                place,
                size,
                taken,
                toggle,
            },
            ClientTransfer::TakingSegments {
                place: p,
                size: s,
                taken: t,
                toggle: g,
            },
        ) => place == p && size == s && taken.as_slice() == t.as_slice() && toggle == g,
        _ => false,
    }
}
