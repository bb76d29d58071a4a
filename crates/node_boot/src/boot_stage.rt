//! How far the boot of a node has come.

ghost use Rattle.std.specs.Prelude.{◌≡◌, ◌↔◌, IfOk, IsTrue};

use crate::write_place::WritePlace;
use image_parts::Identity;
use sdo_client::{ClientTransfer, client_transfer};
use std::alloc::AllocError;

/// How far the boot of a node has come (CiA 302). An ended boot keeps its outcome alone.
#[derive(Drop)]
pub enum BootStage {
    /// No boot-up came yet.
    Unseen,
    /// A number is read, to be compared with the expected one.
    Comparing {
        /// Which of the five numbers, from 0.
        place: u8,
        /// The expected numbers.
        expected: Identity,
        /// The open transfer.
        transfer: ClientTransfer,
        /// The moment at which the request that is under way times out, in microseconds.
        deadline: u64,
    },
    /// A write of the concise DCF is under way.
    Writing {
        /// Which write, from 0.
        place: WritePlace,
        /// The open transfer.
        transfer: ClientTransfer,
        /// The moment at which the request that is under way times out, in microseconds.
        deadline: u64,
    },
    /// All writes were confirmed.
    Configured,
    /// The boot has failed.
    Failed,
    /// The manager runs in the node, which holds its configuration by itself: it isn't booted.
    Own,
}

impl BootStage {
    /// An equal stage. It fails where memory runs out.
    pub fn copy(&self) -> Result<BootStage, AllocError>
        ensures { IfOk result (λ made. made ≡ self.now) }
    {
        match self {
            BootStage::Unseen => Ok(BootStage::Unseen),
            BootStage::Comparing {
                place,
                expected,
                transfer,
                deadline,
            } => {
                let transfer = client_transfer::copy(transfer)?;
                let (place, expected, deadline) = (*place, *expected, *deadline);
                Ok(BootStage::Comparing {
                    place,
                    expected,
                    transfer,
                    deadline,
                })
            }
            BootStage::Writing {
                place,
                transfer,
                deadline,
            } => {
                let transfer = client_transfer::copy(transfer)?;
                let (place, deadline) = (*place, *deadline);
                Ok(BootStage::Writing {
                    place,
                    transfer,
                    deadline,
                })
            }
            BootStage::Configured => Ok(BootStage::Configured),
            BootStage::Failed => Ok(BootStage::Failed),
            BootStage::Own => Ok(BootStage::Own),
        }
    }

    /// Whether two stages are the same.
    pub fn same(&self, other: &BootStage) -> bool
        ensures { IsTrue result ↔ (self.now ≡ other.now) }
    {
        match (self, other) {
            (BootStage::Unseen, BootStage::Unseen) => true,
            (
                BootStage::Comparing {
                    place,
                    expected,
                    transfer,
                    deadline,
                },
                BootStage::Comparing {
                    place: p,
                    expected: e,
                    transfer: t,
                    deadline: d,
                },
            ) => place == p && expected == e && client_transfer::same(transfer, t) && deadline == d,
            (
                BootStage::Writing {
                    place,
                    transfer,
                    deadline,
                },
                BootStage::Writing {
                    place: p,
                    transfer: t,
                    deadline: d,
                },
            ) => place.same(p) && client_transfer::same(transfer, t) && deadline == d,
            (BootStage::Configured, BootStage::Configured) => true,
            (BootStage::Failed, BootStage::Failed) => true,
            (BootStage::Own, BootStage::Own) => true,
            _ => false,
        }
    }
}
