//! What a rule of a boot gives.

ghost use Rattle.std.specs.Prelude.{◌≡◌};
ghost use Rattle.node_boot.specs.Boot.{request_sent as is_asked, boot_completed as is_configured};
ghost use Rattle.node_boot.specs.Boot.{boot_failed as is_failed, no_step as is_stay};

use crate::boot_stage::BootStage;
use crate::note_kind::NoteKind;

/// The stage after a rule, the SDO frame that it queues and what it notes.
#[derive(Drop)]
pub struct BootStep {
    /// The stage after it.
    pub stage: BootStage,
    /// The SDO frame to the node, if there is one.
    pub request: Option<[u8; 8]>,
    /// What is noted of the node, if anything.
    pub note: Option<NoteKind>,
}

impl BootStep {
    /// The stage stays, and nothing is queued or noted.
    pub(crate) fn stays(stage: BootStage) -> BootStep
        ensures { result ≡ is_stay stage }
    {
        BootStep {
            stage,
            request: None,
            note: None,
        }
    }

    /// The boot has failed, for a reason.
    pub(crate) fn failed(reason: NoteKind, request: Option<[u8; 8]>) -> BootStep
        ensures { result ≡ is_failed reason request }
    {
        BootStep {
            stage: BootStage::Failed,
            request,
            note: Some(reason),
        }
    }

    /// A request is queued.
    pub(crate) fn asked(stage: BootStage, request: [u8; 8]) -> BootStep
        ensures { result ≡ is_asked stage request }
    {
        BootStep {
            stage,
            request: Some(request),
            note: None,
        }
    }

    /// All writes were confirmed.
    pub(crate) fn configured() -> BootStep
        ensures { result ≡ is_configured }
    {
        BootStep {
            stage: BootStage::Configured,
            request: None,
            note: Some(NoteKind::Configured),
        }
    }
}
