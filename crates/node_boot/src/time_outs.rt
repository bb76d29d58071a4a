//! What the time-out of a request does to the boot of a node.

ghost use Rattle.std.specs.Prelude.{◌≡◌};
ghost use Rattle.sdo_client.specs.Client.{timed_out_at};
ghost use Rattle.node_boot.specs.Boot as rules;

use crate::boot_stage::BootStage;
use crate::boot_step::BootStep;
use crate::note_kind::NoteKind;
use sdo_client::{ClientTransfer, Progress, timed_out};

/// The moment at which a request of the boot times out, in microseconds from the power-on of the network; none
/// where no request is under way.
pub fn deadline_of(stage: &BootStage) -> Option<u64>
    ensures { result ≡ rules.deadline_of stage.now }
{
    match stage {
        BootStage::Comparing { deadline, .. } => Some(*deadline),
        BootStage::Writing { deadline, .. } => Some(*deadline),
        _ => None,
    }
}

/// Whether a request of the boot times out at the moment t, in microseconds.
pub fn is_timed_out(t: u64, stage: &BootStage) -> bool
    ensures { result ≡ rules.is_timed_out t stage.now }
{
    deadline_of(stage) == Some(t)
}

/// The frame of the abort of a transfer whose answer didn't come.
fn abort_of(transfer: &ClientTransfer) -> Option<[u8; 8]>
    ensures { result ≡ rules.abort_sent (timed_out_at transfer.now).progress }
{
    let advance = timed_out(transfer);
    match advance.progress {
        Some(Progress::Failed { frame, .. }) => frame,
        _ => None,
    }
}

/// What the time-out of a request does to a boot: it has failed, and the abort of its open transfer is queued.
#[tactic(auto, unfolding(crate::specs::Boot::sdo_time_out))]
pub fn sdo_time_out(stage: &BootStage) -> BootStep
    ensures { result ≡ rules.sdo_time_out stage.now }
{
    let frame = match stage {
        BootStage::Comparing { transfer, .. } => abort_of(transfer),
        BootStage::Writing { transfer, .. } => abort_of(transfer),
        _ => None,
    };
    BootStep::failed(NoteKind::TimedOut, frame)
}
