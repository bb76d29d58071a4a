//! What an SDO answer of a node does to its boot.

ghost use Rattle.std.specs.Prelude.{◌≡◌, IfOk, OnOk};
ghost use Rattle.image_parts.specs.Record.{GoesBy, Lasts};
ghost use Rattle.node_boot.specs.Boot as rules;
ghost use Rattle.node_boot.specs.declared.boot_stage.BootStage.TheVariants.{Comparing, Writing};

use crate::boot_stage::BootStage;
use crate::boot_step::BootStep;
use crate::boots::Boots;
use crate::download::download_configuration;
use crate::identity_check::{check_identity, is_as_expected};
use crate::note_kind::NoteKind;
use crate::write_place::WritePlace;
use image_parts::Identity;
use sdo_client::{Advance, ClientTransfer, Progress, advanced};
use std::alloc::{AllocError, Global};

/// How the check of device type and identity goes on; `old` is the deadline of the request that is answered.
fn after_compare<P: Boots>(
    alloc: Global,
    deadline: u64,
    old: u64,
    node: u8,
    place: u8,
    expected: Identity,
    advance: Advance,
    boots: &mut P,
) -> Result<BootStep, AllocError>
    ensures ran { IfOk result (λ step. GoesBy
        (rules.after_compare deadline old node place expected advance.stage advance.progress)
        step P.seen P.asks boots.old boots.new) }
    ensures lasts { Lasts (P.seen boots.old) (P.seen boots.new) }
{
    let transfer = advance.stage;
    match advance.progress {
        Some(Progress::Ask(request)) => {
            let stage = comparing(place, expected, transfer, deadline);
            Ok(BootStep::asked(stage, request))
        }
        Some(Progress::Read(bytes)) => {
            if is_as_expected(&expected, place, bytes.as_slice()) {
                let next = u16::from(place) + 1;
                return check_identity(alloc, deadline, node, expected, next, boots);
            }
            Ok(BootStep::failed(NoteKind::Difference, None))
        }
        Some(Progress::Failed { abort, frame }) => Ok(BootStep::failed(
            NoteKind::Aborted(abort),
            frame,
        )),
        Some(Progress::Written) => Ok(BootStep::stays(comparing(place, expected, transfer, old))),
        None => Ok(BootStep::stays(comparing(place, expected, transfer, old))),
    }
}

/// The stage in which a number is read.
fn comparing(place: u8, expected: Identity, transfer: ClientTransfer, deadline: u64) -> BootStage
    ensures { result ≡ Comparing place expected transfer deadline }
{
    BootStage::Comparing {
        place,
        expected,
        transfer,
        deadline,
    }
}

/// The stage in which a write is under way.
fn writing(place: WritePlace, transfer: ClientTransfer, deadline: u64) -> BootStage
    ensures { result ≡ Writing place transfer deadline }
{
    BootStage::Writing {
        place,
        transfer,
        deadline,
    }
}

/// How the writes go on; `old` is the deadline of the request that is answered.
fn after_write<P: Boots>(
    alloc: Global,
    deadline: u64,
    old: u64,
    node: u8,
    place: WritePlace,
    advance: Advance,
    boots: &mut P,
) -> Result<BootStep, AllocError>
    ensures ran { IfOk result (λ step. GoesBy (rules.after_write deadline old node place advance.stage advance.progress)
        step P.seen P.asks boots.old boots.new) }
    ensures lasts { Lasts (P.seen boots.old) (P.seen boots.new) }
{
    let transfer = advance.stage;
    match advance.progress {
        Some(Progress::Ask(request)) => {
            Ok(BootStep::asked(writing(place, transfer, deadline), request))
        }
        Some(Progress::Written) => {
            download_configuration(alloc, deadline, node, place.next(), boots)
        }
        Some(Progress::Failed { abort, frame }) => Ok(BootStep::failed(
            NoteKind::Aborted(abort),
            frame,
        )),
        Some(Progress::Read(_bytes)) => Ok(BootStep::stays(writing(place, transfer, old))),
        None => Ok(BootStep::stays(writing(place, transfer, old))),
    }
}

/// What an SDO answer does to the boot of a node, by its stage; what is asked then has the new deadline, in
/// microseconds. It fails where memory runs out.
#[tactic(auto, unfolding(crate::specs::Boot::sdo_answer))]
pub fn sdo_answer<P: Boots>(
    alloc: Global,
    deadline: u64,
    node: u8,
    stage: BootStage,
    answer: &[u8; 8],
    boots: &mut P,
) -> Result<BootStep, AllocError>
    ensures ran { IfOk result (λ step. GoesBy (rules.sdo_answer deadline node stage answer.now) step
        P.seen P.asks boots.old boots.new) }
    ensures lasts { Lasts (P.seen boots.old) (P.seen boots.new) }
{
    match stage {
        BootStage::Comparing {
            place,
            expected,
            transfer,
            deadline: old,
        } => {
            let advance = advanced(alloc, transfer, answer)?;
            after_compare(alloc, deadline, old, node, place, expected, advance, boots)
        }
        BootStage::Writing {
            place,
            transfer,
            deadline: old,
        } => {
            let advance = advanced(alloc, transfer, answer)?;
            after_write(alloc, deadline, old, node, place, advance, boots)
        }
        BootStage::Unseen => Ok(BootStep::stays(BootStage::Unseen)),
        BootStage::Configured => Ok(BootStep::stays(BootStage::Configured)),
        BootStage::Failed => Ok(BootStep::stays(BootStage::Failed)),
        BootStage::Own => Ok(BootStep::stays(BootStage::Own)),
    }
}
