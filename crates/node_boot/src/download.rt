//! The download of a node's configuration (CiA 302): the writes of its concise DCF one by one.

ghost use Rattle.std.specs.Prelude.{◌≡◌, ◌<◌, IfOk, IfSome, OnOk};
ghost use Rattle.image_parts.specs.Record.{GoesBy, Lasts};
ghost use Rattle.image_parts.specs.Images.{greatest_place};
ghost use Rattle.concise_dcf.specs.Writes.{IsSized};
ghost use Rattle.image_parts.specs.Shared.{value_behind};
ghost use Rattle.node_boot.specs.Boot as rules;

use crate::boot_stage::BootStage;
use crate::boot_step::BootStep;
use crate::boots::Boots;
use crate::write_place::WritePlace;
use concise_dcf::Write;
use sdo_client::download_started;
use std::alloc::{AllocError, Global};
use std::rc::Rc;

/// A write begins, and the boot ends where there is none.
#[tactic(auto, unfolding(crate::specs::Boot::write_started))]
fn write(
    alloc: Global,
    deadline: u64,
    place: u32,
    write: &Option<Rc<Write>>,
) -> Result<BootStep, AllocError>
    requires fits { IfSome (value_behind write.now) IsSized }
    requires last { IfSome (value_behind write.now) (λ write. place < greatest_place) }
    ensures { IfOk result (λ step. step ≡ rules.write_started deadline place (value_behind write.now)) }
{
    match write {
        None => Ok(BootStep::configured()),
        Some(write) => {
            let entry = (write.index, write.sub);
            let (request, transfer) = download_started(alloc, entry, write.bytes.as_slice())?;
            let stage = BootStage::Writing {
                place: WritePlace::of(place),
                transfer,
                deadline,
            };
            Ok(BootStep::asked(stage, request))
        }
    }
}

/// The write of a number is asked for, and begins.
#[tactic(auto, unfolding(crate::specs::Boot::download_configuration))]
pub(crate) fn download_configuration<P: Boots>(
    alloc: Global,
    deadline: u64,
    node: u8,
    place: u32,
    boots: &mut P,
) -> Result<BootStep, AllocError>
    ensures ran { IfOk result (λ step. GoesBy (rules.download_configuration deadline node place) step
        P.seen P.asks boots.old boots.new) }
    ensures lasts { Lasts (P.seen boots.old) (P.seen boots.new) }
{
    let next = boots.boot(node, place)?;
    write(alloc, deadline, place, &next)
}
