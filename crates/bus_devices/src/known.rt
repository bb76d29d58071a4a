//! What is known of the devices of a bus, block by block.

ghost use Rattle.std.specs.Prelude.{◌≡◌, ◌<◌, false, IfOk, OnOk};
ghost use Rattle.image_parts.specs.Record.{GoesBy, Lasts};
ghost use Rattle.image_parts.specs.Each.{each};
ghost use Rattle.bus_devices.specs.Blocks.{AreKnown, FollowsFromBlocks};
ghost use Rattle.device_agenda.specs.Agenda.{at_instant};

use crate::block::Block;
use crate::blocks::{plan, run_blocks};
use crate::outlook::Outlook;
use device_agenda::{Delivery, ScheduledDevice};
use device_objects::Shapes;
use image_parts::END;
use std::alloc::AllocError;

/// What is known of the devices of all blocks. Walks the blocks.
fn all_of(blocks: &[Block]) -> Outlook
    ensures { FollowsFromBlocks result blocks.now }
{
    let mut all = Outlook::none();
    for block in blocks {
        all.add(&block.outlook);
    }
    all
}

/// What is known of all devices, where this was known ahead of an instant: it is put together anew where another thing is
/// known of a block since.
fn all_now(all: Outlook, blocks: &[Block], changed: bool) -> Outlook
    requires { changed ≡ false → FollowsFromBlocks all blocks.now }
    ensures { FollowsFromBlocks result blocks.now }
{
    if changed { all_of(blocks) } else { all }
}

/// Works out what is known of devices: of each eight, in blocks, and of all. Walks them.
pub(crate) fn know(
    blocks: &mut Vec<Block>,
    devices: &[ScheduledDevice],
) -> Result<Outlook, AllocError>
    ensures { IfOk result (λ all. AreKnown blocks.new.items all devices.now) }
{
    plan(blocks, devices)?;
    Ok(all_of(blocks))
}

/// Runs the devices of which this is known that have to run at the moment t, at which this is delivered. What is known
/// of them becomes that of behind it.
pub(crate) fn run_known<P: Shapes>(
    blocks: &mut [Block],
    all: &mut Outlook,
    devices: &mut [ScheduledDevice],
    t: u64,
    delivery: &Option<Delivery>,
    shapes: &mut P,
) -> Result<(), AllocError>
    requires soon { t < END }
    requires known { AreKnown blocks.old all.old devices.old }
    ensures known { OnOk result (AreKnown blocks.new all.new devices.new) }
    ensures ran { OnOk result (GoesBy (each (at_instant t delivery.now) devices.old) devices.new
        P.seen P.asks shapes.old shapes.new) }
    ensures lasts { Lasts (P.seen shapes.old) (P.seen shapes.new) }
{
    let changed = run_blocks(blocks, devices, t, delivery, shapes, false)?;
    *all = all_now(*all, blocks, changed);
    Ok(())
}
