//! Devices by blocks of eight.

ghost use Rattle.std.specs.Prelude.{◌≡◌, ◌↔◌, ◌<◌, ◌≤◌, ◌*◌, false, true, List, length, min, take, IfOk, IfSome, OnOk};
ghost use Rattle.std.specs.List.{AllByRecursion};
ghost use Rattle.image_parts.specs.Record.{GoesBy, Lasts};
ghost use Rattle.bus_devices.specs.Blocks.{AreBlocksOf, AreEightsOf, IsBestOf, IsBlockOf, WasKnown, alarms_of, block_sleeps};
ghost use Rattle.bus_devices.specs.Blocks.{outlooks_of};
ghost use Rattle.bus_devices.specs.Senders.{device_lists, may_wait_at, sender_place as place_of};
ghost use Rattle.image_parts.specs.Each.{each};
ghost use Rattle.can_frame.specs.Winner.{contenders, IsWinner};
ghost use Rattle.co_device.specs.Device.{Device};
ghost use Rattle.device_agenda.specs.Agenda.{at_instant};

use crate::block::{BLOCK, Block, best_of_each, low_bytes_of, outlook_of, place_by_each, run_each};
use crate::outlook::keep_winner;
use can_frame::Contender;
use device_agenda::{Delivery, ScheduledDevice};
use device_objects::Shapes;
use image_parts::END;
use std::alloc::AllocError;

/// The number of devices of the first block of so many.
fn first_block(count: usize) -> usize
    ensures { result ≡ min 8 count }
{
    BLOCK.min(count)
}

/// Works out what is known of all blocks. Walks the devices.
pub(crate) fn plan(blocks: &mut Vec<Block>, devices: &[ScheduledDevice]) -> Result<(), AllocError>
    ensures { OnOk result (AreBlocksOf blocks.new.items devices.now) }
{
    blocks.clear();
    let mut rest = devices;
    'planning: while !rest.is_empty() {
        let (devices, others) = rest.split_at(first_block(rest.len()));
        blocks.push(Block::of(devices))?;
        rest = others;
    }
    Ok(())
}

/// Runs those of the devices of a block that have to run. Their low bytes are worked out anew where one was awake, whose
/// own were all; and where another thing is known of one then, what is known of all of them is put together anew. Says
/// whether that is another.
fn run_block<P: Shapes>(
    block: &mut Block,
    devices: &mut [ScheduledDevice],
    t: u64,
    delivery: &Option<Delivery>,
    shapes: &mut P,
) -> Result<bool, AllocError>
    requires soon { t < END }
    requires few { length devices.old ≤ 8 }
    requires known { IsBlockOf block.old devices.old }
    ensures block { OnOk result (IsBlockOf block.new devices.new) }
    ensures ran { OnOk result (GoesBy (each (at_instant t delivery.now) devices.old) devices.new
        P.seen P.asks shapes.old shapes.new) }
    ensures lasts { Lasts (P.seen shapes.old) (P.seen shapes.new) }
    ensures still { IfOk result (λ changed. changed ≡ false ↔ (block.new.outlook ≡ block.old.outlook)) }
{
    let was_awake = block.outlook.alarm.agenda().awake;
    let changed = run_each(
        devices,
        &mut block.each,
        &mut block.low_bytes,
        t,
        delivery,
        shapes,
    )?;
    if was_awake {
        block.low_bytes = low_bytes_of(devices);
    }
    if !changed {
        return Ok(false);
    }
    let before = block.outlook;
    block.outlook = outlook_of(&block.each, devices.len());
    Ok(!block.outlook.same(&before))
}

/// How many of the first blocks sleep through the moment t, at which this is delivered.
fn asleep(blocks: &[Block], t: u64, delivery: &Option<Delivery>) -> usize
    requires { t < END }
    ensures within { result ≤ length blocks.now }
    ensures asleep { AllByRecursion (λ b. block_sleeps t delivery.now b ≡ true) (take result blocks.now) }
    ensures bound { 0 < result → IfSome delivery.now (λ d. d.frame.id < 0x800) }
{
    for i in 0..blocks.len() {
        let block = &blocks[i];
        let alarm = &block.outlook.alarm;
        if !alarm.sleeps_on(&block.low_bytes, t, delivery) {
            return i;
        }
    }
    blocks.len()
}

/// The number of devices of so many blocks, of so many devices in all.
fn devices_of(blocks: usize, count: usize) -> usize
    ensures { result ≡ min (8 * blocks) count }
{
    if blocks > count / BLOCK {
        count
    } else {
        blocks * BLOCK
    }
}

/// Runs the devices that have to run, one block after another, and says whether another thing is known of a block then,
/// or of one before them. Passes over the blocks that sleep, and goes as deep as there are others.
pub(crate) fn run_blocks<P: Shapes>(
    blocks: &mut [Block],
    devices: &mut [ScheduledDevice],
    t: u64,
    delivery: &Option<Delivery>,
    shapes: &mut P,
    before: bool,
) -> Result<bool, AllocError>
    requires soon { t < END }
    requires known { AreBlocksOf blocks.old devices.old }
    ensures blocks { OnOk result (AreBlocksOf blocks.new devices.new) }
    ensures ran { OnOk result (GoesBy (each (at_instant t delivery.now) devices.old) devices.new
        P.seen P.asks shapes.old shapes.new) }
    ensures lasts { Lasts (P.seen shapes.old) (P.seen shapes.new) }
    ensures still { IfOk result (λ changed. changed ≡ false ↔ ((before ≡ false)
        × (outlooks_of blocks.new ≡ outlooks_of blocks.old))) }
{
    let asleep = asleep(blocks, t, delivery);
    let (_asleep, awake) = blocks.split_at_mut(asleep);
    let (_still, rest) = devices.split_at_mut(devices_of(asleep, devices.len()));
    if awake.is_empty() {
        return Ok(before);
    }
    let (firsts, others) = awake.split_at_mut(1);
    let (block, behind) = rest.split_at_mut(first_block(rest.len()));
    let changed = run_block(&mut firsts[0], block, t, delivery, shapes)?;
    run_blocks(others, behind, t, delivery, shapes, before | changed)
}

/// Works out anew which frames win, after the frames have changed that wait at the device of a place. Walks the block.
fn renew_best_of(block: &mut Block, devices: &[ScheduledDevice], i: usize)
    requires was { WasKnown (IsBlockOf block.old) i devices.now }
    requires few { length devices.now ≤ 8 }
    ensures block { IsBlockOf block.new devices.now }
    ensures alarm { block.new.outlook.alarm ≡ block.old.outlook.alarm }
{
    block.each[i].best = devices[i].contender();
    block.outlook.best = best_of_each(&block.each, devices.len());
}

/// The same of the block of the device at a place among all.
pub(crate) fn renew_best(blocks: &mut [Block], devices: &[ScheduledDevice], i: usize)
    requires { WasKnown (AreBlocksOf blocks.old) i devices.now }
    ensures blocks { AreBlocksOf blocks.new devices.now }
    ensures alarms { alarms_of blocks.new ≡ alarms_of blocks.old }
{
    let place = i / BLOCK;
    let (_before, rest) = devices.split_at(place * BLOCK);
    let (block, _behind) = rest.split_at(first_block(rest.len()));
    renew_best_of(&mut blocks[place], block, i % BLOCK);
}

/// The least frame that waits at the devices of all blocks. Walks the blocks.
pub(crate) fn best_of(blocks: &[Block]) -> Option<Contender>
    ensures { (devices : List Device) → AreEightsOf IsBestOf blocks.now devices
        → IsWinner (contenders (device_lists devices)) result }
{
    let mut best = None;
    for block in blocks {
        keep_winner(&mut best, &block.outlook.best);
    }
    best
}

/// Whether a frame can be one of those waiting at devices, of which this is the least.
fn may_wait_at(contender: &Contender, best: &Option<Contender>) -> bool
    ensures { result ≡ may_wait_at contender.now best.now }
{
    match best {
        None => false,
        Some(best) => !contender.is_below(best),
    }
}

/// The place of the first device of a block that contends with a frame.
fn place_in(contender: &Contender, block: &Block, devices: &[ScheduledDevice]) -> Option<usize>
    requires { IsBlockOf block.now devices.now }
    ensures { result ≡ place_of contender.now devices.now }
{
    if may_wait_at(contender, &block.outlook.best) {
        place_by_each(contender, &block.each, devices)
    } else {
        None
    }
}

/// The place of the first device that contends with a frame. Walks the blocks, and what is known of the devices of
/// those where it or a lower frame waits.
pub(crate) fn sender_place(
    contender: &Contender,
    blocks: &[Block],
    devices: &[ScheduledDevice],
) -> Option<usize>
    requires { AreBlocksOf blocks.now devices.now }
    ensures { result ≡ place_of contender.now devices.now }
{
    for i in 0..blocks.len() {
        let (before, rest) = devices.split_at(devices_of(i, devices.len()));
        let (block, _behind) = rest.split_at(first_block(rest.len()));
        if let Some(place) = place_in(contender, &blocks[i], block) {
            return Some(before.len() + place);
        }
    }
    None
}
