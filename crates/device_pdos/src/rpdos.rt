//! The RPDOs of a device, by number.

ghost use Rattle.std.specs.Prelude.{◌≡◌, ◌<◌, length, IfOk, OnOk, ◌↔◌, IsTrue};
ghost use Rattle.device_pdos.specs.Rpdos.{any_has_identifier, without_kept_frames, rpdos_of as rpdos_now};
ghost use Rattle.device_pdos.specs.Rpdos.{rpdo_after_write, rpdos_after_write, with_kept};

use crate::rpdo_state::RpdoState;
use can_frame::Frame;
use cia301::{LAST_PDO, number_of_object, rpdo_object};
use co_dict::{Dict, Shape};
use pdo_rules::{Configuration, is_pdo};
use std::alloc::{AllocError, Global};

/// The RPDOs of a device as its entries say, by number; they keep no frames.
#[tactic(auto, using(crate::proofs::NumberLemmas::none_at_first, crate::proofs::NumberLemmas::one_more, crate::proofs::NumberLemmas::skipped, crate::proofs::NumberLemmas::all), unfolding(crate::specs::Rpdos::rpdos_of))]
pub fn rpdos_of(alloc: Global, shape: &Shape, dict: &Dict) -> Result<Vec<RpdoState>, AllocError>
    ensures { IfOk result (λ rpdos. rpdos.items ≡ rpdos_now shape.now dict.now) }
{
    let mut rpdos = Vec::new(alloc);
    for number in 1..=LAST_PDO {
        if is_pdo(shape, rpdo_object(number)) {
            let configuration = Configuration::of(alloc, shape, dict, rpdo_object(number))?;
            rpdos.push(RpdoState {
                number,
                configuration,
                kept: None,
            })?;
        }
    }
    Ok(rpdos)
}

/// Equal RPDOs, which share the mappings.
pub fn copy_rpdos(alloc: Global, rpdos: &[RpdoState]) -> Result<Vec<RpdoState>, AllocError>
    ensures { IfOk result (λ copies. copies.items ≡ rpdos.now) }
{
    let mut copies = Vec::with_capacity(alloc, rpdos.len())?;
    for rpdo in rpdos {
        let copy = rpdo.clone()?;
        copies.push(copy)?;
    }
    Ok(copies)
}

/// An RPDO at the write of an entry of an object of RPDOs: it is judged anew if the object is its own, and
/// keeps no frame.
fn write_rpdo(
    alloc: Global,
    rpdo: &mut RpdoState,
    shape: &Shape,
    dict: &Dict,
    index: u16,
) -> Result<(), AllocError>
    ensures { OnOk result (rpdo.new ≡ rpdo_after_write shape.now dict.now index rpdo.old) }
{
    let number = number_of_object(index);
    if rpdo.number == number {
        let configuration = Configuration::of(alloc, shape, dict, rpdo_object(number))?;
        *rpdo = RpdoState {
            number,
            configuration,
            kept: None,
        };
    }
    Ok(())
}

/// What the write of an entry of an object of RPDOs brings about: its RPDO is judged anew, and keeps no
/// frame. Walks the RPDOs, and takes memory for the mapping.
#[tactic(auto, unfolding(crate::specs::Rpdos::rpdos_after_write))]
pub fn write_rpdos(
    alloc: Global,
    rpdos: &mut [RpdoState],
    shape: &Shape,
    dict: &Dict,
    index: u16,
) -> Result<(), AllocError>
    ensures { OnOk result (rpdos.new ≡ rpdos_after_write shape.now dict.now index rpdos.old) }
{
    for rpdo in rpdos.iter_mut() {
        write_rpdo(alloc, rpdo, shape, dict, index)?;
    }
    Ok(())
}

/// The frames that RPDOs keep are dropped.
#[tactic(auto, unfolding(crate::specs::Rpdos::without_kept_frames))]
pub fn empty_rpdos(rpdos: &mut [RpdoState])
    ensures { rpdos.new ≡ without_kept_frames rpdos.old }
{
    for rpdo in rpdos.iter_mut() {
        rpdo.kept = None;
    }
}

/// The RPDO at a place keeps this frame, or none.
#[tactic(auto, unfolding(crate::specs::Rpdos::with_kept))]
pub fn keep(rpdos: &mut [RpdoState], i: usize, frame: Option<Frame>)
    requires { i < length rpdos.old }
    ensures { rpdos.new ≡ with_kept rpdos.old i frame }
{
    rpdos[i].kept = frame;
}

/// Whether two lists of RPDOs are the same.
pub fn same_rpdos(rpdos: &[RpdoState], others: &[RpdoState]) -> bool
    ensures { IsTrue result ↔ (rpdos.now ≡ others.now) }
{
    if rpdos.len() != others.len() {
        return false;
    }
    for place in 0..rpdos.len() {
        if !rpdos[place].same(&others[place]) {
            return false;
        }
    }
    true
}

/// Whether one of the RPDOs works and takes frames of this identifier. Walks the RPDOs.
#[tactic(auto, unfolding(crate::specs::Rpdos::any_has_identifier))]
pub fn any_has_identifier(rpdos: &[RpdoState], identifier: u16) -> bool
    ensures { result ≡ any_has_identifier identifier rpdos.now }
{
    rpdos.iter().any(|rpdo| rpdo.has_identifier(identifier))
}
