//! The TPDOs of a device, by number.

ghost use Rattle.std.specs.Prelude.{◌≡◌, ◌<◌, ◌^◌, IfOk, OnOk, ◌↔◌, IsTrue};
ghost use Rattle.base.specs.Moments.{earliest};
ghost use Rattle.device_pdos.specs.Tpdos.{moments, without_memories, tpdos_after_inhibit, tpdos_after_turns};
ghost use Rattle.device_pdos.specs.Tpdos.{tpdo_after_write, tpdos_of as tpdos_now, tpdos_after_write, with_tpdos};

use crate::tpdo_state::TpdoState;
use base::earlier;
use can_frame::Pending;
use cia301::{LAST_PDO, number_of_object, tpdo_object};
use co_dict::{Dict, Shape};
use pdo_rules::{Configuration, SyncSeen, Tpdo, is_pdo};
use std::alloc::{AllocError, Global};

/// The TPDOs of a device as its entries say, by number; they remember nothing. Takes time by the
/// logarithm of the number of entries, and by the TPDOs that there are.
#[tactic(auto, using(crate::proofs::NumberLemmas::none_at_first, crate::proofs::NumberLemmas::one_more, crate::proofs::NumberLemmas::skipped, crate::proofs::NumberLemmas::all), unfolding(crate::specs::Tpdos::tpdos_of))]
pub fn tpdos_of(alloc: Global, shape: &Shape, dict: &Dict) -> Result<Vec<TpdoState>, AllocError>
    ensures { IfOk result (λ tpdos. tpdos.items ≡ tpdos_now shape.now dict.now) }
{
    let mut tpdos = Vec::new(alloc);
    for number in 1..=LAST_PDO {
        if is_pdo(shape, tpdo_object(number)) {
            let configuration = Configuration::of(alloc, shape, dict, tpdo_object(number))?;
            tpdos.push(TpdoState::of(number, configuration))?;
        }
    }
    Ok(tpdos)
}

/// Equal TPDOs, which share the mappings.
pub fn copy_tpdos(alloc: Global, tpdos: &[TpdoState]) -> Result<Vec<TpdoState>, AllocError>
    ensures { IfOk result (λ copies. copies.items ≡ tpdos.now) }
{
    let mut copies = Vec::with_capacity(alloc, tpdos.len())?;
    for tpdo in tpdos {
        let copy = tpdo.clone()?;
        copies.push(copy)?;
    }
    Ok(copies)
}

/// A TPDO at the write of an entry of an object of TPDOs: it is judged anew if the object is its own, and
/// remembers nothing.
fn write_tpdo(
    alloc: Global,
    tpdo: &mut TpdoState,
    shape: &Shape,
    dict: &Dict,
    index: u16,
) -> Result<(), AllocError>
    ensures { OnOk result (tpdo.new ≡ tpdo_after_write shape.now dict.now index tpdo.old) }
{
    let number = number_of_object(index);
    if tpdo.number == number {
        let configuration = Configuration::of(alloc, shape, dict, tpdo_object(number))?;
        *tpdo = TpdoState::of(number, configuration);
    }
    Ok(())
}

/// What the write of an entry of an object of TPDOs brings about: its TPDO is judged anew, and remembers
/// nothing. Walks the TPDOs, and takes memory for the mapping.
#[tactic(auto, unfolding(crate::specs::Tpdos::tpdos_after_write))]
pub fn write_tpdos(
    alloc: Global,
    tpdos: &mut [TpdoState],
    shape: &Shape,
    dict: &Dict,
    index: u16,
) -> Result<(), AllocError>
    ensures { OnOk result (tpdos.new ≡ tpdos_after_write shape.now dict.now index tpdos.old) }
{
    for tpdo in tpdos.iter_mut() {
        write_tpdo(alloc, tpdo, shape, dict, index)?;
    }
    Ok(())
}

/// All TPDOs forget what they remember.
#[tactic(auto, unfolding(crate::specs::Tpdos::without_memories))]
pub fn forget_tpdos(tpdos: &mut [TpdoState])
    ensures { tpdos.new ≡ without_memories tpdos.old }
{
    for tpdo in tpdos.iter_mut() {
        tpdo.remembered = Tpdo::forgotten();
    }
}

/// The inhibit moments that have come at t are forgotten.
#[tactic(auto, unfolding(crate::specs::Tpdos::tpdos_after_inhibit))]
pub fn free_tpdos(tpdos: &mut [TpdoState], t: u64)
    ensures { tpdos.new ≡ tpdos_after_inhibit t tpdos.old }
{
    for tpdo in tpdos.iter_mut() {
        tpdo.remembered.end_inhibit(t);
    }
}

/// Looks at each TPDO in its turn, at the moment t in microseconds, at a SYNC or at none: one that is sent
/// gets a frame that waits, in the place of one of its own that still waits. Takes time by the TPDOs
/// that work, their mapping, and the logarithm of the number of entries.
#[tactic(auto, unfolding(crate::specs::Tpdos::tpdos_after_turns, crate::specs::Tpdos::with_tpdos))]
pub fn look_at_tpdos(
    tpdos: &mut [TpdoState],
    t: u64,
    seen: Option<SyncSeen>,
    dict: &Dict,
    waiting: &mut Pending,
) -> Result<(), AllocError>
    requires { t < 2 ^ 63 }
    ensures tpdos { OnOk result (tpdos.new ≡ tpdos_after_turns t seen dict.now tpdos.old) }
    ensures waiting { OnOk result (waiting.new ≡ with_tpdos t seen dict.now tpdos.old waiting.old) }
{
    for tpdo in tpdos.iter_mut() {
        tpdo.take_turn(t, seen, dict, waiting)?;
    }
    Ok(())
}

/// Whether two lists of TPDOs are the same.
pub fn same_tpdos(tpdos: &[TpdoState], others: &[TpdoState]) -> bool
    ensures { IsTrue result ↔ (tpdos.now ≡ others.now) }
{
    if tpdos.len() != others.len() {
        return false;
    }
    for place in 0..tpdos.len() {
        if !tpdos[place].same(&others[place]) {
            return false;
        }
    }
    true
}

/// The first moment, in microseconds, at which one of the TPDOs is due in Operational or outside it, if
/// there is one. Walks the TPDOs.
pub fn next_moment(tpdos: &[TpdoState], operational: bool) -> Option<u64>
    ensures { result ≡ earliest (moments operational tpdos.now) }
{
    let mut next = None;
    for tpdo in tpdos {
        next = earlier(next, tpdo.moment(operational));
    }
    next
}
