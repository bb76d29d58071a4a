//! Which RPDOs are taken, and which are spare.
ghost use Rattle.std.specs.Prelude.{◌≡◌, ◌==◌, ◌&&◌, ◌||◌, ◌≤◌, ℕ, false, length, IfOk};
ghost use Rattle.pdo_stations.specs.Flags.{is_flagged, is_spare};

use crate::station::Station;
use std::alloc::{AllocError, Global};

/// The numbers of a node's RPDOs, and 0, which none has.
const NUMBERS: usize = 513;

/// Which RPDOs of which nodes are taken: for each node from 0 on a flag for each number.
#[derive(Drop)]
pub struct TakenRpdos {
    /// The flags, in order of node, number 0 to 512 of each.
    pub flags: Vec<bool>,
    ghost whole: { length flags.items ≡ 131328 },
}

impl TakenRpdos {
    /// No RPDO is taken. Takes memory for 131,328 flags; want of it is the only error.
    pub fn new(alloc: Global) -> Result<TakenRpdos, AllocError>
        ensures { IfOk result (λ rpdos. (node number : ℕ) → is_flagged rpdos.flags.items node number ≡ false) }
    {
        let mut flags = Vec::new(alloc);
        flags.resize(256 * NUMBERS, false)?;
        Ok(TakenRpdos { flags })
    }

    /// Whether the RPDO of a number, up to 512, is taken at a node.
    pub fn contains(&self, node: u8, number: u16) -> bool
        requires { number ≤ 512 }
        ensures { result ≡ is_flagged self.now.flags.items node number }
    {
        self.flags[NUMBERS * usize::from(node) + usize::from(number)]
    }

    /// Takes the RPDO of a number, up to 512, at a node.
    pub fn take(&mut self, node: u8, number: u16)
        requires { number ≤ 512 }
        ensures { (other rpdo : ℕ) → is_flagged self.new.flags.items other rpdo
            ≡ (is_flagged self.old.flags.items other rpdo || ((node == other) && (number == rpdo))) }
    {
        self.flags[NUMBERS * usize::from(node) + usize::from(number)] = true;
    }
}

/// Whether the RPDO of a number, 1 to 512, isn't taken at a node, and the node has what the writes of
/// so many mapping entries of it, up to 64, name.
#[tactic(auto, unfolding(crate::specs::Flags::is_spare))]
pub fn is_spare(station: &Station, taken: &TakenRpdos, node: u8, count: usize, number: u16) -> bool
    requires few { count ≤ 64 }
    requires low { 1 ≤ number }
    requires high { number ≤ 512 }
    ensures { result ≡ is_spare station.now taken.now.flags.items node count number }
{
    !taken.contains(node, number) && station.has_rpdo(number, count)
}
