//! Stations with the identifiers that they withhold.
ghost use Rattle.std.specs.Prelude.{◌≡◌, ◌≤◌, ℕ, false, option_and_then, IfOk, Some};
ghost use Rattle.std.specs.BTreeSet.{contains};
ghost use Rattle.std.specs.Ordering.{nat_cmp};
ghost use Rattle.cia301.specs.PdoObjects.{rpdo_object};
ghost use Rattle.pdo_stations.specs.Stations.{devices_in};
ghost use Rattle.pdo_stations.specs.declared.as_made.AsMade.{AsMade};
ghost use Rattle.vendor_pdos.specs.Fixed.{has_fixed, is_withheld};

use crate::withheld::withheld_identifiers;
use pdo_stations::Stations;
use std::alloc::{AllocError, Global};
use std::collections::BTreeSet;

/// Stations with the identifiers that they withhold from automatic choice.
#[derive(Drop)]
pub struct KnownStations {
    /// The stations.
    pub stations: Stations,
    /// In version 3 the fixed identifiers of their PDOs, in other versions none.
    pub withheld: BTreeSet<u16>,
    ghost exact: { (id : ℕ) → contains nat_cmp withheld id ≡ is_withheld (devices_in stations) id },
}

impl KnownStations {
    /// Looks up what stations withhold. Takes time by the number of nodes and the logarithm of their entries, and
    /// memory for the identifiers; want of memory is the only error.
    pub fn new(alloc: Global, stations: Stations) -> Result<KnownStations, AllocError>
        ensures { IfOk result (λ known. known.stations ≡ stations) }
    {
        let withheld = withheld_identifiers(alloc, &stations)?;
        Ok(KnownStations { stations, withheld })
    }

    /// Whether an RPDO of a node may have an identifier as its fixed one: a quick look ahead, by the identifiers that
    /// some PDO of some node has.
    pub fn may_fix(&self, node: u8, identifier: u16) -> bool
        ensures { (made : AsMade) (number : ℕ) → result ≡ false
            → option_and_then (λ made. made node) (devices_in self.now.stations).vendor ≡ Some made
            → 1 ≤ number → number ≤ 512 → has_fixed made (rpdo_object number) identifier ≡ false }
    {
        if node == 0 || node > 127 {
            return true;
        }
        self.withheld.contains(&identifier)
    }
}
