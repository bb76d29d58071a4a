//! Laws of a device's PDOs, each a function whose contract is the law.

ghost use Rattle.std.specs.Prelude.{◌≡◌, ◌≢◌, ◌<◌, ℕ, true, false, List, None, Option, Some};
ghost use Rattle.std.specs.List.{AllByRecursion};
ghost use Rattle.can_frame.specs.declared.waiting.Waiting.{Waiting as WaitingFrame};
ghost use Rattle.co_dict.specs.Shapes.{Shaped};
ghost use Rattle.co_dict.specs.Values.{Values};
ghost use Rattle.pdo_rules.specs.declared.sync_seen.SyncSeen.{SyncSeen as Seen};
ghost use Rattle.cia301.specs.PdoObjects.{number_of_object};
ghost use Rattle.device_pdos.specs.Rpdos.{rpdo, rpdo_after_write, rpdos_after_write};
ghost use Rattle.device_pdos.specs.Tpdos.{frame_of_turn, tpdo_after_inhibit, goes_by_sync, is_wanted};
ghost use Rattle.device_pdos.specs.Tpdos.{tpdo_after_turn, moments, tpdo};
ghost use Rattle.device_pdos.specs.Tpdos.{tpdo_after_write, tpdos_after_inhibit, tpdos_after_turns};
ghost use Rattle.device_pdos.specs.Tpdos.{tpdos_after_write, waits_for_event};
ghost use Rattle.device_pdos.specs.Tpdos.{with_tpdos};
ghost use Rattle.device_pdos.specs.declared.rpdo_state.RpdoState.{RpdoState as Rpdo};
ghost use Rattle.device_pdos.specs.declared.tpdo_state.TpdoState.{TpdoState as State};

/// The write of an object of a PDO that the device doesn't have changes nothing.
#[tactic(auto, using(crate::proofs::WriteLemmas::other_tpdos, crate::proofs::WriteLemmas::other_rpdos))]
pub fn a_write_of_no_such_pdo_changes_nothing()
    ensures tpdos { (shape : Shaped) (values : Values) (index : ℕ) (tpdos : List State)
        → AllByRecursion (λ p. p.number ≢ number_of_object index) tpdos
        → tpdos_after_write shape values index tpdos ≡ tpdos }
    ensures rpdos { (shape : Shaped) (values : Values) (index : ℕ) (rpdos : List Rpdo)
        → AllByRecursion (λ p. p.number ≢ number_of_object index) rpdos
        → rpdos_after_write shape values index rpdos ≡ rpdos }
{}

/// The write of an object of a PDO judges that PDO anew, which then remembers nothing and keeps no frame;
/// all others stay.
#[tactic(auto, using(crate::proofs::WriteLemmas::own_tpdo, crate::proofs::WriteLemmas::other_tpdo, crate::proofs::WriteLemmas::own_rpdo, crate::proofs::WriteLemmas::other_rpdo))]
pub fn a_write_judges_its_pdo_anew()
    ensures tpdo { (shape : Shaped) (values : Values) (index : ℕ) (p : State) → p.number ≡ number_of_object index
        → tpdo_after_write shape values index p ≡ tpdo shape values p.number }
    ensures other_tpdo { (shape : Shaped) (values : Values) (index : ℕ) (p : State) → p.number ≢ number_of_object index
        → tpdo_after_write shape values index p ≡ p }
    ensures rpdo { (shape : Shaped) (values : Values) (index : ℕ) (p : Rpdo) → p.number ≡ number_of_object index
        → rpdo_after_write shape values index p ≡ rpdo shape values p.number }
    ensures other_rpdo { (shape : Shaped) (values : Values) (index : ℕ) (p : Rpdo) → p.number ≢ number_of_object index
        → rpdo_after_write shape values index p ≡ p }
{}

/// Without a SYNC a synchronous TPDO isn't sent, and remembers what it did but for an inhibit moment that has
/// come.
#[tactic(auto, using(crate::proofs::LookLemmas::unsent_without_sync, crate::proofs::LookLemmas::kept_without_sync))]
pub fn without_a_sync_no_synchronous_tpdo_is_sent()
    ensures sent { (t : ℕ) (values : Values) (p : State) → goes_by_sync p.configuration ≡ true
        → frame_of_turn t None values p ≡ None }
    ensures kept { (t : ℕ) (values : Values) (p : State) → goes_by_sync p.configuration ≡ true
        → tpdo_after_turn t None values p ≡ tpdo_after_inhibit t p }
{}

/// An event-driven TPDO whose inhibit moment is ahead isn't sent, and stays.
pub fn an_inhibited_tpdo_is_not_sent()
    ensures sent { (t m : ℕ) (seen : Option Seen) (values : Values) (p : State) → waits_for_event p.configuration ≡ true
        → p.remembered.inhibit ≡ Some m → t < m → frame_of_turn t seen values p ≡ None }
    ensures kept { (t m : ℕ) (seen : Option Seen) (values : Values) (p : State) → waits_for_event p.configuration ≡ true
        → p.remembered.inhibit ≡ Some m → t < m → tpdo_after_turn t seen values p ≡ p }
{}

/// Where no TPDO is sent at t without a SYNC, and all moments lie ahead, a look at the TPDOs changes
/// neither what they remember nor what waits; outside Operational no inhibit moment is forgotten.
#[tactic(auto, using(crate::proofs::LookLemmas::quiet_tpdos, crate::proofs::LookLemmas::quiet_waiting, crate::proofs::LookLemmas::quiet_freed))]
pub fn quiet_between_moments()
    ensures tpdos { (t : ℕ) (values : Values) (tpdos : List State)
        → AllByRecursion (λ p. frame_of_turn t None values p ≡ None) tpdos
        → AllByRecursion (λ m. t < m) (moments true tpdos) → tpdos_after_turns t None values tpdos ≡ tpdos }
    ensures waiting { (t : ℕ) (values : Values) (tpdos : List State) (frames : List WaitingFrame)
        → AllByRecursion (λ p. frame_of_turn t None values p ≡ None) tpdos
        → with_tpdos t None values tpdos frames ≡ frames }
    ensures freed { (t : ℕ) (tpdos : List State) → AllByRecursion (λ m. t < m) (moments false tpdos)
        → tpdos_after_inhibit t tpdos ≡ tpdos }
{}

/// TPDOs that were looked at rest: none is wanted. As long as none is, and their moments lie ahead, none is sent
/// without a SYNC, and no look without one changes what they remember, or what waits.
#[tactic(auto, using(crate::proofs::RestLemmas::rests))]
pub fn tpdos_that_were_looked_at_rest()
    ensures unwanted { (t : ℕ) (seen : Option Seen) (values : Values) (tpdos : List State)
        → AllByRecursion (λ p. is_wanted values p ≡ false) (tpdos_after_turns t seen values tpdos) }
    ensures unsent { (u : ℕ) (values : Values) (tpdos : List State)
        → AllByRecursion (λ p. is_wanted values p ≡ false) tpdos → AllByRecursion (λ m. u < m) (moments true tpdos)
        → AllByRecursion (λ p. frame_of_turn u None values p ≡ None) tpdos }
    ensures tpdos { (u : ℕ) (values : Values) (tpdos : List State)
        → AllByRecursion (λ p. is_wanted values p ≡ false) tpdos → AllByRecursion (λ m. u < m) (moments true tpdos)
        → tpdos_after_turns u None values tpdos ≡ tpdos }
    ensures waiting { (u : ℕ) (values : Values) (tpdos : List State) (frames : List WaitingFrame)
        → AllByRecursion (λ p. is_wanted values p ≡ false) tpdos → AllByRecursion (λ m. u < m) (moments true tpdos)
        → with_tpdos u None values tpdos frames ≡ frames }
{}

/// After a look at the TPDOs every moment at which one is due lies later; so it does outside Operational
/// where the inhibit moments that had come are forgotten.
#[tactic(auto, using(crate::proofs::LaterLemmas::looked_later, crate::proofs::LaterLemmas::all_freed_later))]
pub fn moments_lie_later()
    ensures looked { (t : ℕ) (seen : Option Seen) (values : Values) (tpdos : List State)
        → AllByRecursion (λ m. t < m) (moments true (tpdos_after_turns t seen values tpdos)) }
    ensures freed { (t : ℕ) (tpdos : List State)
        → AllByRecursion (λ m. t < m) (moments false (tpdos_after_inhibit t tpdos)) }
{}
