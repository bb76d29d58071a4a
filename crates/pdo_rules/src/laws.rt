//! Laws of PDOs, each a function whose contract is the law.

ghost use Rattle.std.specs.Prelude.{◌≡◌, ◌==◌, ◌<◌, ◌≤◌, ◌+◌, if◌then◌else◌, ℕ, true, false, List};
ghost use Rattle.std.specs.Prelude.{◌≢◌, ◌∷◌, ◌++◌, length, replicate, Option, Some, None, IfSome};
ghost use Rattle.co_dict.specs.Mappings.{mapping_bits, mapping_of};
ghost use Rattle.cia301.specs.CobIds.{is_restricted};
ghost use Rattle.co_dict.specs.Shapes.{Shaped};
ghost use Rattle.co_dict.specs.Values.{Values};
ghost use Rattle.pdo_rules.specs.declared.communication.Communication.{Communication as Parameters};
ghost use Rattle.pdo_rules.specs.Runs.{HaveNoStart, each_nth, sent_at};
ghost use Rattle.pdo_rules.specs.Tpdo.{Remembered, awaits_start, counted_turn, without_past_inhibit, turn_by_type};
ghost use Rattle.pdo_rules.specs.Tpdo.{is_quiet, turn_without_frame};
ghost use Rattle.pdo_rules.specs.declared.sync_seen.SyncSeen.{SyncSeen as Seen};
ghost use Rattle.pdo_rules.specs.Working.{count_of, identifier_of, is_pdo, works};
ghost use Rattle.cia301.specs.PdoObjects.{mapping_object};

use cia301::TransmissionType;

/// A PDO that works is one, has an identifier that a PDO may have, and a mapping that fits a frame.
#[tactic(auto, using(crate::proofs::WorkingLemmas::is_one, crate::proofs::WorkingLemmas::allowed, crate::proofs::WorkingLemmas::fits))]
pub fn a_pdo_that_works_fits_a_frame()
    ensures one { (shape : Shaped) (values : Values) (object : ℕ) → works shape values object ≡ true
        → is_pdo shape object ≡ true }
    ensures allowed { (shape : Shaped) (values : Values) (object : ℕ) → works shape values object ≡ true
        → is_restricted (identifier_of values object) ≡ false }
    ensures fits { (shape : Shaped) (values : Values) (object : ℕ) → works shape values object ≡ true
        → mapping_bits (mapping_of values (mapping_object object) (count_of values object)) ≤ 64 }
{}

/// An event-driven TPDO whose inhibit moment is ahead isn't sent, and remembers what it did.
pub fn an_inhibited_tpdo_is_not_sent()
    ensures { (c : Parameters) (seen : Option Seen) (t m : ℕ) (bytes : List ℕ) (r : Remembered)
        → r.inhibit ≡ Some m → t < m → turn_by_type (Some TransmissionType.EventDriven) c seen t bytes r
        ≡ turn_without_frame r }
{}

/// Once an event-driven TPDO was sent it isn't again before its inhibit time has passed.
#[tactic(auto, using(crate::proofs::TpdoLemmas::silent))]
pub fn a_sent_tpdo_is_inhibited()
    ensures { (c : Parameters) (seen : Option Seen) (t : ℕ) (bytes : List ℕ) (r : Remembered)
        → (turn_by_type (Some TransmissionType.EventDriven) c seen t bytes r).is_sent ≡ true
        → (next : Option Seen) (u : ℕ) (others : List ℕ) → 0 < c.inhibit_time → u < t + c.inhibit_time
        → (let now = (turn_by_type (Some TransmissionType.EventDriven) c seen t bytes r).remembered in
        turn_by_type (Some TransmissionType.EventDriven) c next u others (without_past_inhibit u now)
        ≡ turn_without_frame now) }
{}

/// The moments that an event-driven TPDO sets lie after now, and its event moment isn't before its inhibit
/// moment.
#[tactic(auto, using(crate::proofs::TpdoLemmas::set_moments))]
pub fn moments_are_set_ahead()
    ensures inhibit { (c : Parameters) (seen : Option Seen) (t : ℕ) (bytes : List ℕ) (r : Remembered)
        → (let turn = turn_by_type (Some TransmissionType.EventDriven) c seen t bytes r in
        turn.is_sent ≡ true → IfSome turn.remembered.inhibit (λ m. t < m)) }
    ensures event { (c : Parameters) (seen : Option Seen) (t : ℕ) (bytes : List ℕ) (r : Remembered)
        → (let turn = turn_by_type (Some TransmissionType.EventDriven) c seen t bytes r in
        turn.is_sent ≡ true → IfSome turn.remembered.event (λ m. t < m)) }
    ensures order { (c : Parameters) (seen : Option Seen) (t : ℕ) (bytes : List ℕ) (r : Remembered)
        → (let turn = turn_by_type (Some TransmissionType.EventDriven) c seen t bytes r in
        turn.is_sent ≡ true → IfSome turn.remembered.event (λ m. t + c.inhibit_time ≤ m)) }
{}

/// The bytes that a TPDO was last sent with are remembered, whatever its type is.
pub fn what_was_sent_is_remembered()
    ensures { (transmission : Option TransmissionType) (c : Parameters) (seen : Option Seen) (t : ℕ)
        (bytes : List ℕ) (r : Remembered)
        → (let turn = turn_by_type transmission c seen t bytes r in
        turn.remembered.last ≡ (if turn.is_sent then Some bytes else r.last)) }
{}

/// A cyclic TPDO of the number n that waits for no start and has counted fewer SYNCs than n is sent at a SYNC
/// exactly where that is the n-th, and then counts anew; without a SYNC nothing happens.
#[tactic(auto, using(crate::proofs::TpdoLemmas::nth_sync))]
pub fn a_cyclic_tpdo_is_sent_at_each_nth_sync()
    ensures sent { (c : Parameters) (n t : ℕ) (seen : Seen) (bytes : List ℕ) (r : Remembered)
        → awaits_start c.sync_start seen r ≡ false → r.syncs < n
        → (turn_by_type (Some (TransmissionType.Cyclic n)) c (Some seen) t bytes r).is_sent ≡ (r.syncs + 1 == n) }
    ensures counted { (c : Parameters) (n t : ℕ) (seen : Seen) (bytes : List ℕ) (r : Remembered)
        → awaits_start c.sync_start seen r ≡ false → r.syncs < n
        → (turn_by_type (Some (TransmissionType.Cyclic n)) c (Some seen) t bytes r).remembered.syncs
        ≡ (if r.syncs + 1 == n then 0 else r.syncs + 1) }
    ensures unsent { (c : Parameters) (n t : ℕ) (bytes : List ℕ) (r : Remembered)
        → turn_by_type (Some (TransmissionType.Cyclic n)) c None t bytes r ≡ turn_without_frame r }
{}

/// A cyclic TPDO that waits for its start isn't sent at a SYNC with another counter or with none, and remembers
/// what it did: it waits on.
#[tactic(auto, using(crate::proofs::StartLemmas::waits))]
pub fn a_cyclic_tpdo_waits_for_its_start_value()
    ensures other { (c : Parameters) (n t counter : ℕ) (seen : Seen) (bytes : List ℕ) (r : Remembered)
        → awaits_start c.sync_start seen r ≡ true → seen.counter ≡ Some counter → counter ≢ c.sync_start
        → turn_by_type (Some (TransmissionType.Cyclic n)) c (Some seen) t bytes r ≡ turn_without_frame r }
    ensures none { (c : Parameters) (n t : ℕ) (seen : Seen) (bytes : List ℕ) (r : Remembered)
        → awaits_start c.sync_start seen r ≡ true → seen.counter ≡ None
        → turn_by_type (Some (TransmissionType.Cyclic n)) c (Some seen) t bytes r ≡ turn_without_frame r }
{}

/// The SYNC whose counter is the start value ends the wait, and counts as the first, whatever was counted before:
/// the n-th from there is the first at which a cyclic TPDO of the number n, 1 or more, is sent.
#[tactic(auto, using(crate::proofs::StartLemmas::starts))]
pub fn the_sync_with_the_start_value_counts_as_the_first()
    ensures sent { (c : Parameters) (n t : ℕ) (seen : Seen) (bytes : List ℕ) (r : Remembered) → 0 < n
        → awaits_start c.sync_start seen r ≡ true → seen.counter ≡ Some c.sync_start
        → (turn_by_type (Some (TransmissionType.Cyclic n)) c (Some seen) t bytes r).is_sent ≡ (1 == n) }
    ensures counted { (c : Parameters) (n t : ℕ) (seen : Seen) (bytes : List ℕ) (r : Remembered) → 0 < n
        → awaits_start c.sync_start seen r ≡ true → seen.counter ≡ Some c.sync_start
        → (turn_by_type (Some (TransmissionType.Cyclic n)) c (Some seen) t bytes r).remembered.syncs
        ≡ (if 1 == n then 0 else 1) }
    ensures started { (c : Parameters) (n t : ℕ) (seen : Seen) (bytes : List ℕ) (r : Remembered)
        → awaits_start c.sync_start seen r ≡ true → seen.counter ≡ Some c.sync_start
        → (turn_by_type (Some (TransmissionType.Cyclic n)) c (Some seen) t bytes r).remembered.started ≡ true }
{}

/// Without a start value, on a device that doesn't count SYNCs, and once it has started, a cyclic TPDO waits for
/// no start: each SYNC counts, whatever its counter. No turn, of whatever type, at a SYNC or not, ends what was started.
#[tactic(auto, using(crate::proofs::StartLemmas::goes_on))]
pub fn a_cyclic_tpdo_that_waits_for_no_start_counts_each_sync()
    ensures no_value { (c : Parameters) (n t : ℕ) (seen : Seen) (bytes : List ℕ) (r : Remembered) → c.sync_start ≡ 0
        → turn_by_type (Some (TransmissionType.Cyclic n)) c (Some seen) t bytes r ≡ counted_turn n bytes r }
    ensures uncounted { (c : Parameters) (n t : ℕ) (seen : Seen) (bytes : List ℕ) (r : Remembered)
        → seen.is_counted ≡ false
        → turn_by_type (Some (TransmissionType.Cyclic n)) c (Some seen) t bytes r ≡ counted_turn n bytes r }
    ensures started { (c : Parameters) (n t : ℕ) (seen : Seen) (bytes : List ℕ) (r : Remembered) → r.started ≡ true
        → turn_by_type (Some (TransmissionType.Cyclic n)) c (Some seen) t bytes r ≡ counted_turn n bytes r }
    ensures lasts { (transmission : Option TransmissionType) (c : Parameters) (seen : Option Seen) (t : ℕ)
        (bytes : List ℕ) (r : Remembered) → r.started ≡ true
        → (turn_by_type transmission c seen t bytes r).remembered.started ≡ true }
{}

/// THE SYNCS OF A RUN: a cyclic TPDO of the number n, 1 or more, with a start value, on a device that counts SYNCs, is
/// sent at none before the first that has this value as its counter, and from that on at each n-th, whatever the
/// counters are and whether the device still counts. One without a start value is sent at each n-th of all.
#[tactic(auto, using(crate::proofs::RunLemmas::runs))]
pub fn from_its_start_a_cyclic_tpdo_is_sent_at_each_nth_sync()
    ensures with_value { (n start : ℕ) (before after : List (Seen × List ℕ)) (first : Seen × List ℕ) (r : Remembered)
        → 0 < n → start ≢ 0 → r.started ≡ false → HaveNoStart start before → first.0.is_counted ≡ true
        → first.0.counter ≡ Some start → sent_at n start (before ++ first ∷ after) r
        ≡ replicate (length before) false ++ each_nth n (length (first ∷ after)) }
    ensures without_value { (n : ℕ) (syncs : List (Seen × List ℕ)) (r : Remembered) → 0 < n → r.syncs ≡ 0
        → sent_at n 0 syncs r ≡ each_nth n (length syncs) }
{}

/// A TPDO that is quiet isn't sent, whatever bytes it has, and remembers what it did.
#[tactic(auto, using(crate::proofs::QuietLemmas::quiet))]
pub fn a_quiet_tpdo_is_not_sent()
    ensures { (transmission : Option TransmissionType) (c : Parameters) (seen : Option Seen) (t : ℕ) (bytes : List ℕ)
        (r : Remembered) → is_quiet transmission seen t r ≡ true
        → turn_by_type transmission c seen t bytes r ≡ turn_without_frame r }
{}
