//! Laws of heartbeat consumers, each a function whose contract is the law.

ghost use Rattle.std.specs.Prelude.{◌≡◌, ◌≢◌, ℕ, false, true, List, None, Some};
ghost use Rattle.std.specs.List.{AllByRecursion};
ghost use Rattle.co_dict.specs.Shapes.{Shaped};
ghost use Rattle.co_dict.specs.Values.{Values};
ghost use Rattle.device_objects.specs.Consumers.{consumers_after_time, consumers_after_heartbeat, consumer_entry};
ghost use Rattle.device_objects.specs.Consumers.{consumers_of, consumers_after_write, expects, consumer_after_time};
ghost use Rattle.device_objects.specs.Consumers.{failures_at, moments};
ghost use Rattle.device_objects.specs.declared.consumer.Consumer.{Consumer as One};

/// A consumer that hasn't failed fails at its moment, and at no other.
#[tactic(auto, using(crate::proofs::ConsumerLemmas::fails_then, crate::proofs::ConsumerLemmas::fails_only_then))]
pub fn a_consumer_fails_at_its_moment()
    ensures then { (t : ℕ) (c : One) → c.moment ≡ Some t → (consumer_after_time t c).failed ≡ true }
    ensures only { (t : ℕ) (c : One) → c.failed ≡ false → (consumer_after_time t c).failed ≡ true → c.moment ≡ Some t }
{}

/// Once an error control frame of a node has come, no consumer that expects it has failed.
#[tactic(auto, using(crate::proofs::ConsumerLemmas::none_failed))]
pub fn who_was_heard_has_not_failed()
    ensures { (t producer : ℕ) (consumers : List One)
        → AllByRecursion (λ c. expects producer c.entry ≡ true → c.failed ≡ false)
        (consumers_after_heartbeat t producer consumers) }
{}

/// A consumer goes by the value of its sub-index: that with which the device starts, or the one written last.
#[tactic(auto, using(crate::proofs::ConsumerLemmas::all_go_by, crate::proofs::ConsumerLemmas::written_goes_by))]
pub fn a_consumer_goes_by_its_value()
    ensures first { (shape : Shaped) (values : Values)
        → AllByRecursion (λ c. c.entry ≡ consumer_entry values c.sub) (consumers_of shape values) }
    ensures written { (sub : ℕ) (values : Values) (consumers : List One)
        → AllByRecursion (λ c. c.sub ≡ sub → c.entry ≡ consumer_entry values sub)
        (consumers_after_write sub values consumers) }
{}

/// A consumer doesn't start before an error control frame of its node comes, and one that hasn't started
/// doesn't fail: without a frame there is no failure.
#[tactic(auto, using(crate::proofs::ConsumerLemmas::none_started, crate::proofs::ConsumerLemmas::none_fail, crate::proofs::ConsumerLemmas::none_change))]
pub fn a_consumer_that_has_not_started_does_not_fail()
    ensures started { (shape : Shaped) (values : Values)
        → AllByRecursion (λ c. c.moment ≡ None) (consumers_of shape values) }
    ensures count { (t : ℕ) (consumers : List One) → AllByRecursion (λ c. c.moment ≡ None) consumers
        → failures_at t consumers ≡ 0 }
    ensures kept { (t : ℕ) (consumers : List One) → AllByRecursion (λ c. c.moment ≡ None) consumers
        → consumers_after_time t consumers ≡ consumers }
{}

/// Where no consumer has its moment at t, none fails, and nothing changes.
#[tactic(auto, using(crate::proofs::ConsumerLemmas::quiet_count, crate::proofs::ConsumerLemmas::quiet_kept))]
pub fn quiet_between_moments()
    ensures count { (t : ℕ) (consumers : List One) → AllByRecursion (λ m. m ≢ t) (moments consumers)
        → failures_at t consumers ≡ 0 }
    ensures kept { (t : ℕ) (consumers : List One) → AllByRecursion (λ m. m ≢ t) (moments consumers)
        → consumers_after_time t consumers ≡ consumers }
{}
