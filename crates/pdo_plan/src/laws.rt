//! Laws of the plan, each a function whose contract is the law.
ghost use Rattle.std.specs.Prelude.{◌≡◌, ◌≤◌, ◌==◌, ℕ, false, true, List, [], length, take, All, Option, Some};
ghost use Rattle.std.specs.Prelude.{IsFalse, slice_get};
ghost use Rattle.std.specs.FinMap as map;
ghost use Rattle.std.specs.Map.{lookup};
ghost use Rattle.cia301.specs.CobIds.{is_restricted};
ghost use Rattle.eds_device.specs.Sheets.{Sheet};
ghost use Rattle.project_messages.specs.Messages.{is_of_messages, Named, IsLinked};
ghost use Rattle.project_messages.specs.declared.linked.Linked.{Linked};
ghost use Rattle.pdo_choices.specs.declared.clean.Clean.{Clean as Sent};
ghost use Rattle.pdo_choices.specs.declared.consumer.Consumer.{Consumer as Taker};
ghost use Rattle.pdo_plan.specs.declared.message_fault.MessageFault.{MessageFault as Fault};
ghost use Rattle.pdo_plan.specs.declared.outcome.Outcome.TheVariants as says;
ghost use Rattle.pdo_plan.specs.declared.planned_message.PlannedMessage.{PlannedMessage as Said};
ghost use Rattle.pdo_stations.specs.Devices.{Devices, devices_of};
ghost use Rattle.pdo_stations.specs.declared.as_made.AsMade.{AsMade};
ghost use Rattle.pdo_choices.specs.Had.{Had, had_by, withheld_by};
ghost use Rattle.pdo_choices.specs.Identifiers.{identifier_for};
ghost use Rattle.pdo_plan.specs.Plan.{faults, judged_message, planned_message, clean};
ghost use Rattle.pdo_plan.specs.Plan.{IsServed};
ghost use Rattle.pdo_plan.specs.Plan.{plan_of, FitFrames, IsMadeFor};

/// A message is clean where it has no fault, and else all its faults are said.
pub fn a_message_without_a_fault_is_clean()
    ensures clean { (had : Had) (devices : Devices) (m : Linked) (c : Sent)
        → judged_message had devices m ≡ says.Planned c
        → (faults had devices m ≡ []) × (identifier_for had devices m.message ≡ Some c.identifier) }
    ensures faulty { (had : Had) (devices : Devices) (m : Linked) (fs : List Fault)
        → judged_message had devices m ≡ says.Faulty fs
        → (fs ≡ faults had devices m) × (1 ≤ length fs) }
{}

/// In version 3 the PDOs of a clean message serve it: what is wanted of each can be written or stands by default.
#[tactic(auto, using(crate::proofs::ServedLemmas::served))]
pub fn the_pdos_of_a_clean_message_serve_it()
    ensures { (had : Had) (devices : Devices) (made : ℕ → Option AsMade) (m : Linked) (c : Sent)
        → devices.vendor ≡ Some made → judged_message had devices m ≡ says.Planned c → IsServed devices made m c }
{}

/// Each message is judged against the clean ones before it alone.
#[tactic(auto, using(crate::proofs::PlaceLemmas::plan_count, crate::proofs::PlaceLemmas::plan_at))]
pub fn each_is_judged_against_the_clean_ones_before_it()
    ensures count { (devices : Devices) (ms : List (List ℕ × Linked)) → length (plan_of devices ms) ≡ length ms }
    ensures judged { (devices : Devices) (ms : List (List ℕ × Linked)) (k : ℕ) (p : Said)
        → slice_get (plan_of devices ms) k ≡ Some p
        → (m : List ℕ × Linked) × (slice_get ms k ≡ Some m)
        × (p ≡ planned_message (had_by (withheld_by devices ms) (clean (take k (plan_of devices ms)))) devices m) }
{}

/// No two clean messages share an identifier.
#[tactic(auto, using(crate::proofs::FreeLemmas::identifiers_apart))]
pub fn no_identifier_is_had_twice()
    ensures { (devices : Devices) (ms : List (List ℕ × Linked)) (i j : ℕ) (c d : Sent)
        → slice_get (clean (plan_of devices ms)) i ≡ Some c → slice_get (clean (plan_of devices ms)) j ≡ Some d
        → c.identifier ≡ d.identifier → i ≡ j }
{}

/// No node has one TPDO number in two clean messages.
#[tactic(auto, using(crate::proofs::FreeLemmas::tpdos_apart))]
pub fn no_tpdo_is_had_twice()
    ensures { (devices : Devices) (ms : List (List ℕ × Linked)) (i j : ℕ) (c d : Sent)
        → slice_get (clean (plan_of devices ms)) i ≡ Some c → slice_get (clean (plan_of devices ms)) j ≡ Some d
        → c.message.node ≡ d.message.node → c.message.tpdo ≡ d.message.tpdo → i ≡ j }
{}

/// No node has one RPDO number twice.
#[tactic(auto, using(crate::proofs::FreeLemmas::rpdos_apart))]
pub fn no_rpdo_is_had_twice()
    ensures { (devices : Devices) (ms : List (List ℕ × Linked)) (i j a b : ℕ) (c d : Sent) (k l : Taker)
        → slice_get (clean (plan_of devices ms)) i ≡ Some c → slice_get (clean (plan_of devices ms)) j ≡ Some d
        → slice_get c.consumers a ≡ Some k → slice_get d.consumers b ≡ Some l
        → k.node ≡ l.node → k.rpdo ≡ l.rpdo → (i ≡ j) × (a ≡ b) }
{}

/// No clean message has a restricted identifier.
#[tactic(auto, using(crate::proofs::MadeLemmas::none_restricted))]
pub fn no_clean_identifier_is_restricted()
    ensures { (devices : Devices) (ms : List (List ℕ × Linked)) → All (λ (e : List ℕ × Linked). IsLinked e.1) ms
        → All (λ (c : Sent). IsFalse (is_restricted c.identifier)) (clean (plan_of devices ms)) }
{}

/// What a clean message maps fits a frame, at its sender and at each consumer.
pub fn mappings_fit_frames()
    ensures { (devices : Devices) (ms : List (List ℕ × Linked)) → All FitFrames (clean (plan_of devices ms)) }
{}

/// Each PDO that the plan gives a node is one that its device has.
pub fn plans_are_made_for_their_devices()
    ensures { (controller : Option ℕ) (nodes : List (ℕ × Sheet)) (ms : List (List ℕ × Linked)) (node : ℕ) (sheet : Sheet)
        → lookup (λ n. n == node) nodes ≡ Some sheet
        → IsMadeFor (plan_of (devices_of false controller nodes) ms) sheet node }
{}

/// The plan asks only of the nodes that its messages name: those that send a message, or take a part
/// of one.
pub fn the_plan_asks_only_of_the_nodes_that_messages_name()
    ensures { (controller : Option ℕ) (a b : List (ℕ × Sheet)) (messages : Named)
        → ((node : ℕ) → is_of_messages node messages ≡ true → lookup (λ n. n == node) a ≡ lookup (λ n. n == node) b)
        → plan_of (devices_of false controller a) (map.entries messages)
        ≡ plan_of (devices_of false controller b) (map.entries messages) }
{}
