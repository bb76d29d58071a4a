//! Laws of the writes of a node.
ghost use Rattle.std.specs.Prelude.{◌≡◌, ◌≤◌, ◌⊎◌, ℕ, true, false, List, length, All, None, Contains, IsTrue};
ghost use Rattle.concise_dcf.specs.declared.write.Write.{Write as written};
ghost use Rattle.cia301.specs.PdoObjects.{is_of_pdos, rpdo_object, tpdo_object};
ghost use Rattle.std.specs.FinMap as map;
ghost use Rattle.eds_device.specs.Sheets.{Sheet};
ghost use Rattle.node_parameters.specs.Params.{Texts};
ghost use Rattle.node_parameters.specs.Parameters.{parameter_writes};
ghost use Rattle.pdo_choices.specs.declared.clean.Clean.{Clean};
ghost use Rattle.pdo_choices.specs.declared.consumer.Consumer.{Consumer};
ghost use Rattle.pdo_plan.specs.declared.planned_message.PlannedMessage.{PlannedMessage};
ghost use Rattle.pdo_stations.specs.declared.as_made.AsMade.{AsMade as Made};
ghost use Rattle.pdo_stations.specs.Devices.{as_made};
ghost use Rattle.pdo_choices.specs.Limits.{IsWithin};
ghost use Rattle.pdo_plan.specs.Plan.{clean};
ghost use Rattle.pdo_links.specs.Order.{IsConfigured, IsOfSent, IsOfTaken, IsNamedByNone, IsSentAlone, IsTakenAlone};
ghost use Rattle.pdo_links.specs.Order.{IsConfiguredAsMade, IsOfSentAsMade, IsOfTakenAsMade, IsOfUnused, TurnsOff};
ghost use Rattle.pdo_links.specs.VendorWrites.{unused_writes, vendor_rpdo_writes, vendor_tpdo_writes};
ghost use Rattle.pdo_links.specs.Writes.{tpdo_writes, rpdo_writes, node_writes};

/// A PDO is configured only while it is off (CiA 301): each write of it stands behind that of a
/// COB-ID with bit 31 set and before that of one with bit 31 clear, which has its identifier. Its
/// mapping entries are written behind the count 0 and before the count of them.
pub fn a_pdo_is_configured_while_it_is_off()
    ensures tpdo { (sheet : Sheet) (node : ℕ) (c : Clean) → IsWithin c
        → IsConfigured (tpdo_object c.message.tpdo) c.identifier c.mapping (tpdo_writes sheet node c) }
    ensures rpdo { (c : Clean) (k : Consumer) → IsWithin c
        → IsConfigured (rpdo_object k.rpdo) c.identifier k.mapping (rpdo_writes c k) }
{}

/// The writes to the objects of PDOs are those of the clean messages that the node sends or takes,
/// where its parameters are of other objects; a node that no clean message names gets its parameters
/// alone.
#[tactic(auto, using(crate::proofs::WhoseLemmas::parameters_alone))]
pub fn the_writes_to_pdos_are_those_of_the_nodes_messages()
    ensures of_messages { (plan : List PlannedMessage) (params : Texts) (sheet : Sheet) (node : ℕ) (w : written)
        → ((place : ℕ × ℕ) → IsTrue (is_of_pdos place.0) → map.get params place ≡ None)
        → Contains (node_writes false plan params sheet node) w → IsTrue (is_of_pdos w.index)
        → IsOfSent (clean plan) sheet node w ⊎ IsOfTaken (clean plan) node w }
    ensures alone { (plan : List PlannedMessage) (params : Texts) (sheet : Sheet) (node : ℕ)
        → IsNamedByNone (clean plan) node → node_writes false plan params sheet node ≡ parameter_writes sheet params node }
{}

/// No PDO is missing: each write of a TPDO by which the node sends a clean message, and of an RPDO by
/// which it takes one, is among the node's writes, where no other of the messages has that PDO.
pub fn no_pdo_of_a_node_is_missing()
    ensures sent { (plan : List PlannedMessage) (params : Texts) (sheet : Sheet) (node : ℕ) (c : Clean)
        (w : written)
        → IsSentAlone (clean plan) node c → Contains (tpdo_writes sheet node c) w
        → Contains (node_writes false plan params sheet node) w }
    ensures taken { (plan : List PlannedMessage) (params : Texts) (sheet : Sheet) (node : ℕ) (c : Clean)
        (k : Consumer) (w : written)
        → IsTakenAlone (clean plan) node c k → Contains (rpdo_writes c k) w
        → Contains (node_writes false plan params sheet node) w }
{}

/// In version 3 a PDO is configured as its device lets it be: an open one while it is off, and mapped behind the count
/// 0 and before the count of its entries, where its mapping can be written. Of a closed one transmission type and
/// event timer alone are written, and nothing of a mapping that stands.
pub fn a_pdo_is_configured_as_its_vendor_made_it()
    ensures tpdo { (device : Made) (c : Clean) → IsWithin c
        → IsConfiguredAsMade device (tpdo_object c.message.tpdo) c.identifier c.mapping
        (vendor_tpdo_writes device c) }
    ensures rpdo { (device : Made) (c : Clean) (k : Consumer) → IsWithin c
        → IsConfiguredAsMade device (rpdo_object k.rpdo) c.identifier k.mapping (vendor_rpdo_writes device c k) }
{}

/// A PDO that no message uses gets in version 3 at most the write that switches it off, with the COB-ID that it has by
/// default.
pub fn an_unused_pdo_is_switched_off_at_most()
    ensures one { (device : Made) (object : ℕ) → length (unused_writes device object) ≤ 1 }
    ensures off { (device : Made) (object : ℕ) → All (TurnsOff device object) (unused_writes device object) }
{}

/// In version 3 the writes to the objects of PDOs are those of the clean messages that the node sends or takes, and
/// those that switch off what none uses, where its parameters are of other objects.
pub fn in_version_3_the_writes_to_pdos_are_of_messages_or_switch_off()
    ensures { (plan : List PlannedMessage) (params : Texts) (sheet : Sheet) (node : ℕ) (w : written)
        → ((place : ℕ × ℕ) → IsTrue (is_of_pdos place.0) → map.get params place ≡ None)
        → Contains (node_writes true plan params sheet node) w → IsTrue (is_of_pdos w.index)
        → IsOfSentAsMade (clean plan) (as_made sheet node) node w ⊎ IsOfTakenAsMade (clean plan) (as_made sheet node) node w
        ⊎ IsOfUnused (clean plan) (as_made sheet node) node w }
{}

/// In version 3 no PDO is missing: neither one by which the node alone sends or takes a clean message, nor one that
/// none uses and that can be switched off.
pub fn in_version_3_no_pdo_of_a_node_is_missing()
    ensures sent { (plan : List PlannedMessage) (params : Texts) (sheet : Sheet) (node : ℕ) (w : written) (c : Clean)
        → IsSentAlone (clean plan) node c → Contains (vendor_tpdo_writes (as_made sheet node) c) w
        → Contains (node_writes true plan params sheet node) w }
    ensures taken { (plan : List PlannedMessage) (params : Texts) (sheet : Sheet) (node : ℕ) (w : written)
        (c : Clean) (k : Consumer)
        → IsTakenAlone (clean plan) node c k → Contains (vendor_rpdo_writes (as_made sheet node) c k) w
        → Contains (node_writes true plan params sheet node) w }
    ensures unused { (plan : List PlannedMessage) (params : Texts) (sheet : Sheet) (node : ℕ) (w : written)
        → IsOfUnused (clean plan) (as_made sheet node) node w → Contains (node_writes true plan params sheet node) w }
{}
