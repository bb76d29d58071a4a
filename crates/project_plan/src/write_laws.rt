//! Laws of all writes of a node of a sound project.
ghost use Rattle.std.specs.Prelude.{◌≡◌, ◌⊎◌, ℕ, Contains, IsTrue, true, false, [], ◌∷◌};
ghost use Rattle.byteorder.specs.Endian.{little_bytes};
ghost use Rattle.concise_dcf.specs.declared.write.Write.{Write as written};
ghost use Rattle.cia301.specs.PdoObjects.{is_of_pdos, rpdo_object, tpdo_object};
ghost use Rattle.project_edits.specs.Versions.{is_three};
ghost use Rattle.project_messages.specs.Messages.{is_of_messages};
ghost use Rattle.node_parameters.specs.Parameters.{parameter_writes};
ghost use Rattle.co_project.specs.Project.{Content};
ghost use Rattle.pdo_choices.specs.declared.clean.Clean.{Clean};
ghost use Rattle.pdo_choices.specs.declared.consumer.Consumer.{Consumer};
ghost use Rattle.pdo_stations.specs.Devices.{as_made};
ghost use Rattle.pdo_links.specs.Order.{IsConfigured, IsConfiguredAsMade};
ghost use Rattle.pdo_links.specs.PdoWrites.{write_at};
ghost use Rattle.project_plan.specs.Network.{plan_of_project, writes_of, Member};
ghost use Rattle.project_plan.specs.Nodes.{IsSoundNode, Sends, Takes};
ghost use Rattle.project_plan.specs.Pdos.{IsOfSent, IsOfTaken, IsOfUnused, StandsByDefault, sent_writes, taken_writes};
ghost use Rattle.project_plan.specs.Pdos.{to_pdo};

/// Among all writes of a node those to a PDO by which it sends or takes a message are the writes of
/// this message, in their order, and no others.
pub fn the_writes_to_a_pdo_are_those_of_its_message()
    ensures sent { (project : Content) (id : ℕ) (m : Member) (c : Clean)
        → IsSoundNode project id m → Sends project id c
        → to_pdo (tpdo_object c.message.tpdo) (writes_of project m id) ≡ sent_writes project m id c }
    ensures taken { (project : Content) (id : ℕ) (m : Member) (c : Clean) (k : Consumer)
        → IsSoundNode project id m → Takes project id c k
        → to_pdo (rpdo_object k.rpdo) (writes_of project m id) ≡ taken_writes project m id c k }
{}

/// So in versions 1 and 2 among all writes of a node each PDO is configured only while it is off (CiA 301),
/// and its mapping entries are written behind the count 0 and before the count of them; in the end it is on
/// with its identifier.
pub fn a_nodes_pdos_are_configured_while_they_are_off()
    ensures sent { (project : Content) (id : ℕ) (m : Member) (c : Clean) → is_three project.version ≡ false
        → IsSoundNode project id m → Sends project id c
        → IsConfigured (tpdo_object c.message.tpdo) c.identifier c.mapping
        (to_pdo (tpdo_object c.message.tpdo) (writes_of project m id)) }
    ensures taken { (project : Content) (id : ℕ) (m : Member) (c : Clean) (k : Consumer)
        → is_three project.version ≡ false → IsSoundNode project id m → Takes project id c k
        → IsConfigured (rpdo_object k.rpdo) c.identifier k.mapping
        (to_pdo (rpdo_object k.rpdo) (writes_of project m id)) }
{}

/// In version 3 each PDO is configured as its vendor made it: an open one while it is off, with its mapping where that can
/// be written, and of a closed one transmission type and event timer alone.
pub fn a_nodes_pdos_are_configured_as_their_vendors_made_them()
    ensures sent { (project : Content) (id : ℕ) (m : Member) (c : Clean) → is_three project.version ≡ true
        → IsSoundNode project id m → Sends project id c
        → IsConfiguredAsMade (as_made m.sheet id) (tpdo_object c.message.tpdo) c.identifier c.mapping
        (to_pdo (tpdo_object c.message.tpdo) (writes_of project m id)) }
    ensures taken { (project : Content) (id : ℕ) (m : Member) (c : Clean) (k : Consumer)
        → is_three project.version ≡ true → IsSoundNode project id m → Takes project id c k
        → IsConfiguredAsMade (as_made m.sheet id) (rpdo_object k.rpdo) c.identifier k.mapping
        (to_pdo (rpdo_object k.rpdo) (writes_of project m id)) }
{}

/// No PDO is missing: each write of a message that a node sends or takes is among the node's writes.
pub fn no_pdo_of_a_node_is_missing()
    ensures sent { (project : Content) (id : ℕ) (m : Member) (c : Clean) (w : written)
        → IsSoundNode project id m → Sends project id c
        → Contains (sent_writes project m id c) w → Contains (writes_of project m id) w }
    ensures taken { (project : Content) (id : ℕ) (m : Member) (c : Clean) (k : Consumer) (w : written)
        → IsSoundNode project id m → Takes project id c k
        → Contains (taken_writes project m id c k) w → Contains (writes_of project m id) w }
{}

/// What a message asks of the TPDO that sends it is written, or in version 3 stands there by default: inhibit
/// time, event timer and SYNC start value, each where it isn't 0 (CiA 301, PDO communication parameter).
pub fn what_a_message_asks_of_its_tpdo_is_written()
    ensures inhibit { (project : Content) (id : ℕ) (m : Member) (c : Clean)
        → IsSoundNode project id m → Sends project id c → (c.message.inhibit ≡ 0 → ⊥) → Contains (writes_of project m id)
        (write_at (tpdo_object c.message.tpdo) 3 (little_bytes 2 c.message.inhibit))
        ⊎ StandsByDefault project m id c 3 c.message.inhibit }
    ensures event { (project : Content) (id : ℕ) (m : Member) (c : Clean)
        → IsSoundNode project id m → Sends project id c → (c.message.event ≡ 0 → ⊥) → Contains (writes_of project m id)
        (write_at (tpdo_object c.message.tpdo) 5 (little_bytes 2 c.message.event))
        ⊎ StandsByDefault project m id c 5 c.message.event }
    ensures start { (project : Content) (id : ℕ) (m : Member) (c : Clean)
        → IsSoundNode project id m → Sends project id c → (c.start ≡ 0 → ⊥) → Contains (writes_of project m id)
        (write_at (tpdo_object c.message.tpdo) 6 (c.start ∷ []))
        ⊎ StandsByDefault project m id c 6 c.start }
{}

/// The writes of a node to the objects of PDOs are those of the clean messages that it sends or takes, and in
/// version 3 those that switch off PDOs by which it sends and takes none; in versions 1 and 2 a node that no message
/// names gets its parameters alone.
pub fn the_writes_to_pdos_are_those_of_the_nodes_messages()
    ensures of_messages { (project : Content) (id : ℕ) (m : Member) (w : written) → IsSoundNode project id m
        → Contains (writes_of project m id) w → IsTrue (is_of_pdos w.index)
        → IsOfSent project m id w ⊎ (IsOfTaken project m id w ⊎ IsOfUnused project m id w) }
    ensures alone { (project : Content) (id : ℕ) (m : Member) → is_three project.version ≡ false
        → is_of_messages id project.messages ≡ false
        → writes_of project m id ≡ parameter_writes m.sheet m.node.params id }
{}
