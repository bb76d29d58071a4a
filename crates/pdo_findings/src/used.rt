//! The PDOs of a node that messages use, and the identifiers that other nodes send.
ghost use Rattle.std.specs.Prelude.{◌≡◌, ◌==◌, ◌&&◌, ◌||◌, not, ℕ, IfOk, OnOk};
ghost use Rattle.std.specs.BTreeSet.{contains};
ghost use Rattle.std.specs.List.{list_any};
ghost use Rattle.std.specs.Ordering.{nat_cmp};
ghost use Rattle.pdo_choices.specs.Had.{is_at_node};
ghost use Rattle.pdo_findings.specs.Findings.{is_sent_to, of_clean, uses_rpdo, uses_tpdo};

use pdo_links::{Consumer, Outcome, Plan, PlannedMessage};
use std::alloc::{AllocError, Global};
use std::collections::BTreeSet;

/// Takes the number of the TPDO by which a node sends a message, if it does and the message is clean.
fn use_tpdo(
    numbers: &mut BTreeSet<u16>,
    planned: &PlannedMessage,
    node: u8,
) -> Result<(), AllocError>
    ensures { OnOk result ((n : ℕ) → contains nat_cmp numbers.new n ≡ (contains nat_cmp numbers.old n
        || of_clean (λ c. (c.message.node == node) && (c.message.tpdo == n)) planned.now)) }
{
    if let Outcome::Planned(clean) = &planned.outcome {
        if clean.message.node == node {
            numbers.insert(clean.message.tpdo)?;
        }
    }
    Ok(())
}

/// The numbers of the TPDOs by which a node sends clean messages of a plan.
pub(crate) fn used_tpdos(alloc: Global, plan: &Plan, node: u8) -> Result<BTreeSet<u16>, AllocError>
    ensures { IfOk result (λ numbers. (n : ℕ) → contains nat_cmp numbers n ≡ uses_tpdo plan.now node n) }
{
    let mut numbers = BTreeSet::new(alloc);
    for planned in plan.messages() {
        use_tpdo(&mut numbers, planned, node)?;
    }
    Ok(numbers)
}

/// Takes the numbers of the RPDOs by which a node is among consumers.
fn use_consumers(
    numbers: &mut BTreeSet<u16>,
    consumers: &[Consumer],
    node: u8,
) -> Result<(), AllocError>
    ensures { OnOk result ((n : ℕ) → contains nat_cmp numbers.new n ≡ (contains nat_cmp numbers.old n
        || list_any (is_at_node node n) consumers.now)) }
{
    for consumer in consumers {
        use_consumer(numbers, consumer, node)?;
    }
    Ok(())
}

/// Takes the number of a consumer's RPDO, if it is this node.
fn use_consumer(
    numbers: &mut BTreeSet<u16>,
    consumer: &Consumer,
    node: u8,
) -> Result<(), AllocError>
    ensures { OnOk result ((n : ℕ) → contains nat_cmp numbers.new n ≡ (contains nat_cmp numbers.old n
        || is_at_node node n consumer.now)) }
{
    if consumer.node == node {
        numbers.insert(consumer.rpdo)?;
    }
    Ok(())
}

/// Takes the numbers of the RPDOs by which a node takes a message, if that is clean.
fn use_rpdos(
    numbers: &mut BTreeSet<u16>,
    planned: &PlannedMessage,
    node: u8,
) -> Result<(), AllocError>
    ensures { OnOk result ((n : ℕ) → contains nat_cmp numbers.new n ≡ (contains nat_cmp numbers.old n
        || of_clean (λ c. list_any (is_at_node node n) c.consumers) planned.now)) }
{
    match &planned.outcome {
        Outcome::Planned(clean) => use_consumers(numbers, clean.consumers.as_slice(), node),
        Outcome::Faulty(_faults) => Ok(()),
    }
}

/// The numbers of the RPDOs by which a node takes clean messages of a plan.
pub(crate) fn used_rpdos(alloc: Global, plan: &Plan, node: u8) -> Result<BTreeSet<u16>, AllocError>
    ensures { IfOk result (λ numbers. (n : ℕ) → contains nat_cmp numbers n ≡ uses_rpdo plan.now node n) }
{
    let mut numbers = BTreeSet::new(alloc);
    for planned in plan.messages() {
        use_rpdos(&mut numbers, planned, node)?;
    }
    Ok(numbers)
}

/// Takes the identifier of a message of another node, if that is clean.
fn hear(
    identifiers: &mut BTreeSet<u16>,
    planned: &PlannedMessage,
    node: u8,
) -> Result<(), AllocError>
    ensures { OnOk result ((n : ℕ) → contains nat_cmp identifiers.new n ≡ (contains nat_cmp identifiers.old n
        || of_clean (λ c. (c.identifier == n) && not (c.message.node == node)) planned.now)) }
{
    if let Outcome::Planned(clean) = &planned.outcome {
        if clean.message.node != node {
            identifiers.insert(clean.identifier)?;
        }
    }
    Ok(())
}

/// The identifiers of the clean messages of a plan that other nodes send.
pub(crate) fn heard_identifiers(
    alloc: Global,
    plan: &Plan,
    node: u8,
) -> Result<BTreeSet<u16>, AllocError>
    ensures { IfOk result (λ identifiers. (n : ℕ)
        → contains nat_cmp identifiers n ≡ is_sent_to plan.now node n) }
{
    let mut identifiers = BTreeSet::new(alloc);
    for planned in plan.messages() {
        hear(&mut identifiers, planned, node)?;
    }
    Ok(identifiers)
}
