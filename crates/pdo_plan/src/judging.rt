//! What is said of one message.
ghost use Rattle.std.specs.Prelude.{◌≡◌, ◌≤◌, length, filter_map, IfOk, Some};
ghost use Rattle.project_messages.specs.Messages.{IsLinked};
ghost use Rattle.pdo_plan.specs.Carried.{consumer_by, clean_by};
ghost use Rattle.pdo_plan.specs.Plan.{judged_message};
ghost use Rattle.pdo_choices.specs.Taken.{devices_known, had_in};

use crate::faults::faults;
use crate::outcome::Outcome;
use pdo_choices::{
    Clean, Consumer, Listed, Taken, Wish, consumers_of, event_named, identifiers_of, rpdo_by,
};
use pdo_stations::{carried_sources, sent_mapping, taken_mapping};
use project_messages::Linked;
use std::alloc::{AllocError, Global};

/// A consumer with its RPDO, what that maps and its event time, where it has one.
#[tactic(auto, unfolding(crate::specs::Carried::consumer_by))]
fn consumer_by(
    alloc: Global,
    taken: &Taken,
    wish: &Wish,
    node: u8,
) -> Result<Option<Consumer>, AllocError>
    requires linked { IsLinked wish.now.linked.now }
    requires few { length wish.now.carried.now ≤ 64 }
    ensures { let w = wish.now in IfOk result (λ consumer. consumer ≡ consumer_by (had_in taken.now)
        (devices_known taken.now) w.linked.now w.carried.now w.identifier node) }
{
    let Some(rpdo) = rpdo_by(taken, wish, node) else {
        return Ok(None);
    };
    let linked = wish.linked;
    let stations = &taken.known.stations;
    let mapping = taken_mapping(alloc, stations, &linked.sinks, node, wish.carried)?;
    Ok(Some(Consumer {
        node,
        rpdo,
        mapping: Listed::from_vec(mapping),
        event: event_named(linked, node),
    }))
}

/// The consumers that have an RPDO for the message.
fn planned_consumers(
    alloc: Global,
    taken: &Taken,
    wish: &Wish,
    nodes: &[u8],
) -> Result<Listed<Consumer>, AllocError>
    requires linked { IsLinked wish.now.linked.now }
    requires few { length wish.now.carried.now ≤ 64 }
    ensures { let w = wish.now in IfOk result (λ consumers. consumers ≡ filter_map (consumer_by (had_in taken.now)
        (devices_known taken.now) w.linked.now w.carried.now w.identifier) nodes.now) }
{
    let mut consumers = Vec::new(alloc);
    for node in nodes {
        if let Some(consumer) = consumer_by(alloc, taken, wish, *node)? {
            consumers.push(consumer)?;
        }
    }
    Ok(Listed::from_vec(consumers))
}

/// A message that can be sent with this identifier, the one of the wish.
fn clean(
    alloc: Global,
    taken: &Taken,
    wish: &Wish,
    nodes: &[u8],
    identifier: u16,
) -> Result<Clean, AllocError>
    requires linked { IsLinked wish.now.linked.now }
    requires few { length wish.now.carried.now ≤ 64 }
    requires identifier { wish.now.identifier ≡ Some identifier }
    ensures { let w = wish.now in IfOk result (λ clean. clean ≡ clean_by (had_in taken.now)
        (devices_known taken.now) w.linked.now w.carried.now nodes.now identifier) }
{
    let linked = wish.linked;
    let mapping = sent_mapping(alloc, wish.carried)?;
    let consumers = planned_consumers(alloc, taken, wish, nodes)?;
    Ok(Clean {
        message: linked.message,
        start: linked.start,
        identifier,
        mapping: Listed::from_vec(mapping),
        consumers,
    })
}

/// What is said of a message.
pub(crate) fn judge(alloc: Global, taken: &Taken, linked: &Linked) -> Result<Outcome, AllocError>
    requires { IsLinked linked.now }
    ensures { IfOk result (λ outcome. outcome ≡ judged_message (had_in taken.now)
        (devices_known taken.now) linked.now) }
{
    let stations = &taken.known.stations;
    let carried = carried_sources(alloc, stations, linked.message.node, &linked.sources)?;
    let named = consumers_of(alloc, &linked.sinks)?;
    let nodes = named.as_slice();
    let identifiers = identifiers_of(taken, &linked.message);
    let wish = Wish {
        linked,
        carried: carried.as_slice(),
        identifier: identifiers.sought,
    };
    let faults = faults(alloc, taken, &wish, nodes, identifiers.own.is_some())?;
    match identifiers.own {
        Some(identifier) if faults.as_slice().is_empty() => {
            let clean = clean(alloc, taken, &wish, nodes, identifier)?;
            Ok(Outcome::Planned(clean))
        }
        _ => Ok(Outcome::Faulty(faults)),
    }
}
