//! The plan of messages, message by message.
ghost use Rattle.std.specs.FinMap as map;
ghost use Rattle.std.specs.Prelude.{◌≡◌, ◌∷◌, [], All, IfOk, IfSome, OnOk};
ghost use Rattle.pdo_stations.specs.Devices.{devices_of};
ghost use Rattle.pdo_plan.specs.Plan.{clean, clean_of, plan_of};
ghost use Rattle.pdo_choices.specs.Limits.{IsWithin};
ghost use Rattle.pdo_stations.specs.Shown.{nodes_of};
ghost use Rattle.pdo_choices.specs.Taken.{devices_known, had_in};
ghost use Rattle.pdo_plan.specs.Plan.{had_after};

use crate::judging::judge;
use crate::message_plan::Plan;
use crate::outcome::Outcome;
use crate::planned_message::PlannedMessage;
use base::Octets;
use eds_device::DataSheet;
use pdo_choices::Taken;
use pdo_stations::Stations;
use project_messages::Messages;
use std::alloc::{AllocError, Global};

/// Takes what a message has, if it is clean.
fn take_clean(taken: &mut Taken, outcome: &Outcome) -> Result<(), AllocError>
    requires { IfSome (clean_of outcome.now) IsWithin }
    ensures stations { OnOk result (devices_known taken.new ≡ devices_known taken.old) }
    ensures had { OnOk result (had_in taken.new ≡ had_after (had_in taken.old) outcome.now) }
{
    if let Outcome::Planned(clean) = outcome {
        taken.take(clean)?;
    }
    Ok(())
}

/// The plan of messages (CiA 301, PDOs), by the rules of version 3 or not: in order of name each is judged
/// against the clean ones before it alone, by what the devices of the nodes say, where the manager runs in this
/// one, if in any. A node that isn't listed has no entry; of two with one number the first counts.
///
/// Takes time by the number of the devices' entries, of the messages' sources and sinks and of their
/// consumers, and by the logarithms of these.
pub fn plan(
    alloc: Global,
    is_three: bool,
    controller: Option<u8>,
    nodes: &[(u8, &DataSheet)],
    messages: &Messages,
) -> Result<Plan, AllocError>
    ensures { IfOk result (λ plan. plan ≡ plan_of (devices_of is_three controller (nodes_of nodes.now))
        (map.entries messages.now)) }
{
    let stations = Stations::new(alloc, is_three, controller, nodes)?;
    let mut taken = Taken::new(alloc, stations, messages)?;
    let mut plan = Vec::new(alloc);
    'messages: for (name, linked) in messages.iter() {
        let outcome = judge(alloc, &taken, linked)?;
        take_clean(&mut taken, &outcome)?;
        let name = Octets::from_slice(alloc, name)?;
        plan.push(PlannedMessage { name, outcome })?;
    }
    Ok(Plan::new(plan))
}
