//! The edits of the network: its numbers, its EDS files, its nodes and their parameters.
ghost use Rattle.std.specs.Prelude.{◌≡◌, true, IfOk};
ghost use Rattle.base.specs.Gives.{Gives};
ghost use Rattle.project_edits.specs.Faults.{is_memory};
ghost use Rattle.cia301.specs.Limits.{is_node_number};
ghost use Rattle.script_commands.specs.Requests.{id_of, version_of, bitrate_of, horizon_of, manager_of, sync_counter_of};
ghost use Rattle.script_commands.specs.Requests.{time_period_of, drop_eds_of, node_of, is_mandatory, need_of, drop_node_of, param_of, unparam_of};

use crate::numbers::{decimal, index, sub_index};
use crate::words::{last_word, name, text};
use base::{Octets, next_word};
use project_edits::limits::{
    bit_rate, node_number, number_within, own_index, period, script_version, short,
    sync_counter as last_count, time,
};
use project_edits::{Command, Edit, EditFault, ManagerSettings, TimeStamps};
use std::alloc::Global;

/// The number of a node, which is the only word.
#[tactic(auto, unfolding(crate::specs::Requests::id_of))]
pub(crate) fn id(rest: &[u8]) -> Result<u8, EditFault>
    ensures value { Gives is_memory (λ n. n) result (id_of rest.now) }
    ensures within { IfOk result (λ n. is_node_number n ≡ true) }
{
    let id = decimal(last_word(rest)?)?;
    node_number(id)
}

/// `version V`
#[tactic(auto, unfolding(crate::specs::Requests::version_of, project_edits::specs::Edits::IsEdit))]
pub(crate) fn version(rest: &[u8]) -> Result<Command, EditFault>
    ensures { Gives is_memory (λ c. c) result (version_of rest.now) }
{
    let number = decimal(last_word(rest)?)?;
    let version = script_version(number)?;
    Ok(Command::new(Edit::Version(version)))
}

/// `bitrate K`, in kbit/s.
#[tactic(auto, unfolding(crate::specs::Requests::bitrate_of, project_edits::specs::Edits::IsEdit))]
pub(crate) fn bitrate(rest: &[u8]) -> Result<Command, EditFault>
    ensures { Gives is_memory (λ c. c) result (bitrate_of rest.now) }
{
    let rate = decimal(last_word(rest)?)?;
    let rate = bit_rate(rate)?;
    Ok(Command::new(Edit::Bitrate(rate)))
}

/// `horizon US`, in microseconds from power-on.
#[tactic(auto, unfolding(crate::specs::Requests::horizon_of, project_edits::specs::Edits::IsEdit))]
pub(crate) fn horizon(rest: &[u8]) -> Result<Command, EditFault>
    ensures { Gives is_memory (λ c. c) result (horizon_of rest.now) }
{
    let end = decimal(last_word(rest)?)?;
    let end = time(end)?;
    Ok(Command::new(Edit::Horizon(end)))
}

/// `manager ID SYNC_US HB_MS TIMEOUT_MS`
#[tactic(auto, unfolding(crate::specs::Requests::manager_of, project_edits::specs::Edits::IsEdit, project_edits::specs::Edits::IsManager))]
pub(crate) fn manager(rest: &[u8]) -> Result<Command, EditFault>
    ensures { Gives is_memory (λ c. c) result (manager_of rest.now) }
{
    let (id, rest) = next_word(rest);
    let (sync, rest) = next_word(rest);
    let (heartbeat, rest) = next_word(rest);
    let timeout = last_word(rest)?;
    let id = decimal(id)?;
    let sync = decimal(sync)?;
    let heartbeat = decimal(heartbeat)?;
    let timeout = decimal(timeout)?;
    let id = node_number(id)?;
    let sync = period(sync)?;
    let heartbeat = number_within(heartbeat, 0, 65_535)?;
    let timeout = number_within(timeout, 1, 65_535)?;
    Ok(Command::new(Edit::Manager(ManagerSettings {
        id,
        sync_us: sync,
        heartbeat_ms: heartbeat as u16,
        timeout_ms: timeout as u16,
    })))
}

/// `time-period US DAYS`
#[tactic(auto, unfolding(crate::specs::Requests::time_period_of, project_edits::specs::Edits::IsEdit, project_edits::specs::Edits::AreTimeStamps))]
pub(crate) fn time_period(rest: &[u8]) -> Result<Command, EditFault>
    ensures { Gives is_memory (λ c. c) result (time_period_of rest.now) }
{
    let (between, rest) = next_word(rest);
    let day = last_word(rest)?;
    let between = decimal(between)?;
    let day = decimal(day)?;
    let period_us = period(between)?;
    let first_day = short(day)?;
    let stamps = TimeStamps::new(period_us, first_day);
    Ok(Command::new(Edit::TimeStamps(stamps)))
}

/// `sync-counter N`
#[tactic(auto, unfolding(crate::specs::Requests::sync_counter_of, project_edits::specs::Edits::IsEdit))]
pub(crate) fn sync_counter(rest: &[u8]) -> Result<Command, EditFault>
    ensures { Gives is_memory (λ c. c) result (sync_counter_of rest.now) }
{
    let last = decimal(last_word(rest)?)?;
    let last = last_count(last)?;
    Ok(Command::new(Edit::SyncCounter(last)))
}

/// `drop-eds NAME`
#[tactic(auto, unfolding(crate::specs::Requests::drop_eds_of, project_edits::specs::Edits::IsEdit))]
pub(crate) fn drop_eds(alloc: Global, rest: &[u8]) -> Result<Command, EditFault>
    ensures { Gives is_memory (λ c. c) result (drop_eds_of rest.now) }
{
    let called = name(last_word(rest)?)?;
    let name = Octets::from_slice(alloc, called)?;
    Ok(Command::new(Edit::DropEds { name }))
}

/// `node ID NAME EDS`
#[tactic(auto, unfolding(crate::specs::Requests::node_of, project_edits::specs::Edits::IsEdit))]
pub(crate) fn node(alloc: Global, rest: &[u8]) -> Result<Command, EditFault>
    ensures { Gives is_memory (λ c. c) result (node_of rest.now) }
{
    let (id, rest) = next_word(rest);
    let (called, rest) = next_word(rest);
    let eds = last_word(rest)?;
    let id = decimal(id)?;
    let called = name(called)?;
    let eds = name(eds)?;
    let id = node_number(id)?;
    let name = Octets::from_slice(alloc, called)?;
    let eds = Octets::from_slice(alloc, eds)?;
    Ok(Command::new(Edit::Node { id, name, eds }))
}

/// `mandatory` or `optional`.
fn is_mandatory(word: &[u8]) -> Result<bool, EditFault>
    ensures { Gives is_memory (λ mandatory. mandatory) result (is_mandatory word.now) }
{
    if word == b"mandatory".as_slice() {
        Ok(true)
    } else if word == b"optional".as_slice() {
        Ok(false)
    } else {
        Err(EditFault::Syntax)
    }
}

/// `need ID mandatory` or `need ID optional`
#[tactic(auto, unfolding(crate::specs::Requests::need_of, project_edits::specs::Edits::IsEdit))]
pub(crate) fn need(rest: &[u8]) -> Result<Command, EditFault>
    ensures { Gives is_memory (λ c. c) result (need_of rest.now) }
{
    let (id, rest) = next_word(rest);
    let word = last_word(rest)?;
    let id = decimal(id)?;
    let mandatory = is_mandatory(word)?;
    let id = node_number(id)?;
    Ok(Command::new(Edit::Need { id, mandatory }))
}

/// `drop-node ID`
#[tactic(auto, unfolding(crate::specs::Requests::drop_node_of, project_edits::specs::Edits::IsEdit))]
pub(crate) fn drop_node(rest: &[u8]) -> Result<Command, EditFault>
    ensures { Gives is_memory (λ c. c) result (drop_node_of rest.now) }
{
    let id = id(rest)?;
    Ok(Command::new(Edit::DropNode { id }))
}

/// `param ID INDEX SUB TEXT`
#[tactic(auto, unfolding(crate::specs::Requests::param_of, project_edits::specs::Edits::IsEdit, project_edits::specs::Edits::IsSetting))]
pub(crate) fn param(alloc: Global, rest: &[u8]) -> Result<Command, EditFault>
    ensures { Gives is_memory (λ c. c) result (param_of rest.now) }
{
    let (id, rest) = next_word(rest);
    let (entry, rest) = next_word(rest);
    let (sub, rest) = next_word(rest);
    let id = decimal(id)?;
    let index = index(entry)?;
    let sub = sub_index(sub)?;
    let text = text(rest)?;
    let id = node_number(id)?;
    let index = own_index(index)?;
    let text = Octets::from_slice(alloc, text)?;
    Ok(Command::new(Edit::Param {
        id,
        index,
        sub,
        text,
    }))
}

/// `unparam ID INDEX SUB`
#[tactic(auto, unfolding(crate::specs::Requests::unparam_of, project_edits::specs::Edits::IsEdit))]
pub(crate) fn unparam(rest: &[u8]) -> Result<Command, EditFault>
    ensures { Gives is_memory (λ c. c) result (unparam_of rest.now) }
{
    let (id, rest) = next_word(rest);
    let (entry, rest) = next_word(rest);
    let sub = last_word(rest)?;
    let id = decimal(id)?;
    let index = index(entry)?;
    let sub = sub_index(sub)?;
    let id = node_number(id)?;
    Ok(Command::new(Edit::Unparam { id, index, sub }))
}
