//! What a project holds, and what edits do to it.
ghost use Rattle.std.specs.Prelude.{◌≡◌, ◌↔◌, ◌&&◌, ◌||◌, ◌==◌, not, is_some, IfOk, IsErrOf, IsTrue};
ghost use Rattle.project_edits.specs.Accepts.{Accepts};
ghost use Rattle.project_edits.specs.declared.edit.Edit.TheVariants as edit;
ghost use Rattle.project_edits.specs.Edits.{IsEdit};
ghost use Rattle.co_project.specs.Project.{accept, adds, first, has_controller};
ghost use Rattle.project_messages.specs.Messages.{have_receives};
ghost use Rattle.project_edits.specs.Versions.{is_three};

use crate::node_events::{is_named, is_of_known};
use crate::nodes::Nodes;
use crate::texts::Texts;
use base::{Octets, Shared};
use co_scenario::{Script, TimedEvent};
use project_edits::{Edit, EditFault, ManagerSettings, ScriptVersion, TimeStamps};
use project_messages::{Messages, Receive};
use std::alloc::{AllocError, Global};
use std::marker::Model;

/// What a project holds.
#[derive(Drop)]
pub(crate) struct Contents {
    pub alloc: Global,
    pub version: ScriptVersion,
    pub bitrate: u16,
    pub horizon: u32,
    pub manager: ManagerSettings,
    pub time_stamps: Option<TimeStamps>,
    pub sync_counter: u8,
    pub texts: Texts,
    pub nodes: Nodes,
    pub messages: Messages,
    pub events: Script,
}

impl Model for Contents {
    ghost use Rattle.project_edits.specs.contracts.manager_settings.ManagerSettings as settings;
    ghost use Rattle.project_edits.specs.contracts.script_version.ScriptVersion as numbered;
    ghost use Rattle.project_edits.specs.contracts.time_stamps.TimeStamps as stamped;
    ghost use Rattle.co_scenario.specs.contracts.timed_event.TimedEvent as timed;
    ghost use Rattle.co_project.specs.contracts.node.Node as node;
    ghost use Rattle.project_messages.specs.contracts.messages.Messages as linked;
    ghost use Rattle.co_project.specs.Project.{Content, content_code};

    ghost Value = { Content };

    ghost coded = { content_code numbered.the_row.coded settings.the_row.coded stamped.the_row.coded node.the_row.coded
        linked.the_row.coded timed.the_row.coded };

    ghost view = { λ c. record {
      version = c.version;
      bitrate = c.bitrate;
      horizon = c.horizon;
      manager = c.manager;
      time_stamps = c.time_stamps;
      sync_counter = c.sync_counter;
      texts = c.texts;
      nodes = c.nodes;
      messages = c.messages;
      events = c.events;
    } };
}

impl Contents {
    pub fn new(alloc: Global) -> Self
        ensures { result ≡ first }
    {
        Contents {
            alloc,
            version: ScriptVersion::One,
            bitrate: 1000,
            horizon: 1_000_000,
            manager: ManagerSettings {
                id: 127,
                sync_us: 0,
                heartbeat_ms: 0,
                timeout_ms: 500,
            },
            time_stamps: None,
            sync_counter: 0,
            texts: Texts::new(alloc),
            nodes: Nodes::new(alloc),
            messages: Messages::new(alloc),
            events: Script::new(alloc),
        }
    }

    /// Equal contents, whose texts of EDS are shared with these.
    pub fn copy(&self, alloc: Global) -> Result<Contents, AllocError>
        ensures { IfOk result (λ contents. contents ≡ self.now) }
    {
        let texts = self.texts.copy()?;
        let nodes = self.nodes.copy()?;
        let messages = self.messages.copy()?;
        let events = self.events.copy()?;
        Ok(Contents {
            alloc,
            version: self.version,
            bitrate: self.bitrate,
            horizon: self.horizon,
            manager: self.manager,
            time_stamps: self.time_stamps,
            sync_counter: self.sync_counter,
            texts,
            nodes,
            messages,
            events,
        })
    }

    /// Whether the others are the same, the texts of EDS compared last.
    pub fn same(&self, other: &Contents) -> bool
        ensures { IsTrue result ↔ (self.now ≡ other.now) }
    {
        self.version == other.version
            && self.bitrate == other.bitrate
            && self.horizon == other.horizon
            && self.manager == other.manager
            && self.time_stamps == other.time_stamps
            && self.sync_counter == other.sync_counter
            && self.nodes.same(&other.nodes)
            && self.messages.same(&other.messages)
            && self.events.same(&other.events)
            && self.texts.same(&other.texts)
    }

    /// Does an edit, or refuses it with the first fault that applies and changes nothing.
    #[tactic(auto, unfolding(crate::specs::Project::accept, crate::specs::Project::adds))]
    pub fn accept(&mut self, edit: Edit) -> Result<(), EditFault>
        requires { IsEdit edit }
        ensures accepts { Accepts self.old self.new result (accept self.old edit) }
        ensures memory { IsErrOf result EditFault.Memory → IsTrue (adds self.old edit) }
    {
        match edit {
            Edit::Version(version) => self.set_version(version),
            Edit::Bitrate(rate) => {
                self.bitrate = rate;
                Ok(())
            }
            Edit::Horizon(time) => {
                self.horizon = time;
                Ok(())
            }
            Edit::Manager(manager) => self.manage(manager),
            Edit::TimeStamps(stamps) => self.stamp(stamps),
            Edit::SyncCounter(last) => {
                self.sync_counter = last;
                Ok(())
            }
            Edit::Eds { name, text } => self.put_text(name, text),
            Edit::DropEds { name } => self.drop_text(name.as_slice()),
            Edit::Node { id, name, eds } => self.put_node(id, name, eds),
            Edit::Need { id, mandatory } => self.set_mandatory(id, mandatory),
            Edit::DropNode { id } => self.drop_node(id),
            Edit::Param {
                id,
                index,
                sub,
                text,
            } => self.nodes.put_param(id, index, sub, text),
            Edit::Unparam { id, index, sub } => self.nodes.drop_param(id, index, sub),
            Edit::Message { name, message } => self.put_message(name, message),
            Edit::Start { message, start } => self.set_start(message.as_slice(), start),
            Edit::DropMessage { name } => self.drop_message(name.as_slice()),
            Edit::Source {
                message,
                position,
                index,
                sub,
            } => self.put_source(message.as_slice(), position, index, sub),
            Edit::Unsource { message, position } => {
                self.drop_source(message.as_slice(), position)
            }
            Edit::Sink {
                message,
                position,
                node,
                index,
                sub,
            } => self.put_sink(message.as_slice(), position, node, index, sub),
            Edit::Unsink {
                message,
                position,
                node,
            } => self.drop_sink(message.as_slice(), position, node),
            Edit::Receive {
                message,
                node,
                rpdo,
                event,
            } => self.put_receive(message.as_slice(), node, Receive { rpdo, event }),
            Edit::Unreceive { message, node } => self.drop_receive(message.as_slice(), node),
            Edit::Event { number, event } => self.put_event(number, event),
            Edit::DropEvent { number } => self.drop_event(number),
        }
    }

    /// Whether the manager runs in a node: one has its number.
    pub(crate) fn has_controller(&self) -> bool
        ensures { result ≡ has_controller self.now }
    {
        self.nodes.contains(self.manager.id)
    }

    /// Whether something is there of which version 3 alone knows: a receive of a message, time stamps, or a node that
    /// the manager runs in.
    fn needs_three(&self) -> bool
        ensures { result ≡ have_receives self.now.messages || is_some self.now.time_stamps || has_controller self.now }
    {
        self.messages.have_receives() || self.time_stamps.is_some() || self.has_controller()
    }

    /// Gives the script another version: version 1 only where no node is mandatory, and version 3 alone where
    /// a message has a receive, the manager sends time stamps, or a node has its number.
    #[tactic(auto, unfolding(crate::specs::Project::accept, crate::specs::Project::adds))]
    fn set_version(&mut self, version: ScriptVersion) -> Result<(), EditFault>
        ensures accepts { Accepts self.old self.new result (accept self.old (edit.Version version)) }
        ensures memory { IsErrOf result EditFault.Memory → IsTrue (adds self.old (edit.Version version)) }
    {
        if version.is_one() && self.nodes.have_mandatory() {
            return Err(EditFault::InUse);
        }
        if !version.is_three() && self.needs_three() {
            return Err(EditFault::InUse);
        }
        self.version = version;
        Ok(())
    }

    /// Gives the manager other numbers: that of a node in version 3 alone.
    #[tactic(auto, unfolding(crate::specs::Project::accept, crate::specs::Project::adds))]
    fn manage(&mut self, manager: ManagerSettings) -> Result<(), EditFault>
        ensures accepts { Accepts self.old self.new result (accept self.old (edit.Manager manager)) }
        ensures memory { IsErrOf result EditFault.Memory → IsTrue (adds self.old (edit.Manager manager)) }
    {
        if !self.version.is_three() && self.nodes.contains(manager.id) {
            return Err(EditFault::Taken);
        }
        self.manager = manager;
        Ok(())
    }

    /// Has the manager send time stamps, or none, where the version knows them.
    #[tactic(auto, unfolding(crate::specs::Project::accept, crate::specs::Project::adds))]
    fn stamp(&mut self, stamps: Option<TimeStamps>) -> Result<(), EditFault>
        ensures accepts { Accepts self.old self.new result (accept self.old (edit.TimeStamps stamps)) }
        ensures memory { IsErrOf result EditFault.Memory → IsTrue (adds self.old (edit.TimeStamps stamps)) }
    {
        if !self.version.is_three() {
            return Err(EditFault::Range);
        }
        self.time_stamps = stamps;
        Ok(())
    }

    /// Gives a name a text, in place of the one that it has.
    #[tactic(auto, unfolding(crate::specs::Project::accept, crate::specs::Project::adds))]
    fn put_text(&mut self, name: Octets, text: Shared<Octets>) -> Result<(), EditFault>
        ensures accepts { Accepts self.old self.new result (accept self.old (edit.Eds name text)) }
        ensures memory { IsErrOf result EditFault.Memory → IsTrue (adds self.old (edit.Eds name text)) }
    {
        if self.texts.has_no_room(name.as_slice()) {
            return Err(EditFault::Limit);
        }
        self.texts.put(name, text)?;
        Ok(())
    }

    /// Takes a text away that no node uses.
    #[tactic(auto, unfolding(crate::specs::Project::accept, crate::specs::Project::adds))]
    fn drop_text(&mut self, name: &[u8]) -> Result<(), EditFault>
        ensures accepts { Accepts self.old self.new result (accept self.old (edit.DropEds name.now)) }
        ensures memory { IsErrOf result EditFault.Memory → IsTrue (adds self.old (edit.DropEds name.now)) }
    {
        if !self.texts.contains(name) {
            return Err(EditFault::Unknown);
        }
        if self.nodes.use_text(name) {
            return Err(EditFault::InUse);
        }
        self.texts.remove(name);
        Ok(())
    }

    /// Whether a number is the manager's alone: in version 3 a node can have it.
    fn is_managers(&self, id: u8) -> bool
        ensures { result ≡ not (is_three self.now.version) && (id == self.now.manager.id) }
    {
        !self.version.is_three() && id == self.manager.id
    }

    /// Gives a number a node, the manager's own in version 3 alone. A known one keeps all else that it has.
    #[tactic(auto, unfolding(crate::specs::Project::accept, crate::specs::Project::adds))]
    fn put_node(&mut self, id: u8, name: Octets, eds: Octets) -> Result<(), EditFault>
        ensures accepts { Accepts self.old self.new result (accept self.old (edit.Node id name eds)) }
        ensures memory { IsErrOf result EditFault.Memory → IsTrue (adds self.old (edit.Node id name eds)) }
    {
        if !self.texts.contains(eds.as_slice()) {
            return Err(EditFault::Unknown);
        }
        if self.is_managers(id) || self.nodes.name_taken(id, name.as_slice()) {
            return Err(EditFault::Taken);
        }
        self.nodes.put(self.alloc, id, name, eds)?;
        Ok(())
    }

    /// Makes a node mandatory or optional, where the version knows mandatory nodes.
    #[tactic(auto, unfolding(crate::specs::Project::accept, crate::specs::Project::adds))]
    fn set_mandatory(&mut self, id: u8, mandatory: bool) -> Result<(), EditFault>
        ensures accepts { Accepts self.old self.new result (accept self.old (edit.Need id mandatory)) }
        ensures memory { IsErrOf result EditFault.Memory → IsTrue (adds self.old (edit.Need id mandatory)) }
    {
        if self.version.is_one() {
            return Err(EditFault::Range);
        }
        if !self.nodes.contains(id) {
            return Err(EditFault::Unknown);
        }
        self.nodes.set_mandatory(id, mandatory);
        Ok(())
    }

    /// Takes a node away that no message names and no event is of, and its parameters with it.
    #[tactic(auto, unfolding(crate::specs::Project::accept, crate::specs::Project::adds))]
    fn drop_node(&mut self, id: u8) -> Result<(), EditFault>
        ensures accepts { Accepts self.old self.new result (accept self.old (edit.DropNode id)) }
        ensures memory { IsErrOf result EditFault.Memory → IsTrue (adds self.old (edit.DropNode id)) }
    {
        if !self.nodes.contains(id) {
            return Err(EditFault::Unknown);
        }
        if self.messages.concern(id)
            || self.messages.are_received(id)
            || is_named(&self.events, id)
        {
            return Err(EditFault::InUse);
        }
        self.nodes.remove(id);
        Ok(())
    }

    /// Gives a number an event, in place of the one that it has.
    #[tactic(auto, unfolding(crate::specs::Project::accept, crate::specs::Project::adds))]
    fn put_event(&mut self, number: u16, event: TimedEvent) -> Result<(), EditFault>
        ensures accepts { Accepts self.old self.new result (accept self.old (edit.Event number event)) }
        ensures memory { IsErrOf result EditFault.Memory → IsTrue (adds self.old (edit.Event number event)) }
    {
        if !is_of_known(&self.nodes, &event.event) {
            return Err(EditFault::Unknown);
        }
        self.events.put(number, event)?;
        Ok(())
    }

    /// Takes an event away.
    #[tactic(auto, unfolding(crate::specs::Project::accept, crate::specs::Project::adds))]
    fn drop_event(&mut self, number: u16) -> Result<(), EditFault>
        ensures accepts { Accepts self.old self.new result (accept self.old (edit.DropEvent number)) }
        ensures memory { IsErrOf result EditFault.Memory → IsTrue (adds self.old (edit.DropEvent number)) }
    {
        if self.events.get(number).is_none() {
            return Err(EditFault::Unknown);
        }
        self.events.remove(number);
        Ok(())
    }
}
