//! The project.
ghost use Rattle.std.specs.Prelude.{◌≡◌, ◌↔◌, IfOk, IfSome, IsErrOf, IsTrue, Ok, option_copied};
ghost use Rattle.std.specs.FinMap as map;
ghost use Rattle.eds_device.specs.Faults.{device_of};
ghost use Rattle.ini_text.specs.Content.{content_of};
ghost use Rattle.project_edits.specs.Accepts.{Accepts};
ghost use Rattle.project_messages.specs.Messages.{by_name};
ghost use Rattle.co_project.specs.Tables.{text_at, node_at};
ghost use Rattle.co_project.specs.Project.{accept, adds, controller_of, first, is_controller};
ghost use Rattle.co_project.specs.Sound.{IsSound};

use crate::contents::Contents;
use crate::node::Node;
use base::{Octets, Shared};
use co_scenario::Script;
use project_edits::{Command, EditFault, ManagerSettings, ScriptVersion, TimeStamps};
use project_messages::Messages;
use std::alloc::{AllocError, Global};
use std::collections::btree_map::Iter;
use std::marker::Model;

/// A project: the version of its script, the bit rate, the horizon, the manager, its time stamps, the last
/// number of the SYNC counter, the texts of EDS by name, the nodes by number with their parameters, the
/// messages by name, and the events by number.
#[derive(Drop)]
pub struct Project {
    contents: Contents,
}

impl Model for Project {
    ghost use Rattle.co_project.specs.contracts.contents.Contents as held;
    ghost use Rattle.co_project.specs.Project.{Content};
    ghost use Rattle.co_project.specs.Sound.{IsSound};

    ghost Value = { Content };

    ghost coded = { held.the_row.coded };

    ghost view = { λ p. p.contents };

    ghost invariant = { λ p. IsSound p.contents };
}

impl Project {
    /// The first project: version 1, 1000 kbit/s, a horizon of 1,000,000 microseconds, the manager 127
    /// without SYNC, heartbeat and time stamps and with 500 milliseconds for an SDO answer, no SYNC counter,
    /// and nothing else.
    pub fn new(alloc: Global) -> Self
        ensures { result ≡ first }
    {
        Project {
            contents: Contents::new(alloc),
        }
    }

    /// Another project that is equal and shares the texts of EDS. Takes time and memory by the number
    /// of texts, nodes, parameters, messages, sources, sinks, receives and events, and the length of their names
    /// and values, and not by the length of the texts of EDS. Want of memory is the only error.
    pub fn copy(&self, alloc: Global) -> Result<Project, AllocError>
        ensures { IfOk result (λ project. project ≡ self.now) }
    {
        let contents = self.contents.copy(alloc)?;
        Ok(Project { contents })
    }

    /// Whether the other project is the same: the version, the bit rate, the horizon, the manager, its time
    /// stamps, the SYNC counter, the nodes with their parameters, the messages, the events, and last the texts
    /// of EDS. Takes time by what stands up to the first difference in this order, and no memory.
    pub fn same(&self, other: &Project) -> bool
        ensures { IsTrue result ↔ (self.now ≡ other.now) }
    {
        self.contents.same(&other.contents)
    }

    /// Takes an edit, or refuses it with the first fault that applies and changes nothing.
    ///
    /// Range: a node is to be mandatory or optional in version 1, or a receive comes or goes, or time stamps
    /// are asked for or none, in version 1 or 2. Unknown: an EDS, a node, a parameter, a message, a source, a
    /// sink, a receive or an event that is named isn't there. Taken: the name is another node's, or in version
    /// 1 or 2 the number is the manager's or a node's. InUse: a node is mandatory where version 1 is asked, or
    /// a message has a receive, there are time stamps, or a node has the manager's number, where version 1 or 2
    /// is, a node still uses the EDS, a message is sent or taken by the node or has a receive of it, or an event
    /// is of it. Limit: a 65th text, a 4,097th parameter of a node, or a 1,025th message. Memory can come in
    /// place of each where the edit gives a text, a node, a parameter, a message, a source, a sink, a receive or
    /// an event where there is none, and changes nothing either.
    ///
    /// `drop-eds` and `node` take time by the number of nodes, `version` by that of nodes and messages,
    /// `drop-node` by that of messages, sinks, receives, events and the node's parameters, `drop-message` by
    /// that of its sources, sinks and receives, every other edit by the logarithm of its table.
    pub fn accept(&mut self, command: Command) -> Result<(), EditFault>
        ensures accepts { Accepts self.old self.new result (accept self.old command) }
        ensures memory { IsErrOf result EditFault.Memory → IsTrue (adds self.old command) }
    {
        self.contents.accept(command.into_edit())
    }

    /// The version of the script.
    pub fn version(&self) -> ScriptVersion
        ensures { result ≡ self.now.version }
    {
        self.contents.version
    }

    /// The bit rate in kbit/s.
    pub fn bitrate(&self) -> u16
        ensures { result ≡ self.now.bitrate }
    {
        self.contents.bitrate
    }

    /// The horizon in microseconds.
    pub fn horizon(&self) -> u32
        ensures { result ≡ self.now.horizon }
    {
        self.contents.horizon
    }

    /// The manager.
    pub fn manager(&self) -> ManagerSettings
        ensures { result ≡ self.now.manager }
    {
        self.contents.manager
    }

    /// The controller: the node, if there is one, of the manager's number, in which the manager runs.
    pub fn controller(&self) -> Option<u8>
        ensures { result ≡ controller_of self.now }
    {
        if self.contents.has_controller() {
            Some(self.contents.manager.id)
        } else {
            None
        }
    }

    /// Whether it is the node of this number.
    pub fn is_controller(&self, id: u8) -> bool
        ensures { result ≡ is_controller self.now id }
    {
        self.contents.has_controller() && id == self.contents.manager.id
    }

    /// The manager's time stamps (CiA 301, TIME), if it sends any.
    pub fn time_stamps(&self) -> Option<TimeStamps>
        ensures { result ≡ self.now.time_stamps }
    {
        self.contents.time_stamps
    }

    /// The last number of the counter of SYNC messages (CiA 301, synchronous counter overflow value),
    /// 2 to 240; 0 for no counter.
    pub fn sync_counter(&self) -> u8
        ensures { result ≡ self.now.sync_counter }
    {
        self.contents.sync_counter
    }

    /// The text of an EDS: its lines without the CRs at their ends, each ended by LF. It is that of
    /// a device.
    pub fn text(&self, name: &[u8]) -> Option<&[u8]>
        ensures text { option_copied result ≡ text_at self.now.texts name.now }
        ensures device { IfSome result (λ text. device_of text.now ≡ Ok (content_of text.now)) }
    {
        self.contents.texts.get(name)
    }

    /// The texts of EDS by name, each with a handle on it.
    pub fn texts(&self) -> Iter<'_, Vec<u8>, Shared<Octets>>
        ensures { by_name result ≡ map.entries self.now.texts }
    {
        self.contents.texts.iter()
    }

    /// The node of a number. Its EDS is there.
    pub fn node(&self, id: u8) -> Option<&Node>
        ensures node { option_copied result ≡ node_at self.now.nodes id }
        ensures eds { IfSome result (λ node. IsTrue (map.contains_key self.now.texts node.now.eds)) }
    {
        self.contents.nodes.get(id)
    }

    /// The nodes by number.
    pub fn nodes(&self) -> Iter<'_, u8, Node>
        ensures { result ≡ map.entries self.now.nodes }
    {
        self.contents.nodes.iter()
    }

    /// The messages. Their senders and the nodes of their sinks and receives are there.
    pub fn messages(&self) -> &Messages
        ensures { result.now ≡ self.now.messages }
    {
        &self.contents.messages
    }

    /// The events of the scenario.
    pub fn events(&self) -> &Script
        ensures { result.now ≡ self.now.events }
    {
        &self.contents.events
    }

    /// Says to the callers' proofs what every project keeps to, and does nothing.
    pub fn keeps_to_rules(&self)
        ensures { IsSound self.now }
    {
        let _ = &self.contents;
    }
}
