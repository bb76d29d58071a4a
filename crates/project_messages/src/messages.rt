//! The messages of a project.
ghost use Rattle.std.specs.Prelude.{◌≡◌, ◌==◌, true, All, IfOk, IfSome, None, Ok, OnOk, OnErr, false};
ghost use Rattle.std.specs.FinMap as map;
ghost use Rattle.std.specs.Option.{option_copied};
ghost use Rattle.base.specs.Ranges.{is_between, AreIndices};
ghost use Rattle.project_messages.specs.Messages.{by_name, with_changed, is_of_messages, has_sink, has_source, is_full_for};
ghost use Rattle.project_messages.specs.Messages.{is_position, is_start, message_at, with_message, with_sink, with_source};
ghost use Rattle.project_messages.specs.Messages.{has_receive, have_receives, are_received, with_receive, with_start};
ghost use Rattle.project_messages.specs.Messages.{without_receive, without_sink, without_source, IsLinked, IsMessage, IsReceive};

use crate::linked::Linked;
use crate::message::Message;
use crate::receive::Receive;
use crate::receives::Receives;
use crate::sinks::Sinks;
use crate::sources::Sources;
use base::Octets;
use std::alloc::{AllocError, Global};
use std::collections::BTreeMap;
use std::collections::btree_map::Iter;
use std::marker::Model;

const MAX_MESSAGES: usize = 1024;

/// The messages of a project by name, each with its sources, its sinks and its receives.
///
/// A call takes time by the logarithm of the number of messages and of the sources, sinks or receives of
/// one.
#[derive(Drop)]
pub struct Messages {
    linked: BTreeMap<Vec<u8>, Linked>,
}

impl Model for Messages {
    ghost use Rattle.std.specs.Coded.{coded_ℕ, coded_list};
    ghost use Rattle.std.specs.FinMap as map;
    ghost use Rattle.project_messages.specs.contracts.linked.Linked as of_linked;
    ghost use Rattle.project_messages.specs.Messages.{by_name, AreMessages, Named};

    ghost Value = { Named };

    ghost coded = { map.code (coded_list coded_ℕ) of_linked.the_row.coded };

    ghost view = { λ messages. map.from_entries (by_name messages.linked.entries) };

    ghost invariant = { λ messages. AreMessages (map.from_entries (by_name messages.linked.entries)) };
}

impl Messages {
    /// No messages.
    pub fn new(alloc: Global) -> Self
        ensures { result ≡ map.empty }
    {
        Messages {
            linked: BTreeMap::new(alloc),
        }
    }

    /// Equal messages. Takes time and memory by their number and that of their sources, sinks and receives.
    pub fn copy(&self) -> Result<Messages, AllocError>
        ensures { IfOk result (λ messages. messages ≡ self.now) }
    {
        let linked = self.linked.clone()?;
        Ok(Messages { linked })
    }

    /// The number of messages.
    pub fn len(&self) -> usize
        ensures { result ≡ map.len self.now }
    {
        self.linked.len()
    }

    /// Whether there is no message.
    pub fn is_empty(&self) -> bool
        ensures { result ≡ (map.len self.now == 0) }
    {
        self.len() == 0
    }

    /// The message of a name.
    pub fn get(&self, name: &[u8]) -> Option<&Linked>
        ensures message { option_copied result ≡ message_at self.now name.now }
        ensures limits { IfSome result (λ linked. IsLinked linked.now) }
    {
        self.linked.get(name)
    }

    /// Whether a name has a message.
    pub fn contains(&self, name: &[u8]) -> bool
        ensures { result ≡ map.contains_key self.now name.now }
    {
        self.get(name).is_some()
    }

    /// Whether no other name than the known ones can have a message.
    pub fn is_full_for(&self, name: &[u8]) -> bool
        ensures { result ≡ is_full_for self.now name.now }
    {
        self.len() >= MAX_MESSAGES && !self.contains(name)
    }

    /// Whether the message of a name has a source at a position.
    pub fn has_source(&self, name: &[u8], position: u8) -> bool
        ensures { result ≡ has_source self.now name.now position }
    {
        match self.get(name) {
            Some(linked) => linked.sources.get(position).is_some(),
            None => false,
        }
    }

    /// Whether the message of a name has a sink of a node at a position.
    pub fn has_sink(&self, name: &[u8], position: u8, node: u8) -> bool
        ensures { result ≡ has_sink self.now name.now position node }
    {
        match self.get(name) {
            Some(linked) => linked.sinks.get(position, node).is_some(),
            None => false,
        }
    }

    /// Whether the message of a name has a receive of a node.
    pub fn has_receive(&self, name: &[u8], node: u8) -> bool
        ensures { result ≡ has_receive self.now name.now node }
    {
        match self.get(name) {
            Some(linked) => linked.receives.get(node).is_some(),
            None => false,
        }
    }

    /// Whether a message has a receive. Takes time by the number of messages.
    pub fn have_receives(&self) -> bool
        ensures { result ≡ have_receives self.now }
    {
        for (_name, linked) in self.iter() {
            if linked.has_receives() {
                return true;
            }
        }
        false
    }

    /// Whether a message has a receive of a node. Takes time by the number of messages and receives.
    pub fn are_received(&self, node: u8) -> bool
        ensures { result ≡ are_received node self.now }
    {
        for (_name, linked) in self.iter() {
            if linked.is_received(node) {
                return true;
            }
        }
        false
    }

    /// Whether a node sends a message or takes a part of one. Takes time by the number of messages
    /// and sinks.
    pub fn concern(&self, node: u8) -> bool
        ensures { result ≡ is_of_messages node self.now }
    {
        for (_name, linked) in self.iter() {
            if linked.concerns(node) {
                return true;
            }
        }
        false
    }

    /// The messages by name.
    pub fn iter(&self) -> Iter<'_, Vec<u8>, Linked>
        ensures messages { by_name result ≡ map.entries self.now }
        ensures limits { All (λ e. IsLinked e.1) (by_name result) }
    {
        self.linked.iter()
    }

    /// Gives a name a message. A known one keeps its SYNC start value, its sources, its sinks and its
    /// receives; a new one has the start value 0 and none of these. Want of memory changes nothing, and can
    /// come at a new one alone.
    pub fn put(&mut self, alloc: Global, name: Octets, message: Message) -> Result<(), AllocError>
        requires { IsMessage message }
        ensures ok { OnOk result (self.new ≡ with_message self.old name message) }
        ensures err { OnErr result (self.new ≡ self.old) }
        ensures absent { OnErr result (map.get self.old name ≡ None) }
    {
        if let Some(linked) = self.linked.get_mut(name.as_slice()) {
            linked.message = message;
            return Ok(());
        }
        let linked = Linked {
            message,
            start: 0,
            sources: Sources::new(alloc),
            sinks: Sinks::new(alloc),
            receives: Receives::new(alloc),
        };
        self.linked.insert(name.into_vec(), linked)?;
        Ok(())
    }

    /// Takes the message of a name away, if it has one, and its sources, sinks and receives with it.
    pub fn remove(&mut self, name: &[u8])
        ensures { self.new ≡ map.remove self.old name.now }
    {
        self.linked.remove(name);
    }

    /// Gives the message of a name, if it has one, a SYNC start value.
    pub fn set_start(&mut self, name: &[u8], start: u8)
        requires { is_start start ≡ true }
        ensures { self.new ≡ with_changed (with_start start) self.old name.now }
    {
        let Some(linked) = self.linked.get_mut(name) else {
            return;
        };
        linked.start = start;
    }

    /// Gives the message of a name, if it has one, an entry of its sender at a position, in place of
    /// the one that stands there, and says whether the name has a message. Want of memory changes
    /// nothing, and can come only where none stands.
    pub fn link_source(
        &mut self,
        name: &[u8],
        position: u8,
        index: u16,
        sub: u8,
    ) -> Result<bool, AllocError>
        requires place { is_position position ≡ true }
        requires entry { AreIndices index sub }
        ensures known { IfOk result (λ known. known ≡ map.contains_key self.old name.now) }
        ensures unknown { result ≡ Ok false → self.new ≡ self.old }
        ensures ok { OnOk result (self.new ≡ with_changed (with_source position (index, sub)) self.old name.now) }
        ensures err { OnErr result (self.new ≡ self.old) }
        ensures there { OnErr result (map.contains_key self.old name.now ≡ true) }
        ensures absent { OnErr result (has_source self.old name.now position ≡ false) }
    {
        let Some(linked) = self.linked.get_mut(name) else {
            return Ok(false);
        };
        linked.sources.put(position, index, sub)?;
        Ok(true)
    }

    /// Gives the message of a name, if it has one, an entry of its sender at a position, in place of
    /// the one that stands there. Want of memory changes nothing, and can come only where none
    /// stands.
    pub fn put_source(
        &mut self,
        name: &[u8],
        position: u8,
        index: u16,
        sub: u8,
    ) -> Result<(), AllocError>
        requires place { is_position position ≡ true }
        requires entry { AreIndices index sub }
        ensures ok { OnOk result (self.new ≡ with_changed (with_source position (index, sub)) self.old name.now) }
        ensures err { OnErr result (self.new ≡ self.old) }
        ensures absent { OnErr result (has_source self.old name.now position ≡ false) }
    {
        let _known = self.link_source(name, position, index, sub)?;
        Ok(())
    }

    /// Takes the source at a position of the message of a name away, if it is there.
    pub fn remove_source(&mut self, name: &[u8], position: u8)
        ensures { self.new ≡ with_changed (without_source position) self.old name.now }
    {
        let Some(linked) = self.linked.get_mut(name) else {
            return;
        };
        linked.sources.remove(position);
    }

    /// Gives the message of a name, if it has one, an entry of a node that takes what stands at a
    /// position, in place of the one that the node has there, and says whether the name has a message.
    /// Want of memory changes nothing, and can come only where the node has none.
    pub fn link_sink(
        &mut self,
        name: &[u8],
        position: u8,
        node: u8,
        index: u16,
        sub: u8,
    ) -> Result<bool, AllocError>
        requires place { is_position position ≡ true }
        requires taker { is_between 1 127 node ≡ true }
        requires entry { AreIndices index sub }
        ensures known { IfOk result (λ known. known ≡ map.contains_key self.old name.now) }
        ensures unknown { result ≡ Ok false → self.new ≡ self.old }
        ensures ok { OnOk result (self.new ≡ with_changed (with_sink position node (index, sub)) self.old name.now) }
        ensures err { OnErr result (self.new ≡ self.old) }
        ensures there { OnErr result (map.contains_key self.old name.now ≡ true) }
        ensures absent { OnErr result (has_sink self.old name.now position node ≡ false) }
    {
        let Some(linked) = self.linked.get_mut(name) else {
            return Ok(false);
        };
        linked.sinks.put(position, node, index, sub)?;
        Ok(true)
    }

    /// Gives the message of a name, if it has one, an entry of a node that takes what stands at a
    /// position, in place of the one that the node has there. Want of memory changes nothing, and
    /// can come only where it has none.
    pub fn put_sink(
        &mut self,
        name: &[u8],
        position: u8,
        node: u8,
        index: u16,
        sub: u8,
    ) -> Result<(), AllocError>
        requires place { is_position position ≡ true }
        requires taker { is_between 1 127 node ≡ true }
        requires entry { AreIndices index sub }
        ensures ok { OnOk result (self.new ≡ with_changed (with_sink position node (index, sub)) self.old name.now) }
        ensures err { OnErr result (self.new ≡ self.old) }
        ensures absent { OnErr result (has_sink self.old name.now position node ≡ false) }
    {
        let _known = self.link_sink(name, position, node, index, sub)?;
        Ok(())
    }

    /// Takes the sink of a node at a position of the message of a name away, if it is there.
    pub fn remove_sink(&mut self, name: &[u8], position: u8, node: u8)
        ensures { self.new ≡ with_changed (without_sink position node) self.old name.now }
    {
        let Some(linked) = self.linked.get_mut(name) else {
            return;
        };
        linked.sinks.remove(position, node);
    }

    /// Gives the message of a name, if it has one, a receive of a node, in place of the one that the node
    /// has, and says whether the name has a message. Want of memory changes nothing, and can come only
    /// where the node has none.
    pub fn link_receive(
        &mut self,
        name: &[u8],
        node: u8,
        receive: Receive,
    ) -> Result<bool, AllocError>
        requires { IsReceive (node, receive) }
        ensures known { IfOk result (λ known. known ≡ map.contains_key self.old name.now) }
        ensures unknown { result ≡ Ok false → self.new ≡ self.old }
        ensures ok { OnOk result (self.new ≡ with_changed (with_receive node receive) self.old name.now) }
        ensures err { OnErr result (self.new ≡ self.old) }
        ensures there { OnErr result (map.contains_key self.old name.now ≡ true) }
        ensures absent { OnErr result (has_receive self.old name.now node ≡ false) }
    {
        let Some(linked) = self.linked.get_mut(name) else {
            return Ok(false);
        };
        linked.receives.put(node, receive)?;
        Ok(true)
    }

    /// Takes the receive of a node of the message of a name away, if it is there.
    pub fn remove_receive(&mut self, name: &[u8], node: u8)
        ensures { self.new ≡ with_changed (without_receive node) self.old name.now }
    {
        let Some(linked) = self.linked.get_mut(name) else {
            return;
        };
        linked.receives.remove(node);
    }
}
