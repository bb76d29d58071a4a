//! What edits do to the messages of a project.
ghost use Rattle.std.specs.Prelude.{◌≡◌, IsErrOf, IsTrue};
ghost use Rattle.project_edits.specs.Accepts.{Accepts};
ghost use Rattle.project_edits.specs.Edits.{IsEdit};
ghost use Rattle.project_edits.specs.declared.edit.Edit.TheVariants as edit;
ghost use Rattle.co_project.specs.Project.{accept, adds};

use crate::contents::Contents;
use base::Octets;
use project_edits::EditFault;
use project_messages::{Message, Receive};

impl Contents {
    /// Gives a name a message. A known one keeps its SYNC start value, its sources, its sinks and its receives.
    #[tactic(auto, unfolding(crate::specs::Project::accept, crate::specs::Project::adds, project_edits::specs::Edits::IsEdit))]
    pub fn put_message(&mut self, name: Octets, message: Message) -> Result<(), EditFault>
        requires { IsEdit (edit.Message name message) }
        ensures accepts { Accepts self.old self.new result (accept self.old (edit.Message name message)) }
        ensures memory { IsErrOf result EditFault.Memory → IsTrue (adds self.old (edit.Message name message)) }
    {
        if !self.nodes.contains(message.node) {
            return Err(EditFault::Unknown);
        }
        if self.messages.is_full_for(name.as_slice()) {
            return Err(EditFault::Limit);
        }
        self.messages.put(self.alloc, name, message)?;
        Ok(())
    }

    /// Gives a message a SYNC start value.
    #[tactic(auto, unfolding(crate::specs::Project::accept, crate::specs::Project::adds, project_edits::specs::Edits::IsEdit))]
    pub fn set_start(&mut self, name: &[u8], start: u8) -> Result<(), EditFault>
        requires { IsEdit (edit.Start name.now start) }
        ensures accepts { Accepts self.old self.new result (accept self.old (edit.Start name.now start)) }
        ensures memory { IsErrOf result EditFault.Memory → IsTrue (adds self.old (edit.Start name.now start)) }
    {
        if !self.messages.contains(name) {
            return Err(EditFault::Unknown);
        }
        self.messages.set_start(name, start);
        Ok(())
    }

    /// Takes a message away, and its sources, sinks and receives with it.
    #[tactic(auto, unfolding(crate::specs::Project::accept, crate::specs::Project::adds))]
    pub fn drop_message(&mut self, name: &[u8]) -> Result<(), EditFault>
        ensures accepts { Accepts self.old self.new result (accept self.old (edit.DropMessage name.now)) }
        ensures memory { IsErrOf result EditFault.Memory → IsTrue (adds self.old (edit.DropMessage name.now)) }
    {
        if !self.messages.contains(name) {
            return Err(EditFault::Unknown);
        }
        self.messages.remove(name);
        Ok(())
    }

    /// Gives a message an entry of its sender at a position, in place of the one that stands there.
    #[tactic(auto, unfolding(crate::specs::Project::accept, crate::specs::Project::adds, project_edits::specs::Edits::IsEdit))]
    pub fn put_source(
        &mut self,
        name: &[u8],
        position: u8,
        index: u16,
        sub: u8,
    ) -> Result<(), EditFault>
        requires { IsEdit (edit.Source name.now position index sub) }
        ensures accepts { Accepts self.old self.new result (accept self.old (edit.Source name.now position index sub)) }
        ensures memory { IsErrOf result EditFault.Memory
            → IsTrue (adds self.old (edit.Source name.now position index sub)) }
    {
        let known = self.messages.link_source(name, position, index, sub)?;
        if known {
            Ok(())
        } else {
            Err(EditFault::Unknown)
        }
    }

    /// Takes the source at a position of a message away.
    #[tactic(auto, unfolding(crate::specs::Project::accept, crate::specs::Project::adds))]
    pub fn drop_source(&mut self, name: &[u8], position: u8) -> Result<(), EditFault>
        ensures accepts { Accepts self.old self.new result (accept self.old (edit.Unsource name.now position)) }
        ensures memory { IsErrOf result EditFault.Memory → IsTrue (adds self.old (edit.Unsource name.now position)) }
    {
        if !self.messages.has_source(name, position) {
            return Err(EditFault::Unknown);
        }
        self.messages.remove_source(name, position);
        Ok(())
    }

    /// Gives a message an entry of a node that takes what stands at a position, in place of the one
    /// that the node has there.
    #[tactic(auto, unfolding(crate::specs::Project::accept, crate::specs::Project::adds, project_edits::specs::Edits::IsEdit))]
    pub fn put_sink(
        &mut self,
        name: &[u8],
        position: u8,
        node: u8,
        index: u16,
        sub: u8,
    ) -> Result<(), EditFault>
        requires { IsEdit (edit.Sink name.now position node index sub) }
        ensures accepts { Accepts self.old self.new result
            (accept self.old (edit.Sink name.now position node index sub)) }
        ensures memory { IsErrOf result EditFault.Memory
            → IsTrue (adds self.old (edit.Sink name.now position node index sub)) }
    {
        if !self.nodes.contains(node) {
            return Err(EditFault::Unknown);
        }
        let known = self.messages.link_sink(name, position, node, index, sub)?;
        if known {
            Ok(())
        } else {
            Err(EditFault::Unknown)
        }
    }

    /// Takes the sink of a node at a position of a message away.
    #[tactic(auto, unfolding(crate::specs::Project::accept, crate::specs::Project::adds))]
    pub fn drop_sink(&mut self, name: &[u8], position: u8, node: u8) -> Result<(), EditFault>
        ensures accepts { Accepts self.old self.new result (accept self.old (edit.Unsink name.now position node)) }
        ensures memory { IsErrOf result EditFault.Memory → IsTrue (adds self.old (edit.Unsink name.now position node)) }
    {
        if !self.messages.has_sink(name, position, node) {
            return Err(EditFault::Unknown);
        }
        self.messages.remove_sink(name, position, node);
        Ok(())
    }

    /// Gives a message a receive of a node, in place of the one that the node has, where the version knows
    /// receives.
    #[tactic(auto, unfolding(crate::specs::Project::accept, crate::specs::Project::adds, project_edits::specs::Edits::IsEdit))]
    pub fn put_receive(&mut self, name: &[u8], node: u8, receive: Receive) -> Result<(), EditFault>
        requires { IsEdit (edit.Receive name.now node receive.rpdo receive.event) }
        ensures accepts { Accepts self.old self.new result
            (accept self.old (edit.Receive name.now node receive.rpdo receive.event)) }
        ensures memory { IsErrOf result EditFault.Memory
            → IsTrue (adds self.old (edit.Receive name.now node receive.rpdo receive.event)) }
    {
        if !self.version.is_three() {
            return Err(EditFault::Range);
        }
        if !self.nodes.contains(node) {
            return Err(EditFault::Unknown);
        }
        let known = self.messages.link_receive(name, node, receive)?;
        if known {
            Ok(())
        } else {
            Err(EditFault::Unknown)
        }
    }

    /// Takes the receive of a node of a message away, where the version knows receives.
    #[tactic(auto, unfolding(crate::specs::Project::accept, crate::specs::Project::adds))]
    pub fn drop_receive(&mut self, name: &[u8], node: u8) -> Result<(), EditFault>
        ensures accepts { Accepts self.old self.new result (accept self.old (edit.Unreceive name.now node)) }
        ensures memory { IsErrOf result EditFault.Memory → IsTrue (adds self.old (edit.Unreceive name.now node)) }
    {
        if !self.version.is_three() {
            return Err(EditFault::Range);
        }
        if !self.messages.has_receive(name, node) {
            return Err(EditFault::Unknown);
        }
        self.messages.remove_receive(name, node);
        Ok(())
    }
}
