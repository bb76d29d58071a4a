//! Commands and the project: `co_project`, with `script_commands` and `project_script`.

use base::Octets;
use co_project::{
    Command, EditFault, ManagerSettings, Messages, Node, Params, Project, ScriptVersion,
};
use co_scenario::Script;
use project_messages::Linked;
use project_script::script_text;
use script_commands::Request;
use std::alloc::{AllocError, Global};

/// What a line asks.
pub fn read_request(alloc: Global, line: &[u8]) -> Result<Request, EditFault> {
    Request::read(alloc, line)
}

/// What a line asks is an edit, a query, or a block of so many lines.
pub fn lines_asked(request: &Request) -> Option<u32> {
    match request {
        Request::Edit(_edit) => None,
        Request::Query(_query) => None,
        Request::Block { lines, .. } => Some(*lines),
    }
}

/// The edit that gives a data sheet its text.
pub fn eds(alloc: Global, name: &[u8], lines: &[Vec<u8>]) -> Result<Command, EditFault> {
    Command::eds(alloc, name, lines)
}

/// The first project.
pub fn project(alloc: Global) -> Project {
    Project::new(alloc)
}

/// An edit is accepted, or refused.
pub fn accept(project: &mut Project, command: Command) -> Result<(), EditFault> {
    project.accept(command)
}

/// The commands that make a project, as text.
pub fn script(alloc: Global, project: &Project) -> Result<Vec<u8>, AllocError> {
    script_text(alloc, project)
}

/// What a project has beside its texts, nodes, messages and events.
pub fn settings(project: &Project) -> (ScriptVersion, u16, u32, ManagerSettings, u8) {
    (
        project.version(),
        project.bitrate(),
        project.horizon(),
        project.manager(),
        project.sync_counter(),
    )
}

/// The text of a data sheet.
pub fn text<'a>(project: &'a Project, name: &[u8]) -> Option<&'a [u8]> {
    project.text(name)
}

/// A node.
pub fn node(project: &Project, id: u8) -> Option<&Node> {
    project.node(id)
}

/// A node's name, data sheet and parameters, and whether it is mandatory.
pub fn node_parts(node: &Node) -> (&Octets, &Octets, bool, &Params) {
    (&node.name, &node.eds, node.mandatory, &node.params)
}

/// The text of a parameter.
pub fn parameter(params: &Params, index: u16, sub: u8) -> Option<&[u8]> {
    params.get(index, sub)
}

/// The messages.
pub fn messages(project: &Project) -> &Messages {
    project.messages()
}

/// A message with its sources, sinks and receives.
pub fn message<'a>(messages: &'a Messages, name: &[u8]) -> Option<&'a Linked> {
    messages.get(name)
}

/// The entry of a source.
pub fn source(message: &Linked, position: u8) -> Option<&(u16, u8)> {
    message.sources.get(position)
}

/// The entry of a sink.
pub fn sink(message: &Linked, position: u8, node: u8) -> Option<&(u16, u8)> {
    message.sinks.get(position, node)
}

/// The RPDO by which a node receives a message, and its event time.
pub fn receive(message: &Linked, node: u8) -> Option<(u16, u16)> {
    let receive = message.receives.get(node)?;
    Some((receive.rpdo, receive.event))
}

/// The events.
pub fn events(project: &Project) -> &Script {
    project.events()
}
