//! What a diagnostic is of.
ghost use Rattle.std.specs.Prelude.{◌≡◌, IfOk};

use crate::name::Name;
use cia301::Identifier;
use std::alloc::{AllocError, Global};

/// What a diagnostic is of, in the order of the words that its line shows.
#[derive(Debug, PartialEq, Eq, PartialOrd, Ord, Drop)]
pub enum Subject {
    /// `cob`: an identifier.
    Cob(Identifier),
    /// `default`: the default of a node's entry, by node, index and sub-index.
    Default(u8, u16, u8),
    /// `eds`: a line of the text of an EDS, by its name and the line's number from 1.
    Eds(Name, u32),
    /// `event`: an event of the scenario, by its number.
    Event(u16),
    /// `limit`: an entry of a node's PDOs that the plan writes, by node, index and sub-index.
    Limit(u8, u16, u8),
    /// `message`: a message, by its name.
    Message(Name),
    /// `node`: a node, or a heartbeat consumer of it by its sub-index.
    Node(u8, Option<u8>),
    /// `param`: a parameter of a node, by node, index and sub-index.
    Param(u8, u16, u8),
    /// `receive`: a receive, by the name of its message and its node.
    Receive(Name, u8),
    /// `rpdo`: an RPDO of a node, by node and number.
    Rpdo(u8, u16),
    /// `tpdo`: a TPDO of a node, by node and number.
    Tpdo(u8, u16),
}

impl Subject {
    /// The same subject. Takes time and memory by the length of its name, if it has one.
    pub(crate) fn copy(&self, alloc: Global) -> Result<Subject, AllocError>
        ensures { IfOk result (λ subject. subject ≡ self.now) }
    {
        let copied = match self {
            Subject::Cob(identifier) => Subject::Cob(*identifier),
            Subject::Default(node, index, sub) => Subject::Default(*node, *index, *sub),
            Subject::Eds(name, line) => Subject::Eds(
                Name::from_slice(alloc, name.as_slice())?,
                *line,
            ),
            Subject::Event(number) => Subject::Event(*number),
            Subject::Limit(node, index, sub) => Subject::Limit(*node, *index, *sub),
            Subject::Message(name) => Subject::Message(Name::from_slice(alloc, name.as_slice())?),
            Subject::Node(node, sub) => Subject::Node(*node, *sub),
            Subject::Param(node, index, sub) => Subject::Param(*node, *index, *sub),
            Subject::Receive(name, node) => Subject::Receive(
                Name::from_slice(alloc, name.as_slice())?,
                *node,
            ),
            Subject::Rpdo(node, number) => Subject::Rpdo(*node, *number),
            Subject::Tpdo(node, number) => Subject::Tpdo(*node, *number),
        };
        Ok(copied)
    }
}
