//! What an edit does.

use crate::manager_settings::ManagerSettings;
use crate::script_version::ScriptVersion;
use crate::time_stamps::TimeStamps;
use base::{Octets, Shared};
use co_scenario::TimedEvent;
use project_messages::Message;

/// What an edit does to a project.
#[derive(Debug, Drop)]
pub enum Edit {
    /// The script has another version.
    Version(ScriptVersion),
    /// The network's bit rate is another one, in kbit/s.
    Bitrate(u16),
    /// The simulation ends at another time, in microseconds from power-on.
    Horizon(u32),
    /// The manager (CiA 302) has other numbers.
    Manager(ManagerSettings),
    /// The manager sends time stamps (CiA 301, TIME), or none. Scripts of versions 1 and 2 have none.
    TimeStamps(Option<TimeStamps>),
    /// The counter of the SYNC messages (CiA 301, synchronous counter overflow value) has another last number,
    /// 2 to 240, or SYNC messages have no counter: 0.
    SyncCounter(u8),
    /// A name gets the text of an EDS (CiA 306).
    Eds {
        /// The name of the EDS.
        name: Octets,
        /// Its lines without the CRs at their ends, each ended by LF.
        text: Shared<Octets>,
    },
    /// The text of an EDS goes.
    DropEds {
        /// The name of the EDS.
        name: Octets,
    },
    /// A node comes, or a known one gets another name and EDS.
    Node {
        /// The number of the node, 1 to 127.
        id: u8,
        /// Its name.
        name: Octets,
        /// The name of the EDS that it is made from.
        eds: Octets,
    },
    /// A node is mandatory (CiA 302), or is so no more. Scripts of version 1 have no mandatory nodes.
    Need {
        /// The number of the node.
        id: u8,
        /// Whether it is mandatory.
        mandatory: bool,
    },
    /// A node goes, and its parameters with it.
    DropNode {
        /// The number of the node.
        id: u8,
    },
    /// A parameter of a node gets a text.
    Param {
        /// The number of the node.
        id: u8,
        /// The index of the entry, outside 1400h to 1BFFh.
        index: u16,
        /// The sub-index of the entry.
        sub: u8,
        /// The text of the value.
        text: Octets,
    },
    /// A parameter of a node goes.
    Unparam {
        /// The number of the node.
        id: u8,
        /// The index of the entry.
        index: u16,
        /// The sub-index of the entry.
        sub: u8,
    },
    /// A name gets a message (CiA 301, PDOs); a known one keeps its SYNC start value, its sources, its
    /// sinks and its receives.
    Message {
        /// The name of the message.
        name: Octets,
        /// How it is sent.
        message: Message,
    },
    /// A message gets a SYNC start value (CiA 301).
    Start {
        /// The name of the message.
        message: Octets,
        /// The number of the SYNC from which on SYNC messages are counted, 1 to 240; 0 for any.
        start: u8,
    },
    /// A message goes, and its sources, sinks and receives with it.
    DropMessage {
        /// The name of the message.
        name: Octets,
    },
    /// A message carries an entry of its sender.
    Source {
        /// The name of the message.
        message: Octets,
        /// The position in the message, 1 to 64.
        position: u8,
        /// The index of the entry.
        index: u16,
        /// The sub-index of the entry.
        sub: u8,
    },
    /// A message carries nothing at a position any more.
    Unsource {
        /// The name of the message.
        message: Octets,
        /// The position in the message, 1 to 64.
        position: u8,
    },
    /// An entry of a node takes what a message carries at a position.
    Sink {
        /// The name of the message.
        message: Octets,
        /// The position in the message, 1 to 64.
        position: u8,
        /// The number of the node.
        node: u8,
        /// The index of the entry.
        index: u16,
        /// The sub-index of the entry.
        sub: u8,
    },
    /// A node takes nothing any more of what a message carries at a position.
    Unsink {
        /// The name of the message.
        message: Octets,
        /// The position in the message, 1 to 64.
        position: u8,
        /// The number of the node.
        node: u8,
    },
    /// A node takes a message by one of its RPDOs. Scripts of versions 1 and 2 have no receives.
    Receive {
        /// The name of the message.
        message: Octets,
        /// The number of the node.
        node: u8,
        /// The number of its RPDO, 1 to 512; 0 for the one that the plan gives.
        rpdo: u16,
        /// The event time of the RPDO (CiA 301) in milliseconds; 0 for the one that it has.
        event: u16,
    },
    /// It isn't said any more by which RPDO a node takes a message.
    Unreceive {
        /// The name of the message.
        message: Octets,
        /// The number of the node.
        node: u8,
    },
    /// A number gets an event.
    Event {
        /// The number of the event, 1 to 10,000.
        number: u16,
        /// The event at its time.
        event: TimedEvent,
    },
    /// An event goes.
    DropEvent {
        /// The number of the event.
        number: u16,
    },
}
