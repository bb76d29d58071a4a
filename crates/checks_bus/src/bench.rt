//! A device and a manager, and the lines that play them.

use crate::entries::Entries;
use crate::network::show_run;
use crate::one_node::OneNode;
use crate::shown::{show_device, show_frame, show_left, show_manager, show_notes, show_value};
use crate::step::Step;
use crate::taken::{take_of_device, take_of_manager};
use anyhow::Result;
use base::{Octets, Shared};
use can_frame::{Frame, SlotRule, Waiting};
use cia301::is_of_pdos;
use co_device::Device;
use co_dict::Access;
use co_scenario::NmtCommand;
use concise_dcf::Write as Written;
use image_parts::{END, Identity, Roster, StartMode};
use nmt_boot::Manager;
use node_boot::Notes;
use std::alloc::{AllocError, Global};
use std::io::Write;
use std::rc::Rc;

/// The device of node 5, the manager 127 of the nodes 5 and 9, and their parts.
#[derive(Drop)]
pub struct Bench {
    alloc: Global,
    entries: Entries,
    node: OneNode,
    device: Device,
    last: u64,
    roster: Roster,
    manager: Manager,
    notes: Notes,
}

/// The network of the manager 127 and the nodes 5 and 9, each of which is started by itself. Its times are 0.
fn roster_of(alloc: Global) -> Result<Roster, AllocError> {
    Ok(Roster {
        bit_rate: 1000,
        slots: SlotRule::Unstuffed,
        manager: 127,
        sync_us: 0,
        sync_counter: 0,
        time_us: 0,
        first_day: 0,
        heartbeat_ms: 0,
        timeout_ms: 0,
        start_mode: StartMode::EachNode,
        mandatory: Octets::from_slice(alloc, &[])?,
        nodes: Octets::from_slice(alloc, &[5, 9])?,
    })
}

/// Sets the times of a network. The number is the time-out and the first bytes are the producer heartbeat
/// time, both in milliseconds; the second bytes are the time of SYNC in microseconds.
fn set_times(roster: &mut Roster, step: &Step) {
    roster.timeout_ms = (step.time % 1000) as u16;
    roster.heartbeat_ms = step.number();
    roster.sync_us = step.long_number();
}

/// Sets when a network starts its nodes. The number is the last one that the counter of SYNC has, and the
/// first bytes are the mandatory nodes.
fn set_start(
    alloc: Global,
    roster: &mut Roster,
    mode: StartMode,
    step: &Step,
) -> Result<(), AllocError> {
    roster.mandatory = Octets::from_slice(alloc, &step.head)?;
    roster.start_mode = mode;
    roster.sync_counter = (step.time % 256) as u8;
    Ok(())
}

/// The start mode that a word gives.
fn mode_of(word: &str) -> StartMode {
    match word {
        "whole" => StartMode::WholeNetwork,
        _ => StartMode::EachNode,
    }
}

/// The rule that a word gives.
fn slots_of(word: &str) -> SlotRule {
    match word {
        "stuffed" => SlotRule::Stuffed,
        _ => SlotRule::Unstuffed,
    }
}

/// The access that a word gives.
fn access_of(word: &str) -> Option<Access> {
    match word {
        "ro" => Some(Access::ReadOnly),
        "wo" => Some(Access::WriteOnly),
        "rw" => Some(Access::ReadWrite),
        "rwr" => Some(Access::ReadWriteOnInput),
        "rww" => Some(Access::ReadWriteOnOutput),
        "const" => Some(Access::Constant),
        _ => None,
    }
}

/// Shows a frame that was taken, if there is one.
fn show_taken<W: Write>(out: &mut W, taken: Option<Waiting>) -> Result<()> {
    if let Some(waiting) = taken {
        out.write_all(b"  taken")?;
        show_frame(out, &waiting)?;
        writeln!(out, "")?;
    }
    Ok(())
}

/// The application sets an entry, unless that is one of a PDO, or the value or the moment isn't one.
fn set_own(
    alloc: Global,
    device: &mut Device,
    t: u64,
    index: u16,
    sub: u8,
    bytes: &[u8],
) -> Result<(), AllocError> {
    if t >= END || bytes.len() > 512 || is_of_pdos(index) {
        return Ok(());
    }
    let bytes = Octets::from_slice(alloc, bytes)?;
    let bytes = Shared::new(alloc, bytes)?;
    device.set(t, index, sub, &bytes)
}

/// The application sets the entry that a step names, if it names one.
fn set(alloc: Global, device: &mut Device, step: &Step) -> Result<(), AllocError> {
    match step.place() {
        Some((index, sub)) => set_own(alloc, device, step.time, index, sub, &step.data),
        None => Ok(()),
    }
}

/// The device runs what is due.
fn run(device: &mut Device, t: u64) -> Result<(), AllocError> {
    if t < END {
        device.on_instant(t)?;
    }
    Ok(())
}

/// Shows the frames that wait at a moment, and takes them.
fn show_moment<W: Write>(out: &mut W, device: &mut Device, t: u64) -> Result<()> {
    if device.contender().is_some() {
        write!(out, "  {t}")?;
        show_left(out, device)?;
        writeln!(out, "")?;
    }
    Ok(())
}

/// A node with these entries, of which a boot asks for nothing.
fn node_of(alloc: Global, entries: &Entries) -> Result<OneNode, AllocError> {
    let defaults = entries.defaults()?;
    let shape = entries.shape()?;
    Ok(OneNode {
        alloc,
        slots: SlotRule::Unstuffed,
        defaults: Rc::new(alloc, defaults)?,
        shape: Rc::new(alloc, shape)?,
        expect: Identity { numbers: [0; 5] },
        writes: Vec::new(alloc),
        asked: Vec::new(alloc),
        asks: 0,
    })
}

impl Bench {
    /// A device without power and a manager of no network.
    pub fn new(alloc: Global) -> Result<Bench> {
        let entries = Entries::new(alloc)?;
        let node = node_of(alloc, &entries)?;
        Ok(Bench {
            alloc,
            entries,
            node,
            device: Device::new(alloc, 5),
            last: 0,
            roster: roster_of(alloc)?,
            manager: Manager::new(alloc),
            notes: Notes::new(alloc),
        })
    }

    /// Plays a line, and shows what it leaves. A line has a word, a moment in microseconds, an
    /// identifier and bytes, these two as hexadecimal digits; those that it doesn't use may be missing.
    /// Of a device speak `on` and `off` (its power), `anew` (both, and its boot-up is taken), `device` (it
    /// takes a frame), `beat` (the same, and then it runs what is due), `run` (the same at each moment from
    /// that of the line before), `set` (its application sets an entry), `sends` (its winner starts) and
    /// `value` (of one or two entries); of a manager `network`, `manager`, `clock`, `command` and `orders`; of
    /// the networks that follow `each` and `whole` (which nodes are started, and when); of a network of such nodes on a
    /// bus, from its power-on to a moment, `unstuffed` and `stuffed` (which bits of a frame take the bus); all others
    /// speak of the parts.
    pub fn play<W: Write>(&mut self, out: &mut W, line: &str) -> Result<()> {
        let (word, text) = line.split_once(' ').unwrap_or((line, ""));
        if word == "#" {
            return Ok(());
        }
        let step = Step::read(self.alloc, text)?;
        self.play_step(out, word, &step)
    }

    /// Plays the step of a word.
    fn play_step<W: Write>(&mut self, out: &mut W, word: &str, step: &Step) -> Result<()> {
        match word {
            "on" | "off" | "anew" | "device" | "beat" | "run" | "set" | "sends" => {
                self.play_device(out, word, step)
            }
            "network" | "manager" | "clock" | "command" | "orders" => {
                self.play_manager(out, word, step)
            }
            "unstuffed" | "stuffed" => self.run_network(out, word, step),
            "value" => self.show_values(out, step),
            "each" | "whole" => self.change_start(word, step),
            "expect" | "write" | "forget" => self.change_boot(word, step),
            _ => self.change_entries(word, step),
        }
    }

    /// Plays a line that speaks of the device.
    fn play_device<W: Write>(&mut self, out: &mut W, word: &str, step: &Step) -> Result<()> {
        let before = self.device.copy()?;
        match word {
            "on" => self.switch(true, step.time)?,
            "off" => self.switch(false, step.time)?,
            "anew" => self.begin_anew(step.time)?,
            "set" => set(self.alloc, &mut self.device, step)?,
            "sends" => show_taken(out, take_of_device(&mut self.device, true))?,
            _ => self.play_frame(out, word, step)?,
        }
        if word != "sends" {
            self.last = step.time;
        }
        show_device(out, &self.device, &before, &mut self.node)
    }

    /// Switches the power of the device.
    fn switch(&mut self, on: bool, t: u64) -> Result<(), AllocError> {
        if t < END {
            self.device.power(on, t, &mut self.node)?;
        }
        Ok(())
    }

    /// Switches the device off and on, and takes its boot-up.
    fn begin_anew(&mut self, t: u64) -> Result<(), AllocError> {
        self.switch(false, t)?;
        self.switch(true, t)?;
        let _boot_up = take_of_device(&mut self.device, true);
        Ok(())
    }

    /// Gives the device a frame, and lets it run what is due.
    fn play_frame<W: Write>(&mut self, out: &mut W, word: &str, step: &Step) -> Result<()> {
        match word {
            "run" => self.run_until(out, step),
            "beat" => Ok(self.beat(step.time, step)?),
            _ => Ok(self.receive(step.time, step)?),
        }
    }

    /// The device takes the frame of a step, and runs what is due.
    fn beat(&mut self, t: u64, step: &Step) -> Result<(), AllocError> {
        self.receive(t, step)?;
        run(&mut self.device, t)
    }

    /// The device takes the frame of a step, if that has one.
    fn receive(&mut self, t: u64, step: &Step) -> Result<(), AllocError> {
        if t >= END || step.head.is_empty() {
            return Ok(());
        }
        if let Some(frame) = Frame::new(step.number(), &step.data) {
            self.device.on_frame(t, &frame, &mut self.node)?;
        }
        Ok(())
    }

    /// The device takes the frame of a step and runs what is due, at each moment from that of the line
    /// before to the step's. Shows the frames that come of it, and takes them.
    fn run_until<W: Write>(&mut self, out: &mut W, step: &Step) -> Result<()> {
        for t in self.last..=step.time {
            self.beat(t, step)?;
            show_moment(out, &mut self.device, t)?;
        }
        Ok(())
    }

    /// Plays a line that speaks of the manager.
    fn play_manager<W: Write>(&mut self, out: &mut W, word: &str, step: &Step) -> Result<()> {
        let before = self.manager.copy()?;
        self.change_manager(out, word, step)?;
        show_notes(out, self.notes.as_slice())?;
        self.notes.clear();
        show_manager(out, &self.manager, &before)
    }

    /// Changes when the networks that follow start their nodes.
    fn change_start(&mut self, word: &str, step: &Step) -> Result<()> {
        Ok(set_start(self.alloc, &mut self.roster, mode_of(word), step)?)
    }

    /// Makes the manager of a network, gives it a frame or a command, runs what is due, or takes its winner.
    fn change_manager<W: Write>(&mut self, out: &mut W, word: &str, step: &Step) -> Result<()> {
        match word {
            "network" => {
                set_times(&mut self.roster, step);
                self.manager = Manager::powered_on(self.alloc, &self.roster)?;
                Ok(())
            }
            "orders" => show_taken(out, take_of_manager(&mut self.manager, true)),
            "command" => self.command(step),
            _ => self.tell_manager(word, step),
        }
    }

    /// Gives the manager a command for a node, by their numbers.
    fn command(&mut self, step: &Step) -> Result<()> {
        if let [command, node] = step.head.as_slice() {
            if let Some(command) = NmtCommand::from_number(u64::from(*command)) {
                self.manager.command(command, *node)?;
            }
        }
        Ok(())
    }

    /// Gives the manager a frame, or runs what is due.
    fn tell_manager(&mut self, word: &str, step: &Step) -> Result<()> {
        if step.time >= END {
            return Ok(());
        }
        if word == "clock" {
            self.manager.on_instant(step.time, &mut self.notes)?;
        } else if let Some(frame) = Frame::new(step.number(), &step.data) {
            self.manager
                .on_frame(step.time, &frame, &mut self.node, &mut self.notes)?;
        }
        Ok(())
    }

    /// Runs a network of such nodes on a bus, and shows its trace.
    fn run_network<W: Write>(&mut self, out: &mut W, word: &str, step: &Step) -> Result<()> {
        self.node.slots = slots_of(word);
        show_run(self.alloc, out, &mut self.node, step.time)
    }

    /// Shows the values of one or two entries of the device.
    fn show_values<W: Write>(&self, out: &mut W, step: &Step) -> Result<()> {
        let values = self.device.values();
        show_value(out, values, step.place())?;
        if step.other_place().is_some() {
            out.write_all(b" |")?;
            show_value(out, values, step.other_place())?;
        }
        writeln!(out, "")?;
        Ok(())
    }

    /// Changes what a boot asks for: an expected number by its place, one more write, or none.
    fn change_boot(&mut self, word: &str, step: &Step) -> Result<()> {
        match (word, step.head.as_slice()) {
            ("expect", [a, b, c, d]) => {
                if step.time < 5 {
                    self.node.expect.numbers[step.time as usize] = u32::from_be_bytes([
                        *a, *b, *c, *d,
                    ]);
                }
            }
            ("write", [_, _, sub]) => {
                let bytes = Octets::from_slice(self.alloc, &step.data)?;
                let index = step.number();
                self.node.writes.push(Written {
                    index,
                    sub: *sub,
                    bytes,
                })?;
            }
            _ => self.node.writes.clear(),
        }
        Ok(())
    }

    /// Changes the entries of the node: a word of an access adds one, of a data type's number, with its
    /// default; `maps`, `low` and `high` change the last; `dummy` lets RPDOs map that of a data type's
    /// number; `entries` has them be those of the first line again.
    fn change_entries(&mut self, word: &str, step: &Step) -> Result<()> {
        match (access_of(word), step.place()) {
            (Some(access), Some(place)) => {
                self.entries.add(access, step.time, place, &step.data)?;
            }
            _ => self.change_last(word, step)?,
        }
        self.node.shape = Rc::new(self.alloc, self.entries.shape()?)?;
        self.node.defaults = Rc::new(self.alloc, self.entries.defaults()?)?;
        Ok(())
    }

    /// Changes the last entry, the dummies, or all.
    fn change_last(&mut self, word: &str, step: &Step) -> Result<(), AllocError> {
        match word {
            "maps" | "low" | "high" => self.entries.change(word, step.time),
            "dummy" => {
                self.entries.allow(step.time);
                Ok(())
            }
            _ => self.entries.begin(),
        }
    }
}
