//! What is delivered on a bus.

ghost use Rattle.std.specs.Prelude.{◌≡◌, ◌<◌, ◌&&◌, IfSome};
ghost use Rattle.device_agenda.specs.Agenda.{stirs};
ghost use Rattle.device_agenda.specs.LowBytes.{has_low_byte};

use crate::groups::{Groups, group_of};
use crate::low_bytes::{LowBytes, low_byte};
use can_frame::Frame;
use std::marker::Model;

/// A frame that is delivered on a bus, and who sent it.
#[derive(Debug, Drop)]
pub struct Delivery {
    pub(crate) sender: u16,
    pub(crate) frame: Frame,
    group: u32,
    low: u8,
}

impl Model for Delivery {
    ghost use Rattle.device_agenda.specs.Delivered.{Delivered, HasGroupAndLowByte};

    ghost Value = { Delivered };

    ghost view = { λ d. record { sender = d.sender; frame = d.frame } };

    ghost invariant = { λ d. HasGroupAndLowByte (record { sender = d.sender; frame = d.frame }) d.group d.low };
}

impl Delivery {
    /// A frame of a sender: `device_sender` or `manager_sender` of a number.
    pub fn of(sender: u16, frame: Frame) -> Delivery
        ensures { result ≡ record { sender = sender; frame = frame } }
    {
        Delivery {
            sender,
            frame,
            group: group_of(frame.id()),
            low: low_byte(frame.id()),
        }
    }

    /// Whether it is of one of these groups, if it is there.
    pub(crate) fn stirs(groups: Groups, delivery: &Option<Delivery>) -> bool
        ensures stirs { result ≡ stirs groups delivery.now }
        ensures bound { IfSome delivery.now (λ d. d.frame.id < 0x800) }
    {
        match delivery {
            None => false,
            Some(delivery) => groups.has(delivery.group),
        }
    }

    /// Whether it is of one of these groups and has one of these low bytes, if it is there.
    pub(crate) fn reaches(groups: Groups, low_bytes: &LowBytes, delivery: &Option<Delivery>) -> bool
        ensures reaches { result ≡ stirs groups delivery.now && has_low_byte low_bytes.now delivery.now }
        ensures bound { IfSome delivery.now (λ d. d.frame.id < 0x800) }
    {
        match delivery {
            None => false,
            Some(delivery) => groups.has(delivery.group) & low_bytes.has(delivery.low),
        }
    }
}
