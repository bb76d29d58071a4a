//! Frames that wait.

use can_frame::{Contender, Frame, Pending, Purpose, Unwanted, device_sender, winner};
use std::alloc::{AllocError, Global};
use std::io;

/// How many nodes have waiting frames.
const NODES: u16 = 10;

/// How many frames wait in all.
const COUNT: u16 = 1000;

/// The frames of all nodes: the k-th of node 1 + k mod 10 has the identifier 37 k mod 800h.
fn filled(alloc: Global) -> Result<Vec<Pending>, AllocError> {
    let mut lists = Vec::new(alloc);
    for node in 0..NODES {
        let mut list = Pending::new(alloc);
        for k in 0..COUNT {
            if k % NODES == node
                && let Some(frame) = Frame::new(
                    (u32::from(k) * 37 % 0x800) as u16,
                    &k.to_le_bytes(),
                )
            {
                list.add(Purpose::Tpdo(k), frame)?;
            }
        }
        lists.push(list)?;
    }
    Ok(lists)
}

/// The winner over all lists, the first that of node 1.
fn least(lists: &[Pending]) -> Option<Contender> {
    let mut best = None;
    let mut node = 1;
    for list in lists {
        best = Contender::lower(best, list.contender(device_sender(node)));
        node = if node < 127 { node + 1 } else { node };
    }
    best
}

/// The number of a sender.
fn number_of(sender: u16) -> u16 {
    sender / 2
}

/// Takes the frame at a place out of the list of a device, if it is there.
fn take(lists: &mut [Pending], sender: u16, place: usize) {
    if let Some(list) = lists.get_mut(usize::from(number_of(sender).saturating_sub(1)))
        && place < list.len()
    {
        let _ = list.take(place);
    }
}

/// Prints which frame wins.
fn show_contender(rt: &HostRuntime, best: &Contender) -> io::Result<()> {
    println!(rt; "{:03X} {} {}", best.id, number_of(best.sender), best.place)
}

/// Prints the winner, if a frame waits, and takes it out of its list.
fn show_next(rt: &HostRuntime, lists: &mut [Pending]) -> io::Result<()> {
    let Some(best) = least(lists) else {
        return Ok(());
    };
    show_contender(rt, &best)?;
    take(lists, best.sender, best.place);
    Ok(())
}

/// Prints a thousand winners one after the other.
fn show_winners(rt: &HostRuntime, lists: &mut [Pending]) -> io::Result<()> {
    for _ in 0..COUNT {
        show_next(rt, lists)?;
    }
    Ok(())
}

/// Prints in how many lists frames are left.
fn show_left(rt: &HostRuntime, lists: &[Pending]) -> io::Result<()> {
    let left = lists.iter().filter(|list| !list.is_empty()).count();
    println!(rt; "left {left}")
}

/// Prints a thousand winners one after the other, each of which leaves its list.
pub fn many(rt: &HostRuntime) -> io::Result<()> {
    let mut lists = filled(rt.alloc())?;
    show_winners(rt, &mut lists)?;
    show_left(rt, &lists)
}

/// Prints a list in order.
fn show(rt: &HostRuntime, list: &Pending) -> io::Result<()> {
    for waiting in list.as_slice() {
        print!(rt; "{:03X} ", waiting.frame.id())?;
    }
    println!(rt; "of {}", list.len())
}

/// Adds a frame without bytes.
fn add(list: &mut Pending, purpose: Purpose, id: u16) -> Result<(), AllocError> {
    match Frame::new(id, &[]) {
        Some(frame) => list.add(purpose, frame),
        None => Ok(()),
    }
}

/// Puts a frame without bytes in the place of one of its purpose.
fn replace(list: &mut Pending, purpose: Purpose, id: u16) -> Result<(), AllocError> {
    match Frame::new(id, &[]) {
        Some(frame) => list.replace(purpose, frame),
        None => Ok(()),
    }
}

/// Prints the winner of a list and two others.
fn show_winner(rt: &HostRuntime, list: &Pending, other: &Pending) -> io::Result<()> {
    let senders = [device_sender(5), device_sender(4), device_sender(3)];
    match winner(&[(senders[0], list), (senders[1], other), (senders[2], other)]) {
        Some(best) => show_contender(rt, &best),
        None => Ok(()),
    }
}

/// A list, and a copy of what it was.
#[derive(Drop)]
struct Kept {
    list: Pending,
    copy: Pending,
}

/// What is done to a list, or printed of it.
#[derive(Clone, Copy)]
enum Turn {
    Add(Purpose, u16),
    Replace(Purpose, u16),
    Drop(Unwanted),
    Copy,
    Show,
    IsSame,
    HasNone,
    Winner,
}

/// Frames come, give way to others and are dropped.
const TURNS: [Turn; 20] = [
    Turn::Add(Purpose::Heartbeat, 0x705),
    Turn::Add(Purpose::Tpdo(1), 0x185),
    Turn::Add(Purpose::Sdo(5), 0x585),
    Turn::Add(Purpose::Tpdo(2), 0x185),
    Turn::Show,
    Turn::Replace(Purpose::Tpdo(1), 0x190),
    Turn::Replace(Purpose::Emergency, 0x085),
    Turn::Replace(Purpose::Heartbeat, 0x706),
    Turn::Show,
    Turn::Copy,
    Turn::IsSame,
    Turn::Drop(Unwanted::Tpdos),
    Turn::Show,
    Turn::IsSame,
    Turn::Drop(Unwanted::SdoOf(6)),
    Turn::Drop(Unwanted::Emergencies),
    Turn::Show,
    Turn::Winner,
    Turn::Drop(Unwanted::All),
    Turn::HasNone,
];

/// Prints what a turn asks for.
fn show_turn(rt: &HostRuntime, kept: &Kept, turn: &Turn) -> io::Result<()> {
    match turn {
        Turn::Show => show(rt, &kept.list),
        Turn::Winner => show_winner(rt, &kept.list, &kept.copy),
        Turn::IsSame => println!(rt; "same {}", kept.list.same(&kept.copy)),
        Turn::HasNone => println!(rt;
            "none {}",
            winner(&[(device_sender(5), &kept.list)]).is_none()
        ),
        _ => Ok(()),
    }
}

/// Keeps a copy of a list.
fn keep(kept: &mut Kept) -> Result<(), AllocError> {
    kept.copy = kept.list.copy()?;
    Ok(())
}

/// Does what a turn says.
fn take_turn(kept: &mut Kept, turn: &Turn) -> Result<(), AllocError> {
    match turn {
        Turn::Add(purpose, id) => add(&mut kept.list, *purpose, *id),
        Turn::Replace(purpose, id) => replace(&mut kept.list, *purpose, *id),
        Turn::Drop(unwanted) => {
            kept.list.drop_of(*unwanted);
            Ok(())
        }
        Turn::Copy => keep(kept),
        _ => Ok(()),
    }
}

/// Prints a list after changes of it, and the winner of it and another with the same identifier.
pub fn few(rt: &HostRuntime) -> io::Result<()> {
    let mut kept = Kept {
        list: Pending::new(rt.alloc()),
        copy: Pending::new(rt.alloc()),
    };
    for turn in &TURNS {
        take_turn(&mut kept, turn)?;
        show_turn(rt, &kept, turn)?;
    }
    Ok(())
}
