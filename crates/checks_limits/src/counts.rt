//! As many texts, parameters, nodes, events and entries as there can be, and one more of each.

use crate::expect::gives;
use std::alloc::{AllocError, Global};
use std::fmt::Write;
use workbench::SessionFault;

/// So many `ok`, and other replies after them.
fn oks(alloc: Global, count: u32, others: &str) -> Result<String, AllocError> {
    let mut replies = String::new(alloc);
    for _ in 0..count {
        replies.push_str("ok\n")?;
    }
    replies.push_str(others)?;
    Ok(replies)
}

/// 64 texts and another; a known one gets other lines; another comes for one that goes.
fn texts(alloc: Global) -> Result<String, AllocError> {
    let mut script = String::new(alloc);
    for number in 0..64 {
        writeln!(script, "eds t{number} 0")?;
    }
    script.push_str("eds t64 0\neds t0 1\n;\ndrop-eds t1\neds t64 0\neds t1 0\n")?;
    Ok(script)
}

const TEXTS_REPLIES: &str = "refused 7 Limit\nok\nok\nok\nrefused 7 Limit\n";

/// 126 nodes beside the manager, and a node of its number; a known one gets another name.
fn nodes(alloc: Global) -> Result<String, AllocError> {
    let mut script = String::from_str(alloc, "eds a 0\n")?;
    for number in 1..127 {
        writeln!(script, "node {number} n{number} a")?;
    }
    script.push_str("node 127 n127 a\nnode 126 n127 a\nmanager 126 0 0 500\n")?;
    Ok(script)
}

const NODES_REPLIES: &str = "refused 5 Taken\nok\nrefused 5 Taken\n";

/// 4,096 parameters of a node and two others; a known one gets another text; another node has its
/// own; another comes for one that goes.
fn parameters(alloc: Global) -> Result<String, AllocError> {
    let mut script = String::from_str(alloc, "eds a 0\nnode 5 p a\nnode 6 q a\n")?;
    for index in 0x2000..0x3000 {
        writeln!(script, "param 5 {index:X} 0 1")?;
    }
    script.push_str("param 5 3000 0 1\nparam 5 2000 1 1\nparam 5 2FFF 0 2\nparam 6 3000 0 1\n")?;
    script.push_str("unparam 5 2000 0\nparam 5 2000 1 1\nparam 5 3000 0 1\n")?;
    Ok(script)
}

const PARAMETERS_REPLIES: &str =
    "refused 7 Limit\nrefused 7 Limit\nok\nok\nok\nok\nrefused 7 Limit\n";

/// 10,000 events, the last number first, and a number beyond them.
fn events(alloc: Global) -> Result<String, AllocError> {
    let mut script = String::from_str(alloc, "eds a 0\nnode 5 p a\n")?;
    for number in (1..10_001).rev() {
        writeln!(script, "event {number} {number} power 5 on")?;
    }
    script.push_str("event 10001 0 power 5 on\nevent 10000 10000 power 5 on\nproject\n")?;
    Ok(script)
}

/// The replies after those to the first 10,000 events: they are printed by number.
fn events_replies(alloc: Global) -> Result<String, AllocError> {
    let mut replies = String::from_str(alloc, "refused 3 Range\nok\nlines 10005\n")?;
    replies.push_str("bitrate 1000\nhorizon 1000000\nmanager 127 0 0 500\neds a 0\nnode 5 p a\n")?;
    for number in 1..10_001 {
        writeln!(replies, "event {number} {number} power 5 on")?;
    }
    Ok(replies)
}

/// A text of so many compact objects of 255 entries, and so many objects of one.
fn put_entries(script: &mut String, compact: u8, plain: u8) -> Result<(), AllocError> {
    let lines = 4 * u32::from(compact) + 2 * u32::from(plain);
    writeln!(script, "eds a {lines}")?;
    for index in 0..compact {
        writeln!(script, "[{:X}]", 0x2000 + u32::from(index))?;
        script.push_str("ObjectType=8\nDataType=5\nCompactSubObj=254\n")?;
    }
    for index in 0..plain {
        writeln!(script, "[{:X}]\nDataType=5", 0x3000 + u32::from(index))?;
    }
    Ok(())
}

/// Texts of 4,080, 4,335, 4,096 and 4,097 entries, and a parameter of the last compact one.
fn entries(alloc: Global) -> Result<String, AllocError> {
    let mut script = String::new(alloc);
    for (compact, plain) in [(16, 0), (17, 0), (16, 16), (16, 17)] {
        put_entries(&mut script, compact, plain)?;
    }
    script.push_str("node 5 p a\nparam 5 200F FE 7\nparam 5 300F 0 8\ncdcf 5\n")?;
    Ok(script)
}

const ENTRIES_REPLIES: &[u8] = b"\
    ok\n\
    refused 7 Limit\n\
    ok\n\
    refused 7 Limit\n\
    ok\n\
    ok\n\
    ok\n\
    lines 2\n\
    02 00 00 00 0F 20 FE 01 00 00 00 07 0F 30 00 01\n\
    00 00 00 08\n";

fn has_most_texts(alloc: Global) -> Result<bool, SessionFault> {
    let replies = oks(alloc, 64, TEXTS_REPLIES)?;
    gives(alloc, texts(alloc)?.as_bytes(), replies.as_bytes())
}

fn has_most_nodes(alloc: Global) -> Result<bool, SessionFault> {
    let replies = oks(alloc, 127, NODES_REPLIES)?;
    gives(alloc, nodes(alloc)?.as_bytes(), replies.as_bytes())
}

fn has_most_entries(alloc: Global) -> Result<bool, SessionFault> {
    gives(alloc, entries(alloc)?.as_bytes(), ENTRIES_REPLIES)
}

fn has_most_parameters(alloc: Global) -> Result<bool, SessionFault> {
    let replies = oks(alloc, 4099, PARAMETERS_REPLIES)?;
    gives(alloc, parameters(alloc)?.as_bytes(), replies.as_bytes())
}

fn has_most_events(alloc: Global) -> Result<bool, SessionFault> {
    let replies = oks(alloc, 10_002, &events_replies(alloc)?)?;
    gives(alloc, events(alloc)?.as_bytes(), replies.as_bytes())
}

#[test]
fn most_texts_and_nodes(rt: HostRuntime) -> Result<(), SessionFault> {
    assert!(rt; has_most_texts(rt.alloc())?);
    assert!(rt; has_most_nodes(rt.alloc())?);
    Ok(())
}

#[test]
fn most_entries_parameters_and_events(rt: HostRuntime) -> Result<(), SessionFault> {
    assert!(rt; has_most_entries(rt.alloc())?);
    assert!(rt; has_most_parameters(rt.alloc())?);
    assert!(rt; has_most_events(rt.alloc())?);
    Ok(())
}
