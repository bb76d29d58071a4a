//! As many messages, identifiers and TPDOs as there can be, and one more of each.

ghost use Rattle.std.specs.Prelude.{◌≤◌, ◌+◌};

use crate::expect::gives;
use std::alloc::{AllocError, Global};
use std::fmt::Write;
use workbench::SessionFault;

/// So many `ok`, and other replies after them.
fn oks(alloc: Global, count: u32, others: &str) -> Result<String, AllocError> {
    let mut replies = String::new(alloc);
    for _ in 0..count {
        replies.push_str("ok\n")?;
    }
    replies.push_str(others)?;
    Ok(replies)
}

/// 1,024 messages and another; a node that isn't there comes first; a known one is another one;
/// another comes for one that goes.
fn messages(alloc: Global) -> Result<String, AllocError> {
    let mut script = String::from_str(alloc, "eds a 0\nnode 5 p a\n")?;
    for number in 0..1024 {
        writeln!(script, "message m{number} 5 1 255 0 0 0")?;
    }
    script.push_str("message m1024 5 1 255 0 0 0\nmessage m1024 6 1 255 0 0 0\n")?;
    script.push_str("message m0 5 2 1 0 0 181\ndrop-message m1\nmessage m1024 5 1 255 0 0 0\n")?;
    Ok(script)
}

const MESSAGES_REPLIES: &str = "refused 7 Limit\nrefused 4 Unknown\nok\nok\nok\n";

/// A text with so many TPDOs from a number on, without room for mapping entries.
fn put_tpdos(script: &mut String, first: u16, count: u16) -> Result<(), AllocError>
    requires { first + count ≤ 1000 }
{
    writeln!(script, "eds a {}", 6 * u32::from(count))?;
    for tpdo in first..first + count {
        let object = 0x17FF + tpdo;
        writeln!(
            script,
            "[{object:X}sub1]\nDataType=7\n[{object:X}sub2]\nDataType=5"
        )?;
        writeln!(script, "[{:X}sub0]\nDataType=5", object + 0x200)?;
    }
    Ok(())
}

/// 94 messages of TPDOs that have no predefined identifier, and then two of other nodes, of which the
/// second finds all 95 identifiers taken until one message goes.
fn automatic(alloc: Global) -> Result<String, AllocError> {
    let mut script = String::new(alloc);
    put_tpdos(&mut script, 5, 94)?;
    script.push_str("node 5 p a\nnode 6 q a\nnode 7 r a\n")?;
    for tpdo in 5..99 {
        writeln!(script, "message m{tpdo} 5 {tpdo} 255 0 0 0")?;
    }
    script.push_str("message y 6 5 255 0 0 0\nmessage z 7 5 255 0 0 0\ncdcf 6\ncdcf 7\n")?;
    script.push_str("drop-message m50\ncdcf 6\ncdcf 7\n")?;
    Ok(script)
}

/// The replies after those to the edits before `cdcf`: 6DFh is the last identifier.
const AUTOMATIC_REPLIES: &str = "\
    lines 4\n\
    05 00 00 00 04 18 01 04 00 00 00 DF 06 00 C0 04\n\
    18 02 01 00 00 00 FF 04 1A 00 01 00 00 00 00 04\n\
    1A 00 01 00 00 00 00 04 18 01 04 00 00 00 DF 06\n\
    00 40\n\
    lines 1\n\
    00 00 00 00\n\
    ok\n\
    lines 4\n\
    05 00 00 00 04 18 01 04 00 00 00 DE 06 00 C0 04\n\
    18 02 01 00 00 00 FF 04 1A 00 01 00 00 00 00 04\n\
    1A 00 01 00 00 00 00 04 18 01 04 00 00 00 DE 06\n\
    00 40\n\
    lines 4\n\
    05 00 00 00 04 18 01 04 00 00 00 DF 06 00 C0 04\n\
    18 02 01 00 00 00 FF 04 1A 00 01 00 00 00 00 04\n\
    1A 00 01 00 00 00 00 04 18 01 04 00 00 00 DF 06\n\
    00 40\n";

/// A message of each of a node's 512 TPDOs, by rising identifiers from 181h on, and others of the
/// first and the last of these TPDOs, which are taken.
fn tpdos(alloc: Global) -> Result<String, AllocError> {
    let mut script = String::new(alloc);
    put_tpdos(&mut script, 1, 512)?;
    script.push_str("node 5 p a\n")?;
    for tpdo in 1..513u16 {
        writeln!(
            script,
            "message m{tpdo} 5 {tpdo} 255 0 0 {:X}",
            0x180 + tpdo
        )?;
    }
    script.push_str("message n 5 1 255 0 0 0\nmessage o 5 512 255 0 0 0\ncdcf 5\n")?;
    script.push_str("message n 5 513 255 0 0 0\n")?;
    Ok(script)
}

/// The bytes of the writes of a TPDO, from 1 to 512, that maps nothing.
fn put_writes(bytes: &mut Vec<u8>, tpdo: u16) -> Result<(), AllocError>
    requires { tpdo ≤ 512 }
{
    let [low, high] = (0x17FF + tpdo).to_le_bytes();
    let [map_low, map_high] = (0x19FF + tpdo).to_le_bytes();
    let [cob_low, cob_high] = (0x180 + tpdo).to_le_bytes();
    bytes.extend_from_slice(&[low, high, 1, 4, 0, 0, 0, cob_low, cob_high, 0, 0xC0])?;
    bytes.extend_from_slice(&[low, high, 2, 1, 0, 0, 0, 0xFF])?;
    bytes.extend_from_slice(&[map_low, map_high, 0, 1, 0, 0, 0, 0])?;
    bytes.extend_from_slice(&[map_low, map_high, 0, 1, 0, 0, 0, 0])?;
    bytes.extend_from_slice(&[low, high, 1, 4, 0, 0, 0, cob_low, cob_high, 0, 0x40])
}

/// Bytes in two hexadecimal digits each, 16 a line.
fn put_lines(text: &mut String, bytes: &[u8]) -> Result<(), AllocError> {
    for row in bytes.chunks(16) {
        for (place, byte) in row.iter().enumerate() {
            write!(text, "{}{byte:02X}", if place == 0 { "" } else { " " })?;
        }
        text.push_str("\n")?;
    }
    Ok(())
}

/// The concise DCF of 2,560 writes.
fn tpdos_replies(alloc: Global) -> Result<String, AllocError> {
    let mut bytes = Vec::from_slice(alloc, &[0, 10, 0, 0])?;
    for tpdo in 1..513 {
        put_writes(&mut bytes, tpdo)?;
    }
    let mut text = String::from_str(alloc, "lines 1473\n")?;
    put_lines(&mut text, &bytes)?;
    text.push_str("refused 3 Range\n")?;
    Ok(text)
}

fn has_most_messages(alloc: Global) -> Result<bool, SessionFault> {
    let replies = oks(alloc, 1026, MESSAGES_REPLIES)?;
    gives(alloc, messages(alloc)?.as_bytes(), replies.as_bytes())
}

fn has_all_identifiers(alloc: Global) -> Result<bool, SessionFault> {
    let replies = oks(alloc, 100, AUTOMATIC_REPLIES)?;
    gives(alloc, automatic(alloc)?.as_bytes(), replies.as_bytes())
}

fn has_all_tpdos(alloc: Global) -> Result<bool, SessionFault> {
    let replies = oks(alloc, 516, &tpdos_replies(alloc)?)?;
    gives(alloc, tpdos(alloc)?.as_bytes(), replies.as_bytes())
}

#[test]
fn most_messages_identifiers_and_tpdos(rt: HostRuntime) -> Result<(), SessionFault> {
    assert!(rt; has_most_messages(rt.alloc())?);
    assert!(rt; has_all_identifiers(rt.alloc())?);
    assert!(rt; has_all_tpdos(rt.alloc())?);
    Ok(())
}
