//! The longest lines and texts, and longer ones.

use crate::expect::gives;
use std::alloc::{AllocError, Global};
use workbench::SessionFault;

/// What stands before a byte, that byte and how often it comes, what stands after it, and the
/// replies.
type Row = (&'static [u8], u8, usize, &'static [u8], &'static [u8]);

const OK: &[u8] = b"ok\n";

const SYNTAX: &[u8] = b"refused 2 Syntax\n";

const RANGE: &[u8] = b"refused 3 Range\n";

const UNKNOWN: &[u8] = b"refused 4 Unknown\n";

/// Lines of 4,096 bytes and of one more, outside a block and inside, and a TEXT of 4,000 bytes and
/// of one more.
const LINES: [Row; 12] = [
    (b"dcf 5", b' ', 4091, b"\n", UNKNOWN),
    (b"dcf 5", b' ', 4092, b"\n", SYNTAX),
    // the CRs at the end don't count
    (b"dcf 5", b'\t', 4091, b"\r\r\r\n", UNKNOWN),
    (b"", b'\t', 4096, b"\n", b""),
    (b"", b' ', 4097, b"\n", SYNTAX),
    (b"eds x 1\n", b';', 4096, b"\r\r\n", OK),
    (b"eds x 1\n", b';', 4097, b"\n", RANGE),
    // the length comes before the byte
    (b"eds x 2\n\0\n", b';', 4097, b"\n", RANGE),
    (b"eds x 1", b' ', 4089, b"\n;\n", OK),
    // the block is taken all the same
    (b"eds x 1", b' ', 4090, b"\nhello\n", SYNTAX),
    (
        b"eds x 0\nnode 5 p x\nparam 5 2000 0 ",
        b'a',
        4000,
        b"\t\n",
        b"ok\nok\nok\n",
    ),
    (
        b"eds x 0\nnode 5 p x\nparam 5 2000 0 \t",
        b'a',
        4001,
        b"\n",
        b"ok\nok\nrefused 2 Syntax\n",
    ),
];

/// The ends of 65,535 lines of 15 bytes, the line after them, and the reply to this block.
const TEXTS: [(&[u8], &[u8], &[u8]); 3] = [
    // 1,048,576 bytes, with the LF of each line
    (b"\n", b";23456789abcdef\n", OK),
    (b"\n", b";23456789abcdefg\n", RANGE),
    // CRs at line ends count in no limit
    (b"\r\r\n", b";23456789abcdef", OK),
];

/// Adds so many times a byte.
fn put_bytes(script: &mut Vec<u8>, byte: u8, count: usize) -> Result<(), AllocError> {
    for _ in 0..count {
        script.push(byte)?;
    }
    Ok(())
}

/// Whether a row has its replies.
fn has_replies(alloc: Global, row: &Row) -> Result<bool, SessionFault> {
    let (head, byte, count, tail, replies) = *row;
    let mut script = Vec::from_slice(alloc, head)?;
    put_bytes(&mut script, byte, count)?;
    script.extend_from_slice(tail)?;
    gives(alloc, &script, replies)
}

/// A block of 65,535 lines of 15 bytes, and a last line.
fn longest_text(alloc: Global, line_end: &[u8], last: &[u8]) -> Result<Vec<u8>, AllocError> {
    let mut script = Vec::from_slice(alloc, b"eds x 65536\n")?;
    for _ in 0..65_535 {
        script.extend_from_slice(b";;;;;;;;;;;;;;;")?;
        script.extend_from_slice(line_end)?;
    }
    script.extend_from_slice(last)?;
    Ok(script)
}

/// Whether the block with these ends has this reply.
fn has_reply(
    alloc: Global,
    line_end: &[u8],
    last: &[u8],
    reply: &[u8],
) -> Result<bool, SessionFault> {
    let script = longest_text(alloc, line_end, last)?;
    gives(alloc, &script, reply)
}

#[test]
fn lines_of_4096_bytes_and_one_more(rt: HostRuntime) -> Result<(), SessionFault> {
    for row in &LINES {
        assert!(rt; has_replies(rt.alloc(), row)?);
    }
    Ok(())
}

#[test]
fn texts_of_1048576_bytes_and_one_more(rt: HostRuntime) -> Result<(), SessionFault> {
    for (line_end, last, reply) in &TEXTS {
        assert!(rt; has_reply(rt.alloc(), line_end, last, reply)?);
    }
    Ok(())
}
