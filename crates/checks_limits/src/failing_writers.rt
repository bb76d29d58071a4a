//! Writers of which one call fails, or that take no more bytes.

use crate::narrow::{Narrow, Trouble};
use crate::pieces::Pieces;
use std::alloc::{AllocError, Global};
use std::cell::Cell;
use workbench::{Counted, SessionFault, session};

/// A script that comes in pieces of 6 bytes, the writer's trouble, and what is written: nothing
/// after the trouble, though the writer would take more.
const ROWS: [(&[u8], Trouble, &[u8]); 11] = [
    (b"dcf 5\ndcf 6\nhello", Trouble::Write(0), b""),
    (
        b"dcf 5\ndcf 6\nhello",
        Trouble::Write(1),
        b"refused 4 Unknown\n",
    ),
    // the reply at the end of the input
    (
        b"dcf 5\ndcf 6\nhello",
        Trouble::Write(2),
        b"refused 4 Unknown\nrefused 4 Unknown\n",
    ),
    (
        b"dcf 5\ndcf 6\nhello",
        Trouble::Flush(0),
        b"refused 4 Unknown\n",
    ),
    (
        b"dcf 5\ndcf 6\nhello",
        Trouble::Flush(1),
        b"refused 4 Unknown\nrefused 4 Unknown\n",
    ),
    (
        b"dcf 5\ndcf 6\nhello",
        Trouble::Flush(2),
        b"refused 4 Unknown\nrefused 4 Unknown\nrefused 2 Syntax\n",
    ),
    // the reply to a block that the end cuts off
    (b"eds x 1\n", Trouble::Write(0), b""),
    (b"eds x 1\n", Trouble::Flush(0), b"refused 9 Truncated\n"),
    // no more room
    (b"hello", Trouble::Room(1), b"r"),
    (b"bitrate 500", Trouble::Room(1), b"o"),
    (
        b"hello\ndcf 5\n",
        Trouble::Room(20),
        b"refused 2 Syntax\nref",
    ),
];

/// How a session over a script in pieces of a size ends, whether the writer made its trouble, and
/// whether it holds this.
fn ended(
    alloc: Global,
    script: &[u8],
    step: usize,
    trouble: Trouble,
    written: &[u8],
) -> (Option<SessionFault>, bool, bool) {
    let gone_out = Cell::new(0);
    let mut reader = Counted::new(Pieces::new(alloc, script, step, None, &gone_out));
    let mut writer = Counted::new(Narrow::new(alloc, trouble, &gone_out));
    let outcome = session(alloc, &mut reader, &mut writer);
    let narrow = writer.inner();
    (
        outcome.err(),
        narrow.was_troubled(),
        narrow.text() == written,
    )
}

/// Whether the session ends in Write, and has written this.
fn ends_in_write(alloc: Global, script: &[u8], trouble: Trouble, written: &[u8]) -> bool {
    let (fault, was_troubled, is_written) = ended(alloc, script, 6, trouble, written);
    fault == Some(SessionFault::Write) && was_troubled && is_written
}

/// A block of 75,000 bytes, and two replies that are longer than what waits to be written.
fn long_replies(alloc: Global) -> Result<Vec<u8>, AllocError> {
    let mut script = Vec::from_slice(alloc, b"eds x 5000\n")?;
    for _ in 0..5000 {
        script.extend_from_slice(b";;;;;;;;;;;;;;\n")?;
    }
    script.extend_from_slice(b"project\nproject\n")?;
    Ok(script)
}

/// Whether the session over long replies ends in Write.
fn ends_in_write_at(alloc: Global, trouble: Trouble) -> Result<bool, AllocError> {
    let script = long_replies(alloc)?;
    let (fault, was_troubled, _) = ended(alloc, &script, 4096, trouble, b"");
    Ok(fault == Some(SessionFault::Write) && was_troubled)
}

#[test]
fn a_session_ends_in_write_where_a_call_fails_once(rt: HostRuntime) {
    for (script, trouble, written) in &ROWS {
        assert!(rt; ends_in_write(rt.alloc(), script, *trouble, written));
    }
}

#[test]
fn a_long_reply_ends_in_write_where_a_call_fails_once(rt: HostRuntime) -> Result<(), AllocError> {
    // those of the reply to the block, and of the two that are written alone
    for number in 0..3 {
        assert!(rt; ends_in_write_at(rt.alloc(), Trouble::Write(number))?);
        assert!(rt; ends_in_write_at(rt.alloc(), Trouble::Flush(number))?);
    }
    Ok(())
}

#[test]
fn a_writer_of_one_byte_a_call_gets_all_replies(rt: HostRuntime) {
    let script = b"dcf 5\nproject\nhello";
    let written =
        b"refused 4 Unknown\nlines 3\nbitrate 1000\nhorizon 1000000\nmanager 127 0 0 500\nrefused 2 Syntax\n";
    let (fault, _, is_written) = ended(rt.alloc(), script, 6, Trouble::Step(1), written);
    assert!(rt; fault.is_none());
    assert!(rt; is_written);
}
