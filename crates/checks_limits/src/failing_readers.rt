//! Readers of which one read fails.

use crate::narrow::{Narrow, Trouble};
use crate::pieces::Pieces;
use std::alloc::Global;
use std::cell::Cell;
use std::io::ErrorKind;
use workbench::{Counted, SessionFault, session};

/// A script, the size of its pieces, the number of the read that fails, and what is written. No row
/// reads on after it, though the reader would give more, or its end.
const ROWS: [(&[u8], usize, usize, &[u8]); 7] = [
    (b"dcf 5\ndcf 6\nhello", 6, 0, b""),
    (b"dcf 5\ndcf 6\nhello", 6, 1, b"refused 4 Unknown\n"),
    (
        b"dcf 5\ndcf 6\nhello",
        6,
        2,
        b"refused 4 Unknown\nrefused 4 Unknown\n",
    ),
    // at the end: a line that nothing ends isn't answered, and a block isn't cut off
    (
        b"dcf 5\ndcf 6\nhello",
        6,
        3,
        b"refused 4 Unknown\nrefused 4 Unknown\n",
    ),
    (b"hello\nhel", 4096, 1, b"refused 2 Syntax\n"),
    (b"bitrate 500\nhor", 4096, 1, b"ok\n"),
    (b"hello\neds x 2\na\n", 4096, 1, b"refused 2 Syntax\n"),
];

/// Whether the session ends in Read at the failing read, whatever that says, and has written this.
fn ends_in_read(
    alloc: Global,
    script: &[u8],
    step: usize,
    (failing, kind): (usize, ErrorKind),
    written: &[u8],
) -> bool {
    let gone_out = Cell::new(0);
    let pieces = Pieces::new(alloc, script, step, Some(failing), &gone_out).saying(kind);
    let mut reader = Counted::new(pieces);
    let mut writer = Counted::new(Narrow::new(alloc, Trouble::Nothing, &gone_out));
    let outcome = session(alloc, &mut reader, &mut writer);
    let stops_there = reader.inner().noted().len() == failing.saturating_add(1);
    outcome.err() == Some(SessionFault::Read) && stops_there && writer.inner().text() == written
}

#[test]
fn a_session_ends_in_read_where_a_read_fails_once(rt: HostRuntime) {
    for (script, step, failing, written) in &ROWS {
        assert!(rt;
            ends_in_read(
                rt.alloc(),
                script,
                *step,
                (*failing, ErrorKind::Other),
                written
            )
        );
    }
}

#[test]
fn a_read_that_is_interrupted_has_failed(rt: HostRuntime) {
    for (script, step, failing, written) in &ROWS {
        assert!(rt;
            ends_in_read(
                rt.alloc(),
                script,
                *step,
                (*failing, ErrorKind::Interrupted),
                written
            )
        );
    }
}
