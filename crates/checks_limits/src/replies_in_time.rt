//! Inputs that come in pieces, and when the replies go out.

use crate::narrow::{Narrow, Trouble};
use crate::pieces::Pieces;
use std::alloc::Global;
use std::cell::Cell;
use workbench::{Counted, session};

/// A device with one parameter: the bytes of its concise DCF, and its DCF.
const HEARTBEAT: &[u8] = b"\
    eds a 4\n\
    [1017]\n\
    DataType=6\n\
    [2001]\n\
    DataType=9\n\
    node 5 pump a\n\
    horizon 150000\n\
    param 5 1017 0 100\n\
    cdcf 5\n\
    dcf 5\n";

const HEARTBEAT_REPLIES: &[u8] = b"\
    ok\n\
    ok\n\
    ok\n\
    ok\n\
    lines 1\n\
    01 00 00 00 17 10 00 02 00 00 00 64 00\n\
    lines 9\n\
    [1017]\n\
    DataType=6\n\
    ParameterValue=0x0064\n\
    [2001]\n\
    DataType=9\n\
    [DeviceComissioning]\n\
    NodeID=5\n\
    NodeName=pump\n\
    Baudrate=1000\n";

/// Whether a script in pieces of a size has these replies, in so many writes, which have gone out as
/// it says before each read.
fn goes_out(
    alloc: Global,
    script: &[u8],
    step: usize,
    replies: &[u8],
    writes: usize,
    noted: Option<&[usize]>,
) -> bool {
    let gone_out = Cell::new(0);
    let mut reader = Counted::new(Pieces::new(alloc, script, step, None, &gone_out));
    let mut writer = Counted::new(Narrow::new(alloc, Trouble::Nothing, &gone_out));
    let outcome = session(alloc, &mut reader, &mut writer);
    let is_noted = match noted {
        Some(noted) => reader.inner().noted() == noted,
        None => true,
    };
    let narrow = writer.inner();
    outcome.is_ok() && is_noted && narrow.text() == replies && narrow.writes() == writes
}

#[test]
fn any_pieces_have_the_same_replies(rt: HostRuntime) {
    // the six replies go out as their commands come, or in one write where all come at once
    for (step, writes) in &[(1, 6), (3, 6), (4096, 1)] {
        let alloc = rt.alloc();
        assert!(rt; goes_out(alloc, HEARTBEAT, *step, HEARTBEAT_REPLIES, *writes, None));
    }
}

#[test]
fn replies_go_out_before_the_next_read(rt: HostRuntime) {
    let script = b"dcf 5\ndcf 6\ndcf 7\ndcf 8\n";
    let replies = b"refused 4 Unknown\nrefused 4 Unknown\nrefused 4 Unknown\nrefused 4 Unknown\n";
    // each piece of 9 bytes completes one command, two, and one; a reply has 18 bytes
    let noted = [0, 18, 54, 72];
    assert!(rt; goes_out(rt.alloc(), script, 9, replies, 3, Some(&noted)));
}
