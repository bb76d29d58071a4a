//! Inputs of 64 MiB and of more.

use crate::breaks::Breaks;
use std::alloc::Global;
use workbench::{Counted, LIMIT, SessionFault, session};

/// Whether a session that reads so many LF ends in this fault, and writes nothing.
fn ends_in(alloc: Global, count: u64, fault: Option<SessionFault>) -> bool {
    let mut reader = Counted::new(Breaks { left: count });
    let mut writer = Counted::new(Vec::new(alloc));
    let outcome = session(alloc, &mut reader, &mut writer);
    outcome.err() == fault && writer.inner().is_empty()
}

#[test]
fn an_input_of_64_mib_is_read(rt: HostRuntime) {
    assert!(rt; ends_in(rt.alloc(), LIMIT as u64, None));
}

#[test]
fn a_longer_input_is_not(rt: HostRuntime) {
    let read = Some(SessionFault::Read);
    assert!(rt; ends_in(rt.alloc(), LIMIT as u64 + 1, read));
    // and one that never ends
    assert!(rt; ends_in(rt.alloc(), u64::MAX, read));
}
