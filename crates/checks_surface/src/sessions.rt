//! A workbench, and a session over it: `workbench`.

use base::Shared;
use can_bus::Line;
use co_project::{Command, EditFault};
use project_parts::Diagnostics;
use std::alloc::{AllocError, Global};
use std::io;
use workbench::{Counted, Intake, Outlet, SessionFault, Work, Workbench, session};

/// A workbench of the first project.
pub fn workbench(alloc: Global) -> Result<Workbench, AllocError> {
    Workbench::new(alloc)
}

/// An edit is accepted, or refused.
pub fn edit(workbench: &mut Workbench, command: Command) -> Result<(), EditFault> {
    workbench.edit(command)
}

/// The DCF of a node.
pub fn dcf(workbench: &mut Workbench, node: u8) -> Result<Vec<u8>, EditFault> {
    workbench.dcf(node)
}

/// The concise DCF of a node.
pub fn concise(workbench: &mut Workbench, node: u8) -> Result<Vec<u8>, EditFault> {
    workbench.concise(node)
}

/// All that is wrong with the project.
pub fn diagnostics(workbench: &mut Workbench) -> Result<Shared<Diagnostics>, AllocError> {
    workbench.diagnostics()
}

/// The trace up to the project's horizon.
pub fn trace(workbench: &mut Workbench) -> Result<Vec<Line>, AllocError> {
    workbench.trace()
}

/// The commands that make the project, as text.
pub fn script(workbench: &Workbench) -> Result<Vec<u8>, AllocError> {
    workbench.script()
}

/// What was run and made anew since the workbench was made.
pub fn work(workbench: &Workbench) -> (u64, u64) {
    let Work { segments, parts } = workbench.work();
    (segments, parts)
}

/// Replies to commands.
pub fn converse<R: Intake, W: Outlet>(
    alloc: Global,
    reader: &mut R,
    writer: &mut W,
) -> Result<Work, SessionFault> {
    session(alloc, reader, writer)
}

/// Why a session ended, by number.
pub fn session_fault(fault: SessionFault) -> u8 {
    match fault {
        SessionFault::Memory => 1,
        SessionFault::Read => 2,
        SessionFault::Write => 3,
    }
}

/// A reader or writer whose calls are counted.
pub fn counted<T>(inner: T) -> Counted<T> {
    Counted::new(inner)
}

/// A read.
pub fn read<R: Intake>(reader: &mut R, buffer: &mut [u8]) -> io::Result<usize> {
    reader.read(buffer)
}

/// A write.
pub fn write<W: Outlet>(writer: &mut W, bytes: &[u8]) -> io::Result<usize> {
    writer.write(bytes)
}
