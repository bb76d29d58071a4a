//! The calls of a workbench.

use can_bus::text;
use co_project::{Command, EditFault};
use script_commands::Request;
use std::alloc::Global;
use workbench::Workbench;

const DCF: &[u8] = b"\
    [1017]\n\
    DataType=6\n\
    ParameterValue=0x0064\n\
    [DeviceComissioning]\n\
    NodeID=5\n\
    NodeName=pump\n\
    Baudrate=500\n";

const CONCISE: &[u8] = b"\x01\0\0\0\x17\x10\0\x02\0\0\0\x64\0";

const SCRIPT: &[u8] = b"\
    bitrate 500\n\
    horizon 1000000\n\
    manager 127 0 0 500\n\
    eds a 2\n\
    [1017]\n\
    DataType=6\n\
    node 5 pump a\n\
    param 5 1017 00 100\n";

const TRACE: &[u8] = b"\
    0000000110 705 [1] 00\n\
    0000000332 605 [8] 2B 17 10 00 64 00 00 00\n\
    0000000554 585 [8] 60 17 10 00 00 00 00 00\n\
    0000000554 note 5 configured\n\
    0000000680 000 [2] 01 05\n\
    0000000790 77F [1] 00\n\
    0000100442 705 [1] 05\n";

/// Lines that ask for edits, and the fault of each.
const EDITS: [(&[u8], Option<EditFault>); 5] = [
    (b"bitrate 500", None),
    (b"node 5 pump a", None),
    (b"param 5 1017 0 100", None),
    (b"param 6 1017 0 100", Some(EditFault::Unknown)),
    (b"drop-eds a", Some(EditFault::InUse)),
];

/// Numbers of no node: 127 is the manager's.
const OTHERS: [u8; 4] = [0, 6, 127, 128];

/// Gives a workbench the EDS `a`.
fn give_eds(alloc: Global, workbench: &mut Workbench) -> Result<(), EditFault> {
    let mut lines = Vec::new(alloc);
    lines.push(Vec::from_slice(alloc, b"[1017]\r")?)?;
    lines.push(Vec::from_slice(alloc, b"DataType=6")?)?;
    workbench.edit(Command::eds(alloc, b"a", &lines)?)
}

/// Reads a line that asks for an edit, and takes it.
fn edit(alloc: Global, workbench: &mut Workbench, line: &[u8]) -> Result<(), EditFault> {
    match Request::read(alloc, line)? {
        Request::Edit(command) => workbench.edit(command),
        _ => Err(EditFault::Syntax),
    }
}

/// Whether these are the files of node 5, and the commands of the project.
fn has_files(workbench: &mut Workbench) -> Result<bool, EditFault> {
    let dcf = workbench.dcf(5)?;
    let concise = workbench.concise(5)?;
    let script = workbench.script()?;
    Ok(dcf.as_slice() == DCF && concise.as_slice() == CONCISE && script.as_slice() == SCRIPT)
}

/// Whether a number is answered by Unknown.
fn is_unknown(workbench: &mut Workbench, number: u8) -> bool {
    let unknown = Some(EditFault::Unknown);
    workbench.dcf(number).err() == unknown && workbench.concise(number).err() == unknown
}

/// Whether each edit is taken or refused as it has to be.
fn takes_edits(alloc: Global, workbench: &mut Workbench) -> bool {
    for (line, fault) in &EDITS {
        if edit(alloc, workbench, line).err() != *fault {
            return false;
        }
    }
    true
}

/// Whether each number of no node is answered by Unknown.
fn knows_no_others(workbench: &mut Workbench) -> bool {
    for number in &OTHERS {
        if !is_unknown(workbench, *number) {
            return false;
        }
    }
    true
}

/// Whether the trace is that of node 5 to 150 milliseconds, with 16 windows simulated so far.
fn has_trace(alloc: Global, workbench: &mut Workbench) -> Result<bool, EditFault> {
    let lines = workbench.trace()?;
    let told = text(alloc, &lines)?;
    Ok(told.as_slice() == TRACE && workbench.work().segments == 16)
}

/// Whether the trace is that twice, and nothing is made anew for the second one.
fn has_trace_twice(alloc: Global, workbench: &mut Workbench) -> Result<bool, EditFault> {
    edit(alloc, workbench, b"horizon 150000")?;
    let is_first = has_trace(alloc, workbench)?;
    let parts = workbench.work().parts;
    Ok(is_first && has_trace(alloc, workbench)? && workbench.work().parts == parts)
}

/// Whether a new workbench answers as it has to.
fn answers(alloc: Global, workbench: &mut Workbench) -> Result<bool, EditFault> {
    give_eds(alloc, workbench)?;
    let is_right = takes_edits(alloc, workbench) && has_files(workbench)?;
    Ok(is_right && knows_no_others(workbench) && has_trace_twice(alloc, workbench)?)
}

/// Plays these edits and queries.
fn play(alloc: Global) -> Result<bool, EditFault> {
    let mut workbench = Workbench::new(alloc)?;
    answers(alloc, &mut workbench)
}

#[test]
fn edits_and_files_of_a_workbench(rt: HostRuntime) -> Result<(), EditFault> {
    assert!(rt; play(rt.alloc())?);
    Ok(())
}
