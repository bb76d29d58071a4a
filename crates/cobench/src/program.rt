//! Checks of the words, of FILE, and of streams that fail.

use crate::command::{complain, run};
use std::alloc::{AllocError, Global};
use std::io::{ErrorKind, Read, Write};
use std::rt::Files;
use std::test::Fail;
use std::{env, fs, io, process};

/// The status of the program, its output and its faults.
type Outcome<'a> = (u8, &'a [u8], &'a [u8]);

/// A stream whose every call fails.
#[derive(Drop)]
struct Broken;

impl Read for Broken {
    fn read(&mut self, _buf: &mut [u8]) -> io::Result<usize> {
        Err(ErrorKind::Other.into())
    }
}

impl Write for Broken {
    fn write(&mut self, _buf: &[u8]) -> io::Result<usize> {
        Err(ErrorKind::Other.into())
    }

    fn flush(&mut self) -> io::Result<()> {
        Err(ErrorKind::Other.into())
    }
}

/// The exit status of the program, run with these words after its name.
fn status_of<R: Files + AllocGlobal, I: Read, O: Write, E: Write>(
    rt: &R,
    rest: &[&str],
    input: &mut I,
    output: &mut O,
    faults: &mut E,
) -> Result<u8, AllocError> {
    let mut words = Vec::new(rt.alloc());
    words.push("cobench".to_string(rt.alloc())?)?;
    for word in rest {
        words.push(word.to_string(rt.alloc())?)?;
    }
    Ok(run(rt, &words, input, output, faults))
}

/// Whether the program gives this status, output and faults, and leaves this of its input.
fn gives<R: Files + AllocGlobal, I: Read>(
    rt: &R,
    rest: &[&str],
    input: &mut I,
    want: Outcome<'_>,
) -> Result<bool, AllocError> {
    let (status, output, faults) = want;
    let mut written = Vec::new(rt.alloc());
    let mut told = Vec::new(rt.alloc());
    let given = status_of(rt, rest, input, &mut written, &mut told)?;
    Ok(given == status && written.as_slice() == output && told.as_slice() == faults)
}

/// Whether the program gives this, and has read none of its input.
fn gives_unread<R: Files + AllocGlobal>(
    rt: &R,
    rest: &[&str],
    want: Outcome<'_>,
) -> Result<bool, AllocError> {
    let mut input = SCRIPT;
    let is_given = gives(rt, rest, &mut input, want)?;
    Ok(is_given && input == SCRIPT)
}

/// Whether the program answers a script from its input, all of which it reads.
fn answers_input<R: Files + AllocGlobal>(
    rt: &R,
    script: &[u8],
    replies: &[u8],
) -> Result<bool, AllocError> {
    let mut input = script;
    let is_given = gives(rt, &[], &mut input, (0, replies, b""))?;
    Ok(is_given && input.is_empty())
}

/// Whether the program answers a script from a file, and reads none of its input.
fn answers_file<R: Files + AllocGlobal>(
    rt: &R,
    path: &str,
    script: &[u8],
    replies: &[u8],
) -> io::Result<bool> {
    fs::write(rt, path, script)?;
    let is_given = gives_unread(rt, &["--script", path], (0, replies, b""))?;
    fs::remove_file(rt, path)?;
    Ok(is_given)
}

const SCRIPT: &[u8] = b"dcf 5\nbitrate 500\n";

const REPLIES: &[u8] = b"refused 4 Unknown\nok\n";

const CANNOT_READ: &[u8] = b"cobench: 2 Read\n";

const HELP: &[u8] = b"\
    An engineering workbench for one CANopen network\n\
    \n\
    Usage: cobench [OPTIONS]\n\
    \n\
    Options:\n\
    \x20     --script <FILE>  Read commands from FILE, not from the standard input\n\
    \x20     --work           Tell on the standard error how much was made anew\n\
    \x20 -h, --help           Print help\n\
    \x20 -V, --version        Print version\n\
    \n\
    Edits. Numbers are decimal; INDEX, SUB and COB are hexadecimal, without 0x.\n\
    \x20 version V                            1, or 2, where nodes can be mandatory\n\
    \x20 bitrate K                            10, 20, 50, 125, 250, 500, 1000 kbit/s\n\
    \x20 horizon US                           the simulation ends, 0 to 10000000 us\n\
    \x20 manager ID SYNC_US HB_MS TIMEOUT_MS  who boots the nodes; 0 for no SYNC or HB\n\
    \x20 time-period US DAYS                  in version 3: TIME each US us, on day DAYS\n\
    \x20                                      at first; 0 for none\n\
    \x20 sync-counter N                       SYNC counts to N, 2 to 240; 0 for none\n\
    \x20 eds NAME LINES                       the next LINES lines are an EDS\n\
    \x20 drop-eds NAME\n\
    \x20 node ID NAME EDS                     node 1 to 127, by the EDS of that name\n\
    \x20 need ID mandatory|optional           in version 2 the network starts once all\n\
    \x20                                      mandatory nodes are configured\n\
    \x20 drop-node ID\n\
    \x20 param ID INDEX SUB TEXT              the value of an entry of a node\n\
    \x20 unparam ID INDEX SUB\n\
    \x20 message NAME ID TPDO TYPE INHIBIT EVENT COB\n\
    \x20                                      a PDO of node ID: INHIBIT in 100 us,\n\
    \x20                                      EVENT in ms, COB 0 for an automatic one\n\
    \x20 start MESSAGE N                      its sender counts from SYNC N, 1 to 240;\n\
    \x20                                      0 for any\n\
    \x20 drop-message NAME\n\
    \x20 source MESSAGE POS INDEX SUB         the sender's entry at position 1 to 64\n\
    \x20 unsource MESSAGE POS\n\
    \x20 sink MESSAGE POS ID INDEX SUB        the entry of node ID that takes it\n\
    \x20 unsink MESSAGE POS ID\n\
    \x20 event K TIME set ID INDEX SUB TEXT   at TIME us an application sets an entry\n\
    \x20 event K TIME power ID on|off         a node's power is switched\n\
    \x20 event K TIME nmt CMD ID              1 start, 2 stop, 128 pre-operational,\n\
    \x20                                      129 and 130 reset; ID 0 for all nodes\n\
    \x20 drop-event K\n\
    The first project has version 1, 1000 kbit/s, horizon 1000000, manager\n\
    127 0 0 500, no time stamps and no SYNC counter.\n\
    \n\
    Queries:\n\
    \x20 dcf ID    the device configuration file of a node (CiA 306)\n\
    \x20 cdcf ID   its concise DCF (CiA 302), in hexadecimal digits\n\
    \x20 diag      all that is wrong with the project\n\
    \x20 trace     the frames on the bus, by time in us, and the manager's notes\n\
    \x20 project   the project as commands\n\
    \n\
    Each command has one reply: ok, or lines K with K lines behind it, or\n\
    refused N NAME, which leaves all as it was:\n\
    \x20 1 Memory     no memory; the session ends. Give it more, and run it again\n\
    \x20 2 Syntax     no such command, too few or many words, or a word not of its\n\
    \x20              form. Mend the line; files and comments: tools/expand\n\
    \x20 3 Range      a number outside its limits, or need in version 1. Take one\n\
    \x20              within them; 1400h to 1BFFh are set by message, source, sink\n\
    \x20 4 Unknown    no such EDS, node, parameter, message, source, sink or event.\n\
    \x20              Make it first, or correct the name: project has what there is\n\
    \x20 5 Taken      the number or the name of another node. Choose another\n\
    \x20 6 InUse      nodes, messages or events still name it, or a node is\n\
    \x20              mandatory. Drop these first, or make them optional\n\
    \x20 7 Limit      one more than there can be. Drop one that isn't needed\n\
    \x20 8 BadByte    a control byte in an EDS. Save it as plain text\n\
    \x20 9 Truncated  the input ends inside an EDS. Correct LINES, or the file\n\
    \n\
    Exit status: 0 where all was answered, refused commands too; 1 where the\n\
    session failed, with cobench: N NAME on the standard error; 2 for wrong words.\n\
    \n\
    Common slips:\n\
    \x20 0x1017 or 1017h for an INDEX: it is 1017\n\
    \x20 a wrong LINES, where empty lines count too: the rest of the EDS is taken\n\
    \x20   for commands, or commands for lines of the EDS\n\
    \x20 comments: there are none, neither in lines of their own nor behind commands\n\
    \x20 diag after edits: ok says that an edit was understood, not that it fits\n";

const VERSION: &[u8] = b"cobench 0.1.0\n";

const UNEXPECTED: &[u8] = b"\
    error: unexpected argument '--segments' found\n\
    \n\
    Usage: cobench [OPTIONS]\n\
    \n\
    For more information, try '--help'.\n";

const NO_FILE: &[u8] = b"\
    error: a value is required for '--script <FILE>' but none was supplied\n\
    \n\
    For more information, try '--help'.\n";

/// Words after the program's name, and what it gives for them before FILE is opened.
const WORDS: [(&[&str], Outcome<'static>); 8] = [
    (&["--help"], (0, HELP, b"")),
    (&["-h"], (0, HELP, b"")),
    (&["--version"], (0, VERSION, b"")),
    (&["-V"], (0, VERSION, b"")),
    (&["--segments"], (2, b"", UNEXPECTED)),
    (&["--script"], (2, b"", NO_FILE)),
    (&["--segments", "--script", "/nosuch"], (2, b"", UNEXPECTED)),
    (&["--work", "--script", "/nosuch"], (1, b"", CANNOT_READ)),
];

/// Words after the program's name, and its status where every stream fails.
const STATUSES: [(&[&str], u8); 6] = [
    (&["--help"], 0),
    (&["--version"], 0),
    (&[], 1),
    (&["--script", "/nosuch"], 1),
    (&["--segments"], 2),
    (&["--work", "--script", "/nosuch"], 1),
];

/// Why the words can't be had, the status, and what is told.
const NO_WORDS: [(ErrorKind, u8, &[u8]); 2] = [
    (ErrorKind::OutOfMemory, 1, b"cobench: 1 Memory\n"),
    (
        ErrorKind::InvalidData,
        2,
        b"error: invalid UTF-8 was detected in one or more arguments\n",
    ),
];

/// Whether the program ends with this status where its output has no room.
fn ends_without_room<R: Files + AllocGlobal>(rt: &R) -> Result<bool, AllocError> {
    let mut told = Vec::new(rt.alloc());
    let mut input = SCRIPT;
    let status = status_of(rt, &[], &mut input, &mut [].as_mut_slice(), &mut told)?;
    Ok(status == 1 && told.as_slice() == b"cobench: 3 Write\n".as_slice())
}

/// Whether the program ends with this status where its output and its faults fail.
fn ends_broken<R: Files + AllocGlobal>(
    rt: &R,
    rest: &[&str],
    status: u8,
) -> Result<bool, AllocError> {
    let mut input = SCRIPT;
    let given = status_of(rt, rest, &mut input, &mut Broken, &mut Broken)?;
    Ok(given == status)
}

/// Whether this is told where the words can't be had.
fn complains(alloc: Global, kind: ErrorKind, status: u8, want: &[u8]) -> bool {
    let mut told = Vec::new(alloc);
    let given = complain(&kind.into(), &mut told);
    given == status && told.as_slice() == want
}

#[test]
fn words_are_judged_first(rt: HostRuntime) -> Result<(), AllocError> {
    for (rest, want) in &WORDS {
        assert!(rt; gives_unread(&rt, rest, *want)?);
    }
    Ok(())
}

#[test]
fn commands_come_from_the_input_or_from_a_file(rt: HostRuntime) -> Result<(), Fail> {
    let folder = env::temp_dir(&rt)?;
    let id = process::id(rt.process());
    let file = format!(in rt.alloc(); "{}/cobench-{id}", folder.as_str())?;
    let path = file.as_str();
    assert!(rt; answers_input(&rt, b"", b"")?);
    assert!(rt; answers_input(&rt, SCRIPT, REPLIES)?);
    assert!(rt; answers_file(&rt, path, b"", b"")?);
    assert!(rt; answers_file(&rt, path, SCRIPT, REPLIES)?);
    // no such file now, and a folder
    let unread = (1, b"".as_slice(), CANNOT_READ);
    assert!(rt; gives_unread(&rt, &["--script", path], unread)?);
    assert!(rt; gives_unread(&rt, &["--script", folder.as_str()], unread)?);
    Ok(())
}

/// An EDS, a node of it, and its concise DCF twice.
const WORKED: &[u8] = b"\
    eds e 5\n\
    [1000]\n\
    DataType=7\n\
    AccessType=ro\n\
    DefaultValue=1\n\
    \n\
    node 1 a e\n\
    cdcf 1\n\
    cdcf 1\n";

const NO_WRITES: &[u8] = b"ok\nok\nlines 1\n00 00 00 00\nlines 1\n00 00 00 00\n";

/// Whether a session with `--work` ends with these replies, and tells this.
fn works<R: Files + AllocGlobal>(
    rt: &R,
    script: &[u8],
    replies: &[u8],
    told: &[u8],
) -> Result<bool, AllocError> {
    let mut input = script;
    gives(rt, &["--work"], &mut input, (0, replies, told))
}

#[test]
fn work_is_told_behind_the_replies(rt: HostRuntime) -> Result<(), AllocError> {
    assert!(rt; works(&rt, SCRIPT, REPLIES, b"work 0 0\n")?);
    // the device, the plan, the writes and the concise DCF, once each
    assert!(rt; works(&rt, WORKED, NO_WRITES, b"work 0 4\n")?);
    Ok(())
}

#[test]
fn streams_that_fail_are_named(rt: HostRuntime) -> Result<(), AllocError> {
    let mut input = SCRIPT.chain(Broken);
    assert!(rt; gives(&rt, &[], &mut input, (1, REPLIES, CANNOT_READ))?);
    assert!(rt; ends_without_room(&rt)?);
    for (rest, status) in &STATUSES {
        assert!(rt; ends_broken(&rt, rest, *status)?);
    }
    Ok(())
}

#[test]
fn words_cannot_be_had(rt: HostRuntime) {
    for (kind, status, want) in &NO_WORDS {
        assert!(rt; complains(rt.alloc(), *kind, *status, want));
    }
}
