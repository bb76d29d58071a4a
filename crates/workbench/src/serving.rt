//! From a reader to a writer.
ghost use Rattle.std.specs.Prelude.{◌≡◌, [], OnOk, IfOk, IfSome, IsErrOf};
ghost use Rattle.std.specs.Option.{option_map};
ghost use Rattle.streams.specs.Written.{Posts};
ghost use Rattle.workbench.specs.Machine.{after, at_end, first_cursor, replies_to_piece};
ghost use Rattle.workbench.specs.Session.{ServesSession};
ghost use Rattle.workbench.specs.Views.{cursor_of, replies_of};
ghost use Rattle.workbench.specs.Written.{Puts};

use crate::cursor::Cursor;
use crate::reply::Reply;
use crate::work::Work;
use base::split_once;
use std::alloc::Global;
use std::mem::ManuallyDrop;
use streams::{Intake, Outbox, Outlet, SessionFault};

/// How many bytes an input may have: 64 MiB.
pub const LIMIT: usize = 67_108_864;

/// Lets the reply to a line wait, or writes it.
fn put_reply<W: Outlet>(
    outbox: &mut Outbox,
    writer: &mut W,
    reply: Reply,
) -> Result<(), SessionFault>
    ensures puts { Puts W.Outlet writer.old outbox.old writer.new outbox.new (replies_of reply) result }

    // Where memory runs out, nothing of it.
    ensures memory { IsErrOf result SessionFault.Memory
        → Posts (W.contents writer.old) outbox.old (W.contents writer.new) outbox.new [] }
{
    outbox.put(writer, reply.text())
}

/// Takes the next piece of the input. The replies to the commands that it completes go out or wait.
fn put_lines<W: Outlet>(
    cursor: &mut Cursor,
    outbox: &mut Outbox,
    writer: &mut W,
    piece: &[u8],
) -> Result<(), SessionFault>
    ensures cursor { OnOk result (cursor_of cursor.new ≡ (after (cursor_of cursor.old) piece.now).state) }
    ensures puts { Puts W.Outlet writer.old outbox.old writer.new outbox.new
        (after (cursor_of cursor.old) piece.now).replies result }
{
    let mut rest = piece;
    'lines: while let Some((line, after)) = split_once(rest, b'\n') {
        let reply = cursor.take_rest(line)?;
        put_reply(outbox, writer, reply)?;
        rest = after;
    }
    cursor.line.extend_from_slice(rest)?;
    Ok(())
}

/// Takes the end of the input: ends a last line that has no LF, and cuts off a block that isn't
/// complete. The replies go out or wait.
fn put_end<W: Outlet>(
    cursor: &mut Cursor,
    outbox: &mut Outbox,
    writer: &mut W,
) -> Result<(), SessionFault>
    ensures puts { Puts W.Outlet writer.old outbox.old writer.new outbox.new (at_end (cursor_of cursor.old)) result }
{
    let last = cursor.end_last_line()?;
    put_reply(outbox, writer, last)?;
    put_reply(outbox, writer, cursor.cut_off())
}

/// Takes the next piece of the input, or its end where there is none.
fn put_turn<W: Outlet>(
    cursor: &mut Cursor,
    outbox: &mut Outbox,
    writer: &mut W,
    piece: Option<&[u8]>,
) -> Result<(), SessionFault>
    ensures cursor { OnOk result (IfSome piece.entry (λ p. cursor_of cursor.new
        ≡ (after (cursor_of cursor.old) p.now).state)) }
    ensures puts { Puts W.Outlet writer.old outbox.old writer.new outbox.new
        (replies_to_piece (cursor_of cursor.old) (option_map (λ p. p.now) piece.entry)) result }
{
    match piece {
        Some(piece) => put_lines(cursor, outbox, writer, piece),
        None => put_end(cursor, outbox, writer),
    }
}

/// Takes the next piece of the input, or its end where there is none, and writes the replies.
fn take_turn<W: Outlet>(
    cursor: &mut Cursor,
    outbox: &mut Outbox,
    writer: &mut W,
    piece: Option<&[u8]>,
) -> Result<(), SessionFault>
    requires { outbox.old ≡ [] }
    ensures cursor { OnOk result (IfSome piece.entry (λ p. cursor_of cursor.new
        ≡ (after (cursor_of cursor.old) p.now).state)) }
    ensures empty { OnOk result (outbox.new ≡ []) }

    // None of them waits then.
    ensures puts { Puts W.Outlet writer.old [] writer.new []
        (replies_to_piece (cursor_of cursor.old) (option_map (λ p. p.now) piece.entry)) result }
{
    match put_turn(cursor, outbox, writer, piece) {
        Ok(()) => outbox.send(writer),
        Err(SessionFault::Memory) => {
            outbox.send(writer)?;
            Err(SessionFault::Memory)
        }
        Err(SessionFault::Read) => Err(SessionFault::Read),
        Err(SessionFault::Write) => Err(SessionFault::Write),
    }
}

/// A session from its start on: what `session` does, with the place in its input kept by the caller.
fn converse<R: Intake, W: Outlet>(
    alloc: Global,
    cursor: &mut Cursor,
    reader: &mut R,
    writer: &mut W,
) -> Result<Work, SessionFault>
    requires { cursor_of cursor.old ≡ first_cursor }
    ensures serves { ServesSession R.Intake W.Outlet reader.old reader.new writer.old writer.new result }
    ensures segments { IfOk result (λ work. work.segments ≡ cursor.new.workbench.work.segments) }
    ensures parts { IfOk result (λ work. work.parts ≡ cursor.new.workbench.work.parts) }
{
    let mut outbox = Outbox::new(alloc)?;
    let mut buffer = [0; 4096];
    let mut room = LIMIT;
    for _turn in 0..=LIMIT {
        let n = match reader.read(&mut buffer) {
            Ok(n) => n,
            Err(_) => return Err(SessionFault::Read),
        };
        if n == 0 {
            take_turn(cursor, &mut outbox, writer, None)?;
            return Ok(cursor.work());
        }
        let used = n.min(room);
        take_turn(cursor, &mut outbox, writer, Some(&buffer[..used]))?;
        if room < n {
            return Err(SessionFault::Read);
        }
        room -= n;
    }
    unreachable!()
}

/// Reads commands until the input ends, and answers each. The replies to what one read gave go out
/// before the next read; contracts say of this what stands where a read fails, or memory runs out, and
/// not when each reply went out.
///
/// A session makes at most 67,108,865 reads. At most one call of the reader or the writer fails in it:
/// then it ends. It takes time linear in its input, up to a logarithm where an EDS is read or a table is
/// searched; `node` and `drop-eds` also walk the nodes, `drop-node` the messages, their sinks and the
/// events, and `drop-message` its sources and sinks. A query takes the time and memory of its call of
/// `Workbench`, and of its reply's length.
///
/// # Errors
/// - Memory: a growth was refused. The replies to the commands before were written, each whole;
///   these are at least those to the commands that were complete before the last read.
/// - Read: the reader failed, or more than 64 MiB came. The replies to the commands that are
///   complete in the first 64 MiB of what was read were written.
/// - Write: the writer failed, or took no byte of some. It took a front of the replies.
pub fn session<R: Intake, W: Outlet>(
    alloc: Global,
    reader: &mut R,
    writer: &mut W,
) -> Result<Work, SessionFault>
    ensures serves { ServesSession R.Intake W.Outlet reader.old reader.new writer.old writer.new result }
{
    let mut cursor = Cursor::new(alloc)?;
    converse(alloc, &mut cursor, reader, writer)
}

/// As `session`, for a program that ends with it: what the session holds is left to the end of the
/// process, which takes it back at once. To take it apart takes about a tenth of the time of a long trace.
pub fn session_of_process<R: Intake, W: Outlet>(
    alloc: Global,
    reader: &mut R,
    writer: &mut W,
) -> Result<Work, SessionFault>
    ensures serves { ServesSession R.Intake W.Outlet reader.old reader.new writer.old writer.new result }
{
    let cursor = Cursor::new(alloc)?;
    let mut cursor = ManuallyDrop::new(cursor);
    converse(alloc, &mut cursor, reader, writer)
}
