//! Texts on their way to a writer.
ghost use Rattle.std.specs.Prelude.{◌≡◌, ◌≢◌, ◌++◌, [], true, OnOk, IfOk, IfErr, IsErrOf, Err};
ghost use Rattle.std.specs.Io.KnownBytes.{Appends};
ghost use Rattle.streams.specs.Streams.{OneFailed};
ghost use Rattle.streams.specs.Written.{Took, Posts};

use crate::fault::SessionFault;
use crate::outlet::Outlet;
use std::alloc::{AllocError, Global};
use std::marker::Model;

/// How many bytes may wait.
const ROOM: usize = 65_536;

/// Whole texts that wait to be written. Contracts see the bytes that wait.
#[derive(Drop)]
pub struct Outbox {
    waiting: Vec<u8>,
}

impl Model for Outbox {
    ghost use Rattle.std.specs.Prelude.{List, ℕ};

    ghost Value = { List ℕ };

    ghost view = { λ outbox. outbox.waiting.items };
}

impl Outbox {
    /// An outbox in which nothing waits. It takes 64 KiB.
    pub fn new(alloc: Global) -> Result<Self, AllocError>
        ensures { IfOk result (λ outbox. outbox ≡ []) }
    {
        Ok(Outbox {
            waiting: Vec::with_capacity(alloc, ROOM)?,
        })
    }

    /// Lets a text wait, or writes it, behind what waits, where it is too long to wait. Memory takes
    /// nothing of it.
    pub fn put<W: Outlet>(&mut self, writer: &mut W, text: &[u8]) -> Result<(), SessionFault>
        ensures ok { OnOk result (Posts (W.contents writer.old) self.old (W.contents writer.new) self.new text.now) }
        ensures memory { IsErrOf result SessionFault.Memory
            → Posts (W.contents writer.old) self.old (W.contents writer.new) self.new [] }
        ensures write { IsErrOf result SessionFault.Write → OneFailed (W.failures writer.old) (W.failures writer.new)
            × Took (W.contents writer.old) (W.contents writer.new) (self.old ++ text.now) }
        ensures quiet { result ≢ Err SessionFault.Write → W.failures writer.new ≡ W.failures writer.old }
        ensures flushed { result ≢ Err SessionFault.Write → W.flushed writer.old ≡ true → W.flushed writer.new ≡ true }
        ensures never_read { result ≢ Err SessionFault.Read }
    {
        if self.waiting.len() + text.len() > ROOM {
            self.send(writer)?;
            if text.len() > ROOM {
                return write_all(writer, text);
            }
        }
        self.waiting.extend_from_slice(text)?;
        Ok(())
    }

    /// Writes what waits, and lets it go out.
    pub fn send<W: Outlet>(&mut self, writer: &mut W) -> Result<(), SessionFault>
        ensures ok { OnOk result (Appends (W.contents writer.old) (W.contents writer.new) self.old) }
        ensures empty { OnOk result (self.new ≡ []) }
        ensures quiet { OnOk result (W.failures writer.new ≡ W.failures writer.old) }
        ensures flushed { OnOk result (W.flushed writer.old ≡ true → W.flushed writer.new ≡ true) }
        ensures write { IfErr result (λ e. (e ≡ SessionFault.Write)
            × OneFailed (W.failures writer.old) (W.failures writer.new)
            × Took (W.contents writer.old) (W.contents writer.new) self.old) }
    {
        if self.waiting.is_empty() {
            return Ok(());
        }
        write_all(writer, &self.waiting)?;
        self.waiting.clear();
        Ok(())
    }
}

/// Writes all of the text, and lets it go out.
fn write_all<W: Outlet>(writer: &mut W, text: &[u8]) -> Result<(), SessionFault>
    ensures ok { OnOk result (Appends (W.contents writer.old) (W.contents writer.new) text.now) }
    ensures quiet { OnOk result (W.failures writer.new ≡ W.failures writer.old) }
    ensures flushed { OnOk result (W.flushed writer.new ≡ true) }
    ensures write { IfErr result (λ e. (e ≡ SessionFault.Write)
        × OneFailed (W.failures writer.old) (W.failures writer.new)
        × Took (W.contents writer.old) (W.contents writer.new) text.now) }
{
    let mut at = 0;
    while at < text.len() {
        let taken = match writer.write(&text[at..]) {
            Ok(taken) => taken,
            Err(_) => return Err(SessionFault::Write),
        };
        if taken == 0 {
            return Err(SessionFault::Write);
        }
        at += taken;
    }
    match writer.flush() {
        Ok(()) => Ok(()),
        Err(_) => Err(SessionFault::Write),
    }
}
