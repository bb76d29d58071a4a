//! The line of a reply that says how many follow.
ghost use Rattle.std.specs.Prelude.{◌≡◌, ◌+◌, ◌≤◌, IfOk};
ghost use Rattle.std.specs.Vec.{vec_capacity, vec_len};
ghost use Rattle.base.specs.Replies.{lines_head};

use std::alloc::{AllocError, Global};

/// The line `lines K` of a reply, with room for so many bytes behind it: they are put there without a copy
/// of what stands before them. Takes memory for the line and the room, in constant time; want of it is the
/// only error.
#[tactic(auto, unfolding(crate::specs::Replies::lines_head))]
pub fn head(alloc: Global, count: usize, room: usize) -> Result<Vec<u8>, AllocError>
    ensures line { IfOk result (λ v. v.items ≡ lines_head count) }
    ensures room { IfOk result (λ v. vec_len v + room ≤ vec_capacity v) }
{
    let line = format!(in alloc; "lines {count}\n")?;
    let size = line.len().checked_add(room).ok_or(AllocError)?;
    let mut reply = Vec::with_capacity(alloc, size)?;
    reply.extend_from_slice(line.as_bytes())?;
    Ok(reply)
}
