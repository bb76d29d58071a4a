//! Which waiting frame starts at an idle bus.
ghost use Rattle.std.specs.Prelude.{◌≡◌, map};
ghost use Rattle.can_frame.specs.Winner.{contenders, IsWinner};

use crate::contender::Contender;
use crate::pending::Pending;

/// The waiting frame that is least by identifier, then sender, then place in the sender's list, of the
/// lists of some senders in any order; `None` where no frame waits. Takes time by the number of lists,
/// and no memory.
pub fn winner(lists: &[(u16, &Pending)]) -> Option<Contender>
    ensures { IsWinner (contenders (map (λ list. (list.0, list.1.now)) lists.now)) result }
{
    let mut best = None;
    for (sender, pending) in lists {
        best = Contender::lower(best, pending.contender(*sender));
    }
    best
}
