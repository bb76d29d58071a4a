//! The search for a segment that serves.

ghost use Rattle.std.specs.Prelude.{◌≡◌, ◌≤◌, ◌+◌, [], IfOk, OnOk};
ghost use Rattle.co_segments.specs.Segments.{recorded_of};
ghost use Rattle.co_segments.specs.Stocks.{ArePassed, AreSegments, IsFound, StandsAt, left_from};

use crate::reached::Reached;
use crate::stock::Stock;
use can_bus::Parts;
use std::alloc::AllocError;
use trace_spans::Look;

/// The key of a segment that serves. Those of the number are tried, the last run or used first, from a place on
/// before which none serves; none where it is known that none starts from the bus.
pub(crate) fn find<P: Parts>(
    stock: &mut Stock,
    look: &mut Look,
    number: u64,
    from: usize,
    here: &Reached,
    parts: &mut P,
) -> Result<Option<u64>, AllocError>
    requires settled { stock.old.recent.ahead ≡ [] }
    requires stands { StandsAt (P.seen parts.now).image number stock.old look.old here.now }
    requires passed { ArePassed (P.seen parts.now).image number from stock.old here.now.state.bus }
    ensures found { IfOk result (λ key. IsFound (P.seen parts.old).image number stock.old here.now.state.bus key) }
    ensures stands { OnOk result (StandsAt (P.seen parts.old).image number stock.new look.new here.now) }
    ensures segments { AreSegments stock.new }
    ensures recent { stock.new.recent ≡ stock.old.recent }
    ensures counted { OnOk result (P.asks parts.new
        ≤ P.asks parts.old + recorded_of number (left_from number from stock.old)) }
    ensures kept { (P.seen parts.new).image ≡ (P.seen parts.old).image }
{
    if here.is_new {
        return Ok(None);
    }
    for place in from..stock.recent.count(number) {
        if let Some((key, segment)) = stock.recent.at(number, place) {
            if segment.serves(
                stock.alloc,
                look,
                &mut stock.given,
                number,
                &here.state,
                parts,
            )? {
                return Ok(Some(key));
            }
        }
    }
    Ok(None)
}
