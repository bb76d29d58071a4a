//! A bus, what it reads and what it tells: `can_bus`.

ghost use Rattle.std.specs.Prelude.{◌<◌};

use can_bus::{BusState, Line, Lines, Parts};
use co_dict::{Dict, Shape};
use concise_dcf::Write;
use image_parts::{END, Identity, Read, Roster, Window};
use std::alloc::{AllocError, Global};
use std::rc::Rc;

/// The roster of a network.
pub fn roster<P: Parts>(parts: &mut P) -> Result<Option<Rc<Roster>>, AllocError> {
    parts.roster()
}

/// The values of a node by its data sheet.
pub fn defaults<P: Parts>(parts: &mut P, node: u8) -> Result<Option<Rc<Dict>>, AllocError> {
    parts.defaults(node)
}

/// The entries of a node.
pub fn shape<P: Parts>(parts: &mut P, node: u8) -> Result<Option<Rc<Shape>>, AllocError> {
    parts.shape(node)
}

/// The identity that is expected of a node.
pub fn expect<P: Parts>(parts: &mut P, node: u8) -> Result<Option<Rc<Identity>>, AllocError> {
    parts.expect(node)
}

/// A write of a node's concise DCF, by its place from 0.
pub fn boot<P: Parts>(
    parts: &mut P,
    node: u8,
    place: u32,
) -> Result<Option<Rc<Write>>, AllocError> {
    parts.boot(node, place)
}

/// The events of a window.
pub fn events<P: Parts>(parts: &mut P, i: u32) -> Result<Option<Rc<Window>>, AllocError> {
    parts.events(i)
}

/// The record of what was asked, which is empty then.
pub fn take_asked<P: Parts>(parts: &mut P) -> Vec<Read> {
    parts.take_asked()
}

/// How often something was asked.
pub fn asks<P: Parts>(parts: &P) -> u64 {
    parts.asks()
}

/// A bus is switched on.
pub fn power_on<P: Parts>(alloc: Global, parts: &mut P) -> Result<BusState, AllocError> {
    BusState::power_on(alloc, parts)
}

/// One microsecond of a bus.
pub fn instant<P: Parts>(
    bus: &mut BusState,
    t: u64,
    parts: &mut P,
    lines: &mut Lines,
) -> Result<(), AllocError>
    requires { t < END }
{
    bus.instant(t, parts, lines)
}

/// The next moment at which something happens.
pub fn next_due(bus: &BusState) -> u64 {
    bus.next_due()
}

/// Whether memory ran out before.
pub fn spent(bus: &BusState) -> bool {
    bus.spent()
}

/// No lines.
pub fn lines(alloc: Global) -> Lines {
    Lines::new(alloc)
}

/// The lines in order.
pub fn all(lines: &Lines) -> &[Line] {
    lines.as_slice()
}

/// The text of a line.
pub fn text(alloc: Global, line: &Line) -> Result<Vec<u8>, AllocError> {
    line.text(alloc)
}
