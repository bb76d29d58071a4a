//! The check of device type and identity (CiA 302): numbers that a node is asked for, and that are expected.

ghost use Rattle.std.specs.Prelude.{◌≡◌, ◌≤◌, ◌&&◌, length, nat_le, find, IfOk, OnOk, unwrap_or};
ghost use Rattle.std.specs.Option.{option_copied};
ghost use Rattle.image_parts.specs.Record.{GoesBy, Lasts};
ghost use Rattle.byteorder.specs.Endian.{little_number};
ghost use Rattle.image_parts.specs.Contents.{no_identity};
ghost use Rattle.image_parts.specs.Shared.{value_behind};
ghost use Rattle.node_boot.specs.Boot as rules;

use crate::boot_stage::BootStage;
use crate::boot_step::BootStep;
use crate::boots::Boots;
use crate::download::download_configuration;
use byteorder::{ByteOrder, LittleEndian};
use image_parts::Identity;
use sdo_client::upload_started;
use std::alloc::{AllocError, Global};
use std::rc::Rc;

/// The places of the five numbers.
const PLACES: [u8; 5] = [0, 1, 2, 3, 4];

/// The number that is expected in a place of the five.
fn expected_number(expected: &Identity, place: usize) -> u32
    ensures { result ≡ rules.expected_number expected.now place }
{
    expected.numbers.get(place).copied().unwrap_or(0)
}

/// Whether a number is expected in a place of the five.
fn is_expected(expected: &Identity, place: usize) -> bool
    ensures { result ≡ rules.is_expected expected.now place }
{
    expected_number(expected, place) != 0
}

/// Whether a place lies from another on, and a number is expected in it.
fn is_compared(expected: &Identity, from: u16, place: u8) -> bool
    ensures { result ≡ nat_le from place && rules.is_expected expected.now place }
{
    from <= u16::from(place) && is_expected(expected, usize::from(place))
}

/// The first of some places, from this one on, at which a number is expected.
fn first_compared<'a>(places: &'a [u8], expected: &Identity, from: u16) -> Option<&'a u8>
    ensures { option_copied result ≡ find (λ k. nat_le from k && rules.is_expected expected.now k) places.now }
{
    places
        .iter()
        .find(|place| is_compared(expected, from, **place))
}

/// The first of the five places, from this one on, at which a number is expected, if there is one.
#[tactic(auto, unfolding(crate::specs::Boot::next_compared))]
fn next_compared(expected: &Identity, place: u16) -> Option<u8>
    ensures { result ≡ rules.next_compared expected.now place }
{
    first_compared(&PLACES, expected, place).copied()
}

/// The entry that is compared in a place of the five.
fn identity_entry(place: u8) -> (u16, u8)
    ensures { result ≡ rules.identity_entry place }
{
    let index = if place == 0 { 0x1000 } else { 0x1018 };
    (index, place)
}

/// A number is asked for.
#[tactic(auto, unfolding(crate::specs::Boot::comparison_started))]
fn compare(deadline: u64, expected: Identity, place: u8) -> BootStep
    ensures { result ≡ rules.comparison_started deadline expected place }
{
    let (request, transfer) = upload_started(identity_entry(place));
    let stage = BootStage::Comparing {
        place,
        expected,
        transfer,
        deadline,
    };
    BootStep::asked(stage, request)
}

/// The check goes on from a place of the five, and then come the writes.
#[tactic(auto, unfolding(crate::specs::Boot::check_identity))]
pub(crate) fn check_identity<P: Boots>(
    alloc: Global,
    deadline: u64,
    node: u8,
    expected: Identity,
    place: u16,
    boots: &mut P,
) -> Result<BootStep, AllocError>
    ensures ran { IfOk result (λ step. GoesBy (rules.check_identity deadline node expected place) step
        P.seen P.asks boots.old boots.new) }
    ensures lasts { Lasts (P.seen boots.old) (P.seen boots.new) }
{
    match next_compared(&expected, place) {
        None => download_configuration(alloc, deadline, node, 0, boots),
        Some(next) => Ok(compare(deadline, expected, next)),
    }
}

/// The expected numbers; any will do where none are handed out.
fn identity_of(identity: &Option<Rc<Identity>>) -> Identity
    ensures { result ≡ unwrap_or (value_behind identity.now) no_identity }
{
    match identity {
        None => Identity { numbers: [0; 5] },
        Some(identity) => Identity {
            numbers: identity.numbers,
        },
    }
}

/// The boot of a node begins; what is asked has the deadline, in microseconds. It fails where memory runs out.
#[tactic(auto, unfolding(crate::specs::Boot::boot_nmt_slave))]
pub fn boot_nmt_slave<P: Boots>(
    alloc: Global,
    deadline: u64,
    node: u8,
    boots: &mut P,
) -> Result<BootStep, AllocError>
    ensures ran { IfOk result (λ step. GoesBy (rules.boot_nmt_slave deadline node) step
        P.seen P.asks boots.old boots.new) }
    ensures lasts { Lasts (P.seen boots.old) (P.seen boots.new) }
{
    let identity = boots.expect(node)?;
    check_identity(alloc, deadline, node, identity_of(&identity), 0, boots)
}

/// The number in at most four bytes, the lowest first.
fn number_in(bytes: &[u8]) -> u64
    requires { length bytes.now ≤ 4 }
    ensures { result ≡ little_number (length bytes.now) bytes.now }
{
    if bytes.is_empty() {
        return 0;
    }
    LittleEndian::read_uint(bytes, bytes.len())
}

/// Whether a value is the expected number, of at most four bytes.
#[tactic(auto, unfolding(crate::specs::Boot::is_as_expected))]
pub(crate) fn is_as_expected(expected: &Identity, place: u8, bytes: &[u8]) -> bool
    ensures { result ≡ rules.is_as_expected expected.now place bytes.now }
{
    bytes.len() <= 4 && number_in(bytes) == u64::from(expected_number(expected, usize::from(place)))
}
