//! What serves at each position of a mapping.
ghost use Rattle.std.specs.Prelude.{◌≡◌, ◌==◌, List};
ghost use Rattle.std.specs.List.{list_any};
ghost use Rattle.pdo_stations.specs.declared.carried.Carried.{Carried as Source};
ghost use Rattle.pdo_stations.specs.declared.mapped.Mapped.{Mapped as Entry};
ghost use Rattle.pdo_stations.specs.Dummies.{mapped_to};
ghost use Rattle.vendor_pdos.specs.Choices.{dummy_choices, sent_choice, signed_dummy_type, signed_dummies, taken_choice};
ghost use Rattle.vendor_pdos.specs.Mappings.{mapped_number};

use pdo_stations::{AsMade, Carried, dummy_type};
use project_messages::Sinks;

/// What serves at the positions of a mapping.
pub trait Wants {
    /// What serves at the position of a source.
    ghost choices: { Self → Source → List Entry };

    /// Whether a number is that of a mapping entry which serves at the position of a source.
    fn serves(&self, source: &Carried, number: u32) -> bool
        ensures { result ≡ list_any (λ m. mapped_number m == number) (choices self.now source.now) };
}

/// What the sender of a message wants: the source itself.
#[derive(Clone, Copy)]
pub struct Sender;

/// What a consumer of a message wants: its sink for the source, or else a dummy of its width.
#[derive(Clone, Copy)]
pub struct Taker<'a> {
    /// The device of the consumer.
    pub device: &'a AsMade,
    /// The sinks of the message.
    pub sinks: &'a Sinks,
    /// The consumer's number.
    pub node: u8,
}

/// The number of a mapping entry (CiA 301): index, sub-index and length in bits, the index in the highest bits.
fn mapped_number(place: (u16, u8), bits: u8) -> u32
    ensures { result ≡ mapped_number (mapped_to place bits) }
{
    0x1_0000 * u32::from(place.0) + 0x100 * u32::from(place.1) + u32::from(bits)
}

impl Wants for Sender {
    ghost choices = { λ _ source. sent_choice source };

    fn serves(&self, source: &Carried, number: u32) -> bool {
        match source.bits {
            Some(bits) => mapped_number(source.place, bits) == number,
            None => false,
        }
    }
}

/// The data type of the signed dummy of so many bits (CiA 301): INTEGER8, 16 and 32 have one.
fn signed_dummy_type(bits: u8) -> Option<u16>
    ensures { result ≡ signed_dummy_type bits }
{
    match bits {
        8 => Some(0x0002),
        16 => Some(0x0003),
        32 => Some(0x0004),
        _ => None,
    }
}

/// Whether a number is that of the signed dummy of so many bits, and the device allows it.
fn is_signed_dummy(device: &AsMade, bits: u8, number: u32) -> bool
    ensures { result ≡ list_any (λ m. mapped_number m == number) (signed_dummies device.now bits) }
{
    match signed_dummy_type(bits) {
        Some(kind) => {
            device.shape.dummy_allowed(kind) && mapped_number((kind, 0), bits) == number
        }
        None => false,
    }
}

/// Whether a number is that of a dummy which serves in the place of so many bits.
fn is_dummy(device: &AsMade, bits: u8, number: u32) -> bool
    ensures { result ≡ list_any (λ m. mapped_number m == number) (dummy_choices device.now bits) }
{
    match dummy_type(bits) {
        Some(kind) => {
            mapped_number((kind, 0), bits) == number || is_signed_dummy(device, bits, number)
        }
        None => false,
    }
}

impl Wants for Taker<'_> {
    ghost choices = { λ taker source. taken_choice taker.device.now taker.sinks.now taker.node source };

    fn serves(&self, source: &Carried, number: u32) -> bool {
        let Some(bits) = source.bits else {
            return false;
        };
        match self.sinks.get(source.position, self.node) {
            Some(place) => mapped_number(*place, bits) == number,
            None => is_dummy(self.device, bits, number),
        }
    }
}
