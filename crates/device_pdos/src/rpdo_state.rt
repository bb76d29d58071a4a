//! An RPDO of a device.

ghost use Rattle.std.specs.Prelude.{◌≡◌, ◌↔◌, IsTrue};
ghost use Rattle.co_dict.specs.Mappings.{mapping_bits};
ghost use Rattle.pdo_rules.specs.Packing.{bytes_begun};
ghost use Rattle.device_pdos.specs.Rpdos.{has_identifier, receipt_of};

use can_frame::Frame;
use co_dict::mapped_length;
use pdo_rules::{Configuration, Mapping, Receipt, received};
use std::alloc::AllocError;

/// An RPDO of a device at a moment (CiA 301). Copies share its mapping.
#[derive(Drop)]
pub struct RpdoState {
    /// Its number, 1 to 512.
    pub number: u16,
    /// What it goes by; none where it doesn't work.
    pub configuration: Option<Configuration>,
    /// The frame that it keeps until the next SYNC.
    pub kept: Option<Frame>,
}

/// Whether two frames are the same, or neither is there.
fn same_frame(one: &Option<Frame>, other: &Option<Frame>) -> bool
    ensures { IsTrue result ↔ (one.now ≡ other.now) }
{
    match (one, other) {
        (Some(one), Some(other)) => one.same(other),
        (None, None) => true,
        _ => false,
    }
}

/// The bytes that a mapping begins.
fn mapped_bytes(mapping: &Mapping) -> usize
    ensures { result ≡ bytes_begun (mapping_bits mapping.now) }
{
    let mut bits = 0;
    for entry in mapping.entries() {
        bits += mapped_length(*entry);
    }
    (bits as usize + 7) / 8
}

impl RpdoState {
    /// Whether the other one is the same.
    pub fn same(&self, other: &RpdoState) -> bool
        ensures { IsTrue result ↔ (self.now ≡ other.now) }
    {
        self.number == other.number
            && Configuration::are_same(&self.configuration, &other.configuration)
            && same_frame(&self.kept, &other.kept)
    }

    /// Whether it works, and its frames have this identifier.
    pub(crate) fn has_identifier(&self, identifier: u16) -> bool
        ensures { result ≡ has_identifier identifier self.now.configuration }
    {
        match &self.configuration {
            Some(configuration) => configuration.identifier.number() == identifier,
            None => false,
        }
    }

    /// What becomes of a frame at it.
    #[tactic(auto, unfolding(crate::specs::Rpdos::receipt_of))]
    pub fn receive(&self, frame: &Frame) -> Receipt
        ensures { result ≡ receipt_of frame.now self.now.configuration }
    {
        match &self.configuration {
            Some(configuration) if configuration.identifier.number() == frame.id() => received(
                configuration.communication.transmission_type,
                mapped_bytes(&configuration.mapping),
                frame.bytes().len(),
            ),
            _ => Receipt::Ignored,
        }
    }
}

impl Clone for RpdoState {
    ghost is_clone = { λ a b. b ≡ a };

    /// The same, of which it shares the mapping. Takes no memory.
    fn clone(&self) -> Result<RpdoState, AllocError> {
        let configuration = Configuration::copy_of(&self.configuration)?;
        Ok(RpdoState {
            number: self.number,
            configuration,
            kept: self.kept,
        })
    }
}
