//! The frames of PDOs, and SYNC messages.

ghost use Rattle.std.specs.Prelude.{◌≡◌, ◌<◌, ◌≤◌, ◌+◌, length, OnOk};
ghost use Rattle.image_parts.specs.Record.{GoesBy, Lasts};
ghost use Rattle.co_dict.specs.Mappings.{mapped_length as length_mapped, mapping_bits};
ghost use Rattle.pdo_rules.specs.Packing.{bits_for, frame_bits};
ghost use Rattle.device_pdos.specs.Rpdos.{mapping_of_rpdo};
ghost use Rattle.co_device.specs.Receiving.{after_mapping, device_after_entries, after_entry, after_pdo, after_rpdo};
ghost use Rattle.co_device.specs.Receiving.{after_sync_at, after_sync};

use crate::device::Device;
use can_frame::Frame;
use cia301::NmtState;
use co_dict::{Shape, mapped_length, mapped_place};
use device_objects::{Shapes, shape_or, without_entries};
use device_pdos::keep;
use image_parts::END;
use pdo_rules::{Configuration, Receipt, SyncMessage, unpack_entry};
use std::alloc::AllocError;

/// The error code of a PDO that is too short (CiA 301).
const PDO_TOO_SHORT: u16 = 0x8210;

/// The mapping entries of an RPDO; none where it doesn't work.
fn mapping_of(configuration: &Option<Configuration>) -> &[u32]
    ensures mapping { result.now ≡ mapping_of_rpdo configuration.now }
    ensures fits { mapping_bits result.now ≤ 64 }
{
    match configuration {
        None => &[],
        Some(configuration) => configuration.mapping.entries(),
    }
}

impl Device {
    /// Gives one mapped entry its bits out of a frame, with what that brings about.
    #[tactic(auto, unfolding(crate::specs::Receiving::after_entry, pdo_rules::specs::Packing::with_bits))]
    fn take_entry(
        &mut self,
        t: u64,
        shape: &Shape,
        entry: u32,
        position: u32,
        frame: &Frame,
    ) -> Result<(), AllocError>
        requires soon { t < END }
        requires inside { position + length_mapped entry ≤ 64 }
        ensures { OnOk result (self.new
            ≡ after_entry t shape.now entry (bits_for entry position (frame_bits frame.now.bytes)) self.old) }
    {
        if unpack_entry(shape, &mut self.values, entry, position, frame.bytes())? {
            return self.after_write(t, shape, mapped_place(entry));
        }
        Ok(())
    }

    /// Gives the mapped entries their bits out of a frame, one after the other.
    fn take_entries(
        &mut self,
        t: u64,
        shape: &Shape,
        mapping: &[u32],
        frame: &Frame,
    ) -> Result<(), AllocError>
        requires soon { t < END }
        requires fits { mapping_bits mapping.now ≤ 64 }
        ensures { OnOk result (self.new ≡ device_after_entries t shape.now mapping.now frame.now.bytes self.old) }
    {
        let mut position = 0;
        for entry in mapping {
            self.take_entry(t, shape, *entry, position, frame)?;
            position += mapped_length(*entry);
        }
        Ok(())
    }

    /// Applies a frame by the mapping of an RPDO.
    #[tactic(auto, unfolding(crate::specs::Receiving::after_mapping))]
    fn apply<P: Shapes>(
        &mut self,
        t: u64,
        configuration: &Option<Configuration>,
        frame: &Frame,
        shapes: &mut P,
    ) -> Result<(), AllocError>
        requires { t < END }
        ensures ran { OnOk result (GoesBy (after_mapping t (mapping_of_rpdo configuration.now) frame.now self.old)
            self.new P.seen P.asks shapes.old shapes.new) }
        ensures lasts { Lasts (P.seen shapes.old) (P.seen shapes.new) }
    {
        let shape = shapes.shape(self.number)?;
        let none = without_entries(self.alloc);
        let mapping = mapping_of(configuration);
        self.take_entries(t, shape_or(&shape, &none), mapping, frame)
    }

    /// Takes a frame by the RPDO at a place, judged by what stands now.
    #[tactic(auto, unfolding(crate::specs::Receiving::after_rpdo, crate::specs::Receiving::after_receipt))]
    fn take_by_rpdo<P: Shapes>(
        &mut self,
        t: u64,
        frame: &Frame,
        i: usize,
        shapes: &mut P,
    ) -> Result<(), AllocError>
        requires soon { t < END }
        requires inside { i < length self.old.rpdos }
        ensures ran { OnOk result (GoesBy (after_rpdo t frame.now i self.old) self.new
            P.seen P.asks shapes.old shapes.new) }
        ensures lasts { Lasts (P.seen shapes.old) (P.seen shapes.new) }
    {
        match self.rpdos[i].receive(frame) {
            Receipt::Short => self.tell(PDO_TOO_SHORT),
            Receipt::Kept => {
                keep(&mut self.rpdos, i, Some(*frame));
                Ok(())
            }
            Receipt::AtOnce => {
                let configuration = Configuration::copy_of(&self.rpdos[i].configuration)?;
                self.apply(t, &configuration, frame, shapes)
            }
            Receipt::Ignored => Ok(()),
        }
    }

    /// Takes the frame of a PDO by each RPDO in its turn, in Operational alone.
    #[tactic(auto, unfolding(crate::specs::Receiving::after_pdo))]
    pub(crate) fn take_pdo<P: Shapes>(
        &mut self,
        t: u64,
        frame: &Frame,
        shapes: &mut P,
    ) -> Result<(), AllocError>
        requires { t < END }
        ensures ran { OnOk result (GoesBy (after_pdo t frame.now self.old) self.new
            P.seen P.asks shapes.old shapes.new) }
        ensures lasts { Lasts (P.seen shapes.old) (P.seen shapes.new) }
    {
        if !self.is_in(NmtState::Operational) {
            return Ok(());
        }
        for i in 0..self.rpdos.len() {
            self.take_by_rpdo(t, frame, i, shapes)?;
        }
        Ok(())
    }

    /// Applies the frame that the RPDO at a place keeps, if it keeps one.
    #[tactic(auto, unfolding(crate::specs::Receiving::after_sync_at, crate::specs::Receiving::after_kept_frame))]
    fn sync_rpdo<P: Shapes>(&mut self, t: u64, i: usize, shapes: &mut P) -> Result<(), AllocError>
        requires soon { t < END }
        requires inside { i < length self.old.rpdos }
        ensures ran { OnOk result (GoesBy (after_sync_at t i self.old) self.new P.seen P.asks shapes.old shapes.new) }
        ensures lasts { Lasts (P.seen shapes.old) (P.seen shapes.new) }
    {
        let Some(frame) = self.rpdos[i].kept else {
            return Ok(());
        };
        let configuration = Configuration::copy_of(&self.rpdos[i].configuration)?;
        keep(&mut self.rpdos, i, None);
        self.apply(t, &configuration, &frame, shapes)
    }

    /// Takes a SYNC message, in Operational alone: the frames that RPDOs keep are applied, each in its turn;
    /// the TPDOs come later in the instant.
    #[tactic(auto, unfolding(crate::specs::Receiving::after_sync))]
    pub(crate) fn take_sync<P: Shapes>(
        &mut self,
        t: u64,
        bytes: &[u8],
        shapes: &mut P,
    ) -> Result<(), AllocError>
        requires { t < END }
        ensures ran { OnOk result (GoesBy (after_sync t bytes.now self.old) self.new
            P.seen P.asks shapes.old shapes.new) }
        ensures lasts { Lasts (P.seen shapes.old) (P.seen shapes.new) }
    {
        if self.is_in(NmtState::Operational) {
            self.synced = Some(SyncMessage::of(bytes));
            for i in 0..self.rpdos.len() {
                self.sync_rpdo(t, i, shapes)?;
            }
        }
        Ok(())
    }
}
