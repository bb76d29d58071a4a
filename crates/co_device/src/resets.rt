//! Power, and the NMT services that reset a device.

ghost use Rattle.std.specs.Prelude.{◌≡◌, ◌<◌, OnOk};
ghost use Rattle.image_parts.specs.Record.{GoesBy, Lasts};
ghost use Rattle.co_device.specs.Device.{after_initialisation, after_power, reset_communication, after_reset_node};
ghost use Rattle.co_device.specs.Device.{without_power};

use crate::device::Device;
use can_frame::{Frame, Pending, Purpose, identifiers};
use cia301::NmtState;
use co_dict::{Dict, Shape};
use co_sdo::transfer::Transfer;
use device_objects::{
    Learnt, Shapes, communication_restored, consumers_of, next_heartbeat, shape_or, values_of,
    without_entries,
};
use device_pdos::{rpdos_of, tpdos_of};
use image_parts::END;
use std::alloc::AllocError;

/// The byte of a boot-up message.
const BOOT_UP: u8 = 0;

impl Device {
    /// Drops all but the number.
    fn drop_power(&mut self)
        ensures { self.new ≡ without_power self.old.spent self.old.number }
    {
        self.has_power = false;
        self.state = NmtState::PreOperational;
        self.learnt = Learnt::nothing();
        self.values = Dict::new(self.alloc);
        self.consumers = Vec::new(self.alloc);
        self.rpdos = Vec::new(self.alloc);
        self.tpdos = Vec::new(self.alloc);
        self.synced = None;
        self.heartbeat = None;
        self.waiting = Pending::new(self.alloc);
        self.transfer = Transfer::Idle;
    }

    /// Goes through NMT state Initialisation with these entries and these values.
    #[tactic(auto, unfolding(crate::specs::Device::after_initialisation))]
    fn initialise(&mut self, t: u64, shape: &Shape, values: Dict) -> Result<(), AllocError>
        requires { t < END }
        ensures { OnOk result (self.new ≡ after_initialisation t shape.now values self.old) }
    {
        let mut waiting = Pending::new(self.alloc);
        let frame = Frame::of(identifiers::error_control(self.number), &[BOOT_UP]);
        waiting.add(Purpose::BootUp, frame)?;
        self.consumers = consumers_of(self.alloc, shape, &values)?;
        self.rpdos = rpdos_of(self.alloc, shape, &values)?;
        self.tpdos = tpdos_of(self.alloc, shape, &values)?;
        self.has_power = true;
        self.state = NmtState::PreOperational;
        self.learnt = Learnt::of(shape);
        self.synced = None;
        self.heartbeat = next_heartbeat(t, self.learnt, &values);
        self.values = values;
        self.waiting = waiting;
        self.transfer = Transfer::Idle;
        Ok(())
    }

    /// Runs NMT service Reset node.
    #[tactic(auto, unfolding(crate::specs::Device::after_reset_node))]
    pub(crate) fn reset_node<P: Shapes>(&mut self, t: u64, shapes: &mut P) -> Result<(), AllocError>
        requires { t < END }
        ensures ran { OnOk result (GoesBy (after_reset_node t self.old) self.new P.seen P.asks shapes.old shapes.new) }
        ensures lasts { Lasts (P.seen shapes.old) (P.seen shapes.new) }
    {
        let defaults = shapes.defaults(self.number)?;
        let shape = shapes.shape(self.number)?;
        let values = values_of(self.alloc, &defaults)?;
        let none = without_entries(self.alloc);
        self.initialise(t, shape_or(&shape, &none), values)
    }

    /// Runs NMT service Reset communication.
    #[tactic(auto, unfolding(crate::specs::Device::reset_communication))]
    pub(crate) fn reset_communication<P: Shapes>(
        &mut self,
        t: u64,
        shapes: &mut P,
    ) -> Result<(), AllocError>
        requires { t < END }
        ensures ran { OnOk result (GoesBy (reset_communication t self.old) self.new
            P.seen P.asks shapes.old shapes.new) }
        ensures lasts { Lasts (P.seen shapes.old) (P.seen shapes.new) }
    {
        let defaults = shapes.defaults(self.number)?;
        let shape = shapes.shape(self.number)?;
        let values = communication_restored(self.alloc, &self.values, &defaults)?;
        let none = without_entries(self.alloc);
        self.initialise(t, shape_or(&shape, &none), values)
    }

    /// Switches the power.
    #[tactic(auto, unfolding(crate::specs::Device::after_power))]
    pub(crate) fn switch<P: Shapes>(
        &mut self,
        on: bool,
        t: u64,
        shapes: &mut P,
    ) -> Result<(), AllocError>
        requires { t < END }
        ensures ran { OnOk result (GoesBy (after_power on t self.old) self.new P.seen P.asks shapes.old shapes.new) }
        ensures lasts { Lasts (P.seen shapes.old) (P.seen shapes.new) }
    {
        if on == self.has_power {
            return Ok(());
        }
        if on {
            return self.reset_node(t, shapes);
        }
        self.drop_power();
        Ok(())
    }
}
