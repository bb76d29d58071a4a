//! What the write of an entry brings about.

ghost use Rattle.std.specs.Prelude.{◌≡◌, ◌<◌, ◌≤◌, length, OnOk};
ghost use Rattle.base.specs.Ranges.{is_between};
ghost use Rattle.co_values.specs.Values.{longest_value};
ghost use Rattle.co_device.specs.Device.{after_own_write, after_write, after_write_of_consumer, with_heartbeat_start};
ghost use Rattle.co_device.specs.Device.{is_producer_time as is_of_producer, after_set, without_error_if};

use crate::device::Device;
use base::{Octets, Shared};
use cia301::{is_of_rpdos, is_of_tpdos};
use co_dict::Shape;
use device_objects::{any_failed, clear_error, forget, next_heartbeat};
use device_pdos::{write_rpdos, write_tpdos};
use image_parts::END;
use std::alloc::AllocError;

/// The index of the consumer heartbeat times (CiA 301).
const CONSUMER_HEARTBEAT_TIMES: u16 = 0x1016;

/// The index of the producer heartbeat time (CiA 301), which has sub-index 0.
const PRODUCER_HEARTBEAT_TIME: u16 = 0x1017;

/// Whether an entry is the producer heartbeat time.
fn is_producer_time(place: (u16, u8)) -> bool
    ensures { result ≡ is_of_producer place }
{
    place.0 == PRODUCER_HEARTBEAT_TIME && place.1 == 0
}

impl Device {
    /// Starts the heartbeat anew.
    pub(crate) fn start_heartbeat(&mut self, t: u64)
        requires { t < END }
        ensures { self.new ≡ with_heartbeat_start t self.old }
    {
        self.heartbeat = next_heartbeat(t, self.learnt, &self.values);
    }

    /// Clears the error bits of the error register if the last failure is over.
    pub(crate) fn clear_error_if(&mut self, is_over: bool) -> Result<(), AllocError>
        ensures { OnOk result (self.new ≡ without_error_if is_over self.old) }
    {
        if is_over {
            clear_error(self.learnt, &mut self.values)?;
        }
        Ok(())
    }

    /// Does what the write of a consumer heartbeat time brings about.
    #[tactic(auto, unfolding(crate::specs::Device::after_write_of_consumer, device_objects::specs::Consumers::is_last_failure_over))]
    fn after_consumer_write(&mut self, sub: u8) -> Result<(), AllocError>
        ensures { OnOk result (self.new ≡ after_write_of_consumer sub self.old) }
    {
        let had_failed = any_failed(&self.consumers);
        forget(&mut self.consumers, sub, &self.values);
        let is_over = had_failed && !any_failed(&self.consumers);
        self.clear_error_if(is_over)
    }

    /// Does what the write of an entry brings about that is none of a PDO's objects.
    #[tactic(auto, unfolding(crate::specs::Device::after_own_write))]
    fn after_own_write(&mut self, t: u64, place: (u16, u8)) -> Result<(), AllocError>
        requires { t < END }
        ensures { OnOk result (self.new ≡ after_own_write t place self.old) }
    {
        if is_producer_time(place) {
            self.start_heartbeat(t);
            return Ok(());
        }
        if place.0 == CONSUMER_HEARTBEAT_TIMES {
            return self.after_consumer_write(place.1);
        }
        Ok(())
    }

    /// Does what the write of an entry brings about.
    #[tactic(auto, unfolding(crate::specs::Device::after_write))]
    pub(crate) fn after_write(
        &mut self,
        t: u64,
        shape: &Shape,
        place: (u16, u8),
    ) -> Result<(), AllocError>
        requires { t < END }
        ensures { OnOk result (self.new ≡ after_write t shape.now place self.old) }
    {
        if is_of_rpdos(place.0) {
            return write_rpdos(self.alloc, &mut self.rpdos, shape, &self.values, place.0);
        }
        if is_of_tpdos(place.0) {
            return write_tpdos(self.alloc, &mut self.tpdos, shape, &self.values, place.0);
        }
        self.after_own_write(t, place)
    }

    /// Sets an entry for the application.
    #[tactic(auto, unfolding(crate::specs::Device::after_set))]
    pub(crate) fn write_own(
        &mut self,
        t: u64,
        index: u16,
        sub: u8,
        bytes: &Shared<Octets>,
    ) -> Result<(), AllocError>
        requires soon { t < END }
        requires short { length bytes.now ≤ longest_value }
        ensures { OnOk result (self.new ≡ after_set t (index, sub) bytes.now self.old) }
    {
        if !self.has_power {
            return Ok(());
        }
        self.values.write_shared(index, sub, bytes)?;
        self.after_own_write(t, (index, sub))
    }
}
