//! What a device does of itself at a moment.

ghost use Rattle.std.specs.Prelude.{◌≡◌, ◌<◌, OnOk};
ghost use Rattle.co_device.specs.Device.{after_consumers, after_heartbeat, after_instant, after_timers, after_tpdos};
ghost use Rattle.co_device.specs.Device.{sync_seen};

use crate::device::Device;
use can_frame::{Frame, Purpose, identifiers};
use cia301::NmtState;
use device_objects::{counter_overflow, expire, failures, set_error};
use device_pdos::{free_tpdos, look_at_tpdos};
use image_parts::END;
use pdo_rules::SyncSeen;
use std::alloc::AllocError;

/// The error code of a heartbeat that didn't come in time (CiA 301).
const HEARTBEAT_ERROR: u16 = 0x8130;

impl Device {
    /// Lets the heartbeat consumers fail whose moment has come.
    #[tactic(auto, unfolding(crate::specs::Device::after_consumers))]
    fn run_consumers(&mut self, t: u64) -> Result<(), AllocError>
        ensures { OnOk result (self.new ≡ after_consumers t self.old) }
    {
        let count = failures(&self.consumers, t);
        if count == 0 {
            return Ok(());
        }
        expire(&mut self.consumers, t);
        set_error(self.learnt, &mut self.values)?;
        self.tell_often(count, HEARTBEAT_ERROR)?;
        if self.is_in(NmtState::Operational) {
            self.enter_pre_operational();
        }
        Ok(())
    }

    /// Lets the heartbeat wait if it is due.
    #[tactic(auto, unfolding(crate::specs::Device::after_heartbeat))]
    fn run_heartbeat(&mut self, t: u64) -> Result<(), AllocError>
        requires { t < END }
        ensures { OnOk result (self.new ≡ after_heartbeat t self.old) }
    {
        if self.heartbeat != Some(t) {
            return Ok(());
        }
        let frame = Frame::of(
            identifiers::error_control(self.number),
            &[self.state.byte()],
        );
        self.waiting.replace(Purpose::Heartbeat, frame)?;
        self.start_heartbeat(t);
        Ok(())
    }

    /// Runs the timers.
    #[tactic(auto, unfolding(crate::specs::Device::after_timers))]
    fn run_timers(&mut self, t: u64) -> Result<(), AllocError>
        requires { t < END }
        ensures { OnOk result (self.new ≡ after_timers t self.old) }
    {
        self.run_consumers(t)?;
        self.run_heartbeat(t)
    }

    /// The SYNC of the instant as the TPDOs find it.
    fn sync_seen(&self) -> Option<SyncSeen>
        ensures { result ≡ sync_seen self.now.learnt self.now.values self.now.synced }
    {
        match self.synced {
            Some(sync) => Some(SyncSeen {
                counter: sync.counter,
                is_counted: counter_overflow(self.learnt, &self.values) != 0,
            }),
            None => None,
        }
    }

    /// Looks at the TPDOs.
    #[tactic(auto, unfolding(crate::specs::Device::after_tpdos))]
    fn run_tpdos(&mut self, t: u64) -> Result<(), AllocError>
        requires { t < END }
        ensures { OnOk result (self.new ≡ after_tpdos t self.old) }
    {
        let seen = self.sync_seen();
        self.synced = None;
        if self.is_in(NmtState::Operational) {
            return look_at_tpdos(&mut self.tpdos, t, seen, &self.values, &mut self.waiting);
        }
        free_tpdos(&mut self.tpdos, t);
        Ok(())
    }

    /// Runs what is due.
    #[tactic(auto, unfolding(crate::specs::Device::after_instant))]
    pub(crate) fn run(&mut self, t: u64) -> Result<(), AllocError>
        requires { t < END }
        ensures { OnOk result (self.new ≡ after_instant t self.old) }
    {
        self.run_timers(t)?;
        self.run_tpdos(t)
    }
}
