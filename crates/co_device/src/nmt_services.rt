//! The NMT services that change a device's state.

ghost use Rattle.std.specs.Prelude.{◌≡◌, ◌<◌, OnOk};
ghost use Rattle.image_parts.specs.Record.{GoesBy, Lasts};
ghost use Rattle.co_device.specs.Device.{enter_pre_operational, nmt_service, out_of_operational, stop_remote_node};

use crate::device::Device;
use can_frame::Unwanted;
use cia301::NmtState;
use co_scenario::NmtCommand;
use co_sdo::transfer::Transfer;
use device_objects::Shapes;
use device_pdos::{empty_rpdos, forget_tpdos};
use image_parts::END;
use std::alloc::AllocError;

impl Device {
    /// Where it is in Operational, drops the TPDOs that wait, and what PDOs remember and keep.
    #[tactic(auto, unfolding(crate::specs::Device::out_of_operational))]
    fn leave_operational(&mut self)
        ensures { self.new ≡ out_of_operational self.old }
    {
        if self.is_in(NmtState::Operational) {
            self.waiting.drop_of(Unwanted::Tpdos);
            empty_rpdos(&mut self.rpdos);
            forget_tpdos(&mut self.tpdos);
        }
    }

    /// Runs NMT service Enter pre-operational.
    pub(crate) fn enter_pre_operational(&mut self)
        ensures { self.new ≡ enter_pre_operational self.old }
    {
        self.leave_operational();
        self.state = NmtState::PreOperational;
    }

    /// Runs NMT service Stop remote node.
    fn stop(&mut self)
        ensures { self.new ≡ stop_remote_node self.old }
    {
        if !self.is_in(NmtState::Stopped) {
            self.leave_operational();
            self.waiting.drop_of(Unwanted::Sdos);
            self.waiting.drop_of(Unwanted::Emergencies);
            self.transfer = Transfer::Idle;
            self.state = NmtState::Stopped;
        }
    }

    /// Runs the NMT service of a command, if there is one.
    #[tactic(auto, unfolding(crate::specs::Device::nmt_service))]
    pub(crate) fn obey<P: Shapes>(
        &mut self,
        command: Option<NmtCommand>,
        t: u64,
        shapes: &mut P,
    ) -> Result<(), AllocError>
        requires { t < END }
        ensures ran { OnOk result (GoesBy (nmt_service command t self.old) self.new
            P.seen P.asks shapes.old shapes.new) }
        ensures lasts { Lasts (P.seen shapes.old) (P.seen shapes.new) }
    {
        match command {
            None => Ok(()),
            Some(NmtCommand::Start) => {
                self.state = NmtState::Operational;
                Ok(())
            }
            Some(NmtCommand::Stop) => {
                self.stop();
                Ok(())
            }
            Some(NmtCommand::EnterPreOperational) => {
                self.enter_pre_operational();
                Ok(())
            }
            Some(NmtCommand::ResetNode) => self.reset_node(t, shapes),
            Some(NmtCommand::ResetCommunication) => self.reset_communication(t, shapes),
        }
    }
}
