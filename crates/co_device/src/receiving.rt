//! The frames that a device receives.

ghost use Rattle.std.specs.Prelude.{◌≡◌, ◌<◌, OnOk};
ghost use Rattle.image_parts.specs.Record.{GoesBy, Lasts};
ghost use Rattle.co_device.specs.Receiving.{after_frame, reception};
ghost use Rattle.device_objects.specs.Profile.{sync_identifier as identifier_of_sync};

use crate::device::Device;
use can_frame::Frame;
use co_scenario::NmtCommand;
use device_objects::{Reception, Shapes, sync_identifier};
use image_parts::END;
use std::alloc::AllocError;

impl Device {
    /// What a frame is to it, where this is its identifier of SYNC. Takes constant time.
    #[tactic(auto, unfolding(crate::specs::Receiving::reception))]
    pub fn reception(&self, sync: u16, frame: &Frame) -> Reception
        requires { sync ≡ identifier_of_sync self.now.learnt self.now.values }
        ensures { result ≡ reception frame.now self.now }
    {
        if self.has_power {
            Reception::of(self.number, sync, frame)
        } else {
            Reception::Nothing
        }
    }

    /// Takes a frame as what it is to it.
    #[tactic(auto, using(crate::proofs::ReceptionLemmas::request_is_whole), unfolding(crate::specs::Receiving::after_frame, crate::specs::Receiving::after_reception))]
    pub(crate) fn receive<P: Shapes>(
        &mut self,
        t: u64,
        frame: &Frame,
        shapes: &mut P,
    ) -> Result<(), AllocError>
        requires { t < END }
        ensures ran { OnOk result (GoesBy (after_frame t frame.now self.old) self.new
            P.seen P.asks shapes.old shapes.new) }
        ensures lasts { Lasts (P.seen shapes.old) (P.seen shapes.new) }
    {
        let sync = sync_identifier(self.learnt, &self.values);
        match self.reception(sync, frame) {
            Reception::Nothing => Ok(()),
            Reception::NmtService(service) => {
                let command = NmtCommand::from_number(u64::from(service));
                self.obey(command, t, shapes)
            }
            Reception::Sync => self.take_sync(t, frame.bytes(), shapes),
            Reception::SdoRequest => self.take_request(t, &frame.eight(), shapes),
            Reception::ErrorControl(producer) => self.take_error_control(t, producer),
            Reception::Pdo => self.take_pdo(t, frame, shapes),
        }
    }
}
