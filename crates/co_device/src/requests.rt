//! The requests to a device's SDO server.

ghost use Rattle.std.specs.Prelude.{◌≡◌, ◌<◌, ◌++◌, OnOk};
ghost use Rattle.image_parts.specs.Record.{GoesBy, Lasts};
ghost use Rattle.co_device.specs.Device.{after_request, answer_frames, after_sdo_request};

use crate::device::Device;
use can_frame::{Frame, Purpose, identifiers};
use cia301::NmtState;
use co_dict::Shape;
use co_sdo::transfer::Transfer;
use co_sdo::{Step, answered};
use device_objects::{Shapes, shape_or, without_entries};
use image_parts::END;
use std::alloc::AllocError;
use std::mem::replace;

impl Device {
    /// Lets the answer of the server wait, if there is one.
    fn answer(&mut self, bytes: Option<[u8; 8]>) -> Result<(), AllocError>
        ensures { OnOk result (self.new
            ≡ record self.old { waiting = self.old.waiting ++ answer_frames self.old.number bytes }) }
    {
        if let Some(bytes) = bytes {
            let frame = Frame::of(identifiers::sdo_answer(self.number), &bytes);
            self.waiting.add(Purpose::Sdo(self.number), frame)?;
        }
        Ok(())
    }

    /// Does what the server did, an answer and a write, once its values stand.
    fn finish_request(&mut self, t: u64, shape: &Shape, step: Step) -> Result<(), AllocError>
        requires { t < END }
        ensures { OnOk result (self.new
            ≡ after_request t shape.now (record {
              answer = step.answer;
              values = self.old.values;
              transfer = step.transfer;
              wrote = step.wrote;
            }) self.old) }
    {
        self.transfer = step.transfer;
        self.answer(step.answer)?;
        match step.wrote {
            None => Ok(()),
            Some(place) => self.after_write(t, shape, place),
        }
    }

    /// Takes a request to the SDO server.
    #[tactic(auto, unfolding(crate::specs::Device::after_sdo_request))]
    pub(crate) fn take_request<P: Shapes>(
        &mut self,
        t: u64,
        request: &[u8; 8],
        shapes: &mut P,
    ) -> Result<(), AllocError>
        requires { t < END }
        ensures ran { OnOk result (GoesBy (after_sdo_request t request.now self.old) self.new
            P.seen P.asks shapes.old shapes.new) }
        ensures lasts { Lasts (P.seen shapes.old) (P.seen shapes.new) }
    {
        if self.is_in(NmtState::Stopped) {
            return Ok(());
        }
        let shape = shapes.shape(self.number)?;
        let none = without_entries(self.alloc);
        let shape = shape_or(&shape, &none);
        let transfer = replace(&mut self.transfer, Transfer::Idle);
        let step = answered(self.alloc, transfer, request, shape, &mut self.values)?;
        self.finish_request(t, shape, step)
    }
}
