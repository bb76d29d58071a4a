//! A node and its boot.

ghost use Rattle.std.specs.Prelude.{◌≡◌, ◌++◌, ◌∷◌, ◌↔◌, [], IfOk, IsTrue, OnOk};
ghost use Rattle.image_parts.specs.Asking.{outcome};
ghost use Rattle.image_parts.specs.Record.{BeginsWith, IsAsked, Lasts};
ghost use Rattle.node_boot.specs.Boot as rules;
ghost use Rattle.manager_nodes.specs.Table.{has_booted as is_booted, is_own as is_managers_own, note_of_loss as lost_by};
ghost use Rattle.manager_nodes.specs.Table.{note_of_time_out, queue_after_time_out};

use crate::sent::Sent;
use crate::telling::{note, send_request};
use can_frame::{Pending, Unwanted};
use node_boot::{BootStage, Boots, NoteKind, Notes, boot_nmt_slave, sdo_answer, sdo_time_out};
use std::alloc::{AllocError, Global};
use std::mem;

/// A node and how far its boot has come.
#[derive(Drop)]
pub struct Booting {
    /// The number of the node.
    pub number: u8,
    /// How far its boot has come.
    pub stage: BootStage,
}

impl Clone for Booting {
    ghost is_clone = { λ a b. b ≡ a };

    fn clone(&self) -> Result<Booting, AllocError> {
        let stage = self.stage.copy()?;
        Ok(Booting {
            number: self.number,
            stage,
        })
    }
}

impl Booting {
    /// Whether it is the same node at the same stage.
    pub(crate) fn same(&self, other: &Booting) -> bool
        ensures { IsTrue result ↔ (self.now ≡ other.now) }
    {
        self.number == other.number && self.stage.same(&other.stage)
    }

    /// Whether the node is configured: its boot has ended, with all writes confirmed.
    pub fn has_booted(&self) -> bool
        ensures { result ≡ is_booted self.now.stage }
    {
        matches!(self.stage, BootStage::Configured)
    }

    /// Whether the manager runs in the node.
    pub fn is_own(&self) -> bool
        ensures { result ≡ is_managers_own self.now.stage }
    {
        matches!(self.stage, BootStage::Own)
    }

    /// What is noted where the node boots anew.
    pub(crate) fn lost(&self) -> Option<NoteKind>
        ensures { result ≡ lost_by self.now.stage }
    {
        match self.stage {
            BootStage::Configured => Some(NoteKind::Lost),
            _ => None,
        }
    }

    /// The boot begins anew.
    pub(crate) fn boot<P: Boots>(
        &mut self,
        alloc: Global,
        deadline: u64,
        boots: &mut P,
    ) -> Result<Sent, AllocError>
        ensures state { IfOk result (λ sent. outcome (rules.boot_nmt_slave deadline self.old.number)
            (P.seen boots.old).image ≡ record { stage = self.new.stage; request = sent.request; note = sent.note }) }
        ensures number { OnOk result (self.new.number ≡ self.old.number) }
        ensures asked { OnOk result (IsAsked (rules.boot_nmt_slave deadline self.old.number)
            (P.seen boots.old) (P.seen boots.new) (P.asks boots.old) (P.asks boots.new)) }
        ensures lasts { Lasts (P.seen boots.old) (P.seen boots.new) }
    {
        let step = boot_nmt_slave(alloc, deadline, self.number, boots)?;
        self.stage = step.stage;
        Ok(Sent {
            request: step.request,
            note: step.note,
        })
    }

    /// An SDO answer comes.
    pub(crate) fn take_answer<P: Boots>(
        &mut self,
        alloc: Global,
        deadline: u64,
        answer: &[u8; 8],
        boots: &mut P,
    ) -> Result<Sent, AllocError>
        ensures state { IfOk result (λ sent. outcome
            (rules.sdo_answer deadline self.old.number self.old.stage answer.now) (P.seen boots.old).image
            ≡ record { stage = self.new.stage; request = sent.request; note = sent.note }) }
        ensures number { OnOk result (self.new.number ≡ self.old.number) }
        ensures asked { OnOk result (IsAsked (rules.sdo_answer deadline self.old.number self.old.stage answer.now)
            (P.seen boots.old) (P.seen boots.new) (P.asks boots.old) (P.asks boots.new)) }
        ensures lasts { Lasts (P.seen boots.old) (P.seen boots.new) }
    {
        let stage = mem::replace(&mut self.stage, BootStage::Unseen);
        let step = sdo_answer(alloc, deadline, self.number, stage, answer, boots)?;
        self.stage = step.stage;
        Ok(Sent {
            request: step.request,
            note: step.note,
        })
    }

    /// A request of the node times out.
    #[tactic(auto, unfolding(node_boot::specs::Boot::sdo_time_out))]
    pub(crate) fn time_out(
        &mut self,
        waiting: &mut Pending,
        notes: &mut Notes,
    ) -> Result<(), AllocError>
        ensures state { OnOk result (self.new ≡ record self.old { stage = (rules.sdo_time_out self.old.stage).stage }) }
        ensures queued { OnOk result (waiting.new ≡ queue_after_time_out self.old waiting.old) }
        ensures notes { OnOk result (notes.new ≡ notes.old ++ note_of_time_out self.old ∷ []) }
        ensures notes_before { BeginsWith notes.new notes.old }
    {
        waiting.drop_of(Unwanted::SdoOf(self.number));
        let step = sdo_time_out(&self.stage);
        self.stage = step.stage;
        send_request(waiting, self.number, step.request)?;
        note(notes, self.number, step.note)
    }
}
