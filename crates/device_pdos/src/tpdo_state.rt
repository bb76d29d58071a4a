//! A TPDO of a device.

ghost use Rattle.std.specs.Prelude.{◌≡◌, ◌↔◌, ◌<◌, ◌^◌, IsTrue, OnOk};
ghost use Rattle.pdo_rules.specs.Tpdo.{remembering_nothing};
ghost use Rattle.device_pdos.specs.Tpdos.{frame_of_turn, goes_by_sync, tpdo_after_turn, tpdo_moment, waits_for_event};
ghost use Rattle.device_pdos.specs.Tpdos.{with_frame};

use can_frame::{Frame, Pending, Purpose};
use co_dict::Dict;
use pdo_rules::{Configuration, SyncSeen, Tpdo, pack};
use std::alloc::AllocError;

/// A TPDO of a device at a moment (CiA 301). Copies share its mapping.
#[derive(Drop)]
pub struct TpdoState {
    /// Its number, 1 to 512.
    pub number: u16,
    /// What it goes by; none where it doesn't work.
    pub configuration: Option<Configuration>,
    /// What it remembers.
    pub remembered: Tpdo,
}

impl TpdoState {
    /// A TPDO that goes by this, and remembers nothing.
    pub(crate) fn of(number: u16, configuration: Option<Configuration>) -> TpdoState
        ensures { result ≡ record { number = number; configuration = configuration; remembered = remembering_nothing } }
    {
        TpdoState {
            number,
            configuration,
            remembered: Tpdo::forgotten(),
        }
    }

    /// Whether the other one is the same.
    pub fn same(&self, other: &TpdoState) -> bool
        ensures { IsTrue result ↔ (self.now ≡ other.now) }
    {
        if self.number != other.number {
            return false;
        }
        if !self.remembered.same(&other.remembered) {
            return false;
        }
        Configuration::are_same(&self.configuration, &other.configuration)
    }

    /// Whether it works and is event-driven.
    fn waits_for_event(&self) -> bool
        ensures { result ≡ waits_for_event self.now.configuration }
    {
        match &self.configuration {
            Some(configuration) => match configuration.communication.transmission_type {
                Some(transmission) => transmission.is_event_driven(),
                None => false,
            },
            None => false,
        }
    }

    /// Whether it works and goes by SYNC.
    pub fn goes_by_sync(&self) -> bool
        ensures { result ≡ goes_by_sync self.now.configuration }
    {
        match &self.configuration {
            Some(configuration) => match configuration.communication.transmission_type {
                Some(transmission) => transmission.is_synchronous(),
                None => false,
            },
            None => false,
        }
    }

    /// The moment in microseconds at which it is due, if there is one: the end of its inhibit time while
    /// that runs; else its event moment where it is event-driven, in Operational.
    pub(crate) fn moment(&self, operational: bool) -> Option<u64>
        ensures { result ≡ tpdo_moment operational self.now }
    {
        let inhibit = self.remembered.inhibit();
        if inhibit.is_some() {
            inhibit
        } else if operational && self.waits_for_event() {
            self.remembered.event()
        } else {
            None
        }
    }

    /// Looks at it at the moment t, and answers its frame where it is sent. Its values are packed only where it isn't
    /// quiet.
    #[tactic(auto, using(crate::proofs::PackedLemmas::few, crate::proofs::QuietLemmas::quiet_turn), unfolding(crate::specs::Tpdos::bytes_now, crate::specs::Tpdos::turn))]
    fn look(&mut self, t: u64, seen: Option<SyncSeen>, dict: &Dict) -> Option<Frame>
        requires { t < 2 ^ 63 }
        ensures state { self.new ≡ tpdo_after_turn t seen dict.now self.old }
        ensures frame { result ≡ frame_of_turn t seen dict.now self.old }
    {
        self.remembered.end_inhibit(t);
        let Some(configuration) = &self.configuration else {
            return None;
        };
        let communication = configuration.communication;
        if self
            .remembered
            .is_quiet(communication.transmission_type, seen, t)
        {
            return None;
        }
        let (frame, count) = pack(dict, configuration.mapping.entries());
        let bytes = &frame[..count];
        if self.remembered.look(communication, seen, t, bytes) {
            Some(Frame::of(configuration.identifier.number(), bytes))
        } else {
            None
        }
    }

    /// Looks at it in its turn at the moment t: where it is sent, its frame waits in the place of one of
    /// its own that still waits.
    pub(crate) fn take_turn(
        &mut self,
        t: u64,
        seen: Option<SyncSeen>,
        dict: &Dict,
        waiting: &mut Pending,
    ) -> Result<(), AllocError>
        requires { t < 2 ^ 63 }
        ensures state { OnOk result (self.new ≡ tpdo_after_turn t seen dict.now self.old) }
        ensures waiting { OnOk result (waiting.new
            ≡ with_frame self.old.number (frame_of_turn t seen dict.now self.old) waiting.old) }
    {
        match self.look(t, seen, dict) {
            Some(frame) => waiting.replace(Purpose::Tpdo(self.number), frame),
            None => Ok(()),
        }
    }
}

impl Clone for TpdoState {
    ghost is_clone = { λ a b. b ≡ a };

    /// The same, of which it shares the mapping. Takes no memory.
    fn clone(&self) -> Result<TpdoState, AllocError> {
        let configuration = Configuration::copy_of(&self.configuration)?;
        Ok(TpdoState {
            number: self.number,
            configuration,
            remembered: self.remembered,
        })
    }
}
