//! What a TPDO remembers, and when it is sent.

ghost use Rattle.std.specs.Prelude.{◌≡◌, ◌↔◌, ◌≤◌, ◌<◌, ◌^◌, length, IsTrue};
ghost use Rattle.pdo_rules.specs.Tpdo.{acyclic_turn, awaits_start, counted_turn, cyclic_turn, event_turn};
ghost use Rattle.pdo_rules.specs.Tpdo.{synced_turn, turn_by_type};
ghost use Rattle.pdo_rules.specs.Tpdo.{differs, event_moment, is_quiet, remembering_nothing as nothing_remembered};
ghost use Rattle.pdo_rules.specs.Tpdo.{without_past_inhibit};

use crate::communication::Communication;
use crate::payload::Payload;
use crate::sync_seen::SyncSeen;
use base::{has_come, is_ahead, moment_after};
use cia301::TransmissionType;
use std::marker::Model;

/// What a TPDO remembers (CiA 301): the bytes that were last queued, its inhibit and event moments in
/// microseconds, whether a SYNC with its start value has come, and the SYNCs counted since then or since it
/// was last sent at one.
#[derive(Clone, Copy, Debug)]
pub struct Tpdo {
    last: Option<Payload>,
    inhibit: Option<u64>,
    event: Option<u64>,
    started: bool,
    syncs: u8,
}

impl Model for Tpdo {
    ghost use Rattle.pdo_rules.specs.Tpdo.{Remembered};

    ghost Value = { Remembered };

    ghost view = { λ t. record { last = t.last; inhibit = t.inhibit; event = t.event; started = t.started; syncs = t.syncs } };

    ghost inverse = { λ r. record { last = r.last; inhibit = r.inhibit; event = r.event; started = r.started; syncs = r.syncs } };
}

/// The event moment of a TPDO that is sent at t, which isn't before its inhibit moment.
fn event_moment(t: u64, communication: Communication) -> Option<u64>
    requires { t < 2 ^ 63 }
    ensures { result ≡ event_moment t communication }
{
    if communication.event_time == 0 {
        return None;
    }
    let event = t + u64::from(communication.event_time);
    let inhibit = t + u64::from(communication.inhibit_time);
    if event <= inhibit {
        Some(inhibit)
    } else {
        Some(event)
    }
}

/// Whether two have the same bytes, or neither has any.
fn same_payload(one: &Option<Payload>, other: &Option<Payload>) -> bool
    ensures { IsTrue result ↔ (one.now ≡ other.now) }
{
    match (one, other) {
        (Some(one), Some(other)) => one.same(other),
        (None, None) => true,
        _ => false,
    }
}

impl Tpdo {
    /// One that remembers nothing.
    pub fn forgotten() -> Tpdo
        ensures { result ≡ nothing_remembered }
    {
        Tpdo {
            last: None,
            inhibit: None,
            event: None,
            started: false,
            syncs: 0,
        }
    }

    /// Whether the other one remembers the same.
    pub fn same(&self, other: &Tpdo) -> bool
        ensures { IsTrue result ↔ (self.now ≡ other.now) }
    {
        same_payload(&self.last, &other.last)
            && self.inhibit == other.inhibit
            && self.event == other.event
            && self.started == other.started
            && self.syncs == other.syncs
    }

    /// The inhibit moment, in microseconds, if one is set.
    pub fn inhibit(&self) -> Option<u64>
        ensures { result ≡ self.now.inhibit }
    {
        self.inhibit
    }

    /// The event moment, in microseconds, if one is set.
    pub fn event(&self) -> Option<u64>
        ensures { result ≡ self.now.event }
    {
        self.event
    }

    /// Forgets the inhibit moment if it has come at the moment t, in microseconds.
    #[tactic(auto, unfolding(crate::specs::Tpdo::without_past_inhibit))]
    pub fn end_inhibit(&mut self, t: u64)
        ensures { self.new ≡ without_past_inhibit t self.old }
    {
        if has_come(t, self.inhibit) {
            self.inhibit = None;
        }
    }

    /// Whether bytes differ from those last queued; where none were, any do.
    #[tactic(auto, unfolding(crate::specs::Tpdo::differs))]
    fn differs(&self, bytes: &[u8]) -> bool
        ensures { result ≡ differs bytes.now self.now }
    {
        match &self.last {
            Some(last) => last.bytes() != bytes,
            None => true,
        }
    }

    /// Looks at an acyclic synchronous one, and answers whether it is sent.
    #[tactic(auto, unfolding(crate::specs::Tpdo::acyclic_turn))]
    fn at_change(&mut self, seen: Option<SyncSeen>, bytes: &[u8]) -> bool
        requires { length bytes.now ≤ 8 }
        ensures sent { result ≡ (acyclic_turn seen bytes.now self.old).is_sent }
        ensures remembered { self.new ≡ (acyclic_turn seen bytes.now self.old).remembered }
    {
        if seen.is_some() && self.differs(bytes) {
            self.last = Some(Payload::of(bytes));
            return true;
        }
        false
    }

    /// Whether it waits at a SYNC for the one that has its start value.
    fn awaits_start(&self, start: u8, seen: SyncSeen) -> bool
        ensures { result ≡ awaits_start start seen self.now }
    {
        start != 0 && seen.is_counted && !self.started
    }

    /// Counts a SYNC for a cyclic synchronous one of the number n, and answers whether it is sent.
    #[tactic(auto, unfolding(crate::specs::Tpdo::counted_turn))]
    fn count(&mut self, n: u8, bytes: &[u8]) -> bool
        requires { length bytes.now ≤ 8 }
        ensures sent { result ≡ (counted_turn n bytes.now self.old).is_sent }
        ensures remembered { self.new ≡ (counted_turn n bytes.now self.old).remembered }
    {
        let syncs = u16::from(self.syncs) + 1;
        if syncs < u16::from(n) {
            self.syncs = syncs as u8;
            return false;
        }
        self.syncs = 0;
        self.last = Some(Payload::of(bytes));
        true
    }

    /// Looks at a cyclic synchronous one of the number n with a start value at a SYNC, and answers whether
    /// it is sent.
    #[tactic(auto, unfolding(crate::specs::Tpdo::synced_turn))]
    fn at_sync(&mut self, n: u8, start: u8, seen: SyncSeen, bytes: &[u8]) -> bool
        requires { length bytes.now ≤ 8 }
        ensures sent { result ≡ (synced_turn n start seen bytes.now self.old).is_sent }
        ensures remembered { self.new ≡ (synced_turn n start seen bytes.now self.old).remembered }
    {
        if self.awaits_start(start, seen) {
            if !seen.has_counter(start) {
                return false;
            }
            self.started = true;
            self.syncs = 0;
        }
        self.count(n, bytes)
    }

    /// Looks at a cyclic synchronous one of the number n with a start value, and answers whether it is sent.
    #[tactic(auto, unfolding(crate::specs::Tpdo::cyclic_turn))]
    fn at_nth(&mut self, n: u8, start: u8, seen: Option<SyncSeen>, bytes: &[u8]) -> bool
        requires { length bytes.now ≤ 8 }
        ensures sent { result ≡ (cyclic_turn n start seen bytes.now self.old).is_sent }
        ensures remembered { self.new ≡ (cyclic_turn n start seen bytes.now self.old).remembered }
    {
        match seen {
            Some(seen) => self.at_sync(n, start, seen, bytes),
            None => false,
        }
    }

    /// Looks at an event-driven one, and answers whether it is sent.
    #[tactic(auto, unfolding(crate::specs::Tpdo::event_turn))]
    fn at_event(&mut self, communication: Communication, t: u64, bytes: &[u8]) -> bool
        requires moment { t < 2 ^ 63 }
        requires short { length bytes.now ≤ 8 }
        ensures sent { result ≡ (event_turn communication t bytes.now self.old).is_sent }
        ensures remembered { self.new ≡ (event_turn communication t bytes.now self.old).remembered }
    {
        if is_ahead(t, self.inhibit) || !(self.differs(bytes) || has_come(t, self.event)) {
            return false;
        }
        self.last = Some(Payload::of(bytes));
        self.inhibit = moment_after(t, u64::from(communication.inhibit_time));
        self.event = event_moment(t, communication);
        true
    }

    /// Whether it is quiet at the moment t: it isn't sent, whatever bytes it has, and remembers what it does. A
    /// synchronous one is without a SYNC, an event-driven one while its inhibit moment is ahead, and one of another
    /// type, or of none, always.
    #[tactic(auto, unfolding(crate::specs::Tpdo::is_quiet))]
    pub fn is_quiet(
        &self,
        transmission: Option<TransmissionType>,
        seen: Option<SyncSeen>,
        t: u64,
    ) -> bool
        ensures { result ≡ is_quiet transmission seen t self.now }
    {
        match transmission {
            Some(TransmissionType::Acyclic | TransmissionType::Cyclic(_)) => seen.is_none(),
            Some(TransmissionType::EventDriven) => is_ahead(t, self.inhibit),
            Some(TransmissionType::Reserved | TransmissionType::OnRequest) | None => true,
        }
    }

    /// Looks at a TPDO that works, at the moment t in microseconds and with the bytes that it has then,
    /// at most 8, and answers whether it is sent; where it is, the bytes are remembered. `seen` is the SYNC
    /// of the instant, if one came.
    ///
    /// An acyclic synchronous one is sent at a SYNC where the bytes differ from those last queued; a cyclic
    /// one of the number n at each n-th SYNC, where one with a start value counts them, on a device that
    /// counts SYNCs, from the first that has this value as its counter; an event-driven one where the bytes
    /// differ or the event moment has come, unless the inhibit moment is ahead, and both moments are then
    /// set from now; one of another type, or of none, never. Needs no memory.
    #[tactic(auto, unfolding(crate::specs::Tpdo::turn_by_type))]
    pub fn look(
        &mut self,
        communication: Communication,
        seen: Option<SyncSeen>,
        t: u64,
        bytes: &[u8],
    ) -> bool
        requires moment { t < 2 ^ 63 }
        requires short { length bytes.now ≤ 8 }
        ensures sent { result
            ≡ (turn_by_type communication.transmission_type communication seen t bytes.now self.old).is_sent }
        ensures remembered { self.new
            ≡ (turn_by_type communication.transmission_type communication seen t bytes.now self.old).remembered }
    {
        match communication.transmission_type {
            Some(TransmissionType::Acyclic) => self.at_change(seen, bytes),
            Some(TransmissionType::Cyclic(n)) => {
                self.at_nth(n, communication.sync_start, seen, bytes)
            }
            Some(TransmissionType::EventDriven) => self.at_event(communication, t, bytes),
            Some(TransmissionType::Reserved | TransmissionType::OnRequest) | None => false,
        }
    }
}
