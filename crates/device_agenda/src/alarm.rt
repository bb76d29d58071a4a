//! When devices have to run, in two words.

ghost use Rattle.std.specs.Prelude.{◌≡◌, ◌↔◌, ◌<◌, ◌++◌, ◌||◌, ℕ, List, [], IfSome, IsTrue, false, min};
ghost use Rattle.co_device.specs.Device.{Device};
ghost use Rattle.device_agenda.specs.Agenda.{IsAgendaOf, sleeps_through};
ghost use Rattle.device_agenda.specs.Alarms.{agenda_by, alarm_by, due_at, is_now, never};
ghost use Rattle.device_agenda.specs.Groups.{includes};
ghost use Rattle.device_agenda.specs.LowBytes.{sleeps_on};

use crate::agenda::Agenda;
use crate::delivery::Delivery;
use crate::groups::Groups;
use crate::low_bytes::LowBytes;
use image_parts::END;

/// The moment at which nothing is due.
const NEVER: u64 = u64::MAX;

/// When devices have to run, in two words: so the agendas of many are put together and asked fast. It stands for an
/// `Agenda` that says nothing of the frames that wait.
#[derive(Clone, Copy, Debug)]
pub struct Alarm {
    /// The first moment at which one is due, in microseconds: 0 where one has to run whatever comes, and the greatest
    /// number where none is due.
    at: u64,
    /// The groups of the frames that are something to one of them.
    groups: Groups,
}

/// The moment of an alarm for an agenda. A moment that no alarm can hold is one at which they have to run.
fn moment_of(agenda: &Agenda) -> u64
    ensures awake { is_now result ≡ false → agenda.now.awake ≡ false }
    ensures due { is_now result ≡ false → due_at result ≡ agenda.now.due }
    ensures moment { result ≡ (alarm_by agenda.now).at }
{
    if agenda.awake {
        return 0;
    }
    match agenda.due {
        None => NEVER,
        Some(NEVER) => 0,
        Some(due) => due,
    }
}

impl Alarm {
    /// That of no device.
    pub fn none() -> Alarm
        ensures devices { IsAgendaOf (agenda_by result) [] }
        ensures never { result.at ≡ never }
        ensures groups { (id : ℕ) → includes result.groups id ≡ false }
    {
        Alarm::of(&Agenda::none())
    }

    /// That of the devices of an agenda.
    pub fn of(agenda: &Agenda) -> Alarm
        ensures devices { (ds : List Device) → IsAgendaOf agenda.now ds → IsAgendaOf (agenda_by result) ds }
        ensures alarm { result ≡ alarm_by agenda.now }
    {
        Alarm {
            at: moment_of(agenda),
            groups: agenda.groups,
        }
    }

    /// That of these devices and others.
    pub fn and(self, other: Alarm) -> Alarm
        ensures devices { (ds es : List Device) → IsAgendaOf (agenda_by self) ds → IsAgendaOf (agenda_by other) es
            → IsAgendaOf (agenda_by result) (ds ++ es) }
        ensures at { result.at ≡ min self.at other.at }
        ensures groups { (id : ℕ) → includes result.groups id ≡ includes self.groups id || includes other.groups id }
    {
        Alarm {
            at: self.at.min(other.at),
            groups: self.groups.and(other.groups),
        }
    }

    /// Whether the other alarm is the same.
    pub fn same(&self, other: &Alarm) -> bool
        ensures { IsTrue result ↔ (self.now ≡ other.now) }
    {
        self.at == other.at && self.groups.same(&other.groups)
    }

    /// The agenda that it stands for.
    pub fn agenda(&self) -> Agenda
        ensures { result ≡ agenda_by self.now }
    {
        Agenda {
            awake: self.at == 0,
            due: if self.at == NEVER {
                None
            } else {
                Some(self.at)
            },
            groups: self.groups,
            waits: true,
        }
    }

    /// Whether nothing happens to its devices at the moment t, at which this is delivered.
    pub fn sleeps_through(&self, t: u64, delivery: &Option<Delivery>) -> bool
        requires { t < END }
        ensures sleeps { result ≡ sleeps_through t delivery.now (agenda_by self.now) }
        ensures bound { IsTrue result → IfSome delivery.now (λ d. d.frame.id < 0x800) }
    {
        t < self.at && !Delivery::stirs(self.groups, delivery)
    }

    /// Whether nothing happens to its devices at the moment t, at which this is delivered, where these are the low
    /// bytes of what is something to them.
    pub fn sleeps_on(&self, low_bytes: &LowBytes, t: u64, delivery: &Option<Delivery>) -> bool
        requires { t < END }
        ensures sleeps { result ≡ sleeps_on t delivery.now low_bytes.now (agenda_by self.now) }
        ensures bound { IsTrue result → IfSome delivery.now (λ d. d.frame.id < 0x800) }
    {
        t < self.at && !Delivery::reaches(self.groups, low_bytes, delivery)
    }
}
