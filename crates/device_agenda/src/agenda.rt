//! When devices have to run.

ghost use Rattle.std.specs.Prelude.{◌≡◌, ◌<◌, ◌++◌, ◌||◌, ℕ, List, [], None, true, false, IfSome, IsTrue};
ghost use Rattle.base.specs.Moments.{earlier as earlier_of};
ghost use Rattle.co_device.specs.Device.{Device};
ghost use Rattle.device_agenda.specs.Agenda.{IsAgendaOf, sleeps_through};
ghost use Rattle.device_agenda.specs.Groups.{includes};
ghost use Rattle.device_agenda.specs.LowBytes.{sleeps_on};

use crate::delivery::Delivery;
use crate::groups::Groups;
use crate::low_bytes::LowBytes;
use base::{earlier, has_come};

/// When devices have to run: at the moment at which one is due, and where a frame is delivered of a group of
/// which one may take a frame.
#[derive(Clone, Copy, Debug)]
pub struct Agenda {
    /// Whether one has to run whatever comes.
    pub awake: bool,
    /// The first moment at which one is due, in microseconds, if there is one and none is awake.
    pub due: Option<u64>,
    /// The groups of the frames that are something to one of them.
    pub groups: Groups,
    /// Whether a frame may wait at one of them.
    pub waits: bool,
}

impl Agenda {
    /// That of no device.
    pub fn none() -> Agenda
        ensures devices { IsAgendaOf result [] }
        ensures rests { (result.awake ≡ false) × (result.due ≡ None) }
        ensures silent { result.waits ≡ false }
        ensures groups { (id : ℕ) → includes result.groups id ≡ false }
    {
        Agenda {
            awake: false,
            due: None,
            groups: Groups::none(),
            waits: false,
        }
    }

    /// That of devices of which nothing is known.
    pub(crate) fn unknown() -> Agenda
        ensures agenda { (ds : List Device) → IsAgendaOf result ds }
        ensures awake { result.awake ≡ true }
    {
        Agenda {
            awake: true,
            due: None,
            groups: Groups::none(),
            waits: true,
        }
    }

    /// That of these devices and others.
    pub fn and(self, other: Agenda) -> Agenda
        ensures devices { (ds es : List Device) → IsAgendaOf self ds → IsAgendaOf other es
            → IsAgendaOf result (ds ++ es) }
        ensures awake { result.awake ≡ self.awake || other.awake }
        ensures due { result.due ≡ earlier_of self.due other.due }
        ensures waits { result.waits ≡ self.waits || other.waits }
        ensures groups { (id : ℕ) → includes result.groups id ≡ includes self.groups id || includes other.groups id }
    {
        Agenda {
            awake: self.awake | other.awake,
            due: earlier(self.due, other.due),
            groups: self.groups.and(other.groups),
            waits: self.waits | other.waits,
        }
    }

    /// Whether nothing happens to its devices at the moment t, at which this is delivered.
    pub fn sleeps_through(&self, t: u64, delivery: &Option<Delivery>) -> bool
        ensures sleeps { result ≡ sleeps_through t delivery.now self.now }
        ensures bound { IsTrue result → IfSome delivery.now (λ d. d.frame.id < 0x800) }
    {
        !self.awake && !has_come(t, self.due) && !Delivery::stirs(self.groups, delivery)
    }

    /// Whether nothing happens to its devices at the moment t, at which this is delivered, where these are the low
    /// bytes of what is something to them.
    pub fn sleeps_on(&self, low_bytes: &LowBytes, t: u64, delivery: &Option<Delivery>) -> bool
        ensures sleeps { result ≡ sleeps_on t delivery.now low_bytes.now self.now }
        ensures bound { IsTrue result → IfSome delivery.now (λ d. d.frame.id < 0x800) }
    {
        !self.awake
            && !has_come(t, self.due)
            && !Delivery::reaches(self.groups, low_bytes, delivery)
    }
}
