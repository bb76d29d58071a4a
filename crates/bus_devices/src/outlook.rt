//! What is known of devices in a row.

ghost use Rattle.std.specs.Prelude.{◌≡◌, ◌↔◌, ◌++◌, ◌∷◌, [], IsTrue, List};
ghost use Rattle.bus_devices.specs.Blocks.{IsAlarmOf, IsBestOf, IsOutlookOf};
ghost use Rattle.can_frame.specs.Winner.{lower as lower_of};
ghost use Rattle.co_device.specs.Device.{Device};

use can_frame::Contender;
use device_agenda::{Alarm, ScheduledDevice};

/// What is known of devices in a row: when they have to run, and which of their frames wins.
#[derive(Clone, Copy, Debug)]
pub(crate) struct Outlook {
    /// When they have to run.
    pub alarm: Alarm,
    /// The least frame that waits at one of them, if one waits.
    pub best: Option<Contender>,
}

/// Leaves the one that wins of two contenders, as `Contender::lower`: mostly the other isn't there.
#[tactic(auto, using(crate::proofs::SenderLemmas::lower_none))]
pub(crate) fn keep_winner(best: &mut Option<Contender>, other: &Option<Contender>)
    ensures { best.new ≡ lower_of best.old other.now }
{
    if let Some(other) = other {
        *best = Contender::lower(*best, Some(*other));
    }
}

/// Whether two frames are the same, or none is there.
fn same_best(best: &Option<Contender>, other: &Option<Contender>) -> bool
    ensures { IsTrue result ↔ (best.now ≡ other.now) }
{
    match (best, other) {
        (None, None) => true,
        (Some(best), Some(other)) => best.same(other),
        _ => false,
    }
}

impl Outlook {
    /// That of no device.
    pub(crate) fn none() -> Outlook
        ensures { IsOutlookOf result [] }
    {
        Outlook {
            alarm: Alarm::none(),
            best: None,
        }
    }

    /// That of a device.
    pub(crate) fn of(device: &ScheduledDevice) -> Outlook
        ensures { IsOutlookOf result (device.now ∷ []) }
    {
        Outlook {
            alarm: Alarm::of(&device.agenda()),
            best: device.contender(),
        }
    }

    /// Whether the other one is the same.
    pub(crate) fn same(&self, other: &Outlook) -> bool
        ensures { IsTrue result ↔ (self.now ≡ other.now) }
    {
        self.alarm.same(&other.alarm) && same_best(&self.best, &other.best)
    }

    /// Takes that of others in: it becomes that of these devices and of them.
    pub(crate) fn add(&mut self, other: &Outlook)
        ensures alarm { (ds es : List Device) → IsAlarmOf self.old ds → IsAlarmOf other.now es
            → IsAlarmOf self.new (ds ++ es) }
        ensures best { (ds es : List Device) → IsBestOf self.old ds → IsBestOf other.now es
            → IsBestOf self.new (ds ++ es) }
    {
        self.alarm = self.alarm.and(other.alarm);
        keep_winner(&mut self.best, &other.best);
    }
}
