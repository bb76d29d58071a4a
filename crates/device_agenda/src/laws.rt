//! Laws of agendas, each a function whose contract is the law.

ghost use Rattle.std.specs.Prelude.{◌≡◌, ℕ, ◌<◌, true, List, ◌∷◌, [], Option, IfSome};
ghost use Rattle.std.specs.List.{AllByRecursion};
ghost use Rattle.image_parts.specs.Asking.{Answer};
ghost use Rattle.co_device.specs.Device.{Device};
ghost use Rattle.device_agenda.specs.Agenda.{IsAgendaOf, at_instant, sleeps_through};
ghost use Rattle.device_agenda.specs.Delivered.{Delivered};
ghost use Rattle.device_agenda.specs.LowBytes.{AreDeafBeyond, sleeps_on};
ghost use Rattle.device_agenda.specs.declared.agenda.Agenda.{Agenda as DeviceAgenda};
ghost use Rattle.device_agenda.specs.declared.low_bytes.LowBytes.{LowBytes};

/// Devices that sleep through an instant by an agenda of theirs do nothing in it: no device changes, and
/// nothing is read.
#[tactic(auto, using(crate::proofs::SleepLemmas::nothing_happens))]
pub fn devices_that_sleep_do_nothing()
    ensures { (a : DeviceAgenda) (ds : List Device) (t : ℕ) (delivered : Option Delivered)
        → IfSome delivered (λ d. d.frame.id < 0x800)
        → IsAgendaOf a ds → sleeps_through t delivered a ≡ true
        → AllByRecursion (λ d. at_instant t delivered d ≡ Answer d) ds }
{}

/// Devices that sleep on through an instant, by an agenda of theirs and the low bytes beyond which they are deaf, do
/// nothing in it either.
#[tactic(auto, using(crate::proofs::SleepLemmas::nothing_reaches))]
pub fn devices_that_sleep_on_do_nothing()
    ensures { (a : DeviceAgenda) (bytes : LowBytes) (ds : List Device) (t : ℕ) (delivered : Option Delivered)
        → IfSome delivered (λ d. d.frame.id < 0x800)
        → IsAgendaOf a ds → AreDeafBeyond bytes ds → sleeps_on t delivered bytes a ≡ true
        → AllByRecursion (λ d. at_instant t delivered d ≡ Answer d) ds }
{}
