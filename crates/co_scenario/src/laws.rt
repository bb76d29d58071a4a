//! Laws of scenarios.

ghost use Rattle.std.specs.Prelude.{◌≡◌, ◌≢◌, ◌↔◌, ◌≤◌, ◌+◌, ◌++◌, ℕ, Contains, Some, None};
ghost use Rattle.std.specs.FinMap as map;
ghost use Rattle.std.specs.List.Sorted.{IsStrictlySortedBy};
ghost use Rattle.co_scenario.specs.Scenario.{events_between, moment_cmp, Events, HasEventBetween};
ghost use Rattle.co_scenario.specs.declared.timed_event.TimedEvent.{TimedEvent};

/// A number that is given an event has this event, and every other number keeps its own.
pub fn put_changes_its_number_alone()
    ensures there { (events : Events) (number : ℕ) (event : TimedEvent)
        → map.get (map.insert events number event) number ≡ Some event }
    ensures elsewhere { (events : Events) (number other : ℕ) (event : TimedEvent) → other ≢ number
        → map.get (map.insert events number event) other ≡ map.get events other }
{}

/// A number whose event is taken away has none, and every other number keeps its own.
pub fn remove_changes_its_number_alone()
    ensures gone { (events : Events) (number : ℕ) → map.get (map.remove events number) number ≡ None }
    ensures elsewhere { (events : Events) (number other : ℕ) → other ≢ number
        → map.get (map.remove events number) other ≡ map.get events other }
{}

/// Of the events that a number is given, the last counts.
pub fn last_put_counts()
    ensures { (events : Events) (number : ℕ) (first last : TimedEvent)
        → map.insert (map.insert events number first) number last ≡ map.insert events number last }
{}

/// Different numbers may be given their events in any order.
pub fn puts_come_in_any_order()
    ensures { (events : Events) (one other : ℕ) (event another : TimedEvent) → one ≢ other
        → map.insert (map.insert events one event) other another
        ≡ map.insert (map.insert events other another) one event }
{}

/// A moment is among the events between two times exactly if its number has an event with its time, and
/// that time lies there.
pub fn events_between_are_those_of_the_times()
    ensures { (events : Events) (first last : ℕ) (moment : ℕ × ℕ)
        → Contains (events_between first last events) moment ↔ HasEventBetween first last events moment }
{}

/// The events between two times rise by time, and those of one time by number.
pub fn events_between_rise()
    ensures { (events : Events) (first last : ℕ) → IsStrictlySortedBy moment_cmp (events_between first last events) }
{}

/// The events between two times are those up to a time, which lies between them or just before the
/// first, and then the others.
pub fn events_between_are_those_up_to_a_time_and_then_the_others()
    ensures { (events : Events) (first middle last : ℕ) → first ≤ middle + 1 → middle ≤ last
        → events_between first last events
        ≡ events_between first middle events ++ events_between (middle + 1) last events }
{}
