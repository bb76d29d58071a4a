//! Laws of a bus, each a function whose contract is the law.

ghost use Rattle.std.specs.Prelude.{◌≡◌, ◌≢◌, ◌↔◌, ◌<◌, ◌+◌, ◌*◌, ◌∷◌, ◌++◌, [], ℕ, All, List, Some, None, filter};
ghost use Rattle.image_parts.specs.Agenda.{IsSameUnder};
ghost use Rattle.image_parts.specs.Alike.{AreAlike};
ghost use Rattle.image_parts.specs.Asking.{Agrees, Answer, outcome, reads, turns};
ghost use Rattle.can_bus.specs.Spans.{span};
ghost use Rattle.bus_devices.specs.Steps.{has_time, steps_due, steps_from, steps_left, LieFrom};
ghost use Rattle.can_bus.specs.Bus.{delivered_of, instant, power_on, after_arbitration, after_window_start, Bus};
ghost use Rattle.can_bus.specs.Dues.{IsAtRest, IsJustBefore, due_run, moments, next_due};
ghost use Rattle.can_bus.specs.Lines.{line_time};
ghost use Rattle.can_bus.specs.Runs.{is_shown, power_on_reads, run, trace, window_of, HasItsEvents, IsInTime};
ghost use Rattle.can_bus.specs.Runs.{IsNextWindow, IsSettled, StartsWith};
ghost use Rattle.can_bus.specs.declared.line.Line.{Line as Told};
ghost use Rattle.can_bus.specs.declared.slot.Slot.{Slot as Sent};
ghost use Rattle.can_frame.specs.Senders.{device_sender};
ghost use Rattle.can_frame.specs.declared.contender.Contender.{Contender as Bid};
ghost use Rattle.can_frame.specs.declared.waiting.Waiting.{Waiting as Queued};
ghost use Rattle.co_device.specs.Device.{Device};
ghost use Rattle.co_scenario.specs.declared.timed_step.TimedStep.{TimedStep};
ghost use Rattle.image_parts.specs.Contents.{Image};
ghost use Rattle.image_parts.specs.Images.{AreInOrder, IsImage};
ghost use Rattle.image_parts.specs.declared.part.Part.TheVariants as part;
ghost use Rattle.device_agenda.specs.Agenda.{hears};

/// Under two images that agree on what an instant, a run, a span or the instants of a window read under the one, it is
/// the same: the same end, the same lines and the same reads. Span i has the instants of window i, and span 0 begins
/// with the power-on.
#[tactic(auto, using(image_parts::proofs::QuestionLemmas::two_images))]
pub fn two_images()
    ensures instants { (first second : Image) (t : ℕ) (s : Bus) → Agrees second (reads (instant t s) first)
        → AreAlike (instant t s) first second }
    ensures runs { (first second : Image) (end : ℕ) → Agrees second (reads (run end) first)
        → AreAlike (run end) first second }
    ensures spans { (first second : Image) (i : ℕ) (s : Bus) → Agrees second (reads (span i s) first)
        → AreAlike (span i s) first second }
    ensures windows { (first second : Image) (i : ℕ) (s : Bus)
        → Agrees second (reads (turns instant 10000 (10000 * i) s) first)
        → AreAlike (turns instant 10000 (10000 * i) s) first second }
{}

/// A bus at rest does nothing before its next due moment: an instant changes nothing, tells nothing and reads
/// nothing. That moment is the least of its due moments and the start of its next window.
#[tactic(auto, using(can_bus::proofs::QuietLemmas::quiet))]
pub fn before_a_due_moment_nothing_happens()
    ensures least { (t : ℕ) (s : Bus) → (t < next_due s) ↔ ((t < s.window) × All (λ m. t < m) (moments s)) }
    ensures quiet { (t : ℕ) (s : Bus) → IsAtRest s → t < next_due s → instant t s ≡ Answer (s, []) }
{}

/// Under every image each instant from the power-on on leaves a bus at rest, whose due moments all lie
/// ahead.
#[tactic(auto, using(can_bus::proofs::DueRunLemmas::before_first, can_bus::proofs::DueRunLemmas::before_next, can_bus::proofs::DueRunLemmas::due_past))]
pub fn each_instant_leaves_a_bus_at_rest()
    ensures first { (image : Image) → IsImage image → IsJustBefore 0 (outcome power_on image) }
    ensures each { (image : Image) → IsImage image → (t : ℕ) (s : Bus) → IsJustBefore t s
        → IsJustBefore (t + 1) (outcome (instant t s) image).0 }
    ensures rest { (image : Image) (t : ℕ) (s : Bus) → IsJustBefore t s → IsAtRest (outcome (instant t s) image).0 }
    ensures later { (image : Image) → IsImage image → (t : ℕ) (s : Bus) → IsJustBefore t s
        → t < next_due (outcome (instant t s) image).0 }
{}

/// Under every image the run over due moments is the run over all moments: the same lines, the same end
/// and the same reads.
pub fn the_run_over_due_moments_is_the_run()
    ensures { (image : Image) (end : ℕ) → IsImage image → IsSameUnder image (due_run end) (run end) }
{}

/// Power-on reads the roster, and then the values and the entries of each node.
#[tactic(auto, using(can_bus::proofs::ReadLemmas::power_on_reads_all))]
pub fn power_on_reads_each_node()
    ensures { (image : Image) → reads power_on image ≡ power_on_reads image }
{}

/// The lines of an instant have its time.
#[tactic(auto, using(can_bus::proofs::ToldLemmas::lines_at))]
pub fn lines_have_their_time()
    ensures { (image : Image) (t : ℕ) (s : Bus)
        → All (λ (line : Told). line_time line ≡ t) (outcome (instant t s) image).1 }
{}

/// The trace is what any run past the horizon shows up to it, and all that the run to the horizon tells.
#[tactic(auto, using(can_bus::proofs::ToldLemmas::trace_laws))]
pub fn trace_of_a_longer_run()
    ensures longer { (image : Image) (horizon end : ℕ) → horizon < end
        → filter (is_shown horizon) (outcome (run end) image).1 ≡ trace image horizon }
    ensures whole { (image : Image) (horizon : ℕ) → (outcome (run (horizon + 1)) image).1 ≡ trace image horizon }
{}

/// After an instant no frame waits at an idle wire.
#[tactic(auto, using(can_bus::proofs::SettledLemmas::instant_settles))]
pub fn each_instant_leaves_a_settled_bus()
    ensures { (image : Image) (t : ℕ) (s : Bus) → IsSettled (outcome (instant t s) image).0 }
{}

/// A slot that starts at an idle wire is that of a waiting frame that no other is below.
#[tactic(auto, using(can_bus::proofs::StartLemmas::slot_is_winners))]
pub fn the_winner_starts()
    ensures { (t : ℕ) (s : Bus) (slot : Sent) → s.wire ≡ None → (after_arbitration t s).wire ≡ Some slot
        → (c : Bid) × ((w : Queued) × StartsWith t s slot c w) }
{}

/// A frame isn't delivered to the device that sends it.
#[tactic(auto, using(can_bus::proofs::ReadLemmas::own_frame_unheard))]
pub fn no_device_hears_its_own_frame()
    ensures { (t : ℕ) (slot : Sent) (d : Device) → device_sender d.number ≡ slot.sender
        → hears t (delivered_of slot) d ≡ Answer d }
{}

/// Windows start at the whole multiples of 10,000 microseconds, and at no other moment. Where one starts, its
/// events are asked for, and nothing else before they run.
#[tactic(auto, using(can_bus::proofs::TimeLemmas::each_window, can_bus::proofs::TimeLemmas::window_reads, can_bus::proofs::TimeLemmas::no_window_starts))]
pub fn windows_start_at_whole_multiples()
    ensures next { (image : Image) (t : ℕ) (s : Bus) → IsNextWindow t s.window
        → IsNextWindow (t + 1) (outcome (instant t s) image).0.window }
    ensures asked { (image : Image) (i : ℕ) (s : Bus) → s.window ≡ 10000 * i
        → reads (after_window_start (10000 * i) s) image ≡ (part.Events i, image (part.Events i)) ∷ [] }
    ensures quiet { (t : ℕ) (s : Bus) → t ≢ s.window → after_window_start t s ≡ Answer s }
{}

/// Of events in order of time, none of which lies before a moment, those of the moment are due, and none of them
/// is left.
#[tactic(auto, using(bus_devices::proofs::StepLemmas::all_of_them, bus_devices::proofs::StepLemmas::due_then, bus_devices::proofs::StepLemmas::left_later, bus_devices::proofs::StepLemmas::left_in_order, bus_devices::proofs::StepLemmas::due_of_all, bus_devices::proofs::StepLemmas::left_of_all))]
pub fn an_event_that_has_run_is_forgotten()
    ensures all { (t : ℕ) (steps : List TimedStep) → steps_due t steps ++ steps_left t steps ≡ steps }
    ensures due { (t : ℕ) (steps : List TimedStep) → All (λ (event : TimedStep). event.time ≡ t) (steps_due t steps) }
    ensures left { (t : ℕ) (steps : List TimedStep) → AreInOrder steps → LieFrom t steps
        → LieFrom (t + 1) (steps_left t steps) }
    ensures order { (t : ℕ) (steps : List TimedStep) → AreInOrder steps → AreInOrder (steps_left t steps) }
    ensures due_of_all { (t : ℕ) (steps : List TimedStep) → AreInOrder steps
        → steps_due t (steps_from t steps) ≡ filter (has_time t) steps }
    ensures left_of_all { (t : ℕ) (steps : List TimedStep) → AreInOrder steps
        → steps_left t (steps_from t steps) ≡ steps_from (t + 1) steps }
{}

/// Under every image the next window starts at its moment, and the events that have not run are in order
/// of time and lie ahead: at power-on, and after each instant. An event that has run isn't among them.
#[tactic(auto, using(can_bus::proofs::TimeLemmas::in_time_first, can_bus::proofs::TimeLemmas::in_time_after, can_bus::proofs::TimeLemmas::instant_steps))]
pub fn events_that_are_left_lie_ahead()
    ensures first { (image : Image) → IsInTime 0 (outcome power_on image) }
    ensures each { (image : Image) (t : ℕ) (s : Bus) → IsImage image → IsInTime t s
        → IsInTime (t + 1) (outcome (instant t s) image).0 }
    ensures left { (image : Image) (t : ℕ) (s : Bus)
        → (outcome (instant t s) image).0.steps ≡ steps_left t (outcome (after_window_start t s) image).steps }
{}

/// Under every image the events that run in the instant at the moment t are those with this time in the
/// window in which t lies, all of them, by number.
#[tactic(auto, using(can_bus::proofs::TimeLemmas::has_events_first, can_bus::proofs::TimeLemmas::has_events_after, can_bus::proofs::TimeLemmas::due_are_its_events))]
pub fn each_event_runs_at_its_time()
    ensures first { (image : Image) → HasItsEvents image 0 (outcome power_on image) }
    ensures each { (image : Image) (t : ℕ) (s : Bus) → IsImage image → HasItsEvents image t s
        → HasItsEvents image (t + 1) (outcome (instant t s) image).0 }
    ensures due { (image : Image) (t : ℕ) (s : Bus) → IsImage image → HasItsEvents image t s
        → steps_due t (outcome (after_window_start t s) image).steps ≡ filter (has_time t) (window_of image t) }
{}
