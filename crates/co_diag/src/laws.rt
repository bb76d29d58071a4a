//! Laws of the diagnostics of a project.
ghost use Rattle.std.specs.Prelude.{◌≡◌, ◌↔◌, ◌&&◌, not, ℕ, true, is_some, List, Some};
ghost use Rattle.std.specs.FinMap.{get};
ghost use Rattle.co_scenario.specs.declared.timed_event.TimedEvent.{TimedEvent};
ghost use Rattle.co_project.specs.Project.{Content};
ghost use Rattle.co_project.specs.Sound.{IsSound};
ghost use Rattle.project_plan.specs.Events.{shape_of_node, step_of};
ghost use Rattle.diag_lines.specs.declared.diag.Diag.{Diag};
ghost use Rattle.diag_lines.specs.Order.{diag_cmp};
ghost use Rattle.diag_lines.specs.Sets.{IsListOf};
ghost use Rattle.co_diag.specs.Holds.{Holds, is_idle};
ghost use Rattle.co_diag.specs.Found.{diagnostics_of, IsUnlisted};

/// The diagnostics are exactly what holds of the project, each once, in order.
pub fn diagnostics_are_what_holds()
    ensures { (p : Content) → IsListOf diag_cmp (Holds p) (diagnostics_of p) }
{}

/// What holds determines the list.
pub fn what_holds_determines_the_list()
    ensures { (p : Content) (xs ys : List Diag)
        → IsListOf diag_cmp (Holds p) xs → IsListOf diag_cmp (Holds p) ys → xs ≡ ys }
{}

/// An event of a sound project does something, as set a value, exactly where nothing is listed of it.
pub fn an_event_sets_a_value_where_nothing_is_listed_of_it()
    ensures { (p : Content) (number : ℕ) (e : TimedEvent) → IsSound p → get p.events number ≡ Some e
        → ((is_some (step_of (shape_of_node p) e.event) && not (is_idle p e.event)) ≡ true) ↔ IsUnlisted p number }
{}
