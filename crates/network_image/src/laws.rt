//! Laws of the image of a project.
ghost use Rattle.std.specs.Prelude.{◌≡◌, ◌≢◌, ◌↔◌, ℕ, true, Contains, List, None, Some};
ghost use Rattle.std.specs.List.{AllByRecursion};
ghost use Rattle.eds_device.specs.Sheets.{sheet_of};
ghost use Rattle.project_edits.specs.Versions.{is_three};
ghost use Rattle.co_project.specs.declared.node.Node.{Node as member};
ghost use Rattle.co_project.specs.Project.{is_controller, Content as Project};
ghost use Rattle.co_project.specs.Sound.{IsSound};
ghost use Rattle.co_project.specs.Tables.{node_at, text_at};
ghost use Rattle.image_parts.specs.Configured.{HoldsItsWrites};
ghost use Rattle.image_parts.specs.Contents.{roster_of};
ghost use Rattle.image_parts.specs.Images.{IsCoherent, IsImage};
ghost use Rattle.image_parts.specs.declared.part.Part.TheVariants as part;
ghost use Rattle.project_plan.specs.Events.{shape_of_node};
ghost use Rattle.network_image.specs.Image.{image_of, window_steps};
ghost use Rattle.co_scenario.specs.declared.timed_step.TimedStep.{TimedStep};
ghost use Rattle.network_image.specs.Steps.{IsStepIn};
ghost use Rattle.network_image.specs.Parts.{HasNoParts, HasParts};

/// What holds of every image holds of that of each project, and it is coherent. The manager waits for no node that it
/// runs in: none of the mandatory nodes has its number.
pub fn the_image_is_coherent()
    ensures image { (project : Project) → IsSound project → IsImage (image_of project) }
    ensures coherent { (project : Project) → IsCoherent (image_of project) }
    ensures mandatory { (project : Project) → AllByRecursion (λ n. n ≢ (roster_of (image_of project part.Roster)).manager)
        (roster_of (image_of project part.Roster)).mandatory }
{}

/// The steps of a window are what the events of its 10,000 microseconds do, each with the time and the
/// number of its event: these, and no others.
pub fn each_window_has_the_steps_of_its_events()
    ensures { (project : Project) (i : ℕ) (step : TimedStep) → Contains (window_steps project i) step
        ↔ IsStepIn (shape_of_node project) project.events i step }
{}

/// Each node has the parts of the device of its EDS, read by the version of the project, and no other number has any.
pub fn each_node_has_the_parts_of_its_device()
    ensures nodes { (project : Project) (id : ℕ) (node : member) → IsSound project
        → node_at project.nodes id ≡ Some node
        → (text : List ℕ) × ((text_at project.texts node.eds ≡ Some text)
        × HasParts project id node (sheet_of (is_three project.version) text)) }
    ensures others { (project : Project) (id : ℕ) → node_at project.nodes id ≡ None → HasNoParts project id }
{}

/// The device that the manager runs in is configured from its power-on on: each entry that writes of its node name has
/// the data of the last of these, which are those of its concise DCF, but for the producer heartbeat time (CiA 301,
/// object 1017h), which it doesn't have.
pub fn the_controller_holds_its_writes()
    ensures { (project : Project) (node : ℕ) → is_controller project node ≡ true
        → HoldsItsWrites (image_of project) node }
{}
