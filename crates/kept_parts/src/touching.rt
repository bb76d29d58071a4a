//! Marks of what edits may leave with other inputs.
ghost use Rattle.std.specs.Prelude.{◌≡◌, ◌||◌, ◌&&◌, Ok};
ghost use Rattle.co_project.specs.Project.{accept, is_controller, Content};
ghost use Rattle.project_parts.specs.Touch.{touch_value};
ghost use Rattle.project_parts.specs.Touched.{holds_writes, is_held_of, is_of_manager, moves_controller};
ghost use Rattle.project_parts.specs.Touched.{is_of_network, is_of_node, is_of_text, is_planned, is_roster, is_window};
ghost use Rattle.project_parts.specs.Touched.{goes_into, is_touched, is_window_at, is_window_of, is_wrong, reads_version, says_rate};
ghost use Rattle.kept_parts.specs.Kept.{kept_inputs, IsOf};
ghost use Rattle.kept_parts.specs.Left.{IsSwept};
ghost use Rattle.kept_parts.specs.Marks.{Marks};

use crate::kept_parts::KeptParts;
use crate::leaving::stays_swept;
use co_project::Project;
use co_scenario::Script;
use image_parts::WINDOW;
use project_edits::Edit;
use project_parts::{Part, Touch, touch_of};

/// Whether the manager, once it has this number, runs in another node, in none, or in one that it didn't run in.
fn moves_controller(project: &Project, id: u8) -> bool
    ensures { result ≡ moves_controller project.now id }
{
    let runs_in_one = project.controller().is_some() || project.node(id).is_some();
    id != project.manager().id && runs_in_one
}

impl KeptParts {
    /// Marks what says the bit rate.
    fn touch_rate(&mut self)
        ensures { Marks says_rate self.old self.new }
    {
        self.dcf.mark_all();
        self.roster.mark();
    }

    /// Marks the roster.
    fn touch_roster(&mut self)
        ensures { Marks is_roster self.old self.new }
    {
        self.roster.mark();
    }

    /// Marks the writes of a node and its files.
    fn touch_files(&mut self, id: u8)
        ensures { Marks (is_of_node id) self.old self.new }
    {
        self.writes.mark(id);
        self.concise.mark(id);
        self.dcf.mark(id);
    }

    /// Marks what the node of a number has by its device.
    fn touch_held(&mut self, id: u8)
        ensures { Marks (is_held_of id) self.old self.new }
    {
        self.nodes.mark(id);
    }

    /// Marks what is made from the parameters of a node.
    fn touch_parameters(&mut self, project: &Project, id: u8)
        ensures { Marks (λ q. is_of_node id q || is_controller project.now id && is_held_of id q) self.old self.new }
    {
        self.touch_files(id);
        if project.is_controller(id) {
            self.touch_held(id);
        }
    }

    /// Marks the plan and what is made from it.
    fn touch_plan(&mut self)
        ensures { Marks is_planned self.old self.new }
    {
        self.plan.mark();
        self.writes.mark_all();
        self.concise.mark_all();
        self.dcf.mark_all();
    }

    /// Marks what the node has by its device that the manager runs in.
    fn touch_controller(&mut self, project: &Project)
        ensures { Marks (holds_writes project.now) self.old self.new }
    {
        if let Some(id) = project.controller() {
            self.touch_held(id);
        }
    }

    /// Marks the plan, what is made from it, and what the node has by its device that the manager runs in.
    fn touch_messages(&mut self, project: &Project)
        ensures { Marks (λ q. is_planned q || holds_writes project.now q) self.old self.new }
    {
        self.touch_plan();
        self.touch_controller(project);
    }

    /// Marks the devices and all that is made of them, and the roster.
    fn touch_version(&mut self)
        ensures { Marks reads_version self.old self.new }
    {
        self.devices.mark_all();
        self.touch_plan();
        self.roster.mark();
        self.nodes.mark_all();
        self.windows.mark_all();
    }

    /// Marks what a node goes into.
    fn touch_network(&mut self, id: u8)
        ensures { Marks (is_of_network id) self.old self.new }
    {
        self.touch_plan();
        self.roster.mark();
        self.nodes.mark(id);
        self.windows.mark_all();
    }

    /// Marks what a node goes into, and what the node has by its device that the manager runs in.
    fn touch_node(&mut self, project: &Project, id: u8)
        ensures { Marks (λ q. is_of_network id q || holds_writes project.now q) self.old self.new }
    {
        self.touch_network(id);
        self.touch_controller(project);
    }

    /// Marks what the number of the manager goes into.
    fn touch_manager(&mut self, project: &Project, id: u8)
        ensures { Marks (is_of_manager project.now id) self.old self.new }
    {
        self.touch_roster();
        if moves_controller(project, id) {
            self.touch_network(id);
            self.touch_held(project.manager().id);
        }
    }

    /// Marks what is made from the text of an EDS.
    fn touch_text(&mut self, name: &[u8])
        ensures { Marks (is_of_text name.now) self.old self.new }
    {
        self.devices.mark(name);
        self.touch_plan();
        self.nodes.mark_all();
        self.windows.mark_all();
    }

    /// Marks the window in which a time in microseconds lies.
    fn touch_time(&mut self, time: u32)
        ensures { Marks (is_window (λ i. is_window_of i time)) self.old self.new }
    {
        self.windows.mark(u64::from(time) / WINDOW);
    }

    /// Marks the window in which the event of a number lies.
    fn touch_event(&mut self, events: &Script, number: u16)
        ensures { Marks (is_window (is_window_at events.now number)) self.old self.new }
    {
        if let Some(timed) = events.get(number) {
            self.touch_time(timed.time);
        }
    }

    /// Marks the window in which the event of a number lies, and that of another time.
    fn touch_moved(&mut self, events: &Script, number: u16, time: u32)
        ensures { Marks (is_window (λ i. is_window_of i time || is_window_at events.now number i)) self.old self.new }
    {
        self.touch_time(time);
        self.touch_event(events, number);
    }

    /// Marks the diagnostics.
    fn touch_found(&mut self)
        ensures { Marks is_wrong self.old self.new }
    {
        self.found.mark();
    }

    /// Marks what a change goes into, but for the diagnostics.
    fn mark(&mut self, touch: Touch<'_>, project: &Project)
        ensures { Marks (goes_into project.now (touch_value touch.entry)) self.old self.new }
    {
        let events = project.events();
        match touch {
            Touch::Nothing => (),
            Touch::Rate => self.touch_rate(),
            Touch::Manager(id) => self.touch_manager(project, id),
            Touch::Roster => self.touch_roster(),
            Touch::Version => self.touch_version(),
            Touch::Sheet(name) => self.touch_text(name),
            Touch::Node(id) => self.touch_node(project, id),
            Touch::Parameters(id) => self.touch_parameters(project, id),
            Touch::Messages => self.touch_messages(project),
            Touch::Event(number, time) => self.touch_moved(events, number, time),
            Touch::NoEvent(number) => self.touch_event(events, number),
        }
    }

    /// Marks what an edit of a project may leave with other inputs. Takes no memory, and constant time but for the
    /// logarithms of the numbers of EDS, of nodes and of events; an edit of the version takes time by the number of EDS. A mark
    /// too many does no harm: so it may come before the edit is taken or refused.
    pub fn touch(&mut self, edit: &Edit, project: &Project)
        ensures held { (q : Part) → kept_inputs self.new q ≡ kept_inputs self.old q }

        // These have a mark afterwards, and those that had one; no other has.
        ensures marks { Marks (is_touched project.now edit.now) self.old self.new }

        // What is held of the project is held of it still, and of the project that the edit makes of it.
        ensures same { IsOf project.now self.old → IsOf project.now self.new }
        ensures follows { (q : Content) → IsOf project.now self.old → accept project.now edit.now ≡ Ok q
            → IsOf q self.new }

        // What is known to be let go is so still, and of the project that the edit makes, unless it drops something.
        ensures still_swept { IsSwept project.now self.old → IsSwept project.now self.new }
        ensures swept_after { (q : Content) → IsSwept project.now self.old → accept project.now edit.now ≡ Ok q
            → IsSwept q self.new }
    {
        let swept = stays_swept(self.swept, edit);
        self.touch_found();
        self.mark(touch_of(edit), project);
        self.swept = swept;
    }
}
