//! The parts of a project that are kept.
ghost use Rattle.std.specs.Prelude.{◌≡◌, OnOk, option_copied, option_map};
ghost use Rattle.co_diag.specs.Found.{diagnostics_of};
ghost use Rattle.kept_values.specs.Shelved.{kept_at};
ghost use Rattle.kept_values.specs.Stale.{AreBrought};
ghost use Rattle.kept_values.specs.Work.{Rises};
ghost use Rattle.co_project.specs.Project.{Content};
ghost use Rattle.project_parts.specs.Given.{inputs_of, same_part};
ghost use Rattle.project_parts.specs.Made.{concise_made, dcf_made, plan_made, written_made};
ghost use Rattle.project_parts.specs.Reached.{parts_for, reached_by_trace, IsPart};
ghost use Rattle.kept_parts.specs.Kept.{kept_inputs, IsCurrent, IsOf};
ghost use Rattle.kept_parts.specs.Left.{left_of, IsSwept};

use crate::remembered::Remembered;
use base::{ListedBytes, ListedText, Shared};
use co_project::Project;
use image_parts::Roster;
use kept_values::{Memo, Meter, Shelf};
use part_shelves::{DeviceShelf, WindowShelf};
use pdo_plan::Plan;
use project_parts::{
    ConciseFrom, DcfFrom, DeviceAt, DeviceParts, DeviceWrites, Diagnostics, DiagnosticsFrom, Part,
    PlanFrom, RosterFrom, WritesFrom,
};
use std::alloc::{AllocError, Global};

/// The parts of a project that are kept, each with the inputs that it was made from, and a mark where these may be
/// others now.
#[derive(Drop)]
pub struct KeptParts {
    pub(crate) alloc: Global,
    pub(crate) devices: DeviceShelf,
    pub(crate) plan: Memo<PlanFrom, Shared<Plan>>,
    pub(crate) writes: Shelf<WritesFrom, DeviceWrites>,
    pub(crate) concise: Shelf<ConciseFrom, Shared<ListedBytes>>,
    pub(crate) dcf: Shelf<DcfFrom, Shared<ListedText>>,
    pub(crate) roster: Memo<RosterFrom, Shared<Roster>>,
    pub(crate) nodes: Shelf<DeviceAt, DeviceParts>,
    pub(crate) windows: WindowShelf,
    pub(crate) found: Memo<DiagnosticsFrom, Shared<Diagnostics>>,

    /// What diagnostics found before: no part, and of no answer.
    pub(crate) remembered: Remembered,

    /// Whether it is known that nothing is held of what the project doesn't have.
    pub(crate) swept: bool,
}

impl KeptParts {
    /// Nothing is kept: so it is of each project.
    pub fn new(alloc: Global) -> KeptParts
        ensures is_of { (p : Content) → IsOf p result }
        ensures swept { (p : Content) → IsSwept p result }
    {
        KeptParts {
            alloc,
            devices: DeviceShelf::new(alloc),
            plan: Memo::new(),
            writes: Shelf::new(alloc),
            concise: Shelf::new(alloc),
            dcf: Shelf::new(alloc),
            roster: Memo::new(),
            nodes: Shelf::new(alloc),
            windows: WindowShelf::new(alloc),
            found: Memo::new(),
            remembered: Remembered::new(alloc),
            swept: false,
        }
    }

    /// Lets go what is kept of names of EDS and of numbers of nodes that the project doesn't have. Then brings a
    /// part, and all that it is made from, up to date: a part whose inputs are others now is made anew, and the
    /// others stay. Want of memory is the only error; what is kept is then still of the project.
    ///
    /// A part without a mark costs the logarithm of the number of its kind, and of the numbers of nodes and of
    /// texts: what it is made from is not looked at. A marked one is compared with its inputs of now, the cheapest
    /// of them first, without memory, and costs what making it does where they differ; a marked plan walks the
    /// nodes, a marked window is made of the events, and compared by its steps, and marked diagnostics compare the
    /// projects once, the texts of EDS last. They are made by the plan and the devices that are kept: a text that no
    /// node is made from is read then, unless it is the one that was read for them before.
    pub fn refresh(
        &mut self,
        part: &Part,
        project: &Project,
        meter: &mut Meter,
    ) -> Result<(), AllocError>
        requires is_of { IsOf project.now self.old }
        requires swept { IsSwept project.now self.old }
        requires part { IsPart part.now }
        ensures is_of { IsOf project.now self.new }
        ensures swept { IsSwept project.now self.new }

        // These parts are held as they are to be made now, and exactly those are counted that were to be made.
        ensures brings { OnOk result (AreBrought same_part (inputs_of project.now) (parts_for project.now part.now)
            (left_of project.now self.old) (kept_inputs self.new) meter.old meter.new) }
        ensures current { OnOk result (kept_inputs self.new part.now ≡ inputs_of project.now part.now) }
        ensures rises { Rises meter.old meter.new }
    {
        self.let_go(project);
        let brought = self.bring(part, project, meter);
        self.swept = brought.is_ok();
        brought
    }

    /// Lets go what the project doesn't have, and brings all parts that a simulation reads up to date, as
    /// `refresh` does each. Want of memory is the only error; what is kept is then still of the project.
    pub fn refresh_all(&mut self, project: &Project, meter: &mut Meter) -> Result<(), AllocError>
        requires is_of { IsOf project.now self.old }
        requires swept { IsSwept project.now self.old }
        ensures is_of { IsOf project.now self.new }
        ensures swept { IsSwept project.now self.new }
        ensures brings { OnOk result (AreBrought same_part (inputs_of project.now) (reached_by_trace project.now)
            (left_of project.now self.old) (kept_inputs self.new) meter.old meter.new) }
        ensures current { OnOk result (IsCurrent project.now self.new) }
        ensures rises { Rises meter.old meter.new }
    {
        self.let_go(project);
        let brought = self.bring_all(project, meter);
        self.swept = brought.is_ok();
        brought
    }

    /// The plan of messages that is kept.
    pub fn plan(&self) -> Option<&Shared<Plan>>
        ensures { option_copied result ≡ option_map plan_made self.now.plan.kept }
    {
        self.plan.value()
    }

    /// The writes of a node that are kept, with its device.
    pub fn writes(&self, node: u8) -> Option<&DeviceWrites>
        ensures { option_copied result ≡ option_map written_made (kept_at self.now.writes node) }
    {
        self.writes.value(node)
    }

    /// The concise DCF (CiA 302) of a node that is kept, with the reply that shows it.
    pub fn concise(&self, node: u8) -> Option<&Shared<ListedBytes>>
        ensures { option_copied result ≡ option_map concise_made (kept_at self.now.concise node) }
    {
        self.concise.value(node)
    }

    /// The DCF (CiA 306) of a node that is kept, with the reply that shows it.
    pub fn dcf(&self, node: u8) -> Option<&Shared<ListedText>>
        ensures { option_copied result ≡ option_map dcf_made (kept_at self.now.dcf node) }
    {
        self.dcf.value(node)
    }

    /// The diagnostics that are kept, with the reply that shows their lines.
    pub fn diagnostics(&self) -> Option<&Shared<Diagnostics>>
        ensures { option_copied result ≡ option_map (λ f. diagnostics_of f.project) self.now.found.kept }
    {
        self.found.value()
    }
}
