//! A part, and all that a simulation reads, brought up to date.
ghost use Rattle.std.specs.Prelude.{OnOk};
ghost use Rattle.std.specs.FinMap.{entries};
ghost use Rattle.kept_values.specs.Stale.{AreBrought};
ghost use Rattle.kept_values.specs.Work.{Rises};
ghost use Rattle.network_image.specs.Devices.{HoldsDevices};
ghost use Rattle.project_parts.specs.Given.{inputs_of, same_part};
ghost use Rattle.project_parts.specs.Reached.{for_node, for_nodes, for_plan, parts_for, reached_by_trace, windows_below, IsPart};
ghost use Rattle.kept_parts.specs.Kept.{kept_inputs, AreHeld, IsOf};

use crate::kept_parts::KeptParts;
use co_project::Project;
use kept_values::Meter;
use network_image::{LAST_TIME, window_split};
use project_parts::Part;
use std::alloc::AllocError;

impl KeptParts {
    /// Brings the parts of a node up to date, where the plan is.
    fn bring_node(
        &mut self,
        project: &Project,
        node: u8,
        meter: &mut Meter,
    ) -> Result<(), AllocError>
        requires is_of { IsOf project.now self.old }
        requires plan { AreHeld project.now (for_plan project.now) self.old }
        ensures is_of { IsOf project.now self.new }
        ensures brings { OnOk result (AreBrought same_part (inputs_of project.now) (for_node node)
            (kept_inputs self.old) (kept_inputs self.new) meter.old meter.new) }
        ensures plan { OnOk result (AreHeld project.now (for_plan project.now) self.new) }
        ensures rises { Rises meter.old meter.new }
    {
        self.bring_writes(project, node, meter)?;
        self.bring_device_parts(project, node, meter)?;
        Ok(())
    }

    /// Brings the parts of all nodes up to date, where the plan is.
    fn bring_nodes(&mut self, project: &Project, meter: &mut Meter) -> Result<(), AllocError>
        requires is_of { IsOf project.now self.old }
        requires plan { AreHeld project.now (for_plan project.now) self.old }
        ensures is_of { IsOf project.now self.new }
        ensures brings { OnOk result (AreBrought same_part (inputs_of project.now) (for_nodes (entries project.now.nodes))
            (kept_inputs self.old) (kept_inputs self.new) meter.old meter.new) }
        ensures devices { OnOk result (HoldsDevices project.now self.new.devices) }
        ensures rises { Rises meter.old meter.new }
    {
        for (number, _node) in project.nodes() {
            self.bring_node(project, *number, meter)?;
        }
        Ok(())
    }

    /// Brings all windows up to date, where the devices of all nodes are. Walks the events once.
    fn bring_windows(&mut self, project: &Project, meter: &mut Meter) -> Result<(), AllocError>
        requires is_of { IsOf project.now self.old }
        requires devices { HoldsDevices project.now self.old.devices }
        ensures is_of { IsOf project.now self.new }
        ensures brings { OnOk result (AreBrought same_part (inputs_of project.now) (windows_below 1001)
            (kept_inputs self.old) (kept_inputs self.new) meter.old meter.new) }
        ensures rises { Rises meter.old meter.new }
    {
        let script = project.events();
        let moments = script.events_between(self.alloc, 0, LAST_TIME)?;
        let mut left = moments.as_slice();
        for i in 0..1001 {
            let (own, after) = window_split(script, left, u32::from(i));
            self.keep_window(project, i, own, meter)?;
            left = after;
        }
        Ok(())
    }

    /// Brings all parts that a simulation reads up to date.
    pub(crate) fn bring_all(
        &mut self,
        project: &Project,
        meter: &mut Meter,
    ) -> Result<(), AllocError>
        requires { IsOf project.now self.old }
        ensures is_of { IsOf project.now self.new }
        ensures brings { OnOk result (AreBrought same_part (inputs_of project.now) (reached_by_trace project.now)
            (kept_inputs self.old) (kept_inputs self.new) meter.old meter.new) }
        ensures rises { Rises meter.old meter.new }
    {
        self.bring_plan(project, meter)?;
        self.bring_roster(project, meter)?;
        self.bring_nodes(project, meter)?;
        self.bring_windows(project, meter)?;
        Ok(())
    }

    /// Brings a part, and all that it is built from, up to date.
    pub(crate) fn bring(
        &mut self,
        part: &Part,
        project: &Project,
        meter: &mut Meter,
    ) -> Result<(), AllocError>
        requires is_of { IsOf project.now self.old }
        requires part { IsPart part.now }
        ensures is_of { IsOf project.now self.new }
        ensures brings { OnOk result (AreBrought same_part (inputs_of project.now) (parts_for project.now part.now)
            (kept_inputs self.old) (kept_inputs self.new) meter.old meter.new) }
        ensures rises { Rises meter.old meter.new }
    {
        match part {
            Part::Device(name) => {
                self.bring_device(project, name.as_slice(), meter)?;
                Ok(())
            }
            Part::Plan => {
                self.bring_plan(project, meter)?;
                Ok(())
            }
            Part::Writes(node) => {
                self.bring_writes(project, *node, meter)?;
                Ok(())
            }
            Part::Concise(node) => self.bring_concise(project, *node, meter),
            Part::Dcf(node) => self.bring_dcf(project, *node, meter),
            Part::Roster => self.bring_roster(project, meter),
            Part::Node(node) => self.bring_device_parts(project, *node, meter),
            Part::Window(i) => self.bring_window(project, *i, meter),
            Part::Diagnostics => self.bring_diagnostics(project, meter),
        }
    }
}
