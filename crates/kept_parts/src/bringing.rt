//! What the files are made of, brought up to date, each part after what it is made from.
ghost use Rattle.std.specs.Prelude.{◌≡◌, ◌∷◌, [], true, OnOk, IfOk, Some, is_some, option_map, option_and_then};
ghost use Rattle.std.specs.Prelude.{filter_map};
ghost use Rattle.std.specs.FinMap as finmap;
ghost use Rattle.kept_values.specs.Stale.{AreBrought};
ghost use Rattle.kept_values.specs.Work.{Rises};
ghost use Rattle.co_project.specs.Tables.{node_at, text_at};
ghost use Rattle.project_parts.specs.Given.{inputs_of, node_with_device, plan_from, same_part, writes_from};
ghost use Rattle.project_plan.specs.Network.{device_at};
ghost use Rattle.project_parts.specs.Made.{plan_made, written_made};
ghost use Rattle.project_parts.specs.Reached.{for_plan, for_writes, of_nodes, own_device, parts_for};
ghost use Rattle.kept_parts.specs.Kept.{is_unmarked, kept_inputs, HaveNoMark, IsOf};

use crate::kept_parts::KeptParts;
use base::{Shared, share_of};
use co_project::Project;
use eds_device::DataSheet;
use kept_values::Meter;
use pdo_plan::Plan;
use project_parts::{
    ConciseNow, DcfNow, DeviceWrites, NodeDevices, Part, PlanNow, WritesNow, share_written,
};
use project_plan::Named;
use std::alloc::AllocError;

/// Whether the plan reads all that the device of a node has: in version 3 always, before it where a message names the node.
fn reads_all(project: &Project, named: &Named, node: u8) -> bool {
    project.version().is_three() || named.contains(node)
}

impl KeptParts {
    /// Brings the device of an EDS up to date, and shares it.
    pub(crate) fn bring_device(
        &mut self,
        project: &Project,
        name: &[u8],
        meter: &mut Meter,
    ) -> Result<Option<Shared<DataSheet>>, AllocError>
        requires { IsOf project.now self.old }
        ensures is_of { IsOf project.now self.new }
        ensures brings { OnOk result (AreBrought same_part (inputs_of project.now) (Part.Device name.now ∷ [])
            (kept_inputs self.old) (kept_inputs self.new) meter.old meter.new) }
        ensures value { IfOk result (λ d. d ≡ device_at project.now name.now) }
        ensures unmarked { OnOk result (is_unmarked self.new (Part.Device name.now)
            ≡ is_some (text_at project.now.texts name.now)) }
        ensures stays { (q : Part) → is_unmarked self.old q ≡ true → is_unmarked self.new q ≡ true }
        ensures rises { Rises meter.old meter.new }
    {
        self.devices.bring(self.alloc, project, name, meter)?;
        let device = share_of(self.devices.value(name))?;
        Ok(device)
    }

    /// Brings the devices of all nodes up to date, and lists them. Takes memory by
    /// their number; want of memory is the only error.
    pub(crate) fn bring_devices(
        &mut self,
        project: &Project,
        meter: &mut Meter,
    ) -> Result<NodeDevices, AllocError>
        requires { IsOf project.now self.old }
        ensures is_of { IsOf project.now self.new }
        ensures brings { OnOk result (AreBrought same_part (inputs_of project.now) (of_nodes project.now)
            (kept_inputs self.old) (kept_inputs self.new) meter.old meter.new) }
        ensures value { IfOk result (λ d. d ≡ filter_map (node_with_device project.now) (finmap.entries project.now.nodes)) }
        ensures unmarked { OnOk result (HaveNoMark self.new (of_nodes project.now)) }
        ensures rises { Rises meter.old meter.new }
    {
        project.keeps_to_rules();
        let mut devices = NodeDevices::new(self.alloc);
        for (number, node) in project.nodes() {
            let device = self.bring_device(project, node.eds.as_slice(), meter)?;
            devices.push(*number, device)?;
        }
        Ok(devices)
    }

    /// The devices of all nodes, where none has a mark: those that the plan reads whole with what they have alike at
    /// every node.
    fn devices_for_plan(&mut self, project: &Project) -> Result<NodeDevices, AllocError>
        requires is_of { IsOf project.now self.old }
        requires unmarked { HaveNoMark self.old (of_nodes project.now) }
        ensures same { self.new ≡ self.old }
        ensures value { IfOk result (λ d. d ≡ filter_map (node_with_device project.now) (finmap.entries project.now.nodes)) }
    {
        let named = Named::by(project.messages());
        let mut devices = NodeDevices::new(self.alloc);
        for (number, node) in project.nodes() {
            let name = node.eds.as_slice();
            let many = reads_all(project, &named, *number);
            let device = self.devices.shared(self.alloc, name, many)?;
            devices.push(*number, device)?;
        }
        Ok(devices)
    }

    /// Builds the plan anew, where the devices of all nodes have no mark.
    fn build_plan(&mut self, project: &Project, meter: &mut Meter) -> Result<(), AllocError>
        requires is_of { IsOf project.now self.old }
        requires unmarked { HaveNoMark self.old (of_nodes project.now) }
        requires stale { self.old.plan.kept ≡ Some (plan_from project.now) → ⊥ }
        ensures is_of { IsOf project.now self.new }
        ensures brings { OnOk result (AreBrought same_part (inputs_of project.now) (Part.Plan ∷ [])
            (kept_inputs self.old) (kept_inputs self.new) meter.old meter.new) }
        ensures kept { OnOk result (self.new.plan.kept ≡ Some (plan_from project.now)) }
        ensures rises { Rises meter.old meter.new }
    {
        let devices = self.devices_for_plan(project)?;
        let now = PlanNow::of(project, devices);
        self.plan.build(self.alloc, now, meter)?;
        Ok(())
    }

    /// Brings the plan up to date after the devices of all nodes. Where it has no mark nothing is looked at.
    fn settle_plan(&mut self, project: &Project, meter: &mut Meter) -> Result<(), AllocError>
        requires { IsOf project.now self.old }
        ensures is_of { IsOf project.now self.new }
        ensures brings { OnOk result (AreBrought same_part (inputs_of project.now) (for_plan project.now)
            (kept_inputs self.old) (kept_inputs self.new) meter.old meter.new) }
        ensures kept { OnOk result (self.new.plan.kept ≡ Some (plan_from project.now)) }
        ensures rises { Rises meter.old meter.new }
    {
        if self.plan.is_fresh() {
            return Ok(());
        }
        let devices = self.bring_devices(project, meter)?;
        let now = PlanNow::of(project, devices);
        if self.plan.settle(&now) {
            return Ok(());
        }
        self.build_plan(project, meter)?;
        Ok(())
    }

    /// Brings the plan up to date, and shares it.
    pub(crate) fn bring_plan(
        &mut self,
        project: &Project,
        meter: &mut Meter,
    ) -> Result<Shared<Plan>, AllocError>
        requires { IsOf project.now self.old }
        ensures is_of { IsOf project.now self.new }
        ensures brings { OnOk result (AreBrought same_part (inputs_of project.now) (for_plan project.now)
            (kept_inputs self.old) (kept_inputs self.new) meter.old meter.new) }
        ensures value { IfOk result (λ p. p ≡ plan_made (plan_from project.now)) }
        ensures rises { Rises meter.old meter.new }
    {
        self.settle_plan(project, meter)?;
        let Some(plan) = share_of(self.plan.value())? else {
            unreachable!();
        };
        Ok(plan)
    }

    /// Brings the device of a node up to date, and shares it. Want of memory is the only error.
    pub(crate) fn bring_own_device(
        &mut self,
        project: &Project,
        node: u8,
        meter: &mut Meter,
    ) -> Result<Option<Shared<DataSheet>>, AllocError>
        requires { IsOf project.now self.old }
        ensures is_of { IsOf project.now self.new }
        ensures brings { OnOk result (AreBrought same_part (inputs_of project.now) (own_device project.now node)
            (kept_inputs self.old) (kept_inputs self.new) meter.old meter.new) }
        ensures value { IfOk result (λ d. d
            ≡ option_and_then (λ n. device_at project.now n.eds) (node_at project.now.nodes node)) }
        ensures rises { Rises meter.old meter.new }
    {
        match project.node(node) {
            Some(known) => {
                let device = self.bring_device(project, known.eds.as_slice(), meter)?;
                Ok(device)
            }
            None => Ok(None),
        }
    }

    /// Brings the writes of a node up to date, and shares them with its device.
    pub(crate) fn bring_writes(
        &mut self,
        project: &Project,
        node: u8,
        meter: &mut Meter,
    ) -> Result<Option<DeviceWrites>, AllocError>
        requires { IsOf project.now self.old }
        ensures is_of { IsOf project.now self.new }
        ensures brings { OnOk result (AreBrought same_part (inputs_of project.now) (for_writes project.now node)
            (kept_inputs self.old) (kept_inputs self.new) meter.old meter.new) }
        ensures value { IfOk result (λ w. w ≡ option_map written_made (writes_from project.now node)) }
        ensures rises { Rises meter.old meter.new }
    {
        let plan = self.bring_plan(project, meter)?;
        let device = self.bring_own_device(project, node, meter)?;
        let now = WritesNow::of(project, node, plan, device);
        self.writes.bring(self.alloc, node, now, meter)?;
        let written = share_written(self.writes.value(node))?;
        Ok(written)
    }

    /// Brings the concise DCF of a node up to date.
    pub(crate) fn bring_concise(
        &mut self,
        project: &Project,
        node: u8,
        meter: &mut Meter,
    ) -> Result<(), AllocError>
        requires { IsOf project.now self.old }
        ensures is_of { IsOf project.now self.new }
        ensures brings { OnOk result (AreBrought same_part (inputs_of project.now) (parts_for project.now (Part.Concise node))
            (kept_inputs self.old) (kept_inputs self.new) meter.old meter.new) }
        ensures rises { Rises meter.old meter.new }
    {
        let written = self.bring_writes(project, node, meter)?;
        let now = ConciseNow::of(written);
        self.concise.bring(self.alloc, node, now, meter)?;
        Ok(())
    }

    /// Brings the DCF of a node up to date.
    pub(crate) fn bring_dcf(
        &mut self,
        project: &Project,
        node: u8,
        meter: &mut Meter,
    ) -> Result<(), AllocError>
        requires { IsOf project.now self.old }
        ensures is_of { IsOf project.now self.new }
        ensures brings { OnOk result (AreBrought same_part (inputs_of project.now) (parts_for project.now (Part.Dcf node))
            (kept_inputs self.old) (kept_inputs self.new) meter.old meter.new) }
        ensures rises { Rises meter.old meter.new }
    {
        let written = self.bring_writes(project, node, meter)?;
        let now = DcfNow::of(project, node, written);
        if self.dcf.settle(node, &now) {
            return Ok(());
        }
        let template = self.template_of_now(project, node)?;
        let now = DcfNow::with_template(now, template);
        self.dcf.build(self.alloc, node, now, meter)?;
        Ok(())
    }
}
