//! What else a simulation reads, brought up to date, each part after what it is made from.
ghost use Rattle.std.specs.Prelude.{◌≡◌, ◌≤◌, ◌+◌, ◌*◌, ◌∷◌, ◌++◌, [], OnOk, IfOk, option_map};
ghost use Rattle.std.specs.Option.{option_map_or};
ghost use Rattle.kept_values.specs.Stale.{AreBrought};
ghost use Rattle.kept_values.specs.Work.{Rises};
ghost use Rattle.co_scenario.specs.Scenario.{events_between};
ghost use Rattle.network_image.specs.Devices.{HoldsDevices};
ghost use Rattle.project_parts.specs.Given.{device_from, inputs_of, own_given, same_part};
ghost use Rattle.project_parts.specs.Reached.{for_own, own_device, parts_for, IsPart};
ghost use Rattle.kept_parts.specs.Kept.{kept_inputs, IsOf};

use crate::kept_parts::KeptParts;
use base::Shared;
use co_project::Project;
use eds_device::DataSheet;
use image_parts::WINDOW;
use kept_values::Meter;
use network_image::window_steps;
use project_parts::{DeviceAt, Part, RosterNow};
use project_plan::NodeWrites;
use std::alloc::AllocError;

/// A device with the number of its node, and the writes that this holds by itself.
fn device_at(
    device: Option<Shared<DataSheet>>,
    node: u8,
    own: Option<Shared<NodeWrites>>,
) -> Option<DeviceAt>
    ensures { result ≡ option_map (λ d. record { device = d; node = node; own = own }) device }
{
    let device = device?;
    Some(DeviceAt { device, node, own })
}

/// The same node with this device in place of its own, if there is one.
fn with_device(now: DeviceAt, device: Option<Shared<DataSheet>>) -> DeviceAt
    ensures { result ≡ option_map_or (λ d. record now { device = d }) device now }
{
    match device {
        Some(device) => DeviceAt {
            device,
            node: now.node,
            own: now.own,
        },
        None => now,
    }
}

impl KeptParts {
    /// Brings the roster up to date.
    pub(crate) fn bring_roster(
        &mut self,
        project: &Project,
        meter: &mut Meter,
    ) -> Result<(), AllocError>
        requires { IsOf project.now self.old }
        ensures is_of { IsOf project.now self.new }
        ensures brings { OnOk result (AreBrought same_part (inputs_of project.now) (Part.Roster ∷ [])
            (kept_inputs self.old) (kept_inputs self.new) meter.old meter.new) }
        ensures rises { Rises meter.old meter.new }
    {
        self.roster.bring(self.alloc, RosterNow { project }, meter)?;
        Ok(())
    }

    /// Brings the writes of a node up to date, and shares them, where the manager runs in it.
    fn bring_own_writes(
        &mut self,
        project: &Project,
        node: u8,
        meter: &mut Meter,
    ) -> Result<Option<Shared<NodeWrites>>, AllocError>
        requires { IsOf project.now self.old }
        ensures is_of { IsOf project.now self.new }
        ensures brings { OnOk result (AreBrought same_part (inputs_of project.now) (for_own project.now node)
            (kept_inputs self.old) (kept_inputs self.new) meter.old meter.new) }
        ensures value { IfOk result (λ own. own ≡ own_given project.now node) }
        ensures rises { Rises meter.old meter.new }
    {
        if !project.is_controller(node) {
            return Ok(None);
        }
        let Some(written) = self.bring_writes(project, node, meter)? else {
            return Ok(None);
        };
        Ok(Some(written.into_writes()))
    }

    /// Brings the device of a node up to date, and its writes where the manager runs in it, and shares them with its
    /// number.
    fn bring_numbered(
        &mut self,
        project: &Project,
        node: u8,
        meter: &mut Meter,
    ) -> Result<Option<DeviceAt>, AllocError>
        requires { IsOf project.now self.old }
        ensures is_of { IsOf project.now self.new }
        ensures brings { OnOk result (AreBrought same_part (inputs_of project.now)
            (for_own project.now node ++ own_device project.now node)
            (kept_inputs self.old) (kept_inputs self.new) meter.old meter.new) }
        ensures value { IfOk result (λ d. d ≡ device_from project.now node) }
        ensures rises { Rises meter.old meter.new }
    {
        let own = self.bring_own_writes(project, node, meter)?;
        let device = self.bring_own_device(project, node, meter)?;
        Ok(device_at(device, node, own))
    }

    /// The device of a node with its number, with what it has alike at every node, to build from.
    fn with_common(
        &mut self,
        project: &Project,
        node: u8,
        now: Option<DeviceAt>,
    ) -> Result<Option<DeviceAt>, AllocError>
        requires is_of { IsOf project.now self.old }
        requires now { now ≡ device_from project.now node }
        ensures same { self.new ≡ self.old }
        ensures value { IfOk result (λ d. d ≡ device_from project.now node) }
    {
        let Some(known) = project.node(node) else {
            return Ok(now);
        };
        let Some(now) = now else {
            return Ok(None);
        };
        let name = known.eds.as_slice();
        let found = self.common_device_of_now(project, name)?;
        Ok(Some(with_device(now, found)))
    }

    /// Brings what a node has by its device up to date.
    pub(crate) fn bring_device_parts(
        &mut self,
        project: &Project,
        node: u8,
        meter: &mut Meter,
    ) -> Result<(), AllocError>
        requires { IsOf project.now self.old }
        ensures is_of { IsOf project.now self.new }
        ensures brings { OnOk result (AreBrought same_part (inputs_of project.now)
            (parts_for project.now (Part.Node node)) (kept_inputs self.old) (kept_inputs self.new) meter.old meter.new) }
        ensures rises { Rises meter.old meter.new }
    {
        let now = self.bring_numbered(project, node, meter)?;
        if self.nodes.settle(node, &now) {
            return Ok(());
        }
        let now = self.with_common(project, node, now)?;
        self.nodes.build(self.alloc, node, now, meter)?;
        Ok(())
    }

    /// Brings a window with these events up to date, where the devices of all nodes are.
    pub(crate) fn keep_window(
        &mut self,
        project: &Project,
        i: u16,
        moments: &[(u32, u16)],
        meter: &mut Meter,
    ) -> Result<(), AllocError>
        requires is_of { IsOf project.now self.old }
        requires number { i ≤ 1000 }
        requires devices { HoldsDevices project.now self.old.devices }
        requires moments { moments.now ≡ events_between (10000 * i) (10000 * i + 9999) project.now.events }
        ensures is_of { IsOf project.now self.new }
        ensures brings { OnOk result (AreBrought same_part (inputs_of project.now) (Part.Window i ∷ [])
            (kept_inputs self.old) (kept_inputs self.new) meter.old meter.new) }
        ensures devices { self.new.devices ≡ self.old.devices }
        ensures rises { Rises meter.old meter.new }
    {
        if self.windows.is_fresh(i) {
            return Ok(());
        }
        let steps = window_steps(self.alloc, &self.devices, project, i, moments)?;
        self.windows.keep(self.alloc, i, steps, meter)?;
        Ok(())
    }

    /// Brings a window up to date, where the devices of all nodes are. Without a mark it walks no events.
    fn bring_own_window(
        &mut self,
        project: &Project,
        i: u16,
        meter: &mut Meter,
    ) -> Result<(), AllocError>
        requires is_of { IsOf project.now self.old }
        requires number { i ≤ 1000 }
        requires devices { HoldsDevices project.now self.old.devices }
        ensures is_of { IsOf project.now self.new }
        ensures brings { OnOk result (AreBrought same_part (inputs_of project.now) (Part.Window i ∷ [])
            (kept_inputs self.old) (kept_inputs self.new) meter.old meter.new) }
        ensures rises { Rises meter.old meter.new }
    {
        if self.windows.is_fresh(i) {
            return Ok(());
        }
        let first = WINDOW as u32 * u32::from(i);
        let moments = project
            .events()
            .events_between(self.alloc, first, first + 9999)?;
        self.keep_window(project, i, moments.as_slice(), meter)?;
        Ok(())
    }

    /// Brings the devices of all nodes, and then a window up to date.
    pub(crate) fn bring_window(
        &mut self,
        project: &Project,
        i: u16,
        meter: &mut Meter,
    ) -> Result<(), AllocError>
        requires is_of { IsOf project.now self.old }
        requires number { i ≤ 1000 }
        ensures is_of { IsOf project.now self.new }
        ensures brings { OnOk result (AreBrought same_part (inputs_of project.now)
            (parts_for project.now (Part.Window i)) (kept_inputs self.old) (kept_inputs self.new) meter.old meter.new) }
        ensures rises { Rises meter.old meter.new }
    {
        self.bring_devices(project, meter)?;
        self.bring_own_window(project, i, meter)?;
        Ok(())
    }
}
