//! The network of a project, by pointers to what is kept of it.
ghost use Rattle.std.specs.Prelude.{◌≡◌, ◌≤◌, ◌∷◌, [], ℕ, IfOk, OnOk, option_map};
ghost use Rattle.std.specs.FinMap as map;
ghost use Rattle.project_plan.specs.Network.{member_at};
ghost use Rattle.network_image.specs.Held.{held_of, with_steps};
ghost use Rattle.network_image.specs.Image.{image_of, roster_of_project, window_steps};
ghost use Rattle.network_image.specs.Network.{image_held};
ghost use Rattle.network_image.specs.Steps.{unless_none};
ghost use Rattle.project_parts.specs.Reached.{for_node};
ghost use Rattle.kept_parts.specs.Kept.{with_parts, AreHeld, IsCurrent};

use crate::kept_parts::KeptParts;
use co_project::Project;
use image_parts::Roster;
use network_image::{NetworkParts, NodeParts, NodeTable, WindowTable};
use project_parts::Part;
use std::alloc::AllocError;
use std::rc::Rc;

impl KeptParts {
    /// The parts of a node, if it is there with its device.
    fn node_parts(&self, project: &Project, id: u8) -> Result<Option<NodeParts>, AllocError>
        requires { AreHeld project.now (for_node id) self.now }
        ensures { IfOk result (λ parts. parts ≡ option_map (held_of project.now id) (member_at project.now id)) }
    {
        let _ = project;
        let Some(node) = self.nodes.value(id) else {
            return Ok(None);
        };
        let Some(written) = self.writes.value(id) else {
            return Ok(None);
        };
        let defaults = node.defaults.pointer()?;
        let shape = node.shape.pointer()?;
        let expect = node.expect.pointer()?;
        let writes = written.writes().pointer()?;
        Ok(Some(NodeParts::from_shared(defaults, shape, expect, writes)))
    }

    /// Adds the parts of a node, if it is there with its device.
    fn add_node(&self, table: &mut NodeTable, project: &Project, id: u8) -> Result<(), AllocError>
        requires { AreHeld project.now (for_node id) self.now }
        ensures { OnOk result (table.new ≡ with_parts id
            (option_map (held_of project.now id) (member_at project.now id))
            table.old) }
    {
        if let Some(parts) = self.node_parts(project, id)? {
            table.insert(id, parts)?;
        }
        Ok(())
    }

    /// The parts of all nodes.
    fn node_table(&self, project: &Project) -> Result<NodeTable, AllocError>
        requires { IsCurrent project.now self.now }
        ensures { IfOk result (λ nodes. (id : ℕ)
            → map.get nodes id ≡ option_map (held_of project.now id) (member_at project.now id)) }
    {
        let mut table = NodeTable::new(self.alloc);
        for (id, _node) in project.nodes() {
            self.add_node(&mut table, project, *id)?;
        }
        Ok(table)
    }

    /// Adds a window, if it has steps; else takes constant time.
    fn add_window(
        &self,
        table: &mut WindowTable,
        project: &Project,
        i: u16,
    ) -> Result<(), AllocError>
        requires number { i ≤ 1000 }
        requires held { AreHeld project.now (Part.Window i ∷ []) self.now }
        ensures { OnOk result (table.new ≡ with_steps i (window_steps project.now i) table.old) }
    {
        if !self.windows.has_steps(i) {
            return Ok(());
        }
        project.keeps_to_rules();
        let Some(window) = self.windows.value(i) else {
            unreachable!();
        };
        let window = window.pointer()?;
        table.add_shared(u32::from(i), window)?;
        Ok(())
    }

    /// All windows that have steps. Takes constant time for each of the others.
    fn window_table(&self, project: &Project) -> Result<WindowTable, AllocError>
        requires { IsCurrent project.now self.now }
        ensures { IfOk result (λ windows. (i : ℕ) → map.get windows i ≡ unless_none (window_steps project.now i)) }
    {
        project.keeps_to_rules();
        let mut table = WindowTable::new(self.alloc);
        for i in 0..1001 {
            self.add_window(&mut table, project, i)?;
        }
        Ok(table)
    }

    /// A pointer to the roster.
    fn roster_pointer(&self, project: &Project) -> Result<Rc<Roster>, AllocError>
        requires { AreHeld project.now (Part.Roster ∷ []) self.now }
        ensures { IfOk result (λ roster. roster.value ≡ roster_of_project project.now) }
    {
        let _ = project;
        let Some(roster) = self.roster.value() else {
            unreachable!();
        };
        let roster = roster.pointer()?;
        Ok(roster)
    }

    /// The network of a project, by pointers to what is kept of it: all parts that a simulation reads must
    /// be held as they are to be made now. Takes time by the number of nodes, of their writes and of
    /// windows with steps, each with its logarithm, and memory for the tables and the writes; a window
    /// without steps is passed over in constant time. Want of memory is the only error.
    pub fn network(&self, project: &Project) -> Result<NetworkParts, AllocError>
        requires { IsCurrent project.now self.now }
        ensures { IfOk result (λ n. image_held n ≡ image_of project.now) }
    {
        let roster = self.roster_pointer(project)?;
        let nodes = self.node_table(project)?;
        let windows = self.window_table(project)?;
        Ok(NetworkParts::from_shared(project, roster, nodes, windows))
    }
}
