//! The parts of a network.
ghost use Rattle.std.specs.FinMap as map;
ghost use Rattle.std.specs.Prelude.{◌≡◌, ◌<◌, ℕ, IfOk, IfSome, option_map};
ghost use Rattle.std.specs.List.{AllByRecursion};
ghost use Rattle.image_parts.specs.Contents.{BootIs, DefaultsAre, EventsAre, ExpectIs, RosterIs, ShapeIs};
ghost use Rattle.image_parts.specs.Images.{AreInOrder, greatest_place, IsRoster, IsWithin};
ghost use Rattle.concise_dcf.specs.Writes.{IsSized};
ghost use Rattle.image_parts.specs.Shared.{value_behind};
ghost use Rattle.image_parts.specs.declared.part.Part.TheVariants as part;
ghost use Rattle.project_plan.specs.Network.{member_at};
ghost use Rattle.network_image.specs.Image.{image_of, roster_of_project, window_steps};
ghost use Rattle.network_image.specs.Held.{held_of};
ghost use Rattle.network_image.specs.Network.{image_held};
ghost use Rattle.network_image.specs.Steps.{unless_none};

use crate::node_table::NodeTable;
use crate::pointer::some_pointer;
use crate::window_table::WindowTable;
use co_dict::{Dict, Shape};
use co_project::Project;
use concise_dcf::Write;
use image_parts::{Identity, Roster, Window};
use std::alloc::{AllocError, Global};
use std::marker::Model;
use std::rc::Rc;

/// The parts of a project's network, each shared with those who hold it too.
///
/// A look-up takes time by the logarithm of the number of nodes or of windows, and no memory: the only
/// error is that the count of pointers to a part is full.
#[derive(Drop)]
pub struct NetworkParts {
    roster: Rc<Roster>,
    nodes: NodeTable,
    windows: WindowTable,
}

impl Model for NetworkParts {
    ghost use Rattle.image_parts.specs.contracts.roster.Roster as listed;
    ghost use Rattle.image_parts.specs.Images.{IsRoster};
    ghost use Rattle.network_image.specs.contracts.node_table.NodeTable as table;
    ghost use Rattle.network_image.specs.contracts.window_table.WindowTable as timed;
    ghost use Rattle.network_image.specs.Network.{network_code, Network};

    ghost Value = { Network };

    ghost coded = { network_code listed.the_row.coded table.the_row.coded timed.the_row.coded };

    ghost view = { λ parts. record { roster = parts.roster.value; nodes = parts.nodes; windows = parts.windows } };

    ghost invariant = { λ parts. IsRoster parts.roster.value };
}

impl NetworkParts {
    /// The parts of a project, which others may hold too: its roster, the parts of each of its nodes, and
    /// its windows with steps.
    pub fn from_shared(
        project: &Project,
        roster: Rc<Roster>,
        nodes: NodeTable,
        windows: WindowTable,
    ) -> NetworkParts
        requires roster { roster.value ≡ roster_of_project project.now }
        requires nodes { (id : ℕ) → map.get nodes id ≡ option_map (held_of project.now id) (member_at project.now id) }
        requires windows { (i : ℕ) → map.get windows i
            ≡ unless_none (window_steps project.now i) }
        ensures { image_held result ≡ image_of project.now }
    {
        project.keeps_to_rules();
        NetworkParts {
            roster,
            nodes,
            windows,
        }
    }

    /// Bit rate, manager and nodes: numbers within their limits.
    pub fn roster(&self) -> Result<Option<Rc<Roster>>, AllocError>
        ensures value { IfOk result (λ r. image_held self.now part.Roster ≡ RosterIs (value_behind r)) }
        ensures fits { IfOk result (λ r. IfSome (value_behind r) IsRoster) }
    {
        some_pointer(&self.roster)
    }

    /// The values that a node takes at power-on and reset, or none.
    pub fn defaults(&self, node: u8) -> Result<Option<Rc<Dict>>, AllocError>
        ensures { IfOk result (λ r. image_held self.now (part.Defaults node) ≡ DefaultsAre (value_behind r)) }
    {
        self.nodes.defaults(node)
    }

    /// The entries of a node, or none.
    pub fn shape(&self, node: u8) -> Result<Option<Rc<Shape>>, AllocError>
        ensures { IfOk result (λ r. image_held self.now (part.Shape node) ≡ ShapeIs (value_behind r)) }
    {
        self.nodes.shape(node)
    }

    /// What is expected of a node, or none.
    pub fn expect(&self, node: u8) -> Result<Option<Rc<Identity>>, AllocError>
        ensures { IfOk result (λ r. image_held self.now (part.Expect node) ≡ ExpectIs (value_behind r)) }
    {
        self.nodes.expect(node)
    }

    /// A copy of the write of a node's concise DCF with this number, from 0, or none: its data has 1 to 512
    /// bytes, and its number isn't the greatest.
    pub fn write(
        &self,
        alloc: Global,
        node: u8,
        place: u32,
    ) -> Result<Option<Rc<Write>>, AllocError>
        ensures value { IfOk result (λ r. image_held self.now (part.Boot node place) ≡ BootIs (value_behind r)) }
        ensures fits { IfOk result (λ r. IfSome (value_behind r) IsSized) }
        ensures last { IfOk result (λ r. IfSome (value_behind r) (λ write. place < greatest_place)) }
    {
        self.nodes.write(alloc, node, place)
    }

    /// The events of window i, or none, by time and then by number: each has its time there, and sets no
    /// object of a PDO and no value of more than 512 bytes.
    pub fn window(&self, i: u32) -> Result<Option<Rc<Window>>, AllocError>
        ensures value { IfOk result (λ r. image_held self.now (part.Events i) ≡ EventsAre (value_behind r)) }
        ensures fits { IfOk result (λ r. IfSome (value_behind r) (AllByRecursion (IsWithin i))) }
        ensures ordered { IfOk result (λ r. IfSome (value_behind r) AreInOrder) }
    {
        self.windows.window(i)
    }
}
