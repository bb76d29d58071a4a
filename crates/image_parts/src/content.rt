//! The content of a part.

ghost use Rattle.std.specs.Prelude.{◌≡◌, ◌↔◌, IsTrue};
ghost use Rattle.image_parts.specs.Contents.{RosterIs, DefaultsAre, ShapeIs, ExpectIs, BootIs, EventsAre};
ghost use Rattle.image_parts.specs.ContentView.{content_of};
ghost use Rattle.image_parts.specs.Shared.{value_behind};

use crate::comparing::{
    same_identity, same_roster, same_shape, same_values, same_window, same_write,
};
use crate::identity::Identity;
use crate::roster::Roster;
use crate::window::Window;
use co_dict::{Dict, Shape};
use concise_dcf::Write;
use std::marker::Model;
use std::rc::Rc;

#[derive(Drop)]
enum Handed {
    Roster(Option<Rc<Roster>>),
    Defaults(Option<Rc<Dict>>),
    Shape(Option<Rc<Shape>>),
    Expect(Option<Rc<Identity>>),
    Boot(Option<Rc<Write>>),
    Events(Option<Rc<Window>>),
}

/// Whether two contents are the same.
fn same_handed(handed: &Handed, other: &Handed) -> bool
    ensures { IsTrue result ↔ (content_of handed.now ≡ content_of other.now) }
{
    match (handed, other) {
        (Handed::Roster(roster), Handed::Roster(other)) => same_roster(roster, other),
        (Handed::Defaults(values), Handed::Defaults(other)) => same_values(values, other),
        (Handed::Shape(shape), Handed::Shape(other)) => same_shape(shape, other),
        (Handed::Expect(identity), Handed::Expect(other)) => same_identity(identity, other),
        (Handed::Boot(write), Handed::Boot(other)) => same_write(write, other),
        (Handed::Events(window), Handed::Events(other)) => same_window(window, other),
        _ => false,
    }
}

/// The content of a part, or none where the part is absent, as it was handed out.
#[derive(Drop)]
pub struct PartContent {
    handed: Handed,
}

impl Model for PartContent {
    ghost use Rattle.std.specs.Coded.{codes, coded_ℕ, coded_list, coded×};
    ghost use Rattle.std.specs.FinMap as map;
    ghost use Rattle.co_dict.specs.contracts.entry.Entry as described;
    ghost use Rattle.co_dict.specs.Places.{place_cmp};
    ghost use Rattle.co_dict.specs.Shapes.{shaped_code};
    ghost use Rattle.image_parts.specs.Contents.{Content};
    ghost use Rattle.image_parts.specs.ContentView.{content_of};

    ghost Value = { Content };

    ghost coded = { Prim.hlevel (
      codes,
      map.code {R = place_cmp} (coded× coded_ℕ coded_ℕ) (coded_list coded_ℕ),
      shaped_code described.the_row.coded,
    ) };

    ghost view = { λ content. content_of content.handed };
}

impl PartContent {
    /// The roster of a network.
    pub fn of_roster(roster: Option<Rc<Roster>>) -> PartContent
        ensures { result ≡ RosterIs (value_behind roster) }
    {
        PartContent {
            handed: Handed::Roster(roster),
        }
    }

    /// The default values of a node.
    pub fn of_defaults(values: Option<Rc<Dict>>) -> PartContent
        ensures { result ≡ DefaultsAre (value_behind values) }
    {
        PartContent {
            handed: Handed::Defaults(values),
        }
    }

    /// The shape of a node.
    pub fn of_shape(shape: Option<Rc<Shape>>) -> PartContent
        ensures { result ≡ ShapeIs (value_behind shape) }
    {
        PartContent {
            handed: Handed::Shape(shape),
        }
    }

    /// What is expected of a node.
    pub fn of_expect(identity: Option<Rc<Identity>>) -> PartContent
        ensures { result ≡ ExpectIs (value_behind identity) }
    {
        PartContent {
            handed: Handed::Expect(identity),
        }
    }

    /// A write of a node.
    pub fn of_boot(write: Option<Rc<Write>>) -> PartContent
        ensures { result ≡ BootIs (value_behind write) }
    {
        PartContent {
            handed: Handed::Boot(write),
        }
    }

    /// The events of a window.
    pub fn of_events(window: Option<Rc<Window>>) -> PartContent
        ensures { result ≡ EventsAre (value_behind window) }
    {
        PartContent {
            handed: Handed::Events(window),
        }
    }

    /// Whether the other content is that of the same kind of part, and the same. Takes time by its length up to the
    /// first difference, and no memory.
    pub fn same(&self, other: &PartContent) -> bool
        ensures { IsTrue result ↔ (self.now ≡ other.now) }
    {
        same_handed(&self.handed, &other.handed)
    }
}
