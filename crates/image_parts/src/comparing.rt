//! Whether what was handed out is the same.

ghost use Rattle.std.specs.Prelude.{◌≡◌, ◌↔◌, IsTrue};
ghost use Rattle.image_parts.specs.Shared.{value_behind};

use crate::identity::Identity;
use crate::roster::Roster;
use crate::window::Window;
use co_dict::{Dict, Shape};
use concise_dcf::Write;
use std::rc::Rc;

/// Whether the same roster was handed out, or none.
pub(crate) fn same_roster(roster: &Option<Rc<Roster>>, other: &Option<Rc<Roster>>) -> bool
    ensures { IsTrue result ↔ (value_behind roster.now ≡ value_behind other.now) }
{
    match (roster, other) {
        (None, None) => true,
        (Some(roster), Some(other)) => roster.same(other),
        _ => false,
    }
}

/// Whether the same values were handed out, or none.
pub(crate) fn same_values(values: &Option<Rc<Dict>>, other: &Option<Rc<Dict>>) -> bool
    ensures { IsTrue result ↔ (value_behind values.now ≡ value_behind other.now) }
{
    match (values, other) {
        (None, None) => true,
        (Some(values), Some(other)) => values.same(other),
        _ => false,
    }
}

/// Whether the same shape was handed out, or none.
pub(crate) fn same_shape(shape: &Option<Rc<Shape>>, other: &Option<Rc<Shape>>) -> bool
    ensures { IsTrue result ↔ (value_behind shape.now ≡ value_behind other.now) }
{
    match (shape, other) {
        (None, None) => true,
        (Some(shape), Some(other)) => shape.same(other),
        _ => false,
    }
}

/// Whether the same identity was handed out, or none.
pub(crate) fn same_identity(identity: &Option<Rc<Identity>>, other: &Option<Rc<Identity>>) -> bool
    ensures { IsTrue result ↔ (value_behind identity.now ≡ value_behind other.now) }
{
    match (identity, other) {
        (None, None) => true,
        (Some(identity), Some(other)) => identity.same(other),
        _ => false,
    }
}

/// Whether the same write was handed out, or none.
pub(crate) fn same_write(write: &Option<Rc<Write>>, other: &Option<Rc<Write>>) -> bool
    ensures { IsTrue result ↔ (value_behind write.now ≡ value_behind other.now) }
{
    match (write, other) {
        (None, None) => true,
        (Some(write), Some(other)) => write.same(other),
        _ => false,
    }
}

/// Whether the same events were handed out, or none.
pub(crate) fn same_window(window: &Option<Rc<Window>>, other: &Option<Rc<Window>>) -> bool
    ensures { IsTrue result ↔ (value_behind window.now ≡ value_behind other.now) }
{
    match (window, other) {
        (None, None) => true,
        (Some(window), Some(other)) => window.same(other),
        _ => false,
    }
}
