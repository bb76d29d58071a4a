//! The steps of windows by number.
ghost use Rattle.std.specs.Prelude.{◌≡◌, IfOk, IfSome, OnOk, option_copied};
ghost use Rattle.std.specs.FinMap as map;
ghost use Rattle.std.specs.List.{AllByRecursion};
ghost use Rattle.network_image.specs.Held.{with_steps, IsWindow};
ghost use Rattle.image_parts.specs.Images.{AreInOrder, IsWithin};
ghost use Rattle.image_parts.specs.Shared.{value_behind};

use crate::held_window::HeldWindow;
use image_parts::Window;
use std::alloc::{AllocError, Global};
use std::collections::BTreeMap;
use std::marker::Model;
use std::rc::Rc;

/// The steps of windows by number; a window without steps isn't there. A look-up takes time by the
/// logarithm of the number of windows.
#[derive(Drop)]
pub struct WindowTable {
    windows: BTreeMap<u32, HeldWindow>,
}

impl Model for WindowTable {
    ghost use Rattle.std.specs.Coded.{coded_ℕ};
    ghost use Rattle.std.specs.FinMap as map;
    ghost use Rattle.std.specs.Ordering.{nat_cmp};
    ghost use Rattle.base.specs.Tables.{Each};
    ghost use Rattle.network_image.specs.Held.{IsWindow, Windows};
    ghost use Rattle.network_image.specs.contracts.held_window.HeldWindow as held;

    ghost Value = { Windows };

    ghost coded = { map.code coded_ℕ held.the_row.coded };

    ghost view = { λ table. map.from_entries table.windows.entries };

    ghost invariant = { λ table. Each {R = nat_cmp} IsWindow (map.from_entries table.windows.entries) };
}

impl WindowTable {
    /// No windows.
    pub fn new(alloc: Global) -> WindowTable
        ensures { result ≡ map.empty }
    {
        WindowTable {
            windows: BTreeMap::new(alloc),
        }
    }

    fn insert(&mut self, i: u32, window: HeldWindow) -> Result<(), AllocError>
        requires { IsWindow i window }
        ensures { OnOk result (self.new ≡ map.insert self.old i window) }
    {
        self.windows.insert(i, window)?;
        Ok(())
    }

    /// Adds a window that others hold too, where it has steps: each with its time there, in order of time.
    /// Takes time by the logarithm of the number of windows; want of memory is the only error.
    pub fn add_shared(&mut self, i: u32, window: Rc<Window>) -> Result<(), AllocError>
        requires { IsWindow i window.value }
        ensures { OnOk result (self.new ≡ with_steps i window.value self.old) }
    {
        if window.steps().is_empty() {
            return Ok(());
        }
        self.insert(i, HeldWindow::of(window))
    }

    fn get(&self, i: u32) -> Option<&HeldWindow>
        ensures { option_copied result ≡ map.get self.now i }
    {
        self.windows.get(&i)
    }

    /// The window of a number, if it has steps.
    pub(crate) fn window(&self, i: u32) -> Result<Option<Rc<Window>>, AllocError>
        ensures window { IfOk result (λ window. value_behind window ≡ map.get self.now i) }
        ensures fits { IfOk result (λ window. IfSome (value_behind window) (AllByRecursion (IsWithin i))) }
        ensures ordered { IfOk result (λ window. IfSome (value_behind window) AreInOrder) }
    {
        let _ = &self.windows;
        match self.get(i) {
            Some(window) => window.pointer(),
            None => Ok(None),
        }
    }
}
