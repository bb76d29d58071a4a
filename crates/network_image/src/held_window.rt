//! The steps of a window.
ghost use Rattle.std.specs.Prelude.{◌≡◌, IfOk, Some};
ghost use Rattle.image_parts.specs.Shared.{value_behind};

use crate::pointer::some_pointer;
use image_parts::Window;
use std::alloc::AllocError;
use std::marker::Model;
use std::rc::Rc;

/// The steps of a window, shared.
#[derive(Drop)]
pub(crate) struct HeldWindow {
    window: Rc<Window>,
}

impl Model for HeldWindow {
    ghost use Rattle.std.specs.Prelude.{List};
    ghost use Rattle.co_scenario.specs.declared.timed_step.TimedStep.{TimedStep};

    ghost Value = { List TimedStep };

    ghost view = { λ held. held.window.value };
}

impl HeldWindow {
    /// This window.
    pub fn of(window: Rc<Window>) -> HeldWindow
        ensures { result ≡ window.value }
    {
        HeldWindow { window }
    }

    /// A pointer to the window. Takes no memory.
    pub fn pointer(&self) -> Result<Option<Rc<Window>>, AllocError>
        ensures { IfOk result (λ window. value_behind window ≡ Some self.now) }
    {
        some_pointer(&self.window)
    }
}
