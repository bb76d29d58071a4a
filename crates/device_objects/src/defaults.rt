//! The values of a device after a reset.

ghost use Rattle.std.specs.Prelude.{◌≡◌, IfOk, unwrap_or};
ghost use Rattle.std.specs.FinMap as map;
ghost use Rattle.co_dict.specs.Places.{place_cmp};
ghost use Rattle.co_dict.specs.Restored.{with_restored};
ghost use Rattle.image_parts.specs.Shared.{value_behind};

use co_dict::Dict;
use std::alloc::{AllocError, Global};
use std::rc::Rc;

/// The first index of the communication profile area (CiA 301).
const FIRST_OF_COMMUNICATION: u16 = 0x1000;

/// The last index of the communication profile area.
const LAST_OF_COMMUNICATION: u16 = 0x1FFF;

/// A copy of the default values; none where there are none.
pub fn values_of(alloc: Global, defaults: &Option<Rc<Dict>>) -> Result<Dict, AllocError>
    ensures { IfOk result (λ dict. dict ≡ unwrap_or (value_behind defaults.now) map.empty) }
{
    match defaults {
        None => Ok(Dict::new(alloc)),
        Some(dict) => {
            let copy = dict.copy()?;
            Ok(copy)
        }
    }
}

/// A copy of the values, where those of the communication profile area are as in the defaults.
pub fn communication_restored(
    alloc: Global,
    values: &Dict,
    defaults: &Option<Rc<Dict>>,
) -> Result<Dict, AllocError>
    ensures { IfOk result (λ dict. dict
        ≡ with_restored 0x1000 0x1FFF (unwrap_or (value_behind defaults.now) map.empty) values.now) }
{
    let mut copy = values.copy()?;
    match defaults {
        None => copy.restore(
            &Dict::new(alloc),
            FIRST_OF_COMMUNICATION,
            LAST_OF_COMMUNICATION,
        )?,
        Some(defaults) => copy.restore(defaults, FIRST_OF_COMMUNICATION, LAST_OF_COMMUNICATION)?,
    }
    Ok(copy)
}
