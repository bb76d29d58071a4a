//! Traces over kept segments: `co_segments`.

ghost use Rattle.std.specs.Prelude.{◌<◌};
ghost use Rattle.image_parts.specs.Images.{IsImage};

use can_bus::{Line, Parts};
use co_depend::Meter;
use co_segments::Store;
use image_parts::END;
use std::alloc::{AllocError, Global};

/// A store of at most so many segments.
pub fn store(alloc: Global, capacity: usize) -> Result<Store, AllocError> {
    Store::new(alloc, capacity)
}

/// The trace up to a horizon.
pub fn trace<P: Parts>(
    store: &mut Store,
    parts: &mut P,
    horizon: u32,
    meter: &mut Meter,
) -> Result<Vec<Line>, AllocError>
    requires soon { horizon < END }
    requires image { IsImage (P.seen parts.old).image }
{
    store.trace(parts, horizon, meter)
}

/// How many segments a store has.
pub fn held(store: &Store) -> usize {
    store.held()
}
