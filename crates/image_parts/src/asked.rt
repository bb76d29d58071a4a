//! What stands behind everything that hands out values by name.

/// Something that hands out the values of an image by their names, and records what was asked.
///
/// `N` are the names, `V` the values.
pub trait Asked<N, V> {
    ghost use Rattle.std.specs.Prelude.{ℕ};
    ghost use Rattle.image_parts.specs.Asking.{Seen};

    /// The image, and what was handed out since the record was taken.
    ghost seen: { Self → Seen N V };

    /// The number of calls that asked, as far as it can be counted.
    ghost asks: { Self → ℕ };
}
