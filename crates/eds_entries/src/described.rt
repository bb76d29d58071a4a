//! What an EDS says of an entry (CiA 306).
ghost use Rattle.std.specs.Prelude.{◌≡◌};
ghost use Rattle.eds_entries.specs.Described.{highest_sub};
ghost use Rattle.eds_entries.specs.Shown.{description_shown};

use co_dict::Access;
use co_values::{DataType, Spelling};

/// The default of an entry.
#[derive(Drop)]
pub enum DefaultText<'a> {
    /// The text of DefaultValue, empty where it is missing.
    Written(Spelling<'a>),
    /// The highest sub-index of a compact object, which is the value of its sub 0.
    Count(u8),
}

/// What an EDS says of an entry, its texts as they stand. A text is empty where it is missing.
#[derive(Drop)]
pub struct Described<'a> {
    pub kind: DataType,
    pub access: Access,
    /// Whether a PDO may carry it.
    pub mappable: bool,
    pub default: DefaultText<'a>,
    /// LowLimit.
    pub low: Spelling<'a>,
    /// HighLimit.
    pub high: Spelling<'a>,
}

/// What is said of sub 0 of a compact object with this highest sub-index.
pub fn highest_sub(count: u8) -> Described<'static>
    ensures { description_shown result ≡ highest_sub count }
{
    Described {
        kind: DataType::Unsigned8,
        access: Access::ReadOnly,
        mappable: false,
        default: DefaultText::Count(count),
        low: Spelling::empty(),
        high: Spelling::empty(),
    }
}
