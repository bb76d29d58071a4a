//! Entries that are looked up one after another.
ghost use Rattle.std.specs.Prelude.{◌≡◌, IfSome};
ghost use Rattle.std.specs.Option.{option_map};
ghost use Rattle.eds_device.specs.Described.{kind_at};
ghost use Rattle.eds_places.specs.Origins.{origin_of};
ghost use Rattle.eds_places.specs.Shown.{origin_shown};

use crate::data_sheet::DataSheet;
use co_values::DataType;
use eds_entries::highest_sub;
use eds_places::Origin;

/// An entry as a look-up finds it.
#[derive(Clone, Copy)]
pub struct Placed<'a> {
    /// Its position among the entries.
    pub position: usize,
    /// Where it stands.
    pub origin: Origin<'a>,
    /// Its type.
    pub kind: DataType,
}

impl DataSheet {
    /// Where an entry stands, with its type. `None` where there is no such entry.
    ///
    /// It is looked for at the position `near` among the entries and behind that first, whichever it
    /// is: so who asks for one entry after the other, each near the position of the last, mostly pays
    /// constant time, and else the logarithm of the number of entries.
    #[tactic(auto, unfolding(crate::specs::Described::description_of, crate::specs::Described::kind_at))]
    pub fn placed(&self, near: usize, index: u16, sub: u8) -> Option<Placed<'_>>
        ensures origin { option_map (λ p. origin_shown p.origin) result ≡ origin_of self.now.sections index sub }
        ensures kind { IfSome result (λ p. p.kind ≡ kind_at self.now (index, sub)) }
    {
        let reading = self.reading();
        let (position, stand) = reading.stand_near(near, index, sub)?;
        let (section, said) = reading.said_at(stand.position)?;
        let Some(highest) = stand.highest else {
            return Some(Placed {
                position,
                origin: Origin::Own(section),
                kind: said.kind(section).in_version(self.is_three),
            });
        };
        let kind = if sub == 0 {
            highest_sub(highest).kind
        } else {
            said.kind(section).in_version(self.is_three)
        };
        Some(Placed {
            position,
            origin: Origin::Compact(section, highest),
            kind,
        })
    }
}
