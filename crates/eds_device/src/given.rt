//! What is said of the entries at positions.
ghost use Rattle.std.specs.Prelude.{◌≡◌, Some};
ghost use Rattle.std.specs.List.{slice_get};
ghost use Rattle.std.specs.Option.{option_copied};
ghost use Rattle.eds_device.specs.Described.{value_text};
ghost use Rattle.eds_places.specs.Places.{pairs_of};

use crate::data_sheet::DataSheet;
use eds_entries::unless_empty;

impl DataSheet {
    /// The ParameterValue of the entry at a position of `pairs`, as `value_text` gives it. Takes constant
    /// time; of a compact sub that by the logarithm of the sections.
    #[tactic(auto, unfolding(crate::specs::Described::value_text))]
    pub fn value_text_at(&self, position: usize, index: u16, sub: u8) -> Option<&[u8]>
        requires { slice_get (pairs_of self.now.sections) position ≡ Some (index, sub) }
        ensures { option_copied result ≡ value_text self.now.sections index sub }
    {
        let reading = self.reading();
        let stand = reading.stand_there(position, index, sub)?;
        let (section, said) = reading.said_at(stand.position)?;
        let text = match stand.highest {
            None => said.value(section)?,
            Some(_highest) => reading.listed_value(index, sub)?,
        };
        unless_empty(text)
    }
}
