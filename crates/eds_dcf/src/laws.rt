//! Laws of the definitions: what stands in the sections of a DCF.

ghost use Rattle.std.specs.Prelude.{◌≡◌, ◌⊎◌, All, Contains, ℕ, Bool, List, None, Some, count_by};
ghost use Rattle.std.specs.Prelude.{option_map, false, true, codes, decimal};
ghost use Rattle.ini_text.specs.Change.{text_of};
ghost use Rattle.ini_text.specs.Content.{Pair, Section, content_of, same, value_at};
ghost use Rattle.ini_text.specs.Printable.{IsPrintable, IsValue};
ghost use Rattle.co_values.specs.Values.{text_of_value};
ghost use Rattle.concise_dcf.specs.declared.write.Write.{Write as written};
ghost use Rattle.eds_device.specs.Described.{description_of, kind_at};
ghost use Rattle.eds_device.specs.Names.{values_named};
ghost use Rattle.eds_device.specs.Places.{pairs_of};
ghost use Rattle.eds_device.specs.Sheets.{Sheet, has_new_types, sheet_of};
ghost use Rattle.eds_dcf.specs.Commissioning.{commissioning, is_commissioning};
ghost use Rattle.eds_dcf.specs.Compact.{compact_object, is_decimal, values_pairs_at};
ghost use Rattle.eds_dcf.specs.Dcf.{dcf_sections, dcf_sheet, with_values};
ghost use Rattle.eds_dcf.specs.Entries.{parameter_place, says_modelled};
ghost use Rattle.eds_dcf.specs.Printable.{StandsInLine};
ghost use Rattle.eds_dcf.specs.Standing.{is_typed, value_that_stands};
ghost use Rattle.eds_dcf.specs.Writes.{last_of};

/// Reading the text of a DCF gives the sections that it was printed of: for sections that a text
/// gave, a node's name without blanks at its ends and without an LF, and writes whose values can
/// stand in a line, as those of numbers and of pairs of digits always can. Read by the version that read
/// the EDS, it is the data sheet with those sections and with its own warned lines.
pub fn a_dcf_reads_as_its_sections()
    ensures sections { (sheet : Sheet) (node : ℕ) (name : List ℕ) (bitrate : ℕ) (writes : List written)
        → IsPrintable sheet.sections → IsValue name → All (StandsInLine sheet) writes
        → (content_of (text_of (dcf_sections sheet node name bitrate writes))).sections
        ≡ dcf_sections sheet node name bitrate writes }
    ensures data_sheet { (is_three : Bool) (text : List ℕ) (node : ℕ) (name : List ℕ) (bitrate : ℕ) (writes : List written)
        → let sheet = sheet_of is_three text in let dcf = text_of (dcf_sections sheet node name bitrate writes)
        in IsPrintable sheet.sections → IsValue name → All (StandsInLine sheet) writes
        → sheet_of is_three dcf
        ≡ record (dcf_sheet sheet node name bitrate writes) { warnings = (content_of dcf).warnings } }
{}

/// A DCF has the entries of its EDS, and describes them alike: their types, accesses, limits and
/// defaults. So some entry of it has a type that version 3 alone models where some entry of the EDS has.
pub fn a_dcf_describes_its_entries()
    ensures entries { (sheet : Sheet) (node : ℕ) (name : List ℕ) (bitrate : ℕ) (writes : List written)
        → pairs_of (dcf_sections sheet node name bitrate writes) ≡ pairs_of sheet.sections }
    ensures described { (sheet : Sheet) (node : ℕ) (name : List ℕ) (bitrate : ℕ) (writes : List written)
        (index sub : ℕ)
        → description_of (dcf_sheet sheet node name bitrate writes) index sub ≡ description_of sheet index sub }
    ensures new_types { (sheet : Sheet) (node : ℕ) (name : List ℕ) (bitrate : ℕ) (writes : List written)
        → has_new_types (dcf_sections sheet node name bitrate writes) ≡ has_new_types sheet.sections }
{}

/// In a DCF each entry whose section says a modelled type has the bytes of its last write as its
/// value, in its own section or in one `[xxxxValue]`, which is made where it isn't there; and it has
/// no value where no write is to it.
pub fn an_entry_has_its_last_value()
    ensures { (sheet : Sheet) (node : ℕ) (name : List ℕ) (bitrate : ℕ) (writes : List written) (place : ℕ × ℕ)
        → is_typed sheet place ≡ true
        → value_that_stands (dcf_sections sheet node name bitrate writes) place
        ≡ option_map (text_of_value (kind_at sheet place)) (last_of writes place) }
{}

/// In a DCF each section `[xxxxValue]` stands as it was, or its NrOfEntries is the number of its keys
/// that are decimal.
pub fn values_are_counted()
    ensures { (sheet : Sheet) (node : ℕ) (name : List ℕ) (bitrate : ℕ) (writes : List written) (section : Section)
        (index : ℕ)
        → Contains (dcf_sections sheet node name bitrate writes) section → values_named section.name ≡ Some index
        → Contains sheet.sections section ⊎ (value_at section.pairs (codes "NrOfEntries")
        ≡ Some (decimal (count_by (λ p. is_decimal p.key) section.pairs))) }
{}

/// Each section of an EDS but the one that names its node stands in the DCF under its name, with the values that the
/// writes leave. The section that names the node is the DCF's own.
pub fn each_section_stands_in_a_dcf()
    ensures stands { (sheet : Sheet) (node : ℕ) (name : List ℕ) (bitrate : ℕ) (writes : List written) (s : Section)
        → Contains sheet.sections s → is_commissioning s.name ≡ false
        → Contains (dcf_sections sheet node name bitrate writes) (with_values sheet (last_of writes) s) }
    ensures of_node { (sheet : Sheet) (node : ℕ) (name : List ℕ) (bitrate : ℕ) (writes : List written)
        (t : Section)
        → Contains (dcf_sections sheet node name bitrate writes) t → is_commissioning t.name ≡ true
        → t ≡ commissioning sheet.sections node name bitrate }
{}

/// The other keys of the section of a modelled entry have what they had.
pub fn other_keys_stay()
    ensures { (sheet : Sheet) (writes : List written) (s : Section) (place : ℕ × ℕ) (key : List ℕ)
        → parameter_place sheet s.name ≡ Some place
        → same (codes "ParameterValue") key ≡ false
        → value_at (with_values sheet (last_of writes) s).pairs key ≡ value_at s.pairs key }
{}

/// The keys of a section `[xxxxValue]` that are no numbers, but NrOfEntries, have what they had.
pub fn other_keys_of_values_stay()
    ensures section { (sheet : Sheet) (writes : List written) (s : Section) (index : ℕ) (object : Section)
        (highest : ℕ) (key : List ℕ)
        → values_named s.name ≡ Some index
        → compact_object sheet index ≡ Some (object, highest) → says_modelled sheet object ≡ true
        → is_decimal key ≡ false → same (codes "NrOfEntries") key ≡ false
        → value_at (with_values sheet (last_of writes) s).pairs key ≡ value_at s.pairs key }
    ensures pairs { (sheet : Sheet) (writes : List written) (index : ℕ) (object : Section) (highest : ℕ)
        (pairs : List Pair) (key : List ℕ)
        → compact_object sheet index ≡ Some (object, highest) → says_modelled sheet object ≡ true
        → is_decimal key ≡ false → same (codes "NrOfEntries") key ≡ false
        → value_at (values_pairs_at sheet (last_of writes) index pairs) key ≡ value_at pairs key }
{}

/// A section that is neither that of a modelled entry nor one of compact values stands as it was.
pub fn other_sections_stay()
    ensures { (sheet : Sheet) (writes : List written) (s : Section) → parameter_place sheet s.name ≡ None
        → values_named s.name ≡ None
        → with_values sheet (last_of writes) s ≡ s }
{}
