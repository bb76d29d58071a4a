//! Laws of dictionaries and shapes.

ghost use Rattle.std.specs.Prelude.{◌≡◌, ◌≢◌, ◌↔◌, ◌≤◌, ℕ, List, length, Some, Ok, Err, IsTrue, false, if◌then◌else◌};
ghost use Rattle.std.specs.FinMap as map;
ghost use Rattle.base.specs.Bytes.{AreBytes};
ghost use Rattle.base.specs.Ranges.{is_between};
ghost use Rattle.co_values.specs.Types.{is_modelled};
ghost use Rattle.co_dict.specs.declared.abort.Abort.{Abort as Code};
ghost use Rattle.co_dict.specs.declared.entry.Entry.{Entry as Described};
ghost use Rattle.co_dict.specs.Accesses.{is_writable};
ghost use Rattle.co_dict.specs.Checks.{access_check, has_index, length_check};
ghost use Rattle.co_dict.specs.Mappings.{mapping_bits, mapping_of};
ghost use Rattle.co_dict.specs.PdoChecks.{mapping_check};
ghost use Rattle.cia301.specs.PdoObjects.{is_of_pdos};
ghost use Rattle.co_dict.specs.Restored.{with_restored};
ghost use Rattle.co_dict.specs.Shapes.{HasIndex, Shaped};
ghost use Rattle.co_dict.specs.Values.{HoldEach, Values};
ghost use Rattle.co_dict.specs.WriteCheck.{Suits, write_check};

/// A write gives its entry the value, and leaves every other entry as it was.
#[tactic(auto, using(crate::proofs::PlaceLemmas::written_alone))]
pub fn a_write_changes_its_entry_alone()
    ensures there { (dict : Values) (place : ℕ × ℕ) (bytes : List ℕ)
        → map.get (map.insert dict place bytes) place ≡ Some bytes }
    ensures elsewhere { (dict : Values) (place other : ℕ × ℕ) (bytes : List ℕ) → other ≢ place
        → map.get (map.insert dict place bytes) other ≡ map.get dict other }
{}

/// To restore a range of indices makes the entries there those of the other dictionary, and leaves all
/// others; where both have for each modelled entry a value of its type's length, so has the result.
#[tactic(auto, using(crate::proofs::RestoredLemmas::restored_at))]
pub fn a_range_is_restored_alone()
    ensures each { (first last : ℕ) (other values : Values) (place : ℕ × ℕ)
        → map.get (with_restored first last other values) place
        ≡ (if is_between first last place.0 then map.get other place else map.get values place) }
    ensures lengths { (shape : Shaped) (first last : ℕ) (other values : Values) → HoldEach shape.entries other
        → HoldEach shape.entries values → HoldEach shape.entries (with_restored first last other values) }
{}

/// The test of an index holds where some entry has it.
#[tactic(auto, using(crate::proofs::IndexLemmas::has_index_is))]
pub fn an_index_is_there_where_an_entry_has_it()
    ensures { (shape : Shaped) (index : ℕ) → IsTrue (has_index shape index) ↔ HasIndex shape index }
{}

/// What may not be written at all is refused by that, and next a wrong length, whatever the bytes are
/// and the dictionary holds: a server can judge both before it has the value.
#[tactic(auto, using(crate::proofs::CheckLaws::in_turn))]
pub fn access_is_judged_first_and_length_next()
    ensures access { (shape : Shaped) (values : Values) (place : ℕ × ℕ) (bytes : List ℕ) (abort : Code)
        → access_check shape place ≡ Err abort → write_check shape values place bytes ≡ Err abort }
    ensures length { (shape : Shaped) (values : Values) (place : ℕ × ℕ) (bytes : List ℕ) (abort : Code)
        → access_check shape place ≡ Ok tt → length_check shape place (length bytes) ≡ Err abort
        → write_check shape values place bytes ≡ Err abort }
{}

/// What is taken suits its entry: the entry is there and may be written, and the bytes are a value of
/// its type within its limits.
#[tactic(auto, using(crate::proofs::CheckLaws::taken_suits))]
pub fn what_is_taken_suits_its_entry()
    ensures { (shape : Shaped) (values : Values) (place : ℕ × ℕ) (bytes : List ℕ) → AreBytes bytes
        → write_check shape values place bytes ≡ Ok tt → (entry : Described) × Suits shape place bytes entry }
{}

/// Outside the objects of PDOs the dictionary doesn't count, and what suits an entry is taken.
#[tactic(auto, using(crate::proofs::CheckLaws::outside_pdos))]
pub fn outside_the_objects_of_pdos_what_suits_is_taken()
    ensures alike { (shape : Shaped) (place : ℕ × ℕ) (bytes : List ℕ) → is_of_pdos place.0 ≡ false
        → (values others : Values)
        → write_check shape values place bytes ≡ write_check shape others place bytes }
    ensures taken { (shape : Shaped) (values : Values) (place : ℕ × ℕ) (bytes : List ℕ) (entry : Described)
        → Suits shape place bytes entry → is_of_pdos place.0 ≡ false → write_check shape values place bytes ≡ Ok tt }
{}

/// A mapping that passes the check fits into a frame.
#[tactic(auto, using(crate::proofs::CheckLaws::mapping_fits))]
pub fn a_mapping_that_passes_fits_a_frame()
    ensures { (shape : Shaped) (values : Values) (object count : ℕ) → mapping_check shape values object count ≡ Ok tt
        → mapping_bits (mapping_of values object count) ≤ 64 }
{}

/// What is taken keeps a dictionary that has for each modelled entry a value of its type's length.
#[tactic(auto, using(crate::proofs::CheckLaws::each_held))]
pub fn what_is_taken_keeps_lengths()
    ensures { (shape : Shaped) (values : Values) (place : ℕ × ℕ) (bytes : List ℕ) → AreBytes bytes
        → write_check shape values place bytes ≡ Ok tt → HoldEach shape.entries values
        → HoldEach shape.entries (map.insert values place bytes) }
{}
