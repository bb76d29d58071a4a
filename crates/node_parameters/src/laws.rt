//! Laws of the writes of a node's parameters.
ghost use Rattle.std.specs.Prelude.{◌≡◌, ◌↔◌, ℕ, List, map as each, Some, None, Ok, Contains, IsTrue, IsFalse};
ghost use Rattle.std.specs.FinMap as map;
ghost use Rattle.std.specs.List.Sorted.{IsStrictlySortedBy};
ghost use Rattle.concise_dcf.specs.declared.write.Write.{Write as written};
ghost use Rattle.co_dict.specs.declared.entry.Entry.{Entry};
ghost use Rattle.eds_device.specs.Described.{unless_empty, value_text};
ghost use Rattle.eds_device.specs.Entries.{entry_at};
ghost use Rattle.eds_device.specs.Sheets.{Sheet};
ghost use Rattle.co_dict.specs.Places.{place_cmp};
ghost use Rattle.cia301.specs.PdoObjects.{is_of_pdos};
ghost use Rattle.node_parameters.specs.Params.{Texts};
ghost use Rattle.node_parameters.specs.Judgement.{parameter_bytes, Suits};
ghost use Rattle.node_parameters.specs.Parameters.{parameter_text, write_to, parameter_writes};
ghost use Rattle.concise_dcf.specs.Writes.{place_of};

/// A text gives an entry the bytes that suit it: those that it spells as a value of the entry's
/// type, where the type is modelled, the entry may be written, and the number is within its limits.
pub fn bytes_are_given_where_they_suit()
    ensures { (entry : Entry) (text bytes : List ℕ) (node : ℕ) → (parameter_bytes (Some entry) text node ≡ Ok bytes)
        ↔ Suits entry text bytes node }
{}

/// The text of a parameter is the node's own, else the ParameterValue of the device's text, but
/// none for the objects of PDOs.
#[tactic(auto, using(crate::proofs::ParameterLemmas::own_text, crate::proofs::ParameterLemmas::device_text, crate::proofs::ParameterLemmas::pdo_text))]
pub fn the_nodes_own_text_counts()
    ensures own { (sheet : Sheet) (params : Texts) (place : ℕ × ℕ) (text : List ℕ)
        → map.get params place ≡ Some text → parameter_text sheet.sections params place ≡ unless_empty text }
    ensures given { (sheet : Sheet) (params : Texts) (place : ℕ × ℕ)
        → map.get params place ≡ None → IsFalse (is_of_pdos place.0)
        → parameter_text sheet.sections params place ≡ value_text sheet.sections place.0 place.1 }
    ensures of_pdos { (sheet : Sheet) (params : Texts) (place : ℕ × ℕ)
        → map.get params place ≡ None → IsTrue (is_of_pdos place.0) → parameter_text sheet.sections params place ≡ None }
{}

/// A parameter is written exactly where its text gives its entry bytes, and with these; so one
/// without an entry or with a fault isn't.
#[tactic(auto, using(crate::proofs::ParameterLemmas::written, crate::proofs::ParameterLemmas::nothing_else))]
pub fn what_has_no_fault_is_written()
    ensures written { (sheet : Sheet) (params : Texts) (node : ℕ) (place : ℕ × ℕ) (text bytes : List ℕ)
        → parameter_text sheet.sections params place ≡ Some text
        → parameter_bytes (entry_at sheet node place.0 place.1) text node ≡ Ok bytes
        → Contains (parameter_writes sheet params node) (write_to place bytes) }
    ensures nothing_else { (sheet : Sheet) (params : Texts) (node : ℕ) (write : written)
        → Contains (parameter_writes sheet params node) write
        → (text : List ℕ) × (parameter_text sheet.sections params (place_of write) ≡ Some text)
        × (parameter_bytes (entry_at sheet node write.index write.sub) text node ≡ Ok write.bytes) }
{}

/// The writes are in the order of index and sub-index, so each entry is written at most once.
#[tactic(auto, using(crate::proofs::ParameterLemmas::writes_in_order))]
pub fn each_entry_is_written_once()
    ensures { (sheet : Sheet) (params : Texts) (node : ℕ)
        → IsStrictlySortedBy place_cmp (each place_of (parameter_writes sheet params node)) }
{}
