//! Laws of packing, each a function whose contract is the law.

ghost use Rattle.std.specs.Prelude.{◌≡◌, ◌≢◌, ◌<◌, ◌≤◌, ◌/◌, ◌%◌, ℕ, true, false, List, map, Some, slice_get};
ghost use Rattle.std.specs.Prelude.{slice_index, take};
ghost use Rattle.std.specs.FinMap as finite;
ghost use Rattle.std.specs.Int.{bit_at};
ghost use Rattle.base.specs.Bytes.{AreBytes};
ghost use Rattle.co_dict.specs.Mappings.{mapped_length, mapped_place, mapping_bits};
ghost use Rattle.cia301.specs.PdoObjects.{is_of_pdos};
ghost use Rattle.co_dict.specs.Shapes.{Shaped};
ghost use Rattle.co_dict.specs.Values.{Values};
ghost use Rattle.pdo_rules.specs.Carried.{AreApart, TakesWhole};
ghost use Rattle.pdo_rules.specs.Packing.{bits_for, bytes_begun, entry_bits, frame_bits, names_entry};
ghost use Rattle.pdo_rules.specs.Packing.{payload_of, packed_bits, after_payload, with_bits};

/// Position p of a PDO is bit p mod 8 of byte p div 8, into a frame and out of it.
#[tactic(auto, using(crate::proofs::PositionLaws::positions))]
pub fn position_p_is_bit_p_mod_8_of_byte_p_div_8()
    ensures into { (values : Values) (mapping : List ℕ) (p : ℕ) → p < 64
        → bit_at (slice_index (payload_of values mapping).0 (p / 8)) (p % 8) ≡ slice_index (packed_bits values mapping) p }
    ensures out { (bytes : List ℕ) (p : ℕ) → AreBytes bytes → p < 64
        → slice_index (frame_bits bytes) p ≡ bit_at (slice_index bytes (p / 8)) (p % 8) }
{}

/// A PDO has as many bytes as its mapping begins.
#[tactic(auto, using(crate::proofs::PackLemmas::bytes_of_packed))]
pub fn a_pdo_has_the_bytes_that_its_mapping_begins()
    ensures { (values : Values) (mapping : List ℕ) → (payload_of values mapping).1 ≡ bytes_begun (mapping_bits mapping) }
{}

/// Each mapped entry has its bits in the frame behind those of the entries before it.
#[tactic(auto, using(crate::proofs::CarriedLaws::bits_at_position))]
pub fn each_entry_has_its_bits_at_its_position()
    ensures { (values : Values) (mapping : List ℕ) (i entry : ℕ) → mapping_bits mapping ≤ 64
        → slice_get mapping i ≡ Some entry
        → bits_for entry (mapping_bits (take i mapping)) (frame_bits (payload_of values mapping).0)
        ≡ entry_bits values entry }
{}

/// Each entry of a mapping gets the bits at its position, where the device takes them, and keeps its
/// value where it doesn't, whatever becomes of the other entries. What no entry of the mapping names
/// stays, also where a dummy has its place.
#[tactic(auto, using(crate::proofs::CarriedLaws::each_its_own))]
pub fn each_entry_gets_the_bits_at_its_position()
    ensures mapped { (shape : Shaped) (mapping bytes : List ℕ) (values : Values) (i entry : ℕ)
        → AreApart shape mapping → slice_get mapping i ≡ Some entry → is_of_pdos (mapped_place entry).0 ≡ false
        → finite.get (after_payload shape mapping bytes values) (mapped_place entry)
        ≡ (let bits = bits_for entry (mapping_bits (take i mapping)) (frame_bits bytes) in
        finite.get (with_bits shape entry bits values) (mapped_place entry)) }
    ensures others { (shape : Shaped) (mapping bytes : List ℕ) (values : Values) (place : ℕ × ℕ)
        → ((i entry : ℕ) → slice_get mapping i ≡ Some entry → names_entry shape entry ≡ true
        → place ≢ mapped_place entry)
        → finite.get (after_payload shape mapping bytes values) place ≡ finite.get values place }
{}

/// What one device packs, another unpacks, by mappings of the same lengths: an entry of the other gets
/// the value of the one's entry at the same position, where its type has that length and it may be
/// given that value; whatever the others of its mapping are, dummies too.
pub fn what_is_packed_is_unpacked()
    ensures { (shape : Shaped) (from into : Values) (sent taken : List ℕ) (i a b : ℕ) (bytes : List ℕ)
        → mapping_bits sent ≤ 64 → map mapped_length sent ≡ map mapped_length taken
        → AreApart shape taken
        → slice_get sent i ≡ Some a → slice_get taken i ≡ Some b
        → finite.get from (mapped_place a) ≡ Some bytes → TakesWhole shape b bytes
        → finite.get (after_payload shape taken (payload_of from sent).0 into) (mapped_place b) ≡ Some bytes }
{}
