//! Laws of the entries of a device, each a function whose contract is the law.
ghost use Rattle.std.specs.Prelude.{◌≡◌, ◌↔◌, ℕ, pos, List, [], ◌∷◌, Some, None, Err, true, false};
ghost use Rattle.std.specs.Bool.{IsFalse};
ghost use Rattle.std.specs.FinMap as map;
ghost use Rattle.ini_text.specs.Content.{Section, content_of};
ghost use Rattle.ini_text.specs.Text.{is_out_of_range, has_bad_byte};
ghost use Rattle.co_values.specs.declared.data_type.DataType.TheVariants.{Unsigned8};
ghost use Rattle.co_values.specs.Values.{number_in};
ghost use Rattle.co_dict.specs.declared.access.Access.TheVariants.{ReadOnly};
ghost use Rattle.co_dict.specs.Shapes.{is_dummy_allowed};
ghost use Rattle.eds_device.specs.Faults.{HasTooMany, device_of};
ghost use Rattle.eds_device.specs.Entries.{entry_at, default_at, dummy_allowed, shape_of, defaults_of};
ghost use Rattle.co_dict.specs.Values.{HoldEach};
ghost use Rattle.eds_device.specs.Described.{kind_at};
ghost use Rattle.eds_device.specs.Identity.{is_identity_type, identity_number};
ghost use Rattle.eds_device.specs.Sheets.{Sheet};
ghost use Rattle.eds_places.specs.Origins.{compact, origin_of};
ghost use Rattle.eds_places.specs.declared.fault.DeviceFault.TheVariants.{Limit};

/// A text is refused by `Limit` exactly where it is an INI text and the rules give over 4,096 entries.
#[tactic(auto, using(crate::proofs::LimitLemmas::limited_by_rules))]
pub fn limit_counts_entries_of_the_rules()
    ensures { (text : List ℕ) →
        (device_of text ≡ Err Limit)
        ↔ ((IsFalse (is_out_of_range text) × IsFalse (has_bad_byte text)) × HasTooMany (content_of text).sections) }
{}

/// A shape has each entry as the device describes it, and no other, and the device's dummies; the
/// defaults likewise.
#[tactic(auto, using(crate::proofs::LawLemmas::shape_at, crate::proofs::IdentityLemmas::shape_dummies, crate::proofs::LawLemmas::defaults_at))]
pub fn shape_and_defaults_are_complete()
    ensures shape { (sheet : Sheet) (node index sub : ℕ)
        → map.get (shape_of sheet node).entries (index, sub) ≡ entry_at sheet node index sub }
    ensures dummies { (sheet : Sheet) (node kind : ℕ)
        → is_dummy_allowed (shape_of sheet node) kind ≡ dummy_allowed sheet.sections kind }
    ensures defaults { (sheet : Sheet) (node index sub : ℕ)
        → map.get (defaults_of sheet node) (index, sub) ≡ default_at sheet node index sub }
{}

/// The defaults have, for each entry of a modelled type in the shape, a value of that type's length.
#[tactic(auto, using(crate::proofs::LawLemmas::values_have_lengths))]
pub fn defaults_have_lengths()
    ensures { (sheet : Sheet) (node : ℕ) → HoldEach (shape_of sheet node).entries (defaults_of sheet node) }
{}

/// A number of the identity is that of its entry's default, where this is an UNSIGNEDn of at most
/// four bytes, else 0.
#[tactic(auto, using(crate::proofs::IdentityLemmas::identity_has, crate::proofs::IdentityLemmas::identity_zero))]
pub fn identity_is_of_the_defaults()
    ensures number { (sheet : Sheet) (node index sub : ℕ) → is_identity_type (kind_at sheet (index, sub)) ≡ true
        → (bytes : List ℕ) × ((map.get (defaults_of sheet node) (index, sub) ≡ Some bytes)
        × (number_in (kind_at sheet (index, sub)) bytes ≡ Some (pos (identity_number sheet node index sub)))) }
    ensures zero { (sheet : Sheet) (node index sub : ℕ) → is_identity_type (kind_at sheet (index, sub)) ≡ false
        → identity_number sheet node index sub ≡ 0 }
{}

/// Sub 0 of a compact object is an UNSIGNED8 that nobody writes or maps, and its value is the
/// highest sub-index.
#[tactic(auto, using(crate::proofs::LawLemmas::compact_entry, crate::proofs::LawLemmas::compact_default))]
pub fn sub_0_counts_compact_subs()
    ensures entry { (sheet : Sheet) (node index : ℕ) (s : Section) (n : ℕ)
        → origin_of sheet.sections index 0 ≡ Some (compact s n)
        → entry_at sheet node index 0
        ≡ Some (record { kind = Unsigned8; access = ReadOnly; low = None; high = None; mappable = false }) }
    ensures value { (sheet : Sheet) (node index : ℕ) (s : Section) (n : ℕ)
        → origin_of sheet.sections index 0 ≡ Some (compact s n)
        → default_at sheet node index 0 ≡ Some (n ∷ []) }
{}
