//! What follows from the relation between lists of writes and bytes alone.
ghost use Rattle.std.specs.Prelude.{◌≡◌, ◌⊎◌, ℕ, List, [], ◌++◌};
ghost use Rattle.base.specs.Bytes.{AreBytes};
ghost use Rattle.concise_dcf.specs.declared.write.Write.{Write};
ghost use Rattle.concise_dcf.specs.declared.fault.ConciseFault.{ConciseFault};
ghost use Rattle.concise_dcf.specs.Concise.{IsTextOf, HasFault};

/// No list's text begins another's: what follows a text inside another one is nothing.
pub fn no_text_begins_another()
    ensures { (writes others : List Write) (text more : List ℕ)
        → IsTextOf writes text → IsTextOf others (text ++ more) → more ≡ [] }
{}

/// Each text has one list.
pub fn each_text_has_one_list()
    ensures { (writes others : List Write) (text : List ℕ)
        → IsTextOf writes text → IsTextOf others text → writes ≡ others }
{}

/// Bytes are a list's text or have a fault, never both, and never two faults.
pub fn bytes_are_a_text_or_have_one_fault()
    ensures either { (bytes : List ℕ) → AreBytes bytes
        → ((writes : List Write) × IsTextOf writes bytes) ⊎ ((f : ConciseFault) × HasFault f bytes) }
    ensures not_both { (writes : List Write) (f : ConciseFault) (bytes : List ℕ)
        → IsTextOf writes bytes → HasFault f bytes → ⊥ }
    ensures one { (f g : ConciseFault) (bytes : List ℕ) → HasFault f bytes → HasFault g bytes → f ≡ g }
{}
