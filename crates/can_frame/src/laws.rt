//! Laws of waiting frames and of who wins, each a function whose contract is the law.
ghost use Rattle.std.specs.Prelude.{◌≡◌, ◌^◌, ◌<◌, ◌≤◌, ◌++◌, ◌∷◌, [], ◌⊎◌, ◌↔◌, ℕ, true, false, List, Contains};
ghost use Rattle.std.specs.Prelude.{Option, Some, None, ◌+◌, ◌*◌, ◌/◌, length, replicate};
ghost use Rattle.can_frame.specs.declared.contender.Contender.{Contender as Bid};
ghost use Rattle.can_frame.specs.declared.purpose.Purpose.{Purpose as Use};
ghost use Rattle.can_frame.specs.declared.slot_rule.SlotRule.{SlotRule as Rule};
ghost use Rattle.can_frame.specs.declared.waiting.Waiting.{Waiting as Queued};
ghost use Rattle.can_frame.specs.Frames.{bit_time, BaseFrame, IsFrame};
ghost use Rattle.can_frame.specs.Slots.{bits_of_slot};
ghost use Rattle.can_frame.specs.TraceLines.{frame_line};
ghost use Rattle.can_frame.specs.WaitingFrames.{is_same, with_latest, waiting, waits_for};
ghost use Rattle.can_frame.specs.WireBits.{exact_bits, plain_bits, unstuffed, wire_bits};
ghost use Rattle.can_frame.specs.Winner.{contenders, lower, winner_of, IsWinner, WaitsAt};

/// Each frame that waits contends, and no other.
#[tactic(auto, using(crate::proofs::ContenderLemmas::contenders_both))]
pub fn what_waits_contends()
    ensures all { (lists : List (ℕ × List Queued)) (node place : ℕ) (w : Queued) → WaitsAt lists node place w
        → Contains (contenders lists) (record { id = w.frame.id; sender = node; place = place }) }
    ensures only { (lists : List (ℕ × List Queued)) (c : Bid) → Contains (contenders lists) c
        → (w : Queued) × (WaitsAt lists c.sender c.place w × (c.id ≡ w.frame.id)) }
{}

/// There is one winner and no other, and the function names it.
#[tactic(auto, using(crate::proofs::WinnerLemmas::winner_laws))]
pub fn there_is_one_winner()
    ensures wins { (cs : List Bid) → IsWinner cs (winner_of cs) }
    ensures alone { (cs : List Bid) (a b : Option Bid) → IsWinner cs a → IsWinner cs b → a ≡ b }
{}

/// The winner of two lists is the lower of the winners of each.
#[tactic(auto, using(crate::proofs::WinnerLemmas::winner_laws))]
pub fn the_lower_of_two_winners_wins()
    ensures { (cs ds : List Bid) (a b : Option Bid) → IsWinner cs a → IsWinner ds b → IsWinner (cs ++ ds) (lower a b) }
{}

/// Where no frame wins, none waits; and each frame that waits beside the winner has a higher
/// identifier, or the same one at a later node, or at the same node and no earlier place.
pub fn the_winner_comes_first()
    ensures none { (lists : List (ℕ × List Queued)) (node place : ℕ) (w : Queued) → IsWinner (contenders lists) None
        → ¬ WaitsAt lists node place w }
    ensures first { (lists : List (ℕ × List Queued)) (c : Bid) (node place : ℕ) (w : Queued)
        → IsWinner (contenders lists) (Some c) → WaitsAt lists node place w
        → (c.id < w.frame.id) ⊎ ((c.id ≡ w.frame.id) × ((c.sender < node) ⊎ ((c.sender ≡ node) × (c.place ≤ place)))) }
{}

/// A frame takes the place of the first one of its purpose, and the others stay; where none of its
/// purpose waits, it goes last.
#[tactic(auto, using(crate::proofs::ReplacedLemmas::replaced_laws))]
pub fn a_replaced_frame_keeps_its_place()
    ensures there { (purpose : Use) (frame : BaseFrame) (front behind : List Queued) (w : Queued)
        → waits_for purpose front ≡ false → is_same w.purpose purpose ≡ true
        → with_latest purpose frame (front ++ w ∷ behind) ≡ front ++ waiting purpose frame ∷ behind }
    ensures last { (purpose : Use) (frame : BaseFrame) (frames : List Queued) → waits_for purpose frames ≡ false
        → with_latest purpose frame frames ≡ frames ++ waiting purpose frame ∷ [] }
{}

/// The test of purposes is equality.
#[tactic(auto, using(crate::proofs::PurposeLemmas::same_both))]
pub fn purposes_are_told_apart()
    ensures { (one other : Use) → (is_same one other ≡ true) ↔ (one ≡ other) }
{}

/// One bit lasts 100, 50, 20, 8, 4, 2 and 1 microseconds at 10, 20, 50, 125, 250, 500 and 1000 kbit/s.
pub fn bits_last()
    ensures slow { (bit_time 10 ≡ 100) × (bit_time 20 ≡ 50) × (bit_time 50 ≡ 20) }
    ensures fast { (bit_time 125 ≡ 8) × (bit_time 250 ≡ 4) × (bit_time 500 ≡ 2) × (bit_time 1000 ≡ 1) }
{}

/// A line of a trace is of one time of at most ten digits, and of one frame.
#[tactic(auto, using(crate::proofs::TraceLemmas::line_is_of_one))]
pub fn a_line_is_of_one_frame()
    ensures { (time other : ℕ) (f g : BaseFrame) → time < 10 ^ 10 → other < 10 ^ 10 → IsFrame f → IsFrame g
        → frame_line time f ≡ frame_line other g → (time ≡ other) × (f ≡ g) }
{}

/// A frame of n bytes takes 47 + 8n bit times, and at most one stuff bit for each four of the 33 + 8n
/// bits behind its first.
#[tactic(auto, using(crate::proofs::FrameBitLemmas::bit_laws))]
pub fn a_frame_has_few_stuff_bits()
    ensures least { (frame : BaseFrame) → 47 + 8 * length frame.bytes ≤ exact_bits frame }
    ensures most { (frame : BaseFrame)
        → exact_bits frame ≤ 47 + 8 * length frame.bytes + (33 + 8 * length frame.bytes) / 4 }
{}

/// By either rule a frame of n bytes takes 47 + 8n bit times at least.
#[tactic(auto, using(crate::proofs::FrameBitLemmas::bit_laws))]
pub fn each_rule_counts_each_bit_of_a_frame()
    ensures { (rule : Rule) (frame : BaseFrame) → 47 + 8 * length frame.bytes ≤ bits_of_slot rule frame }
{}

/// No six equal bits of a frame stand in a row on the wire.
#[tactic(auto, using(crate::proofs::FrameBitLemmas::bit_laws))]
pub fn six_equal_bits_stand_nowhere()
    ensures { (frame : BaseFrame) (bit : ℕ) (front behind : List ℕ)
        → ¬ (wire_bits frame ≡ front ++ (replicate 6 bit ++ behind)) }
{}

/// Without the stuff bits the bits of a frame are there again, and they are of one frame.
#[tactic(auto, using(crate::proofs::FrameBitLemmas::bit_laws))]
pub fn the_bits_on_the_wire_are_of_one_frame()
    ensures again { (frame : BaseFrame) → unstuffed (wire_bits frame) ≡ plain_bits frame }
    ensures alone { (f g : BaseFrame) → IsFrame f → IsFrame g → wire_bits f ≡ wire_bits g → f ≡ g }
{}
