//! Laws of answers, and of replies in the words of inputs and lines.
ghost use Rattle.std.specs.Prelude.{◌≡◌, ◌≢◌, ◌++◌, ◌∷◌, [], ℕ, List, None, Some, false, map};
ghost use Rattle.base.specs.Lines.{lines_of};
ghost use Rattle.co_project.specs.Project.{Content};
ghost use Rattle.project_script.specs.Script.{edits, script};
ghost use Rattle.co_project.specs.Sound.{IsSound};
ghost use Rattle.project_plan.specs.Files.{dcf_text};
ghost use Rattle.project_plan.specs.Nodes.{IsSoundNode};
ghost use Rattle.project_plan.specs.Network.{Member};
ghost use Rattle.kept_parts.specs.Left.{HoldsNoneGone};
ghost use Rattle.project_parts.specs.declared.part.Part.{Part};
ghost use Rattle.workbench.specs.Bench.{Bench, Brings, BenchTraces};
ghost use Rattle.workbench.specs.Queries.{dcf_of};
ghost use Rattle.workbench.specs.Lines.{AreLines, has_break, with_breaks, if_some};
ghost use Rattle.workbench.specs.Replies.{State, start, ok_reply, after_line, after_lines, replies, replies_to_lines};
ghost use Rattle.workbench.specs.Replies.{complete_replies};

use project_script::laws::{script_has_edits, script_makes_the_project_again};
use script_commands::laws::{
    printed_blocks_are_read, printed_edits_are_lines, printed_lines_are_read,
};

/// What `dcf` prints of a node of a sound project is the text of which the laws of `project_plan` speak.
#[tactic(auto, using(crate::proofs::Plans::is_its_text))]
pub fn dcf_prints_the_text_of_its_node()
    ensures { (project : Content) (id : ℕ) (m : Member) → IsSoundNode project id m
        → dcf_of project id ≡ Some (dcf_text project id m) }
{}

/// After a file, diagnostics or a trace was answered no part is held under a name of an EDS, nor under a number of a
/// node, that the project doesn't have. What a part that stays was made from stays with it until it is made anew.
pub fn nothing_is_held_of_what_is_gone()
    ensures parts { (named : List Part) (old new : Bench) → Brings named old new → HoldsNoneGone old.project new.parts }
    ensures trace { (old new : Bench) → BenchTraces old new → HoldsNoneGone old.project new.parts }
{}

/// An input that is made of lines, each ended by LF, and of a last one that its end ends, has the
/// replies to these lines, taken one after the other.
pub fn replies_line_by_line()
    ensures { (lines : List (List ℕ)) (last : List ℕ) → AreLines lines → has_break last ≡ false
        → replies (with_breaks lines ++ last) ≡ replies_to_lines (lines ++ if_some last) }
{}

/// The replies to the commands that are complete in some bytes stay, whatever follows these bytes:
/// they begin the replies to each input that begins so.
pub fn complete_come_first()
    ensures { (bytes rest : List ℕ) → (more : List (List ℕ))
        × (replies (bytes ++ rest) ≡ complete_replies bytes ++ more) }
{}

/// A line that isn't answered by `ok` leaves the project as it was.
pub fn refused_changes_nothing()
    ensures { (state : State) (line : List ℕ) → (after_line state line).replies ≢ ok_reply ∷ []
        → (after_line state line).state.project ≡ state.project }
{}

/// The script of a project, as an input, has `ok` alone for replies, one for each edit, and makes the
/// equal project. A session takes it where it is at most 64 MiB.
pub fn script_is_fed_again()
    ensures replies { (p : Content) → IsSound p → replies (script p) ≡ map (λ _. ok_reply) (edits p) }
    ensures project { (p : Content) → IsSound p
        → (after_lines start (lines_of (script p))).state ≡ record { project = p; block = None } }
{
    printed_lines_are_read();
    printed_blocks_are_read();
    printed_edits_are_lines();
    script_has_edits();
    script_makes_the_project_again();
}
