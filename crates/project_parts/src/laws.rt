//! Laws of the parts of a project.
ghost use Rattle.std.specs.Prelude.{◌≡◌, ℕ, Ok, Some, false, option_and_then, option_map, slice_get};
ghost use Rattle.concise_dcf.specs.Concise.{text_of as concise_text};
ghost use Rattle.ini_text.specs.Change.{text_of};
ghost use Rattle.eds_dcf.specs.Dcf.{dcf_sections};
ghost use Rattle.project_edits.specs.declared.edit.Edit.{Edit};
ghost use Rattle.image_parts.specs.Contents.{BootIs, DefaultsAre, EventsAre, ExpectIs, RosterIs, ShapeIs};
ghost use Rattle.image_parts.specs.declared.part.Part.TheVariants as asked;
ghost use Rattle.co_project.specs.Project.{accept, Content};
ghost use Rattle.network_image.specs.Image.{image_of, window_steps};
ghost use Rattle.network_image.specs.Steps.{unless_none};
ghost use Rattle.project_plan.specs.Network.{member_at, plan_of_project, writes_of, Member};
ghost use Rattle.project_parts.specs.Made.{concise_made, dcf_made, device_parts, plan_made, roster_made, writes_made};
ghost use Rattle.project_parts.specs.Given.{concise_from, dcf_from, device_from, inputs_of, plan_from, roster_from, writes_from};
ghost use Rattle.project_parts.specs.Touched.{is_touched};

use crate::part::Part;

/// The parts that are kept are the project's own: its plan, and the writes, the concise DCF (CiA 302)
/// and the DCF (CiA 306) of each of its nodes.
pub fn parts_are_those_of_the_project()
    ensures plan { (p : Content) → plan_made (plan_from p) ≡ plan_of_project p }
    ensures writes { (p : Content) (n : ℕ) → option_map writes_made (writes_from p n)
        ≡ option_map (λ (m : Member). writes_of p m n) (member_at p n) }
    ensures concise { (p : Content) (n : ℕ) → option_map concise_made (concise_from p n)
        ≡ option_map (λ (m : Member). concise_text (writes_of p m n)) (member_at p n) }
    ensures dcf { (p : Content) (n : ℕ) → option_map dcf_made (dcf_from p n)
        ≡ option_map (λ (m : Member). text_of (dcf_sections m.sheet n m.node.name p.bitrate (writes_of p m n)))
        (member_at p n) }
{}

/// The image of a project, which a simulation asks, is made of what the parts are made from.
pub fn the_image_is_made_of_what_is_given()
    ensures roster { (p : Content) → image_of p asked.Roster ≡ RosterIs (Some (roster_made (roster_from p))) }
    ensures defaults { (p : Content) (n : ℕ)
        → image_of p (asked.Defaults n) ≡ DefaultsAre (option_map (λ d. (device_parts d).defaults) (device_from p n)) }
    ensures shape { (p : Content) (n : ℕ)
        → image_of p (asked.Shape n) ≡ ShapeIs (option_map (λ d. (device_parts d).shape) (device_from p n)) }
    ensures expect { (p : Content) (n : ℕ)
        → image_of p (asked.Expect n) ≡ ExpectIs (option_map (λ d. (device_parts d).expect) (device_from p n)) }
    ensures writes { (p : Content) (n place : ℕ) → image_of p (asked.Boot n place)
        ≡ BootIs (option_and_then (λ ws. slice_get ws place) (option_map writes_made (writes_from p n))) }
    ensures events { (p : Content) (i : ℕ) → image_of p (asked.Events i) ≡ EventsAre (unless_none (window_steps p i)) }
{}

/// An edit that is taken leaves what each part is to be made from, but for the parts that it touches.
#[tactic(auto, using(crate::proofs::FrameLemmas::frame))]
pub fn what_an_edit_does_not_touch_is_made_as_before()
    ensures { (p q : Content) (edit : Edit) (part : Part) → accept p edit ≡ Ok q → is_touched p edit part ≡ false
        → inputs_of q part ≡ inputs_of p part }
{}
