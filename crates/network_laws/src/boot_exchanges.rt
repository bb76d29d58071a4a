//! Laws of the SDO frames between the manager and a node that boots, each a function whose contract is the law.

ghost use Rattle.std.specs.Prelude.{◌≡◌, ◌⊎◌, ◌+◌, ℕ, List, [], All, false, remove, true};
ghost use Rattle.image_parts.specs.Asking.{outcome};
ghost use Rattle.network_laws.specs.Requests.{HasManagerFrames, IsAlone, LeavesBoot};
ghost use Rattle.can_frame.specs.ErrorControl.{IsBootUp};
ghost use Rattle.cia301.specs.Limits.{IsNodeNumber};
ghost use Rattle.network_laws.specs.Requests.{StaysManager, TakesStep, requests_to};
ghost use Rattle.network_laws.specs.Steps.{ComparesOrWrites, FollowsAnswer};
ghost use Rattle.can_frame.specs.Frames.{BaseFrame};
ghost use Rattle.can_frame.specs.Identifiers.{sdo_answer_id};
ghost use Rattle.image_parts.specs.Contents.{Image};
ghost use Rattle.image_parts.specs.declared.roster.Roster.{Roster};
ghost use Rattle.co_scenario.specs.declared.nmt_command.NmtCommand.{NmtCommand};
ghost use Rattle.nmt_boot.specs.Manager.{Manager, after_frame, manager_at_power_on, timers, with_command};
ghost use Rattle.manager_nodes.specs.Table.{is_own, node_at};
ghost use Rattle.node_boot.specs.Boot.{boot_nmt_slave, sdo_answer};
ghost use Rattle.node_boot.specs.declared.boot_stage.BootStage.{BootStage as staged};
ghost use Rattle.node_boot.specs.declared.boot_stage.BootStage.TheVariants as stage;

/// Every frame that waits at the manager has the identifier of its purpose: the manager alone has SDO requests, each
/// to a node other than its own, and none of its frames is an SDO answer or the boot-up message of a node.
pub fn each_frame_of_the_manager_is_its_own()
    ensures power { (roster : Roster) → All IsNodeNumber roster.nodes → HasManagerFrames (manager_at_power_on roster) }
    ensures command { (c : NmtCommand) (node : ℕ) (m : Manager) → HasManagerFrames m
        → HasManagerFrames (with_command c node m) }
    ensures frame { (image : Image) (t : ℕ) (frame : BaseFrame) (m : Manager) → HasManagerFrames m
        → HasManagerFrames (outcome (after_frame t frame m) image).0 }
    ensures timers { (t : ℕ) (m : Manager) → HasManagerFrames m → HasManagerFrames (timers t m).0 }
    ensures sent { (place : ℕ) (m : Manager) → HasManagerFrames m
        → HasManagerFrames (record m { waiting = remove m.waiting place }) }
{}

/// The manager and its nodes keep their numbers.
#[tactic(auto, using(crate::proofs::OwnLemmas::command_stays, crate::proofs::OwnLemmas::frame_stays, crate::proofs::OwnLemmas::timers_stay))]
pub fn the_manager_stays_itself()
    ensures command { (c : NmtCommand) (node : ℕ) (m : Manager) → StaysManager m (with_command c node m) }
    ensures frame { (image : Image) (t : ℕ) (frame : BaseFrame) (m : Manager)
        → StaysManager m (outcome (after_frame t frame m) image).0 }
    ensures timers { (t : ℕ) (m : Manager) → StaysManager m (timers t m).0 }
{}

/// A boot-up message of a node begins its boot anew: the requests to it that wait are dropped, and the first request of
/// the boot alone waits, if it has one. That of the manager's own node begins none: its stage stays, and no request to
/// it comes.
pub fn a_boot_up_message_drops_the_requests_that_wait()
    ensures others { (image : Image) (t : ℕ) (frame : BaseFrame) (m : Manager) (i : ℕ) → IsAlone m.nodes i
        → is_own (node_at m.nodes i).stage ≡ false → IsBootUp (node_at m.nodes i).number frame
        → TakesStep i (outcome (boot_nmt_slave (t + m.timeout) (node_at m.nodes i).number) image) []
        m (outcome (after_frame t frame m) image).0 }
    ensures own { (image : Image) (t : ℕ) (frame : BaseFrame) (m : Manager) (i : ℕ) → IsAlone m.nodes i
        → is_own (node_at m.nodes i).stage ≡ true → IsBootUp (node_at m.nodes i).number frame
        → LeavesBoot i m (outcome (after_frame t frame m) image).0 }
{}

/// Any other frame is an SDO answer of the node, and its boot takes a step by it; or it leaves the boot and the
/// requests that wait.
#[tactic(auto, using(crate::proofs::NodeLemmas::frame_goes))]
pub fn an_answer_takes_the_boot_a_step_on()
    ensures { (image : Image) (t : ℕ) (frame : BaseFrame) (m : Manager) (i : ℕ) → IsAlone m.nodes i
        → (IsBootUp (node_at m.nodes i).number frame → ⊥)
        → ((frame.id ≡ sdo_answer_id (node_at m.nodes i).number)
        × TakesStep i (outcome (sdo_answer (t + m.timeout)
        (node_at m.nodes i).number (node_at m.nodes i).stage frame.bytes) image)
        (requests_to (node_at m.nodes i).number m.waiting) m (outcome (after_frame t frame m) image).0)
        ⊎ LeavesBoot i m (outcome (after_frame t frame m) image).0 }
{}

/// The timers of the manager leave the boot of a node and the requests that wait, or the boot has failed. A command
/// leaves both.
#[tactic(auto, using(crate::proofs::NodeLemmas::timers_go, crate::proofs::NodeLemmas::command_leaves))]
pub fn timers_leave_a_boot_or_end_it()
    ensures timers { (t : ℕ) (m : Manager) (i : ℕ) → IsAlone m.nodes i
        → ((node_at (timers t m).0.nodes i).stage ≡ stage.Failed) ⊎ LeavesBoot i m (timers t m).0 }
    ensures command { (c : NmtCommand) (node : ℕ) (m : Manager) (i : ℕ) → LeavesBoot i m (with_command c node m) }
{}

/// What the steps of a boot are: a boot begins with comparing or with the first write, and each answer goes on from
/// there.
#[tactic(auto, using(crate::proofs::StepLemmas::boot_begins, crate::proofs::StepLemmas::answer_followed))]
pub fn the_steps_of_a_boot()
    ensures begins { (image : Image) (deadline node : ℕ)
        → ComparesOrWrites image deadline node (outcome (boot_nmt_slave deadline node) image)
        (outcome (boot_nmt_slave deadline node) image).stage }
    ensures goes_on { (image : Image) (deadline node : ℕ) (s : staged) (answer : List ℕ)
        → FollowsAnswer image deadline node answer (outcome (sdo_answer deadline node s answer) image) s }
{}
