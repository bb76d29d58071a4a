//! Laws of events, each a function whose contract is the law.

ghost use Rattle.std.specs.Prelude.{◌≡◌, ℕ, Bool, List};
ghost use Rattle.image_parts.specs.Asking.{outcome};
ghost use Rattle.bus_devices.specs.Events.{after_event};
ghost use Rattle.bus_devices.specs.Others.{OthersStay};
ghost use Rattle.co_device.specs.Device.{Device};
ghost use Rattle.image_parts.specs.Contents.{Image};
ghost use Rattle.co_scenario.specs.declared.nmt_command.NmtCommand.{NmtCommand};
ghost use Rattle.co_scenario.specs.declared.step.Step.TheVariants as step;
ghost use Rattle.nmt_boot.specs.Manager.{Manager as State};

/// An entry that is set and power that is switched leave each device but those of their number, and the manager;
/// a command leaves all devices.
#[tactic(auto, using(crate::proofs::OtherLemmas::set_others, crate::proofs::OtherLemmas::set_manager, crate::proofs::OtherLemmas::power_others, crate::proofs::OtherLemmas::power_manager, crate::proofs::OtherLemmas::command_devices))]
pub fn an_event_changes_its_node_alone()
    ensures set { (image : Image) (t : ℕ) (ds : List Device) (m : State) (node index sub : ℕ) (bytes : List ℕ)
        → OthersStay node ds (outcome (after_event t (step.Set node index sub bytes) (ds, m)) image).0 }
    ensures set_manager { (image : Image) (t : ℕ) (ds : List Device) (m : State) (node index sub : ℕ) (bytes : List ℕ)
        → (outcome (after_event t (step.Set node index sub bytes) (ds, m)) image).1 ≡ m }
    ensures power { (image : Image) (t : ℕ) (ds : List Device) (m : State) (node : ℕ) (on : Bool)
        → OthersStay node ds (outcome (after_event t (step.Power node on) (ds, m)) image).0 }
    ensures power_manager { (image : Image) (t : ℕ) (ds : List Device) (m : State) (node : ℕ) (on : Bool)
        → (outcome (after_event t (step.Power node on) (ds, m)) image).1 ≡ m }
    ensures command { (image : Image) (t : ℕ) (ds : List Device) (m : State) (node : ℕ) (command : NmtCommand)
        → (outcome (after_event t (step.Nmt node command) (ds, m)) image).0 ≡ ds }
{}
