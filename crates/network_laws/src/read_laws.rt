//! Laws of what a bus reads of an image, each a function whose contract is the law.

ghost use Rattle.std.specs.Prelude.{◌≡◌, ◌≢◌, ◌+◌, ◌∷◌, [], ℕ, All, List, Some, None, true, false};
ghost use Rattle.image_parts.specs.Asking.{reads};
ghost use Rattle.network_laws.specs.Reads.{IsNoPartOfBoot, IsReadAt};
ghost use Rattle.can_bus.specs.Bus.{instant, Bus};
ghost use Rattle.can_bus.specs.Spans.{bus_at};
ghost use Rattle.can_frame.specs.Frames.{BaseFrame};
ghost use Rattle.co_device.specs.Device.{after_power, reset_communication, after_reset_node, Device};
ghost use Rattle.co_device.specs.Receiving.{after_sync_at};
ghost use Rattle.image_parts.specs.Contents.{identity_of, roster_of, Image};
ghost use Rattle.image_parts.specs.Images.{IsImage};
ghost use Rattle.image_parts.specs.declared.identity.Identity.{Identity};
ghost use Rattle.image_parts.specs.declared.part.Part.TheVariants as part;
ghost use Rattle.sdo_client.specs.Client.{after_answer};
ghost use Rattle.sdo_client.specs.declared.progress.Progress.TheVariants as progress;
ghost use Rattle.sdo_client.specs.declared.client_transfer.ClientTransfer.{ClientTransfer as Transfer};
ghost use Rattle.device_pdos.specs.Rpdos.{rpdo_at};
ghost use Rattle.node_boot.specs.Boot.{boot_nmt_slave, is_as_expected, next_compared, sdo_answer};
ghost use Rattle.node_boot.specs.declared.boot_stage.BootStage.TheVariants as stage;

/// An instant reads nothing but what the table of parts says: the events of a window that starts; the values and
/// the entries of a node other than the manager's own that an event switches on; and of the frame that is delivered,
/// those of a device that it resets, the entries of one that takes it as a request or applies an RPDO's frame, what the
/// manager expects of a node whose boot it begins, and the write that it asks for next.
#[tactic(auto, using(crate::proofs::AskLemmas::instant_reads))]
pub fn an_instant_reads_nothing_else()
    ensures { (image : Image) (t : ℕ) (s : Bus) → All (λ r. IsReadAt image t s r.0) (reads (instant t s) image) }
{}

/// Nothing is read to boot the node that the manager runs in: in no instant of a run what is expected of it, or a write
/// of it.
pub fn nothing_is_read_to_boot_the_controller()
    ensures { (image : Image) → IsImage image → (t : ℕ)
        → All (λ r. IsNoPartOfBoot (roster_of (image part.Roster)).manager r.0)
        (reads (instant t (bus_at image t)) image) }
{}

/// A reset and a power-on read the values that the device takes then, and its entries; where power stays as it was, or
/// goes, nothing is read.
#[tactic(auto, using(crate::proofs::RowLemmas::node_reads, crate::proofs::RowLemmas::communication_reads, crate::proofs::RowLemmas::switched_reads, crate::proofs::RowLemmas::on_reads, crate::proofs::RowLemmas::off_reads))]
pub fn a_reset_reads_values_and_entries()
    ensures node { (image : Image) (t : ℕ) (d : Device) → reads (after_reset_node t d) image
        ≡ (part.Defaults d.number, image (part.Defaults d.number))
        ∷ (part.Shape d.number, image (part.Shape d.number)) ∷ [] }
    ensures communication { (image : Image) (t : ℕ) (d : Device) → reads (reset_communication t d) image
        ≡ (part.Defaults d.number, image (part.Defaults d.number))
        ∷ (part.Shape d.number, image (part.Shape d.number)) ∷ [] }
    ensures power { (image : Image) (t : ℕ) (d : Device) → d.has_power ≡ false → reads (after_power true t d) image
        ≡ (part.Defaults d.number, image (part.Defaults d.number))
        ∷ (part.Shape d.number, image (part.Shape d.number)) ∷ [] }
    ensures stays { (image : Image) (t : ℕ) (d : Device) → d.has_power ≡ true
        → reads (after_power true t d) image ≡ [] }
    ensures goes { (image : Image) (t : ℕ) (d : Device) → reads (after_power false t d) image ≡ [] }
{}

/// At a SYNC an RPDO reads the device's entries once where it keeps a frame, and else nothing.
#[tactic(auto, using(crate::proofs::RowLemmas::none_kept_reads, crate::proofs::RowLemmas::kept_reads))]
pub fn a_sync_reads_entries_for_each_kept_frame()
    ensures none { (image : Image) (t : ℕ) (d : Device) (i : ℕ)
        → (rpdo_at d.rpdos i).kept ≡ None → reads (after_sync_at t i d) image ≡ [] }
    ensures kept { (image : Image) (t : ℕ) (d : Device) (frame : BaseFrame) (i : ℕ)
        → (rpdo_at d.rpdos i).kept ≡ Some frame
        → reads (after_sync_at t i d) image ≡ (part.Shape d.number, image (part.Shape d.number)) ∷ [] }
{}

/// A boot-up message has what is expected of the node read, and its first write where no number is expected.
#[tactic(auto, using(crate::proofs::RowLemmas::boot_up_compares, crate::proofs::RowLemmas::boot_up_writes))]
pub fn a_boot_up_reads_what_is_expected()
    ensures numbers { (image : Image) (deadline node : ℕ)
        → next_compared (identity_of (image (part.Expect node))) 0 ≢ None
        → reads (boot_nmt_slave deadline node) image ≡ (part.Expect node, image (part.Expect node)) ∷ [] }
    ensures none { (image : Image) (deadline node : ℕ) → next_compared (identity_of (image (part.Expect node))) 0 ≡ None
        → reads (boot_nmt_slave deadline node) image
        ≡ (part.Expect node, image (part.Expect node)) ∷ (part.Boot node 0, image (part.Boot node 0)) ∷ [] }
{}

/// The first write is read once the last expected number has been read and is right, and each further one once the
/// write before it is confirmed: a write of a node is read when it is its turn, and none before.
#[tactic(auto, using(crate::proofs::RowLemmas::compared_writes, crate::proofs::RowLemmas::confirmed_writes))]
pub fn each_write_is_read_in_its_turn()
    ensures first { (image : Image) (deadline node : ℕ) (transfer : Transfer) (old : ℕ) (answer : List ℕ)
        (expected : Identity) (place : ℕ) (bytes : List ℕ)
        → (after_answer transfer answer).progress ≡ Some (progress.Read bytes)
        → is_as_expected expected place bytes ≡ true → next_compared expected (place + 1) ≡ None
        → reads (sdo_answer deadline node (stage.Comparing place expected transfer old) answer) image
        ≡ (part.Boot node 0, image (part.Boot node 0)) ∷ [] }
    ensures next { (image : Image) (deadline node : ℕ) (transfer : Transfer) (old : ℕ) (answer : List ℕ) (j : ℕ)
        → (after_answer transfer answer).progress ≡ Some progress.Written
        → reads (sdo_answer deadline node (stage.Writing j transfer old) answer) image
        ≡ (part.Boot node (j + 1), image (part.Boot node (j + 1))) ∷ [] }
{}
