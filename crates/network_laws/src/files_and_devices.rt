//! What the files say is what the devices hold: laws of the runs of a bus, each a function whose contract is the law.

ghost use Rattle.std.specs.Prelude.{◌≡◌, ◌⊎◌, ◌↔◌, ◌+◌, ◌<◌, ◌++◌, ◌∷◌, ◌≢◌, ℕ, true, false, All, Contains, List};
ghost use Rattle.std.specs.Prelude.{length, slice_get};
ghost use Rattle.image_parts.specs.Asking.{outcome};
ghost use Rattle.network_laws.specs.Requests.{requests_to};
ghost use Rattle.manager_nodes.specs.Table.{node_at};
ghost use Rattle.bus_devices.specs.Places.{device_at};
ghost use Rattle.can_bus.specs.Spans.{bus_at};
ghost use Rattle.can_bus.specs.Bus.{instant};
ghost use Rattle.can_bus.specs.declared.line.Line.TheVariants as line;
ghost use Rattle.co_device.specs.Device.{Device};
ghost use Rattle.image_parts.specs.Contents.{Image, roster_of, write_of};
ghost use Rattle.image_parts.specs.Images.{IsImage};
ghost use Rattle.concise_dcf.specs.Concise.{IsTextOf};
ghost use Rattle.concise_dcf.specs.declared.write.Write.{Write};
ghost use Rattle.network_laws.specs.Written.{Written};
ghost use Rattle.network_laws.specs.Exchanges.{Exchanges};
ghost use Rattle.image_parts.specs.Configured.{Configures, HasWritesUpTo, HoldsItsWrites, producer_time};
ghost use Rattle.network_laws.specs.Files.{HasData, HasConfigured, IsExcepted, IsGivenBy};
ghost use Rattle.image_parts.specs.Configured.{IsWrite};
ghost use Rattle.network_laws.specs.Files.{IsUp};
ghost use Rattle.concise_dcf.specs.Writes.{place_of};
ghost use Rattle.network_laws.specs.Marks.{MarkedEntries, after_writes, is_marking, is_write_of, marks_at};
ghost use Rattle.network_laws.specs.Since.{marks_since};
ghost use Rattle.nmt_boot.specs.Ends.{configured_note};

use image_parts::Part;

/// WHAT THE FILES SAY IS WHAT THE DEVICES HOLD. Under every image and at every moment of its run: a node that the
/// manager has configured, that has power, and of which no boot-up message waits or is on the wire, holds at every
/// entry that its writes name the data of its last write there. Excepted are the error register, and the entries that
/// are marked.
pub fn files_match_devices()
    ensures { (image : Image) → IsImage image → (t node : ℕ) (d : Device)
        → HasConfigured (bus_at image (t + 1)) node → IsUp (bus_at image (t + 1)) node d
        → (place : ℕ × ℕ) (bytes : List ℕ) → Configures image node place bytes
        → IsExcepted (marks_at image (t + 1) node) place ⊎ HasData d.values place bytes }
{}

/// What the files give an entry. Each entry that a write of a node names, in an image, has data by the files: that of
/// the last write there; and it has no other. Where the node's writes are those of a list, and a text is the concise
/// DCF of the list, the data is that of the last write in the text that names the entry.
pub fn each_entry_that_is_written_has_a_last_write()
    ensures some { (image : Image) → IsImage image → (node number : ℕ) (write : Write)
        → IsWrite image node number write → HasWritesUpTo image node number
        → (bytes : List ℕ) × Configures image node (place_of write) bytes }
    ensures one { (image : Image) (node : ℕ) (place : ℕ × ℕ) (one other : List ℕ)
        → Configures image node place one → Configures image node place other → one ≡ other }
    ensures listed { (image : Image) (node : ℕ) (writes : List Write) (text : List ℕ)
        → ((number : ℕ) → write_of (image (Part.Boot node number)) ≡ slice_get writes number)
        → IsTextOf writes text → (place : ℕ × ℕ) (bytes : List ℕ)
        → Configures image node place bytes ↔ IsGivenBy text place bytes }
{}

/// The last write of an entry marks it, or takes the mark away: it is marked where an event or an RPDO wrote it, and
/// isn't where an SDO download did. A write of another entry, or of another node, leaves it as it was.
pub fn the_last_write_marks_its_entry_or_takes_the_mark_away()
    ensures last { (marks : MarkedEntries) (before later : List Written) (w : Written) (node : ℕ) (place : ℕ × ℕ)
        → w.node ≡ node → w.place ≡ place → All (λ v. is_write_of v node place ≡ false) later
        → after_writes marks (before ++ w ∷ later) node place ≡ is_marking w.by }
    ensures others { (marks : MarkedEntries) (writes : List Written) (node : ℕ) (place : ℕ × ℕ)
        → All (λ v. is_write_of v node place ≡ false) writes → after_writes marks writes node place ≡ marks node place }
{}

/// At every moment of a run, of each node that has power and of which no boot-up message waits: its boot-up message is
/// on the wire, and no SDO answer of it waits; or of the SDO frames between the manager and it as many are under way,
/// one at most, as the stage of its boot has it, with the open transfer of its server and with what the writes so far
/// gave. The device and the manager's node at one place are of one number.
pub fn each_exchange_is_as_its_stage_has_it()
    ensures exchange { (image : Image) → IsImage image → (t i : ℕ) → i < length (bus_at image t).devices
        → Exchanges image (device_at (bus_at image t).devices i).number
        (marks_at image t (device_at (bus_at image t).devices i).number) (device_at (bus_at image t).devices i)
        (node_at (bus_at image t).manager.nodes i).stage
        (requests_to (device_at (bus_at image t).devices i).number (bus_at image t).manager.waiting)
        (bus_at image t).wire }
    ensures number { (image : Image) → IsImage image → (t i : ℕ) → i < length (bus_at image t).devices
        → (node_at (bus_at image t).manager.nodes i).number ≡ (device_at (bus_at image t).devices i).number }
{}

/// What a note is worth: a node that an instant notes as configured is so after it, and holds its files wherever it has
/// power and no boot-up message of it waits or is on the wire.
pub fn a_node_that_is_noted_configured_holds_its_files()
    ensures configured { (image : Image) (t node : ℕ)
        → Contains (outcome (instant t (bus_at image t)) image).1 (line.Note t (configured_note node))
        → HasConfigured (bus_at image (t + 1)) node }
    ensures holds { (image : Image) → IsImage image → (t node : ℕ) (d : Device)
        → Contains (outcome (instant t (bus_at image t)) image).1 (line.Note t (configured_note node))
        → IsUp (bus_at image (t + 1)) node d
        → (place : ℕ × ℕ) (bytes : List ℕ) → Configures image node place bytes
        → IsExcepted (marks_at image (t + 1) node) place ⊎ HasData d.values place bytes }
{}

/// THE CONTROLLER HOLDS ITS FILES BY ITSELF. Under every image by which the device that the manager runs in holds its
/// writes, and at every moment of its run: that device has power, and holds at every entry that its writes name, but
/// for its producer heartbeat time, the data of the last write there. Excepted are the error register, and the entries
/// that an event or an RPDO wrote since the entry last took its default: at the last reset of the node or, in 1000h to
/// 1FFFh, of its communication.
pub fn the_controller_holds_its_files_by_itself()
    ensures { (image : Image) → IsImage image → HoldsItsWrites image (roster_of (image Part.Roster)).manager
        → (t : ℕ) (d : Device) → Contains (bus_at image t).devices d
        → d.number ≡ (roster_of (image Part.Roster)).manager
        → (d.has_power ≡ true) × ((place : ℕ × ℕ) (bytes : List ℕ) → place ≢ producer_time
        → Configures image d.number place bytes
        → IsExcepted (marks_since image t d.number) place ⊎ HasData d.values place bytes) }
{}
