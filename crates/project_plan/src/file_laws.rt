//! Laws of the DCF of a node of a sound project (CiA 306), read again.
ghost use Rattle.std.specs.Prelude.{◌≡◌, ◌≤◌, ℕ, List, length, false, true, Ok};
ghost use Rattle.std.specs.FinMap as map;
ghost use Rattle.ini_text.specs.Content.{content_of};
ghost use Rattle.std.specs.List.{list_any};
ghost use Rattle.ini_text.specs.Text.{is_long_line, has_bad_byte};
ghost use Rattle.base.specs.Lines.{lines_of};
ghost use Rattle.project_edits.specs.Eds.{most_bytes, most_lines, IsEds};
ghost use Rattle.project_edits.specs.Forms.{is_name};
ghost use Rattle.eds_device.specs.Entries.{entry_at};
ghost use Rattle.eds_device.specs.Faults.{device_of};
ghost use Rattle.node_parameters.specs.Parameters.{parameter_writes};
ghost use Rattle.eds_dcf.specs.Writes.{last_of};
ghost use Rattle.co_project.specs.Project.{Content};
ghost use Rattle.project_plan.specs.Network.{writes_of, Member};
ghost use Rattle.project_plan.specs.Files.{dcf_text, sheet_of_dcf, value_in_file};
ghost use Rattle.project_plan.specs.Nodes.{IsSoundNode};

/// The values that a DCF gives, read by the version of its project, are exactly those that the writes of its node leave,
/// of its parameters and of the PDOs that the plan gives it: each written entry has its last value, and no other entry
/// has one.
pub fn a_dcf_gives_what_its_node_is_written()
    ensures { (project : Content) (id : ℕ) (m : Member) (place : ℕ × ℕ) → IsSoundNode project id m
        → value_in_file (sheet_of_dcf project id m) id place ≡ last_of (writes_of project m id) place }
{}

/// Read by the version of its project, as the device of a node that sets nothing itself, a DCF gives the parameters of
/// its node.
pub fn a_dcf_gives_the_parameters_of_its_node()
    ensures { (project : Content) (id : ℕ) (m : Member) → IsSoundNode project id m
        → parameter_writes (sheet_of_dcf project id m) map.empty id ≡ parameter_writes m.sheet m.node.params id }
{}

/// A DCF of at most 1,048,576 bytes can be taken in as an EDS: it is the text of a device, which in the version of its
/// project has the entries of its node's EDS as that describes them. It has no byte that a text may not have, and no
/// line that is too long.
pub fn a_dcf_is_the_text_of_a_device()
    ensures device { (project : Content) (id : ℕ) (m : Member) → IsSoundNode project id m
        → length (dcf_text project id m) ≤ most_bytes
        → device_of (dcf_text project id m) ≡ Ok (content_of (dcf_text project id m)) }
    ensures bytes { (project : Content) (id : ℕ) (m : Member) → IsSoundNode project id m
        → has_bad_byte (dcf_text project id m) ≡ false }
    ensures lines { (project : Content) (id : ℕ) (m : Member) → IsSoundNode project id m
        → list_any is_long_line (lines_of (dcf_text project id m)) ≡ false }
    ensures entries { (project : Content) (id : ℕ) (m : Member) (index sub : ℕ) → IsSoundNode project id m
        → entry_at (sheet_of_dcf project id m) id index sub ≡ entry_at m.sheet id index sub }
{}

/// So the `eds` command takes a DCF in as an EDS, where it has also at most 65,536 lines.
pub fn a_dcf_can_be_taken_in()
    ensures { (project : Content) (id : ℕ) (m : Member) (name : List ℕ) → IsSoundNode project id m → is_name name ≡ true
        → length (lines_of (dcf_text project id m)) ≤ most_lines
        → length (dcf_text project id m) ≤ most_bytes
        → IsEds name (dcf_text project id m) }
{}
