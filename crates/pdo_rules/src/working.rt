//! Which PDOs of a device work.

ghost use Rattle.std.specs.Prelude.{◌≡◌, ◌≤◌};
ghost use Rattle.pdo_rules.specs.Working.{cob_id_of, has_frames, has_mapping, identifier_of, is_pdo as is_object_of_pdo};
ghost use Rattle.cia301.specs.PdoObjects.{mapping_object};
ghost use Rattle.pdo_rules.specs.Working.{works as works_now};

use cia301::{CobId, Identifier, mapping_object};
use co_dict::{Dict, Shape, check_mapping};

/// Whether a communication object, at most FDFFh, is that of a PDO: its sub-index 1 is an UNSIGNED32,
/// and sub-index 0 of the mapping object, 200h above, is an UNSIGNED8.
#[tactic(auto, unfolding(crate::specs::Working::is_pdo))]
pub fn is_pdo(shape: &Shape, object: u16) -> bool
    requires { object ≤ 0xFDFF }
    ensures { result ≡ is_object_of_pdo shape.now object }
{
    shape.has_unsigned32(object, 1) && shape.has_unsigned8(mapping_object(object), 0)
}

/// The COB-ID of a PDO, by its communication object: sub-index 1.
fn cob_id(dict: &Dict, object: u16) -> CobId
    ensures { result ≡ cob_id_of dict.now object }
{
    CobId::of(dict.number_32(object, 1))
}

/// The identifier of a PDO's frames, by its communication object: that of its COB-ID.
pub(crate) fn identifier(dict: &Dict, object: u16) -> Identifier
    ensures { result ≡ identifier_of dict.now object }
{
    cob_id(dict, object).identifier()
}

/// Whether a PDO with a COB-ID exists, with base frames of an identifier that a PDO may have.
#[tactic(auto, unfolding(crate::specs::Working::has_frames))]
fn has_frames(cob_id: CobId) -> bool
    ensures { result ≡ has_frames cob_id }
{
    cob_id.is_valid() && cob_id.is_of_base_frames() && !cob_id.identifier().is_restricted()
}

/// Whether something is mapped, and a PDO can carry it.
#[tactic(auto, unfolding(crate::specs::Working::has_mapping))]
fn has_mapping(shape: &Shape, dict: &Dict, object: u16) -> bool
    requires { object ≤ 0xFDFF }
    ensures { result ≡ has_mapping shape.now dict.now object }
{
    let mapping = mapping_object(object);
    let count = dict.number_8(mapping, 0);
    count > 0 && check_mapping(shape, dict, mapping, count).is_ok()
}

/// Whether the PDO with a communication object, at most FDFFh, works (CiA 301): it is one, bits 31
/// and 29 of its COB-ID are clear, its identifier is none that no PDO may have, and something is mapped
/// that it can carry (`check_mapping`). Needs no memory.
#[tactic(auto, unfolding(crate::specs::Working::works))]
pub fn works(shape: &Shape, dict: &Dict, object: u16) -> bool
    requires { object ≤ 0xFDFF }
    ensures { result ≡ works_now shape.now dict.now object }
{
    is_pdo(shape, object) && has_frames(cob_id(dict, object)) && has_mapping(shape, dict, object)
}
