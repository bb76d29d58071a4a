//! The identifiers of the predefined connection set (CiA 301), but for those of PDOs. A node is 1 to
//! 127.
ghost use Rattle.std.specs.Prelude.{◌≡◌};
ghost use Rattle.can_frame.specs.Identifiers.{nmt_id, sync_id, emergency_id, sdo_answer_id, sdo_request_id};
ghost use Rattle.can_frame.specs.Identifiers.{error_control_id, time_id};

/// That of what the network management commands: 000h.
pub fn nmt() -> u16
    ensures { result ≡ nmt_id }
{
    0x000
}

/// That of the synchronization object: 080h.
pub fn sync() -> u16
    ensures { result ≡ sync_id }
{
    0x080
}

/// That of the time stamp object: 100h.
pub fn time() -> u16
    ensures { result ≡ time_id }
{
    0x100
}

/// That of the emergency object of a node: 080h + node.
pub fn emergency(node: u8) -> u16
    ensures { result ≡ emergency_id node }
{
    0x080 + u16::from(node)
}

/// That of the answers of the SDO server of a node: 580h + node.
pub fn sdo_answer(node: u8) -> u16
    ensures { result ≡ sdo_answer_id node }
{
    0x580 + u16::from(node)
}

/// That of the requests to the SDO server of a node: 600h + node.
pub fn sdo_request(node: u8) -> u16
    ensures { result ≡ sdo_request_id node }
{
    0x600 + u16::from(node)
}

/// That of boot-up and heartbeat of a node: 700h + node.
pub fn error_control(node: u8) -> u16
    ensures { result ≡ error_control_id node }
{
    0x700 + u16::from(node)
}
