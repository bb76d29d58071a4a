//! What a frame is to a device.

ghost use Rattle.std.specs.Prelude.{◌≡◌, ◌-◌, slice_index_or, Some, None, if◌then◌else◌};
ghost use Rattle.device_objects.specs.Reception.{is_addressed as is_to_node, is_error_control, nmt_reception};
ghost use Rattle.device_objects.specs.Reception.{error_control_reception, reception_with_power};

use can_frame::{Frame, identifiers};

/// What a frame is to a device (CiA 301).
#[derive(Clone, Copy, Debug)]
pub enum Reception {
    /// Nothing.
    Nothing,
    /// The NMT service of this number, to its node or to all.
    NmtService(u8),
    /// A SYNC message.
    Sync,
    /// A request to its SDO server.
    SdoRequest,
    /// The boot-up message or a heartbeat of this node, another one.
    ErrorControl(u8),
    /// The frame of a PDO, if it is anything.
    Pdo,
}

/// Whether the message of an NMT service is to a node, or to all: it has two bytes, the second the node's
/// number or 0.
fn is_addressed(number: u8, bytes: &[u8]) -> bool
    ensures { result ≡ is_to_node number bytes.now }
{
    bytes.len() == 2 && (bytes[1] == 0 || bytes[1] == number)
}

/// The first byte, by which the message of an NMT service tells the service; 0 where there is none.
fn service_of(bytes: &[u8]) -> u8
    ensures { result ≡ slice_index_or bytes.now 0 0 }
{
    bytes.get(0).copied().unwrap_or(0)
}

/// The node whose boot-up message or heartbeat a frame is, if it is one: its identifier is 701h to 77Fh,
/// and it has one byte.
fn producer_of(frame: &Frame) -> Option<u8>
    ensures { result ≡ (if is_error_control frame.now then Some (frame.now.id - 0x700) else None) }
{
    match frame.id() {
        id @ 0x701..=0x77F if frame.bytes().len() == 1 => Some((id - 0x700) as u8),
        _ => None,
    }
}

impl Reception {
    /// What a message of the network management is to a node.
    fn of_nmt_message(number: u8, bytes: &[u8]) -> Reception
        ensures { result ≡ nmt_reception number bytes.now }
    {
        if is_addressed(number, bytes) {
            Reception::NmtService(service_of(bytes))
        } else {
            Reception::Nothing
        }
    }

    /// What an error control message of a node is to a device: nothing, where it has the device's own number, since the
    /// manager that runs in it sends it.
    fn of_error_control(number: u8, producer: u8) -> Reception
        ensures { result ≡ error_control_reception number producer }
    {
        if producer == number {
            Reception::Nothing
        } else {
            Reception::ErrorControl(producer)
        }
    }

    /// What a frame is to a device with power, of this number and with this identifier of SYNC. Takes constant
    /// time.
    #[tactic(auto, unfolding(crate::specs::Reception::reception_with_power))]
    pub fn of(number: u8, sync: u16, frame: &Frame) -> Reception
        ensures { result ≡ reception_with_power number sync frame.now }
    {
        let bytes = frame.bytes();
        if frame.id() == identifiers::nmt() {
            return Reception::of_nmt_message(number, bytes);
        }
        if frame.id() == sync {
            return Reception::Sync;
        }
        if frame.id() == identifiers::sdo_request(number) && bytes.len() == 8 {
            return Reception::SdoRequest;
        }
        match producer_of(frame) {
            Some(producer) => Reception::of_error_control(number, producer),
            None => Reception::Pdo,
        }
    }
}
