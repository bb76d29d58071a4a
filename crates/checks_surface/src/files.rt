//! Data sheets, DCFs and concise DCFs: `eds_dcf`, `concise_dcf`.

ghost use Rattle.std.specs.Prelude.{◌≤◌, length, All};
ghost use Rattle.co_values.specs.Values.{Fits};
ghost use Rattle.concise_dcf.specs.Writes.{IsSized};
ghost use Rattle.eds_device.specs.Described.{kind_at};

use base::Octets;
use co_dict::{Dict, Shape};
use concise_dcf::{ConciseFault, Write, decode, encode};
use eds_dcf::{Device, dcf_text};
use eds_device::DeviceFault;
use std::alloc::{AllocError, Global};

/// A data sheet is read, by the rules of version 3 or not.
pub fn read_device(alloc: Global, is_three: bool, text: &[u8]) -> Result<Device, DeviceFault> {
    Device::read(alloc, is_three, text)
}

/// Why a data sheet isn't read, by number.
pub fn device_fault(fault: DeviceFault) -> u8 {
    match fault {
        DeviceFault::Memory => 1,
        DeviceFault::Range => 3,
        DeviceFault::Limit => 7,
        DeviceFault::BadByte => 8,
    }
}

/// The entries of a device at a node.
pub fn shape(device: &Device, node: u8) -> Result<Shape, AllocError> {
    device.shape(node)
}

/// The values of a device at a node before any write.
pub fn defaults(device: &Device, node: u8) -> Result<Dict, AllocError> {
    device.defaults(node)
}

/// The device type and the identity object that a manager expects.
pub fn identity(device: &Device, node: u8) -> [u32; 5] {
    device.identity(node)
}

/// Whether a dummy can be mapped.
pub fn dummy_allowed(device: &Device, kind: u16) -> bool {
    device.dummy_allowed(kind)
}

/// The index and sub of each entry.
pub fn pairs(device: &Device) -> &[(u16, u8)] {
    device.pairs()
}

/// The text of an entry's default.
pub fn default_text(device: &Device, index: u16, sub: u8) -> Option<&[u8]> {
    device.default_text(index, sub)
}

/// The text of an entry's ParameterValue.
pub fn value_text(device: &Device, index: u16, sub: u8) -> Option<&[u8]> {
    device.value_text(index, sub)
}

/// The numbers of the lines that are warned of.
pub fn warnings(device: &Device) -> &[u32] {
    device.warnings()
}

/// The DCF of a node.
pub fn dcf(
    alloc: Global,
    device: &Device,
    node: u8,
    name: &[u8],
    bitrate: u16,
    writes: &[Write],
) -> Result<Vec<u8>, AllocError>
    requires { All (λ w. Fits (kind_at device.now (w.index, w.sub)) w.bytes) writes.now }
{
    dcf_text(alloc, device, node, name, bitrate, writes)
}

/// A write is its index, its sub and its bytes.
pub fn write(index: u16, sub: u8, bytes: Octets) -> Write {
    Write { index, sub, bytes }
}

/// The concise DCF of a list of writes.
pub fn encoded(alloc: Global, writes: &[Write]) -> Result<Vec<u8>, AllocError>
    requires count { length writes.now ≤ 4294967295 }
    requires sizes { All IsSized writes.now }
{
    encode(alloc, writes)
}

/// The list of writes of a concise DCF.
pub fn decoded(alloc: Global, bytes: &[u8]) -> Result<Vec<Write>, ConciseFault> {
    decode(alloc, bytes)
}

/// Why bytes aren't a concise DCF, by number.
pub fn concise_fault(fault: ConciseFault) -> u8 {
    match fault {
        ConciseFault::Memory => 1,
        ConciseFault::Short => 2,
        ConciseFault::Extra => 3,
        ConciseFault::Empty => 4,
    }
}
