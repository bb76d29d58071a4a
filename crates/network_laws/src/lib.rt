//! The laws of a network: of its devices, of the bus, of what it reads and of its runs; and what the files say is what
//! the devices hold. Below that last one stand the laws that it is put together of: of a download, request by request;
//! of the entries that a device's rules write; of the frames that wait at a device; and of the SDO frames between the
//! manager and a node that boots.
#![tactic(auto)]

pub mod boot_exchanges;
pub mod bus_laws;
pub mod device_frames;
pub mod device_laws;
pub mod device_writes;
pub mod files_and_devices;
pub mod read_laws;
pub mod run_laws;
pub mod sdo_downloads;
