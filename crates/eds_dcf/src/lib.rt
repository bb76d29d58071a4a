//! The DCF text of a device with the values that writes leave (CiA 306).
#![tactic(auto)]

mod commissioning;
mod compact;
mod entry;
pub mod laws;
mod printing;
mod setting;
mod template;
mod text;
mod values;
mod written;

pub use eds_device::DataSheet as Device;
pub use template::Template;
pub use text::dcf_text;
