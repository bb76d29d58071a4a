//! Lists of dictionary writes as a concise DCF (CiA 302), and back.
#![tactic(auto)]

mod decoding;
mod encoding;
mod fault;
pub mod laws;
mod write;

pub use decoding::decode;
pub use encoding::encode;
pub use fault::ConciseFault;
pub use write::{Write, same_writes};
