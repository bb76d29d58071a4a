//! The objects of the communication profile area that a device goes by (CiA 301): error register, COB-ID
//! SYNC, synchronous counter overflow value, consumer and producer heartbeat time; and the values and
//! entries that it asks for.
#![tactic(auto)]

mod consumer;
mod consumers;
mod defaults;
mod emergencies;
pub mod laws;
mod learnt;
mod profile;
mod reception;
mod shapes;

pub use consumer::Consumer;
pub use consumers::{
    any_expects, any_failed, consumers_of, expire, failures, forget, hear, next_moment,
    same_consumers,
};
pub use defaults::{communication_restored, values_of};
pub use emergencies::emergency_frame;
pub use learnt::Learnt;
pub use profile::{
    clear_error, counter_overflow, error_register, next_heartbeat, set_error, sync_identifier,
};
pub use reception::Reception;
pub use shapes::{Shapes, shape_or, without_entries};
