//! The error register, the identifier and the counter of SYNC messages, and the producer heartbeat time.

ghost use Rattle.std.specs.Prelude.{◌≡◌, ◌<◌, OnErr, OnOk};
ghost use Rattle.device_objects.specs.Profile.{without_error_bits, error_register as register_of, with_error_bits};
ghost use Rattle.device_objects.specs.Profile.{next_heartbeat as next_of, producer_heartbeat_time};
ghost use Rattle.device_objects.specs.Profile.{counter_overflow as overflow_of};
ghost use Rattle.device_objects.specs.Profile.{sync_identifier as identifier_of_sync, with_register};

use crate::learnt::Learnt;
use base::moment_after;
use can_frame::identifiers;
use cia301::CobId;
use co_dict::Dict;
use image_parts::END;
use std::alloc::AllocError;

/// The index of the error register (CiA 301), which has sub-index 0.
const ERROR_REGISTER: u16 = 0x1001;

/// The index of the COB-ID of SYNC messages, which has sub-index 0.
const SYNC_COB_ID: u16 = 0x1005;

/// The index of the producer heartbeat time, which has sub-index 0.
const PRODUCER_HEARTBEAT_TIME: u16 = 0x1017;

/// The index of the synchronous counter overflow value, which has sub-index 0.
const SYNC_COUNTER_OVERFLOW: u16 = 0x1019;

/// Bit 0 of the error register, generic error, and bit 4, communication error.
const ERROR_BITS: u8 = 0x11;

/// The identifier of SYNC messages (CiA 301), 0 to 7FFh: bits 0 to 10 of their COB-ID, and 080h where the
/// device has none.
#[tactic(auto, unfolding(crate::specs::Profile::sync_identifier))]
pub fn sync_identifier(learnt: Learnt, values: &Dict) -> u16
    ensures { result ≡ identifier_of_sync learnt values.now }
{
    if learnt.has_sync_cob_id {
        CobId::of(values.number_32(SYNC_COB_ID, 0))
            .identifier()
            .number()
    } else {
        identifiers::sync()
    }
}

/// The synchronous counter overflow value (CiA 301); 0, also where the device has none, is that it counts no
/// SYNCs.
#[tactic(auto, unfolding(crate::specs::Profile::counter_overflow))]
pub fn counter_overflow(learnt: Learnt, values: &Dict) -> u8
    ensures { result ≡ overflow_of learnt values.now }
{
    if learnt.has_counter_overflow {
        values.number_8(SYNC_COUNTER_OVERFLOW, 0)
    } else {
        0
    }
}

/// The producer heartbeat time in milliseconds; 0 is off.
fn producer_heartbeat_time(learnt: Learnt, values: &Dict) -> u16
    ensures { result ≡ producer_heartbeat_time learnt values.now }
{
    if learnt.has_producer_time {
        values.number_16(PRODUCER_HEARTBEAT_TIME, 0)
    } else {
        0
    }
}

/// The moment of the next heartbeat of a device that starts its heartbeat or sends one at the moment t,
/// in microseconds; none where its producer heartbeat time (CiA 301) is 0.
#[tactic(auto, unfolding(crate::specs::Profile::next_heartbeat))]
pub fn next_heartbeat(t: u64, learnt: Learnt, values: &Dict) -> Option<u64>
    requires { t < END }
    ensures { result ≡ next_of t learnt values.now }
{
    moment_after(t, 1000 * u64::from(producer_heartbeat_time(learnt, values)))
}

/// The error register (CiA 301); 0 where the device has none.
#[tactic(auto, unfolding(crate::specs::Profile::error_register))]
pub fn error_register(learnt: Learnt, values: &Dict) -> u8
    ensures { result ≡ register_of learnt values.now }
{
    if learnt.has_error_register {
        values.number_8(ERROR_REGISTER, 0)
    } else {
        0
    }
}

/// The error register gets a value, where the device has one. Want of memory changes nothing.
fn write_register(learnt: Learnt, register: u8, values: &mut Dict) -> Result<(), AllocError>
    ensures ok { OnOk result (values.new ≡ with_register learnt register values.old) }
    ensures err { OnErr result (values.new ≡ values.old) }
{
    if !learnt.has_error_register {
        return Ok(());
    }
    values.write(ERROR_REGISTER, 0, &[register])
}

/// Sets the bits of a generic error and of a communication error in the error register (CiA 301). Want
/// of memory changes nothing.
#[tactic(auto, unfolding(crate::specs::Profile::with_error_bits))]
pub fn set_error(learnt: Learnt, values: &mut Dict) -> Result<(), AllocError>
    ensures ok { OnOk result (values.new ≡ with_error_bits learnt values.old) }
    ensures err { OnErr result (values.new ≡ values.old) }
{
    let register = error_register(learnt, values);
    write_register(learnt, register | ERROR_BITS, values)
}

/// Clears both bits. Want of memory changes nothing.
#[tactic(auto, unfolding(crate::specs::Profile::without_error_bits))]
pub fn clear_error(learnt: Learnt, values: &mut Dict) -> Result<(), AllocError>
    ensures ok { OnOk result (values.new ≡ without_error_bits learnt values.old) }
    ensures err { OnErr result (values.new ≡ values.old) }
{
    let register = error_register(learnt, values);
    write_register(learnt, register & !ERROR_BITS, values)
}
