//! The heartbeat consumers of a device, by sub-index.

ghost use Rattle.std.specs.Prelude.{◌≡◌, ◌<◌, IfOk, ◌↔◌, IsTrue};
ghost use Rattle.base.specs.Moments.{earliest};
ghost use Rattle.device_objects.specs.Consumers.{consumers_after_time, consumers_after_heartbeat, any_expects};
ghost use Rattle.device_objects.specs.Consumers.{any_failed as some_failed, consumers_of as consumers_now};
ghost use Rattle.device_objects.specs.Consumers.{consumers_after_write, expects, failures_at as failures_now};
ghost use Rattle.device_objects.specs.Consumers.{consumer_after_heartbeat, moments};

use crate::consumer::{CONSUMER_HEARTBEAT_TIME, Consumer};
use base::{earlier, is_due};
use cia301::ConsumerHeartbeatTime;
use co_dict::{Dict, Shape};
use image_parts::END;
use std::alloc::{AllocError, Global};

/// The last sub-index of an object.
const LAST_SUB: u8 = 255;

/// The heartbeat consumers of a device (CiA 301): the sub-indices of 1016h from 1 on that are there as
/// UNSIGNED32, each with its value. None has started.
#[tactic(auto, using(crate::proofs::SubLemmas::none_at_first, crate::proofs::SubLemmas::one_more, crate::proofs::SubLemmas::skipped, crate::proofs::SubLemmas::all), unfolding(crate::specs::Consumers::consumers_of))]
pub fn consumers_of(
    alloc: Global,
    shape: &Shape,
    values: &Dict,
) -> Result<Vec<Consumer>, AllocError>
    ensures { IfOk result (λ consumers. consumers.items ≡ consumers_now shape.now values.now) }
{
    let mut consumers = Vec::new(alloc);
    for i in 0..LAST_SUB {
        let sub = i + 1;
        if shape.has_unsigned32(CONSUMER_HEARTBEAT_TIME, sub) {
            consumers.push(Consumer::waiting_for_start(sub, values))?;
        }
    }
    Ok(consumers)
}

/// Whether a consumer heartbeat time expects the heartbeat of a node: it names the node, and the time
/// isn't 0.
fn expects(producer: u8, entry: u32) -> bool
    ensures { result ≡ expects producer entry }
{
    let time = ConsumerHeartbeatTime::of(entry);
    time.node() == producer && time.time() > 0
}

/// A consumer at an error control frame of a node that comes at the moment t.
fn hear_one(consumer: &mut Consumer, t: u64, producer: u8)
    requires { t < END }
    ensures { consumer.new ≡ consumer_after_heartbeat t producer consumer.old }
{
    let entry = consumer.entry;
    if expects(producer, entry) {
        consumer.moment = Some(t + 1000 * u64::from(ConsumerHeartbeatTime::of(entry).time()));
        consumer.failed = false;
    }
}

/// An error control frame of a node, 1 to 127, comes at the moment t, in microseconds: it starts or
/// renews the consumers that expect the node's heartbeat, and ends their failures. Needs no memory.
#[tactic(auto, unfolding(crate::specs::Consumers::consumers_after_heartbeat))]
pub fn hear(consumers: &mut [Consumer], t: u64, producer: u8)
    requires { t < END }
    ensures { consumers.new ≡ consumers_after_heartbeat t producer consumers.old }
{
    for consumer in consumers.iter_mut() {
        hear_one(consumer, t, producer);
    }
}

/// Whether one of the consumers expects the heartbeat of a node. Walks the consumers.
#[tactic(auto, unfolding(crate::specs::Consumers::any_expects))]
pub fn any_expects(consumers: &[Consumer], producer: u8) -> bool
    ensures { result ≡ any_expects producer consumers.now }
{
    consumers
        .iter()
        .any(|consumer| expects(producer, consumer.entry))
}

/// The consumers whose moment is t, in microseconds, fail.
#[tactic(auto, unfolding(crate::specs::Consumers::consumers_after_time))]
pub fn expire(consumers: &mut [Consumer], t: u64)
    ensures { consumers.new ≡ consumers_after_time t consumers.old }
{
    for consumer in consumers.iter_mut() {
        if is_due(t, consumer.moment) {
            consumer.moment = None;
            consumer.failed = true;
        }
    }
}

/// The number of consumers that fail at the moment t, in microseconds.
#[tactic(auto, unfolding(crate::specs::Consumers::failures_at))]
pub fn failures(consumers: &[Consumer], t: u64) -> usize
    ensures { result ≡ failures_now t consumers.now }
{
    let mut count = 0;
    for consumer in consumers {
        if is_due(t, consumer.moment) {
            count += 1;
        }
    }
    count
}

/// A consumer heartbeat time is written: its consumer goes by the new value, hasn't started any more, and
/// hasn't failed.
#[tactic(auto, unfolding(crate::specs::Consumers::consumers_after_write))]
pub fn forget(consumers: &mut [Consumer], sub: u8, values: &Dict)
    ensures { consumers.new ≡ consumers_after_write sub values.now consumers.old }
{
    for consumer in consumers.iter_mut() {
        if consumer.sub == sub {
            *consumer = Consumer::waiting_for_start(sub, values);
        }
    }
}

/// Whether a consumer has failed.
pub fn any_failed(consumers: &[Consumer]) -> bool
    ensures { result ≡ some_failed consumers.now }
{
    consumers.iter().any(|consumer| consumer.failed)
}

/// Whether two lists of consumers are the same.
pub fn same_consumers(consumers: &[Consumer], others: &[Consumer]) -> bool
    ensures { IsTrue result ↔ (consumers.now ≡ others.now) }
{
    if consumers.len() != others.len() {
        return false;
    }
    for place in 0..consumers.len() {
        if consumers[place] != others[place] {
            return false;
        }
    }
    true
}

/// The first moment at which one of the consumers fails, in microseconds, if one has started. Walks the
/// consumers.
pub fn next_moment(consumers: &[Consumer]) -> Option<u64>
    ensures { result ≡ earliest (moments consumers.now) }
{
    let mut next = None;
    for consumer in consumers {
        next = earlier(next, consumer.moment);
    }
    next
}
