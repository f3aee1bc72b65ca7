//! Captures whose times go back.
ghost use Rattle.std.specs.Prelude.{◌≡◌, ◌≢◌, ◌<◌, ◌&&◌, nat_lt, None, Some, if◌then◌else◌, IfErr};
ghost use Rattle.std.specs.Option.{option_or};
ghost use Rattle.lq_model.specs.Capture.{first_back};
ghost use Rattle.lq_files.specs.Accepted.{in_order_for, wants_order};

use crate::refusal::Refusal;
use lq_model::CaptureReason;
use lq_pcap::Frames;
use lq_pcapng::CaptureFile;
use lq_plan::{Plan, is_by_time};

// The first version of plans that takes no capture whose times go back, where times are read.
const FIRST_IN_ORDER: u32 = 5;

// Whether a plan takes no capture whose times go back.
fn wants_order(plan: &Plan) -> bool
    ensures { result ≡ wants_order plan.now }
{
    plan.stays_within_limits();
    let timed = plan.station(0).card.is_some() || is_by_time(plan.irq());
    plan.version() >= FIRST_IN_ORDER && timed
}

// The packet that was found, or else packet `n`, if its time is before that of the packet before it.
fn or_packet(found: Option<u32>, n: u32, before: u128, time: u128) -> Option<u32>
    ensures { result ≡ option_or found (if nat_lt 0 n && nat_lt time before then Some n else None) }
{
    if found.is_none() && n > 0 && time < before {
        Some(n)
    } else {
        found
    }
}

// The first packet whose time is before that of the packet before it, if there is one.
fn first_back<F: Frames>(frames: &F) -> Option<u32>
    ensures { result ≡ first_back (F.packets frames.now) }
{
    let mut found = None;
    let mut before = 0;
    for n in 0..frames.len() {
        let time = frames.time(n, before);
        found = or_packet(found, n as u32, before, time);
        before = time;
    }
    found
}

/// The capture, or the first packet whose time goes back, if the plan takes no capture with such a packet.
pub fn in_order_for(plan: &Plan, capture: CaptureFile) -> Result<CaptureFile, Refusal>
    ensures capture { result ≡ in_order_for plan.now capture }
    ensures not_usage { IfErr result (λ refusal. refusal ≢ Refusal.Usage) }
{
    if !wants_order(plan) {
        return Ok(capture);
    }
    match first_back(&capture) {
        Some(n) => Err(Refusal::Capture {
            reason: CaptureReason::TimeBack,
            place: u64::from(n),
        }),
        None => Ok(capture),
    }
}
