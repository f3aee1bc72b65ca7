//! How often the stopped queues are opened after each packet.
ghost use Rattle.std.specs.Prelude.{◌≡◌, ◌<◌, IfOk, min, replicate};
ghost use Rattle.lq_model.specs.Openings.{multiples_between, openings_by};
ghost use Rattle.lq_plan.specs.Openings.{AreTimes, IsOpenings, is_by_time, opens_after, opens_within};

use crate::plan::Plan;
use lq_model::{Irq, NoMemory};
use lq_pcap::Frames;
use std::alloc::{AllocError, Global};

/// After a packet the queues are opened no more often than this, however long the next one is in coming.
const MOST: u128 = 65_535;

/// How often the stopped queues are opened after each packet.
#[derive(Drop)]
pub enum Openings {
    /// Once after each so many packets of a sender.
    Every { packets: u32 },
    /// So often after each packet of the capture.
    Listed { times: Vec<u16> },
    /// So often after each packet, where a card on a wire opens them.
    Wired { times: Vec<u32> },
}

impl Openings {
    /// How often after each packet as the plan's `irq` says. The capture is looked at only where that is by its time.
    ///
    /// # NoMemory
    ///
    /// There was no room for two bytes a packet, where they are opened by time.
    pub fn new<F: Frames>(alloc: Global, plan: &Plan, frames: &F) -> Result<Self, NoMemory>
        ensures { IfOk result (IsOpenings plan.now (F.packets frames.now) (openings_by plan.now.irq plan.now (F.packets frames.now))) }
    {
        match plan.irq() {
            Irq::Every { packets } => Ok(Openings::Every { packets }),
            Irq::Period { microseconds } => match times_of(alloc, microseconds, frames) {
                Ok(times) => Ok(Openings::Listed { times }),
                Err(_) => Err(NoMemory),
            },
        }
    }

    /// How often after packet `n`, if its owner sent so many before it.
    pub fn after(&self, n: u32, sent: u32) -> u32
        requires { opens_within self.now n }
        ensures { result ≡ opens_after self.now n sent }
    {
        match self {
            Openings::Every { packets } => u32::from(sent % *packets + 1 == *packets),
            Openings::Listed { times } => u32::from(times[n as usize]),
            Openings::Wired { times } => times[n as usize],
        }
    }
}

/// Whether the stopped queues are opened by the times of the capture.
pub fn is_by_time(irq: Irq) -> bool
    ensures { result ≡ is_by_time irq }
{
    match irq {
        Irq::Every { packets: _ } => false,
        Irq::Period { microseconds: _ } => true,
    }
}

// How often after each packet, where they are opened at each multiple of so many microseconds.
fn times_of<F: Frames>(alloc: Global, microseconds: u32, frames: &F) -> Result<Vec<u16>, AllocError>
    requires { 0 < microseconds }
    ensures { IfOk result (λ times. AreTimes microseconds (F.packets frames.now) times.items) }
{
    let mut times = vec![in alloc; 0; frames.len()]?;
    lay_times(microseconds, frames, &mut times);
    Ok(times)
}

// Lays at each packet's place how often after it; at the last one's 0.
fn lay_times<F: Frames>(microseconds: u32, frames: &F, times: &mut [u16])
    requires some { 0 < microseconds }
    requires zeros { times.old ≡ replicate (F.packets frames.now).count 0 }
    ensures { AreTimes microseconds (F.packets frames.now) times.new }
{
    let period = u128::from(microseconds) * 1000;
    let mut earlier = 0;
    for n in 0..frames.len() {
        let time = frames.time(n, earlier);
        if n > 0 {
            times[n - 1] = multiples_between(period, earlier, time);
        }
        earlier = time;
    }
}

// How many multiples of a period lie after one time and not after another; no more than the most that count.
fn multiples_between(period: u128, earlier: u128, later: u128) -> u16
    requires { 0 < period }
    ensures { result ≡ min 65535 (multiples_between period earlier later) }
{
    (later / period).saturating_sub(earlier / period).min(MOST) as u16
}
