//! What each packet of a capture is to the rules.
ghost use Rattle.std.specs.Prelude.{◌≡◌, ℕ, ◌+◌, ◌*◌, ◌%◌, ◌<◌, ◌≤◌, All, IfOk, OnOk, length, replicate, slice_index, slice_set, vec_len};
ghost use Rattle.lq_model.specs.Flow.{flow_of};
ghost use Rattle.lq_model.specs.Capture.{Packets};
ghost use Rattle.lq_model.specs.Plan.{info_of, infos_of, priority_by, route_number, source_number, split_number};
ghost use Rattle.lq_plan.specs.Packets.{AreUnranked, AsksFlow, IsClassOf, IsInfoWithin, IsUnranked, ranked};

use crate::plan::{MAX_STATIONS, Plan};
use lq_class::{Class, band, classify, flow};
use lq_model::{Classify, Info, NoMemory, Split, Spread};
use lq_pcap::Frames;
use std::alloc::{AllocError, Global};
use std::marker::Sync;
use std::thread;
use std::thread::Threads;

/// How many threads look at the packets of a capture. It is a constant, since a look at the processors that there are would open a
/// file that no word names.
const THREADS: usize = 4;

/// Fewer packets are looked at by the calling thread alone: to start threads would take longer.
const FEW: usize = 4_096;

/// How many threads look at so many packets side by side.
fn threads_for(packets: usize) -> usize
    ensures { 0 < result }
{
    if packets < FEW { 1 } else { THREADS }
}

/// The upper half of a flow's hash counts from here.
const UPPER: u32 = 0x1_0000;

/// What stands at a packet's place until it is looked at.
const NONE: Info = Info {
    rank: 0,
    owner: 0,
    station: 0,
    band: 0,
    queue: 0,
};

/// Of each packet, in the capture's order, its owner, station, band, queue and rank.
///
/// The owner is the packet's number modulo the senders, or its source byte or its flow's hash modulo the senders, as the plan splits
/// them. Its group is its route number modulo the groups, and its station the child of that which its source number chooses, modulo
/// the group's children. Its band is that of its priority, as `pfifo_fast_enqueue`
/// of net/sched/sch_generic.c chooses it. Its queue is its source number modulo the station's queues. Its rank is how many
/// lower packets have the same owner and station.
///
/// A packet's source number and route number are its source byte and its route byte, or, where the plan spreads packets by flow, the
/// upper and the lower 16 bits of its flow's hash.
///
/// Threads find all but the ranks, side by side, and one pass behind them counts these.
///
/// # NoMemory
///
/// There was no room for an `Info` of each packet, and a count of each sender and station.
pub fn infos<R: Threads + Sync, F: Frames + Sync>(
    rt: &R,
    alloc: Global,
    plan: &Plan,
    frames: &F,
) -> Result<Vec<Info>, NoMemory>
    ensures infos { IfOk result (λ infos. infos.items ≡ infos_of plan.now (F.packets frames.now)) }
    ensures count { IfOk result (λ infos. vec_len infos ≡ (F.packets frames.now).count) }
    ensures few { IfOk result (λ infos. vec_len infos ≤ 1000000) }
    ensures within { IfOk result (λ infos. All (IsInfoWithin plan.now) infos.items) }
{
    let Ok(mut infos) = vec![in alloc; NONE; frames.len()] else {
        return Err(NoMemory);
    };
    let each = infos.as_mut_slice();
    lay_unranked(rt, plan, frames, each);
    let Ok(()) = rank_in_order(alloc, plan.senders(), each) else {
        return Err(NoMemory);
    };
    Ok(infos)
}

// Lays at each place what that packet is to the rules, but for its rank.
fn lay_unranked<R: Threads + Sync, F: Frames + Sync>(
    rt: &R,
    plan: &Plan,
    frames: &F,
    infos: &mut [Info],
)
    requires count { length infos.old ≡ (F.packets frames.now).count }
    requires few { length infos.old ≤ 1000000 }
    ensures { AreUnranked plan.now (F.packets frames.now) infos.new }
{
    let threads = threads_for(infos.len());
    thread::for_each_mut(
        rt,
        infos,
        threads,
        &|n, info: &mut Info|
            requires { (n < (F.packets frames.now).count) × (n < 1000000) }
            ensures { IsUnranked plan.entry.now (F.packets frames.entry.now) n info.new }
        { *info = unranked(plan, frames, n as u32) },
    );
}

// Gives each its rank: how many before it have the same owner and station.
fn rank_in_order(alloc: Global, senders: u32, infos: &mut [Info]) -> Result<(), AllocError>
    requires within { All (λ info. (info.owner < senders) × (info.station < 8)) infos.old }
    requires few { length infos.old ≤ 1000000 }
    ensures { OnOk result (infos.new ≡ ranked infos.old) }
{
    let mut counts = no_packets(alloc, senders)?;
    let counts: &mut [u32] = &mut counts;
    for n in 0..infos.len() {
        let info = &mut infos[n];
        info.rank = next_rank(counts, info.owner as u32, info.station as u32);
    }
    Ok(())
}

// For each owner a row of counts, with one for each station.
fn no_packets(alloc: Global, senders: u32) -> Result<Vec<u32>, AllocError>
    ensures { IfOk result (λ counts. counts.items ≡ replicate (senders * 8) 0) }
{
    vec![in alloc; 0; senders as usize * MAX_STATIONS as usize]
}

// What packet n is to the rules, but for its rank.
fn unranked<F: Frames>(plan: &Plan, frames: &F, n: u32) -> Info
    requires number { n < (F.packets frames.now).count }
    ensures info { result ≡ record (info_of plan.now (F.packets frames.now) n) { rank = 0 } }
    ensures within { IsInfoWithin plan.now result }
    ensures few_stations { result.station < 8 }
{
    let class = classify(frames.link_of(n as usize), frames.frame(n as usize));
    let numbers = numbers_of(plan, frames, n, class);
    let group = remainder(numbers.route, plan.groups());
    let station = plan.first(group) + remainder(numbers.source, plan.mq(group));
    Info {
        owner: remainder(numbers.split, plan.senders()) as u8,
        station: station as u8,
        band: band(priority(plan.classify(), class)) as u8,
        queue: remainder(numbers.source, plan.station(station).queues) as u8,
        rank: 0,
    }
}

// The priority of a packet of this class: 0 of one that isn't classified.
fn priority(classify: Classify, class: Class) -> u8
    ensures { (packets : Packets) (n : ℕ) → IsClassOf packets n class → result ≡ priority_by classify packets n }
{
    match classify {
        Classify::Tos => class.priority,
        Classify::Never => 0,
    }
}

/// The numbers by which a packet's child and queue, its group, and its owner are chosen.
#[derive(Clone, Copy)]
struct Numbers {
    source: u32,
    route: u32,
    split: u32,
}

// Those of packet n, which has this class.
fn numbers_of<F: Frames>(plan: &Plan, frames: &F, n: u32, class: Class) -> Numbers
    requires number { n < (F.packets frames.now).count }
    requires class { IsClassOf (F.packets frames.now) n class }
    ensures source { result.source ≡ source_number plan.now.spread (F.packets frames.now) n }
    ensures route { result.route ≡ route_number plan.now.spread (F.packets frames.now) n }
    ensures split { result.split ≡ split_number plan.now.split (F.packets frames.now) n }
{
    let source_byte = u32::from(class.source_byte);
    let route_byte = u32::from(class.route_byte);
    let hash = hash_of(plan, frames, n);
    let (source, route) = match plan.spread() {
        Spread::Bytes => (source_byte, route_byte),
        Spread::Flow => (
            hash.map_or(source_byte, |hash| hash / UPPER),
            hash.map_or(route_byte, |hash| hash % UPPER),
        ),
    };
    let split = match plan.split() {
        Split::Round => n,
        Split::Source => source_byte,
        Split::Flow => hash.unwrap_or(source_byte),
    };
    Numbers {
        source,
        route,
        split,
    }
}

// The hash of packet n's flow, if it has one. It is worked out only where the plan asks for it.
fn hash_of<F: Frames>(plan: &Plan, frames: &F, n: u32) -> Option<u32>
    requires { n < (F.packets frames.now).count }
    ensures { AsksFlow plan.now → result ≡ flow_of ((F.packets frames.now).link n) ((F.packets frames.now).frame n) }
{
    if plan.spread() == Spread::Flow || plan.split() == Split::Flow {
        flow(frames.link_of(n as usize), frames.frame(n as usize))
    } else {
        None
    }
}

// The remainder of a division. None by 1 is made: each packet asks for four, and they are what takes the time.
fn remainder(n: u32, by: u32) -> u32
    requires { 0 < by }
    ensures { result ≡ n % by }
{
    if by == 1 { 0 } else { n % by }
}

// The rank of the next packet of this owner and station, which is counted then.
fn next_rank(counts: &mut [u32], owner: u32, station: u32) -> u32
    requires place { owner * 8 + station < length counts.old }
    requires countable { slice_index counts.old (owner * 8 + station) < 1000000 }
    ensures rank { result ≡ slice_index counts.old (owner * 8 + station) }
    ensures counted { counts.new ≡ slice_set counts.old (owner * 8 + station) (result + 1) }
{
    let count = &mut counts[owner as usize * MAX_STATIONS as usize + station as usize];
    let rank = *count;
    *count += 1;
    rank
}
