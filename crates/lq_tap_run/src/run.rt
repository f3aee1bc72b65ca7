//! The whole run: its memory is taken first, then the senders and the reader run side by side, and then their seats are joined.
ghost use Rattle.std.specs.Prelude.{◌≡◌, ◌+◌, ◌<◌, ◌≤◌, ◌-◌, ℕ, [], IfOk, length, replicate, vec_capacity, vec_len};
ghost use Rattle.lq_tap.specs.Made.{cut};
ghost use Rattle.lq_tap.specs.Sees.{IsMadeFor, IsReaderOf, setup, steps, view};
ghost use Rattle.lq_tap.specs.Settled.{IsSettled};
ghost use Rattle.lq_tap.specs.Views.{first_view};
ghost use Rattle.lq_fates.specs.Tap.{IsTapRun, IsTapWithin};
ghost use Rattle.lq_tap_run.specs.Lanes.{AreDone, AreReady, CanPut};
ghost use Rattle.lq_tap_run.specs.Marks.{AreMarkedFull};
ghost use Rattle.lq_tap_run.specs.Reads.{CanRead, HasRead, HasReadAll, IsReaderDone, KeepsReads};
ghost use Rattle.lq_tap_run.specs.Rounds.{JoinsSeats, ReadsByHalves};
ghost use Rattle.lq_tap_run.specs.Runs.{AreSplit, HasJoined, IsReaderOfFates};

use crate::fates::{mark_full, mark_read, unknown};
use crate::lanes::{Lane, all_put};
use crate::reader::{Reader, all_read};
use crate::shared::Run;
use lq_fates::TapFate;
use lq_gate::{Gate, Resources};
use lq_model::NoMemory;
use lq_tap::{Tap, TapSeat, senders_in_order};
use std::alloc::Global;
use std::marker::Sync;
use std::sync::Wait;
use std::thread;
use std::thread::Threads;

/// What a run leaves.
#[derive(Drop)]
pub struct Tapped {
    /// The fate of packet n at place n.
    pub fates: Vec<TapFate>,
    /// The packets that were read, in order.
    pub read: Vec<u32>,
    /// The reader's seat, which has the steps that it made.
    pub seat: TapSeat,
}

/// An empty list with room for so many.
fn room_for<T>(alloc: Global, count: usize) -> Result<Vec<T>, NoMemory>
    ensures empty { IfOk result (λ list. list.items ≡ []) }
    ensures room { IfOk result (λ list. count ≤ vec_capacity list) }
{
    match Vec::with_capacity(alloc, count) {
        Ok(list) => Ok(list),
        Err(_) => Err(NoMemory),
    }
}

/// A lane for each sender, with its seat and room for all of its packets.
fn make_lanes(
    alloc: Global,
    tap: &Tap,
    packets: u32,
    senders: u32,
    seat: &mut TapSeat,
) -> Result<Vec<Lane>, NoMemory>
    requires made { (len : ℕ) × IsMadeFor packets len senders tap.now }
    requires few { (packets ≤ 1000000) × (0 < senders) × (senders ≤ 8) }
    requires seat { IsReaderOf tap.now seat.old × (view seat.old ≡ first_view (setup tap.now)) × (steps seat.old ≡ []) }
    ensures ready { IfOk result (λ lanes. AreReady tap.now packets senders lanes.items × (length lanes.items ≡ senders)) }
    ensures split { IfOk result (λ _. AreSplit tap.now senders senders seat.new) }
    ensures fresh { IfOk result (λ _. ((view seat.new).reader.taken ≡ []) × ((view seat.new).reader.destroyed ≡ [])) }
    ensures steps { IfOk result (λ _. steps seat.new ≡ replicate senders cut) }
{
    senders_in_order();
    let room = packets as usize / senders as usize + 1;
    let mut lanes = room_for(alloc, senders as usize)?;
    for sender in 0..senders {
        let full = room_for(alloc, room)?;
        lanes.push_reserved(Lane {
            seat: tap.split(seat, sender),
            full,
        });
    }
    Ok(lanes)
}

/// The reader, with room for all packets and for a batch.
fn make_reader(alloc: Global, packets: u32, batch: u32, seat: TapSeat) -> Result<Reader, NoMemory>
    requires batch { (0 < batch) × (batch ≤ 64) }
    ensures seat { IfOk result (λ reader. reader.seat ≡ seat) }
    ensures read { IfOk result (λ reader. reader.read.items ≡ []) }
    ensures room { IfOk result (λ reader. packets ≤ vec_capacity reader.read) }
    ensures batch { IfOk result (λ reader. vec_len reader.batch ≡ batch) }
{
    let read = room_for(alloc, packets as usize)?;
    let batch = vec![in alloc; 0u32; batch as usize].map_err(|_| NoMemory)?;
    Ok(Reader { seat, read, batch })
}

/// The senders and the reader side by side, or the senders first where no further thread can be had.
fn put_and_read<'r, R: Threads + Wait + Sync, G: Gate>(
    rt: &R,
    run: &Run<'r, G>,
    lanes: Vec<Lane>,
    reader: Reader,
) -> (Vec<Lane>, Reader)
    requires count { length lanes.items ≡ run.now.senders }
    requires ready { AreReady run.now.tap.now run.now.packets run.now.senders lanes.items }
    requires read { HasRead run.now.tap.now reader.seat reader.read.items }
    requires room { run.now.packets ≤ vec_capacity reader.read }
    requires batch { (0 < vec_len reader.batch) × (vec_len reader.batch ≤ 64) }
    ensures lanes { AreDone run.now.tap.now run.now.packets run.now.senders result.0.items × (length result.0.items ≡ run.now.senders) }
    ensures reader { HasReadAll run.now.tap.now run.now.senders (vec_len reader.batch) reader.seat result.1 }
{
    // Each side makes a `Run` of its own: of a closure that captures this one `join` would tell nothing.
    let Run {
        tap,
        packets,
        senders,
        gate,
    } = *run;
    thread::join(
        rt,
        move || -> Vec<Lane>
            requires { CanPut tap.now packets senders × (length lanes.items ≡ senders) × AreReady tap.now packets senders lanes.items }
            ensures { AreDone tap.entry.now packets senders result.items × (length result.items ≡ senders) }
        {
            let shared = Run {
                tap,
                packets,
                senders,
                gate,
            };
            all_put(rt, &shared, lanes)
        },
        move || -> Reader
            requires { CanPut tap.now packets senders × CanRead tap.now reader }
            ensures { HasReadAll tap.entry.now senders (vec_len reader.batch) reader.seat result }
        {
            let shared = Run {
                tap,
                packets,
                senders,
                gate,
            };
            all_read(rt, &shared, reader)
        },
    )
}

/// Joins all senders' seats into the reader's, and marks what they found full.
fn join_all<'r, G: Gate>(
    run: &Run<'r, G>,
    seat: &mut TapSeat,
    mut lanes: Vec<Lane>,
    fates: &mut Vec<TapFate>,
)
    requires seat { AreSplit run.now.tap.now run.now.senders run.now.senders seat.old × IsReaderDone seat.old }
    requires lanes { AreDone run.now.tap.now run.now.packets run.now.senders lanes.items × (length lanes.items ≡ run.now.senders) }
    requires fates { AreMarkedFull run.now.packets [] fates.old.items }
    ensures joined { HasJoined run.now.tap.now run.now.packets run.now.senders 0 seat.new × IsSettled (view seat.new) }
    ensures reader { KeepsReads seat.old seat.new }
    ensures fates { AreMarkedFull run.now.packets (view seat.new).sender.fulls fates.new.items }
    ensures steps { JoinsSeats (steps seat.old) (steps seat.new) }
{
    while let Some(lane) = lanes.pop() {
        let Lane { seat: from, full } = lane;
        mark_full(fates, &full);
        run.tap.join(seat, from);
    }
}

/// The fates, once the senders and the reader are done.
fn decide<'r, G: Gate>(
    run: &Run<'r, G>,
    reader: Reader,
    lanes: Vec<Lane>,
    mut fates: Vec<TapFate>,
) -> Tapped
    requires read { HasRead run.now.tap.now reader.seat reader.read.items }
    requires over { IsReaderDone reader.seat }
    requires split { AreSplit run.now.tap.now run.now.senders run.now.senders reader.seat }
    requires lanes { AreDone run.now.tap.now run.now.packets run.now.senders lanes.items × (length lanes.items ≡ run.now.senders) }
    requires fates { AreMarkedFull run.now.packets [] fates.items }
    ensures run { IsTapRun run.now.packets run.now.senders run.now.tap.now.len result.fates.items result.read.items }
    ensures reader { (result.read.items ≡ reader.read.items) × JoinsSeats (steps reader.seat) (steps result.seat) }
    ensures ring { IsReaderOfFates run.now.packets run.now.senders run.now.tap.now.len result.fates.items result.seat }
{
    let Reader {
        mut seat,
        read,
        batch: _,
    } = reader;
    join_all(run, &mut seat, lanes, &mut fates);
    mark_read(&mut fates, &read);
    Tapped { fates, read, seat }
}

/// Puts so many packets into a ring, packet n by sender n modulo `senders`, while a reader reads. Once it has its memory it
/// takes no more.
///
/// # NoMemory
///
/// There was no room for the ring, for the seats or for the fates. Nothing was put then.
pub fn tap_all<R: Threads + Wait + Sync, G: Gate>(
    on: &Resources<'_, R, G>,
    packets: u32,
    senders: u32,
    len: u32,
    batch: u32,
) -> Result<Tapped, NoMemory>
    requires packets { packets ≤ 1000000 }
    requires within { IsTapWithin senders len batch }
    ensures run { IfOk result (λ tapped. IsTapRun packets senders len tapped.fates.items tapped.read.items) }
    // The reader's steps: each batch was asked for with BATCH places, its second half was given back, and it went on until a batch was empty
    // behind a look at which all senders had ended.
    ensures reader { IfOk result (λ tapped. ReadsByHalves len senders batch tapped.read.items tapped.seat) }
    // The reader's seat is one of the ring whose fates these are.
    ensures ring { IfOk result (λ tapped. IsReaderOfFates packets senders len tapped.fates.items tapped.seat) }
{
    let fates = unknown(on.alloc, packets)?;
    let (tap, mut seat) = Tap::make(on.alloc, packets, len, senders)?;
    let lanes = make_lanes(on.alloc, &tap, packets, senders, &mut seat)?;
    let reader = make_reader(on.alloc, packets, batch, seat)?;
    let run = Run {
        tap: &tap,
        packets,
        senders,
        gate: on.gate,
    };
    let (lanes, reader) = put_and_read(on.rt, &run, lanes, reader);
    let tapped = decide(&run, reader, lanes, fates);
    Ok(tapped)
}
