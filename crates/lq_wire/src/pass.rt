//! The pass over the packets.
ghost use Rattle.std.specs.Prelude.{◌≡◌, ◌+◌, ◌*◌, ◌^◌, ◌∷◌, [], ◌<◌, ◌≤◌, IfOk, OnOk, length, map, min};
ghost use Rattle.lq_model.specs.Numbers.{first_numbers};
ghost use Rattle.lq_model.specs.Wire.{Wired as WiredStation, after_wired, finished_wired, first_wired, moment, openings_of_card, wired_with};
ghost use Rattle.lq_model.specs.Alone.{bypass_of};
ghost use Rattle.lq_model.specs.Plan.{band_in};
ghost use Rattle.lq_model.specs.declared.plan.StationPlan.{StationPlan as Station};
ghost use Rattle.lq_card_laws.specs.Laws.{FitsCard};
ghost use Rattle.lq_wire.specs.Wired.{HasTurned, IsWired, load, none_told};

use crate::wired::Wired;
use lq_model::{Card, Info};
use lq_pcap::Frames;
use lq_plan::Plan;
use std::alloc::{AllocError, Global};

/// The greatest time that counts, in nanoseconds since the start of 1970.
const LAST: u128 = 0xffff_ffff_ffff_ffff;

/// How often the queue is opened after each packet, where a plan's one station has this card (`openings_of_card`).
///
/// # AllocError
///
/// There was no room for four bytes a packet, and for the packets that wait or are in the driver's ring.
pub fn times_of_wire<F: Frames>(
    alloc: Global,
    plan: &Plan,
    card: Card,
    infos: &[Info],
    frames: &F,
) -> Result<Vec<u32>, AllocError>
    requires fits { (station : Station) × FitsCard plan.now infos.now station }
    requires count { length infos.now ≡ (F.packets frames.now).count }
    requires few { length infos.now ≤ 1000000 }
    ensures { IfOk result (λ times. times.items ≡ map (openings_of_card card plan.now (F.packets frames.now) infos.now) (first_numbers (F.packets frames.now).count)) }
{
    let mut times = Vec::with_capacity(alloc, infos.len())?;
    let mut wired = Wired::new(alloc, card, plan.station(0));
    let mut time = first_time(frames);
    for n in 0..infos.len() {
        let opened = turn(&mut wired, plan, infos, frames, n, &mut time)?;
        wired.tell_all();
        times.push(opened)?;
    }
    Ok(times)
}

// The time of the first packet, if there is one.
pub(crate) fn first_time<F: Frames>(frames: &F) -> u128
    ensures { 0 < (F.packets frames.now).count → result ≡ (F.packets frames.now).time 0 }
{
    if frames.len() == 0 {
        return 0;
    }
    frames.time(0, 0)
}

// Packet `n` comes at a moment, behind the events before it.
fn come<F: Frames>(
    wired: &mut Wired,
    plan: &Plan,
    infos: &[Info],
    frames: &F,
    n: usize,
    now: u128,
) -> Result<(), AllocError>
    requires fits { (station : Station) × FitsCard plan.now infos.now station }
    requires there { n < length infos.now }
    requires few { (load wired.old ≤ n) × (n < 1000000) }
    requires near { now < 2 ^ 96 }
    requires bypass { wired.old.station.bypass ≡ bypass_of plan.now 0 }
    ensures came { OnOk result ((station : Station) (w : WiredStation) → FitsCard plan.now infos.now station → now ≡ moment wired.old.wire.card (F.packets frames.now) n → IsWired wired.old w
        → IsWired wired.new (wired_with wired.old.wire.card plan.now (F.packets frames.now) infos.now n w)) }
    ensures load { OnOk result (load wired.new ≤ n + 1) }
    ensures bypass { OnOk result (wired.new.station.bypass ≡ wired.old.station.bypass) }
    ensures card { OnOk result (wired.new.wire.card ≡ wired.old.wire.card) }
{
    wired.change_before(plan, frames, now, n as u32)?;
    wired.bring(frames, now, n as u32, band_at(infos, n))
}

// Packet `n` and what follows it: how often the queue is opened before the next one comes, whose time is laid into `time`.
pub(crate) fn turn<F: Frames>(
    wired: &mut Wired,
    plan: &Plan,
    infos: &[Info],
    frames: &F,
    n: usize,
    time: &mut u128,
) -> Result<u32, AllocError>
    requires fits { (station : Station) × FitsCard plan.now infos.now station }
    requires count { length infos.now ≡ (F.packets frames.now).count }
    requires there { n < length infos.now }
    requires few { (load wired.old ≤ n) × (n < 1000000) }
    requires time { time.old ≡ (F.packets frames.now).time n }
    requires bypass { wired.old.station.bypass ≡ bypass_of plan.now 0 }
    ensures turned { IfOk result (λ times. (station : Station) → FitsCard plan.now infos.now station
        → IsWired wired.old (none_told (after_wired wired.old.wire.card plan.now (F.packets frames.now) infos.now (first_wired station) n))
        → HasTurned wired.old.wire.card plan.now (F.packets frames.now) infos.now station n times wired.new) }
    ensures time { IfOk result (λ times. n + 1 < length infos.now → time.new ≡ (F.packets frames.now).time (n + 1)) }
    ensures load { IfOk result (λ times. load wired.new ≤ n + 1) }
    ensures bypass { IfOk result (λ times. wired.new.station.bypass ≡ wired.old.station.bypass) }
    ensures card { IfOk result (λ times. wired.new.wire.card ≡ wired.old.wire.card) }
{
    let card = wired.wire.card;
    let now = moment(card, *time);
    come(wired, plan, infos, frames, n, now)?;
    if n + 1 == infos.len() {
        return Ok(0);
    }
    *time = frames.time(n + 1, *time);
    wired.open_until(frames, now, moment(card, *time))
}

// Packet `n`, which is the last one, and all that follows it.
pub(crate) fn finish<F: Frames>(
    wired: &mut Wired,
    plan: &Plan,
    infos: &[Info],
    frames: &F,
    n: usize,
    time: u128,
) -> Result<(), AllocError>
    requires fits { (station : Station) × FitsCard plan.now infos.now station }
    requires count { length infos.now ≡ (F.packets frames.now).count }
    requires there { n < length infos.now }
    requires last { n + 1 ≡ length infos.now }
    requires few { (load wired.old ≤ n) × (n < 1000000) }
    requires time { time ≡ (F.packets frames.now).time n }
    requires bypass { wired.old.station.bypass ≡ bypass_of plan.now 0 }
    ensures finished { OnOk result ((station : Station) (w : WiredStation) → FitsCard plan.now infos.now station → IsWired wired.old w
        → IsWired wired.new (finished_wired wired.old.wire.card plan.now (F.packets frames.now) infos.now n w)) }
    ensures card { OnOk result (wired.new.wire.card ≡ wired.old.wire.card) }
{
    let now = moment(wired.wire.card, time);
    come(wired, plan, infos, frames, n, now)?;
    wired.open_while_room(frames, now)?;
    wired.change_after(plan, frames, now, infos.len() as u32)?;
    wired.on_until(frames, None)?;
    Ok(())
}

// The band of packet `n`.
fn band_at(infos: &[Info], n: usize) -> u32
    requires { n < length infos.now }
    ensures { result ≡ band_in infos.now n }
{
    u32::from(infos[n].band)
}

// A time, scaled by the rate of the wire.
fn moment(card: Card, time: u128) -> u128
    ensures moment { result ≡ min time 0xffff_ffff_ffff_ffff * card.rate_kbit }
    ensures near { result < 2 ^ 96 }
{
    time.min(LAST) * u128::from(card.rate_kbit)
}
