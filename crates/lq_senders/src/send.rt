//! The packets of a capture through the stations of a plan.
ghost use Rattle.std.specs.Prelude.{◌≡◌, ◌≤◌, ℕ, ◌+◌, ◌++◌, [], List, OnErr, OnOk, drop, take, map, vec_capacity, vec_len};
ghost use Rattle.lq_senders.specs.Fates.{AreEnded, AreFatesOf, identities_of};
ghost use Rattle.lq_senders.specs.Told.{TellEach, fates_told};
ghost use Rattle.lq_table.specs.Ended.{ended_state};
ghost use Rattle.lq_senders.specs.Setup.{AreUnitsReady, HasRoomForRun, IsRunBy};
ghost use Rattle.lq_senders.specs.Woken.{KnowOpenings, OpensAre, opens_by};
ghost use Rattle.lq_model.specs.Device.{DeviceState};
ghost use Rattle.lq_model.specs.Plan.{unit_count};

use crate::all_senders::run;
use crate::laws::{
    runs_are_readable, runs_keep_boxes, runs_leave_devices, runs_leave_stations, runs_make_fates,
    runs_may_be_sent, same_openings_make_same_fates,
};
use crate::ready::{Units, make_ready, room_for_units};
use crate::room::{Room, room_for_run};
use crate::sender::{Job, Run, Sender, Senders};
use crate::setup::{Stations, split_senders};
use crate::undo::{hand_back, take_apart};
use lq_device::TxDevice;
use lq_gate::{Gate, Resources};
use lq_model::{Info, NoMemory};
use lq_plan::{Openings, Plan};
use lq_table::Ended;
use std::marker::Sync;
use std::sync::Wait;
use std::thread::Threads;

/// Sends the packets through the opened stations, with the spare devices, and lays out what stays of each station. All devices are
/// in the bench again after the last of them. Takes no memory.
fn send_ready<'r, 'a, R: Threads + Wait + Sync, D: TxDevice, G: Gate>(
    rt: &R,
    job: &Job<'r, G>,
    units: Units<'a, D>,
    mut room: Room<D>,
    bench: &mut Vec<D>,
) -> Vec<Ended<D>>
    requires ready { (before : List DeviceState) × AreUnitsReady D.state job.now.plan.now job.now.infos.now before units }
    requires room { HasRoomForRun job.now.plan.now room }
    requires bench_room { vec_len bench.old + unit_count job.now.plan.now ≤ vec_capacity bench.old }
    ensures fates { (before : List DeviceState) → AreUnitsReady D.state job.now.plan.now job.now.infos.now before units.entry
        → AreFatesOf job.now.plan.now job.now.infos.now (opens_by job.now.openings.now job.now.infos.now)
        (fates_told job.now.infos.now (map ended_state result.items)) before (map D.state bench.new.items) }
    ensures ended { AreEnded job.now.plan.now job.now.infos.now (fates_told job.now.infos.now (map ended_state result.items)) (map ended_state result.items) }
    ensures told { TellEach job.now.infos.now (map ended_state result.items) }
    ensures boxes { (before : List DeviceState) → AreUnitsReady D.state job.now.plan.now job.now.infos.now before units.entry
        → identities_of (map D.state bench.new.items)
        ≡ take (unit_count job.now.plan.now) (identities_of before) ++ identities_of (map D.state bench.old.items) }
    ensures rest { drop (unit_count job.now.plan.now) bench.new.items ≡ bench.old.items }
    ensures len { vec_len bench.new ≡ unit_count job.now.plan.now + vec_len bench.old }
{
    job.plan.stays_within_limits();
    let Units { stations, spares } = units;
    let Stations { tables, mut seats } = stations;
    let all = Run {
        job: Job {
            plan: job.plan,
            infos: job.infos,
            openings: job.openings,
            gate: job.gate,
        },
        tables: tables.as_slice(),
    };
    split_senders(&all, &mut seats, &mut room.others);
    let first = Sender {
        owner: 0,
        seats,
        spares,
    };
    let senders = Senders {
        first,
        others: room.others,
    };
    let spares = run(rt, job, tables, senders, &mut room.closed);
    runs_are_readable();
    runs_make_fates();
    runs_leave_stations();
    runs_leave_devices();
    runs_keep_boxes();
    take_apart(room.closed, &mut room.homes, &mut room.ended);
    hand_back(job.plan, room.homes, spares, bench);
    room.ended
}

/// Sends the packets through the plan's stations, and lays out what stays of them, which tells the packets' fates. Each station
/// begins with the device of the bench at its place, and the plan's swaps bring those after them, in order. All are back
/// in their places at the end. After each packet its sender opens the stopped queues as often as `openings` has it.
///
/// # NoMemory
///
/// There was no room for a station's table, a sender's seats, the devices or a device's packets. All devices
/// are in the bench again.
pub fn send_all<R: Threads + Wait + Sync, D: TxDevice, G: Gate>(
    on: &Resources<'_, R, G>,
    plan: &Plan,
    infos: &[Info],
    openings: &Openings,
    bench: &mut Vec<D>,
    ended: &mut Vec<Ended<D>>,
) -> Result<(), NoMemory>
    requires run { IsRunBy plan.now infos.now }
    requires known { KnowOpenings openings.now infos.now }
    requires units { unit_count plan.now ≤ vec_len bench.old }
    requires none_yet { ended.old.items ≡ [] }
    ensures fates { OnOk result ((opens : ℕ → ℕ) → OpensAre openings.now infos.now opens
        → AreFatesOf plan.now infos.now opens (fates_told infos.now (map ended_state ended.new.items)) (map D.state bench.old.items) (map D.state bench.new.items)) }
    ensures ended { OnOk result (AreEnded plan.now infos.now (fates_told infos.now (map ended_state ended.new.items)) (map ended_state ended.new.items)) }
    ensures told { OnOk result (TellEach infos.now (map ended_state ended.new.items)) }
    ensures none_ended { OnErr result (ended.new.items ≡ []) }
    ensures others { drop (unit_count plan.now) bench.new.items ≡ drop (unit_count plan.now) bench.old.items }
    ensures len { vec_len bench.new ≡ vec_len bench.old }
    ensures boxes { identities_of (map D.state bench.new.items) ≡ identities_of (map D.state bench.old.items) }
{
    runs_may_be_sent();
    let room = room_for_run(on.alloc, plan)?;
    let empty = room_for_units(on.alloc, plan)?;
    let units = make_ready(on.alloc, plan, infos, bench, empty)?;
    let job = Job {
        plan,
        infos,
        openings,
        gate: on.gate,
    };
    *ended = send_ready(on.rt, &job, units, room, bench);
    same_openings_make_same_fates();
    Ok(())
}
