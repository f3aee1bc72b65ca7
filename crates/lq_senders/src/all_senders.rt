//! The run of all senders over the stations of a plan.
ghost use Rattle.std.specs.Prelude.{◌≡◌, ◌≤◌, ◌+◌, List, [], length, map, vec_capacity};
ghost use Rattle.lq_senders.specs.Ends.{HasSentAll, closed_state};
ghost use Rattle.lq_senders.specs.Joins.{AreFirst};
ghost use Rattle.lq_senders.specs.Senders.{AreReadySenders, SenderStands};
ghost use Rattle.lq_senders.specs.Units.{DevicesStand};
ghost use Rattle.lq_senders.specs.Woken.{opens_by};
ghost use Rattle.lq_model.specs.Device.{DeviceState};

use crate::ends::{close_all, end_run};
use crate::sender::{Job, Run, Sender, Senders};
use crate::side_by_side::all_send;
use lq_device::TxDevice;
use lq_gate::Gate;
use lq_seat::Table;
use lq_table::Closed;
use std::marker::Sync;
use std::sync::Wait;
use std::thread::Threads;

/// Sends all packets side by side, and brings each station to its end. The devices that swaps took away come back, in order.
/// Takes no memory: `closed` has the room for the stations.
pub fn run<'r, 'a, R: Threads + Wait + Sync, D: TxDevice, G: Gate>(
    rt: &R,
    job: &Job<'r, G>,
    tables: Vec<Table<'a, D>>,
    senders: Senders<D>,
    closed: &mut Vec<Closed<D>>,
) -> Vec<D>
    requires owner { senders.first.owner ≡ 0 }
    requires first { SenderStands job.now.plan.now job.now.infos.now 0 0 0 tables.items senders.first.seats.items
        × AreFirst (length senders.others.items) senders.first.seats.items }
    requires devices { (units : List DeviceState)
        × DevicesStand job.now.plan.now job.now.infos.now units 0 senders.first.seats.items (map D.state senders.first.spares.items) }
    requires others { AreReadySenders job.now.plan.now job.now.infos.now tables.items senders.others.items }
    requires senders { length senders.others.items + 1 ≡ job.now.plan.now.senders }
    requires none_yet { closed.old.items ≡ [] }
    requires room { length job.now.plan.now.stations ≤ vec_capacity closed.old }
    ensures { HasSentAll job.now.plan.now job.now.infos.now (opens_by job.now.openings.now job.now.infos.now) (length senders.others.items) senders.first.seats.items
        (map D.state senders.first.spares.items) (map closed_state closed.new.items) (map D.state result.items) }
{
    job.plan.stays_within_limits();
    let Senders { first, others } = senders;
    let all = Run {
        job: Job {
            plan: job.plan,
            infos: job.infos,
            openings: job.openings,
            gate: job.gate,
        },
        tables: tables.as_slice(),
    };
    let (first, others) = all_send(rt, &all, first, others);
    let Sender {
        owner: _,
        mut seats,
        spares,
    } = first;
    end_run(rt, &all, &mut seats, others);
    close_all(job, tables, seats, closed);
    spares
}
