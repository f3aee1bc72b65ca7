//! The end of a run: seats are joined, stations finished and closed.
ghost use Rattle.std.specs.Prelude.{◌≡◌, ◌+◌, ◌-◌, ◌≤◌, [], length, map, vec_capacity};
ghost use Rattle.lq_seat.specs.Ends.{Finishes};
ghost use Rattle.lq_senders.specs.Ends.{AllMayClose, FirstClosed, closed_state};
ghost use Rattle.lq_senders.specs.Joins.{AreFirst};
ghost use Rattle.lq_senders.specs.Senders.{AllDid};
ghost use Rattle.lq_senders.specs.Runs.{SenderIsDone, SendersAreDone, SeatsDone, SeatsEndAlone, SeatsJoined};
ghost use Rattle.lq_senders.specs.Units.{SameDevices};

use crate::sender::{Job, Run, Sender};
use lq_device::TxDevice;
use lq_gate::Gate;
use lq_seat::{Seat, Table};
use lq_table::Closed;
use std::sync::Wait;

/// Joins another sender's seats into the first sender's. Those of the senders after it were taken in before.
fn join_sender<'r, 't, 'a, D: TxDevice, G: Gate>(
    run: &Run<'r, 't, 'a, D, G>,
    seats: &mut Vec<Seat<D>>,
    sender: Sender<D>,
)
    requires first { SeatsJoined run.now sender.owner seats.old.items }
    requires other { SenderIsDone run.now (sender.owner - 1) sender }
    ensures joined { SeatsJoined run.now (sender.owner - 1) seats.new.items }
    ensures devices { SameDevices seats.old.items seats.new.items }
{
    run.job.plan.stays_within_limits();
    let mut others = sender.seats;
    while let Some(other) = others.pop() {
        let j = others.len();
        seats[j].join(&run.tables[j], other);
    }
}

/// Joins all other senders' seats into the first sender's.
fn join_all<'r, 't, 'a, D: TxDevice, G: Gate>(
    run: &Run<'r, 't, 'a, D, G>,
    seats: &mut Vec<Seat<D>>,
    mut others: Vec<Sender<D>>,
)
    requires first { SeatsJoined run.now (length others.items) seats.old.items }
    requires others { SendersAreDone run.now others.items }
    ensures joined { SeatsJoined run.now 0 seats.new.items }
    ensures devices { SameDevices seats.old.items seats.new.items }
    ensures alone { length others.items ≡ 0 → seats.new.items ≡ seats.old.items }
{
    while let Some(sender) = others.pop() {
        join_sender(run, seats, sender);
    }
}

/// Brings each station to its end.
fn finish_all<'r, 't, 'a, R: Wait, D: TxDevice, G: Gate>(
    rt: &R,
    run: &Run<'r, 't, 'a, D, G>,
    seats: &mut Vec<Seat<D>>,
)
    requires joined { SeatsJoined run.now 0 seats.old.items }
    ensures { AllDid Finishes seats.old.items seats.new.items }
{
    for j in 0..run.tables.len() {
        seats[j].finish(rt, &run.tables[j]);
    }
}

/// The end of a run after the last packet: the other senders' seats are joined into the first sender's, and each station is finished.
/// Takes no memory.
pub fn end_run<'r, 't, 'a, R: Wait, D: TxDevice, G: Gate>(
    rt: &R,
    run: &Run<'r, 't, 'a, D, G>,
    seats: &mut Vec<Seat<D>>,
    others: Vec<Sender<D>>,
)
    requires first { SeatsDone run.now 0 seats.old.items × AreFirst (length others.items) seats.old.items }
    requires others { SendersAreDone run.now others.items }
    requires senders { length others.items + 1 ≡ run.now.job.plan.now.senders }
    ensures may { AllMayClose run.now.job.plan.now run.now.job.infos.now run.now.tables.now seats.new.items }
    ensures devices { SameDevices seats.old.items seats.new.items }
    ensures alone { length others.items ≡ 0 → SeatsEndAlone run.now seats.old.items seats.new.items }
{
    join_all(run, seats, others);
    finish_all(rt, run, seats);
}

/// Closes each station's table. Takes no memory.
pub fn close_all<'r, 'a, D: TxDevice, G: Gate>(
    job: &Job<'r, G>,
    mut shared: Vec<Table<'a, D>>,
    mut seats: Vec<Seat<D>>,
    closed: &mut Vec<Closed<D>>,
)
    requires may { AllMayClose job.now.plan.now job.now.infos.now shared.items seats.items }
    requires none_yet { closed.old.items ≡ [] }
    requires room { length job.now.plan.now.stations ≤ vec_capacity closed.old }
    ensures { FirstClosed job.now.plan.now job.now.infos.now (length job.now.plan.now.stations) seats.items
        (map closed_state closed.new.items) }
{
    for _station in 0..job.plan.stations() {
        let table = shared.remove(0);
        let cpu = seats.remove(0);
        let ended = table.close(cpu);
        closed.push_reserved(ended);
    }
}
