//! A run of the queue discipline.
ghost use Rattle.std.specs.Prelude.{◌<◌, ◌≡◌, None, ⊤, ◌≢◌, ◌+◌, if◌then◌else◌, is_none, MatchOption};
ghost use Rattle.lq_table.specs.Sees.{view, IsSeatOf, setup, position, slot};
ghost use Rattle.lq_qdisc.specs.Parts.{MayServe};
ghost use Rattle.lq_model.specs.declared.machine.Position.TheVariants.{Unlock};
ghost use Rattle.lq_ring.specs.StepLists.{MakesStepsFrom};
ghost use Rattle.lq_qdisc.specs.Calls.{IsServing, IsKeptInRun, KeepsFates};
ghost use Rattle.lq_qdisc.specs.Direct.{accepted_count, position_in_run};
ghost use Rattle.lq_qdisc.specs.Seats.{ServesStation};
ghost use Rattle.lq_qdisc.specs.StepLists.{Restart, QdiscRunLocked};
ghost use Rattle.lq_qdisc.specs.declared.answers.RunEnd.TheVariants.{Quota};
ghost use Rattle.lq_run.specs.Runs.{begins};

use crate::answers::{Ran, RunEnd, Taken, Through, Why};
use crate::direct::direct_xmit;
use crate::takes::dequeue;
use lq_device::TxDevice;
use lq_model::state::QUOTA;
use lq_table::{Cpu, Shared};

/// Takes a packet and hands it to the device, as `qdisc_restart` of net/sched/sch_generic.c does. `None` where the device
/// accepted it; else the end of the run.
fn restart<'a, D: TxDevice>(shared: &Shared<'a, D>, cpu: &mut Cpu<D>) -> Option<RunEnd>
    requires seat { IsSeatOf shared.now cpu.old }
    requires at { position cpu.old ≡ begins (view cpu.old) }
    requires serves { MayServe shared.now cpu.old }
    requires run { (view cpu.old).place.run < QUOTA }
    ensures kept { IsKeptInRun cpu.old cpu.new }
    ensures serving { IsServing cpu.new }
    ensures trail { (view cpu.new).trail ≡ (view cpu.old).trail }
    ensures makes { MakesStepsFrom (λ s. Restart (setup shared.now) s result) cpu.old cpu.new }
    ensures at { MatchOption result (position cpu.new ≡ position_in_run (view cpu.new)) (λ end. position cpu.new ≡ Unlock) }
    ensures run { result ≡ None → ((view cpu.new).place.run ≡ (view cpu.old).place.run + 1) × ((view cpu.new).holder.hand ≡ None)
        × ((view cpu.new).holder.slot ≡ None) }
    ensures quota { MatchOption result ⊤ (λ end. end ≢ Quota) }
    ensures fates { KeepsFates (view cpu.old) (view cpu.new) }
    ensures accepted { accepted_count (view cpu.new) ≡ accepted_count (view cpu.old) + (if is_none result then 1 else 0) }
{
    match dequeue(shared, cpu) {
        Taken::Empty => Some(RunEnd::Empty),
        Taken::Stopped => Some(RunEnd::Stopped),
        Taken::Packet(n) => match direct_xmit(shared, cpu, n) {
            Through::Yes => None,
            Through::Back(Why::Stopped) => Some(RunEnd::Stopped),
            Through::Back(Why::Busy) => Some(RunEnd::Busy),
        },
    }
}

/// Sends packets until none is left, the queue of the next one is stopped, the device is busy, or the quota is reached:
/// `__qdisc_run` of net/sched/sch_generic.c. The caller has the run lock and no packet in hand.
///
/// `sent` is how many packets the device accepted in this call, at most QUOTA; the end is Quota exactly where it is that, and
/// MISSED is set then. Empty and Stopped come only as the last dequeue of the call answers them, or Stopped and Busy as its
/// last direct transmit does. A seat that has the table alone serves the station as the run of one sender
/// does; with several queues, where what it has as holder is the account's.
pub fn run<'a, D: TxDevice>(shared: &Shared<'a, D>, cpu: &mut Cpu<D>) -> Ran
    requires seat { IsSeatOf shared.now cpu.old }
    requires at { position cpu.old ≡ begins (view cpu.old) }
    requires serves { MayServe shared.now cpu.old }
    requires begun { (view cpu.old).place.run ≡ 0 }
    ensures kept { IsKeptInRun cpu.old cpu.new }
    ensures serving { IsServing cpu.new }
    ensures at { position cpu.new ≡ Unlock }
    ensures trail { (view cpu.new).trail ≡ (view cpu.old).trail }
    ensures fates { KeepsFates (view cpu.old) (view cpu.new) }
    ensures makes { MakesStepsFrom (λ s. QdiscRunLocked (setup shared.now) s result) cpu.old cpu.new }
    ensures accepted { accepted_count (view cpu.new) ≡ accepted_count (view cpu.old) + result.sent }
    ensures alone { ServesStation shared.now cpu.old cpu.new }
{
    for sent in 0..QUOTA {
        if let Some(end) = restart(shared, cpu) {
            return Ran { end, sent };
        }
    }
    shared.set_missed(cpu);
    Ran {
        end: RunEnd::Quota,
        sent: QUOTA,
    }
}
