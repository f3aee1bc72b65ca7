//! Soft interrupts, and a driver's interrupts.
ghost use Rattle.std.specs.Prelude.{◌≡◌, ◌<◌, true, if◌then◌else◌};
ghost use Rattle.lq_model.specs.declared.machine.Position.TheVariants.{Idle, Soft, Leave, Try1};
ghost use Rattle.lq_table.specs.Sees.{view, setup, position, IsSeatOf, IsElseSame, solo};
ghost use Rattle.lq_table.specs.Moves.{at_rest};
ghost use Rattle.lq_qdisc.specs.Calls.{KeepsFates};
ghost use Rattle.lq_run.specs.Steps.{MakesStepsOf};
ghost use Rattle.lq_qdisc.specs.Sends.{IsReadyToSend, IsStill};
ghost use Rattle.lq_qdisc.specs.StepLists.{WakeQueue, BeginSoftirq, NetTxAction, WakeEach};
ghost use Rattle.lq_qdisc.specs.Parts.{InterruptsAs};
ghost use Rattle.lq_qdisc.specs.Seats.{BringsStation};
ghost use Rattle.lq_model.specs.declared.machine.Attempt.TheVariants.{Interrupt};
ghost use Rattle.lq_qdisc.specs.Alone.{Does};
ghost use Rattle.lq_table.specs.Views.{first_account};
ghost use Rattle.lq_model.specs.Alone.{opened};

use crate::sends::{is_deactivated, qdisc_run};
use lq_device::TxDevice;
use lq_run::{schedule, unschedule};
use lq_table::{Cpu, Shared};

/// The soft interrupt of a raised seat, as `net_tx_action` of net/core/dev.c does it for one qdisc: the mark is taken down and
/// SCHED cleared, so that the seat is raised afterwards only where it set SCHED after that, and the bands are served. It gives up
/// only where both loads of the state, the one before SCHED was cleared and the one after it, showed DEACTIVATED.
pub fn softirq<'a, D: TxDevice>(shared: &Shared<'a, D>, cpu: &mut Cpu<D>)
    requires seat { IsSeatOf shared.now cpu.old }
    requires at { at_rest (position cpu.old) ≡ true }
    requires raised { (view cpu.old).place.raised ≡ true }
    requires ready { IsReadyToSend cpu.old }
    ensures { InterruptsAs KeepsFates (NetTxAction (setup shared.now)) (BringsStation shared.now (λ s. s)) cpu.old cpu.new }
{
    shared.enter(cpu);
    if begin_softirq(shared, cpu) {
        qdisc_run(shared, cpu);
    }
    shared.leave(cpu);
}

/// Clears SCHED, and goes on to the run lock where the bands are to be served. Whether they are: not where the station is
/// deactivated still.
fn begin_softirq<'a, D: TxDevice>(shared: &Shared<'a, D>, cpu: &mut Cpu<D>) -> bool
    requires seat { IsSeatOf shared.now cpu.old }
    requires at { position cpu.old ≡ Soft }
    ensures same { IsElseSame cpu.old cpu.new }
    ensures at { position cpu.new ≡ (if result then Try1 Interrupt else Leave) }
    ensures still { IsStill (view cpu.old) (view cpu.new) × ((view cpu.new).locks ≡ (view cpu.old).locks)
        × ((view cpu.new).holder ≡ (view cpu.old).holder) }
    ensures makes { MakesStepsOf (BeginSoftirq result) cpu.old cpu.new }
    ensures mark { (view cpu.new).place.raised ≡ (view cpu.old).place.raised }
{
    let first = shared.load_state(cpu);
    unschedule(shared, cpu);
    if is_deactivated(first) {
        return !is_deactivated(shared.load_state(cpu));
    }
    true
}

/// A driver's interrupt: each queue that is stopped is opened, and the table scheduled, as `netif_tx_wake_queue` of
/// include/linux/netdevice.h does. The stop word of each queue is looked at in this call, and exchanged where it is 1; a hung
/// queue stays hung. Whether one was opened. A seat that has the table alone opens the queues of its station.
pub fn irq<'a, D: TxDevice>(shared: &Shared<'a, D>, cpu: &mut Cpu<D>) -> bool
    requires seat { IsSeatOf shared.now cpu.old }
    requires at { position cpu.old ≡ Idle }
    requires ready { IsReadyToSend cpu.old }
    ensures { InterruptsAs (λ v w. w.settled ≡ v.settled) (λ before. WakeEach shared.now.queues result)
        (λ b a. Does shared.now.infos.now (first_account (setup shared.now)) opened (solo (view b)) (solo (view a))) cpu.old cpu.new }
{
    let mut opened = false;
    for queue in 0..shared.queues() {
        let here = wake_queue(shared, cpu, queue);
        opened = opened || here;
    }
    opened
}

/// Opens a queue that is stopped, and schedules. Whether it was opened.
fn wake_queue<'a, D: TxDevice>(shared: &Shared<'a, D>, cpu: &mut Cpu<D>, queue: u32) -> bool
    requires seat { IsSeatOf shared.now cpu.old }
    requires queue { queue < shared.now.queues }
    requires at { position cpu.old ≡ Idle }
    ensures same { IsElseSame cpu.old cpu.new }
    ensures at { position cpu.new ≡ Idle }
    ensures makes { MakesStepsOf (WakeQueue queue result) cpu.old cpu.new }
{
    if shared.look_stop(cpu, queue) && shared.wake(cpu, queue) {
        schedule(shared, cpu);
        return true;
    }
    false
}
