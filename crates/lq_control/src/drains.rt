//! The soft interrupts of control's own seat.
ghost use Rattle.std.specs.Prelude.{◌≡◌, true, false, IsSome};
ghost use Rattle.lq_model.specs.declared.machine.Position.TheVariants.{Idle, Control};
ghost use Rattle.lq_table.specs.Sees.{view, setup, position, IsSeatOf, IsSameSeat, IsElseSame, IsSole, account_of, solo};
ghost use Rattle.lq_run.specs.Steps.{MakesStepsOf};
ghost use Rattle.lq_qdisc.specs.Sends.{IsReadyToSend};
ghost use Rattle.lq_control.specs.Alone.{unmarked};
ghost use Rattle.lq_control.specs.Calls.{ServesInterrupts};
ghost use Rattle.lq_control.specs.Control.{IsServed, OwesNoInterrupt};
ghost use Rattle.lq_control.specs.Seats.{IsFirstReadyAt};
ghost use Rattle.lq_control.specs.Steps.{LookClear, Drain, ServeOrLook, WaitUntilClear};
ghost use Rattle.lq_model.specs.Alone.{served};
ghost use Rattle.lq_table.specs.Views.{first_account};
ghost use Rattle.lq_qdisc.specs.Alone.{Does};
ghost use Rattle.lq_ring.specs.StepLists.{MakesStepsFrom};

use crossbeam_utils::Backoff;
use lq_device::TxDevice;
use lq_model::state::SCHED;
use lq_qdisc::softirq;
use lq_table::{Cpu, Shared};
use std::sync::Wait;

/// Does soft interrupts as long as the seat is raised, as `net_tx_action` of net/core/dev.c comes again for a CPU whose
/// `output_queue` isn't empty. A seat that has the table alone serves the station as the run of one sender does.
pub fn drain<'a, D: TxDevice, R: Wait>(rt: &R, shared: &Shared<'a, D>, cpu: &mut Cpu<D>)
    requires seat { IsSeatOf shared.now cpu.old }
    requires at { (position cpu.old ≡ Idle) × IsReadyToSend cpu.old }
    ensures { ServesInterrupts Idle (Drain (setup shared.now))
        (λ v w. Does shared.now.infos.now (first_account (setup shared.now)) (served shared.now.infos.now) (solo v) (solo w)) cpu.old cpu.new }
{
    for _ in rt.forever() {
        if !cpu.raised() {
            return;
        }
        softirq(shared, cpu);
    }
    unreachable!()
}

/// Whether the run lock is free and SCHED is clear.
fn is_clear<'a, D: TxDevice>(shared: &Shared<'a, D>, cpu: &mut Cpu<D>) -> bool
    requires seat { IsSeatOf shared.now cpu.old }
    requires at { (position cpu.old ≡ Control false) × ((view cpu.old).place.raised ≡ false) }
    ensures makes { MakesStepsOf (LookClear result) cpu.old cpu.new }
    ensures same { IsElseSame cpu.old cpu.new × (view cpu.new ≡ view cpu.old) }
    ensures sole { IsSole (view cpu.old) → result ≡ true → (view cpu.old).whole.qdisc.sched ≡ false }
{
    shared.load_lock(cpu) == 0 && shared.load_state(cpu) & SCHED == 0
}

/// Does the soft interrupt of a raised seat; or else tells whether the run lock is free and SCHED is clear.
fn serve_or_look<'a, D: TxDevice>(shared: &Shared<'a, D>, cpu: &mut Cpu<D>) -> bool
    requires seat { IsSeatOf shared.now cpu.old }
    requires at { IsFirstReadyAt (Control false) cpu.old }
    ensures same { IsSameSeat cpu.old cpu.new }
    ensures served { IsServed (view cpu.old) (view cpu.new) }
    ensures at { (position cpu.new ≡ Control false) × IsReadyToSend cpu.new }
    ensures clear { result ≡ true → OwesNoInterrupt (view cpu.new) }
    ensures off { IsSole (view cpu.old) → IsSome (account_of (view cpu.old)).down
        → unmarked (solo (view cpu.new)) ≡ unmarked (solo (view cpu.old)) }
    ensures makes { MakesStepsFrom (λ s. ServeOrLook (setup shared.now) s result) cpu.old cpu.new }
{
    if cpu.raised() {
        softirq(shared, cpu);
        shared.begin_control(cpu);
        return false;
    }
    is_clear(shared, cpu)
}

/// Waits until the run lock is free and SCHED is clear, for which `dev_deactivate_many` of net/sched/sch_generic.c has
/// `some_qdisc_is_busy`. Meanwhile it does the soft interrupts of its own seat, for which nobody else would come.
pub(crate) fn wait_until_clear<'a, D: TxDevice, R: Wait>(
    rt: &R,
    shared: &Shared<'a, D>,
    cpu: &mut Cpu<D>,
)
    requires seat { IsSeatOf shared.now cpu.old }
    requires at { IsFirstReadyAt (Control false) cpu.old }
    ensures { ServesInterrupts (Control false) (λ s. WaitUntilClear (setup shared.now) s true)
        (λ v w. IsSole v → IsSome (account_of v).down → solo w ≡ unmarked (solo v)) cpu.old cpu.new }
{
    let backoff = Backoff::new();
    for _ in rt.forever() {
        if serve_or_look(shared, cpu) {
            return;
        }
        backoff.snooze();
    }
    unreachable!()
}
