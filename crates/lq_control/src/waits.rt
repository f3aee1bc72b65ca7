//! The loops in which control waits for senders. Each pauses between two looks by a `Backoff`, and looks at nothing but one word.
ghost use Rattle.std.specs.Prelude.{◌≡◌, true, false, [], ◌∷◌, ◌<◌, None};
ghost use Rattle.lq_model.specs.declared.machine.Phase.{Phase};
ghost use Rattle.lq_model.specs.declared.machine.Phase.TheVariants.{Closing, Quiet};
ghost use Rattle.lq_model.specs.declared.machine.Position.TheVariants.{Control};
ghost use Rattle.lq_table.specs.Locks.{locked_to, try_lock_view_in_control};
ghost use Rattle.lq_table.specs.Rule.{units_of, IsResting};
ghost use Rattle.lq_table.specs.Sees.{view, position, IsSeatOf, IsSameSeat, IsElseSame, IsSole, IsAccounts, solo};
ghost use Rattle.lq_table.specs.Step.{MakesSteps, MoveStation, Unlock};
ghost use Rattle.lq_run.specs.Runs.{HasNone, HasStation, MayReleaseRunLock};
ghost use Rattle.lq_run.specs.Steps.{MakesStepsOf};
ghost use Rattle.lq_control.specs.Control.{phased, with_lock_free};
ghost use Rattle.lq_control.specs.Seats.{MayRelease};
ghost use Rattle.lq_control.specs.Steps.{LookInside, TakeLock, Wait};
ghost use Rattle.lq_table.specs.Views.{HolderPart};
ghost use Rattle.lq_table.specs.Moves.{IsKnownSlot};

use crossbeam_utils::Backoff;
use lq_device::TxDevice;
use lq_run::try_run_lock;
use lq_table::{Cpu, Shared};
use std::sync::Wait;

/// Waits until no call is inside, for which `dev_deactivate_many` of net/sched/sch_generic.c has `synchronize_net` and
/// `some_qdisc_is_busy`.
pub(crate) fn wait_for_calls<'a, D: TxDevice, R: Wait>(
    rt: &R,
    shared: &Shared<'a, D>,
    cpu: &mut Cpu<D>,
)
    requires seat { IsSeatOf shared.now cpu.old }
    requires at { (position cpu.old ≡ Control false) × ((view cpu.old).control.phase ≡ Closing) }
    ensures makes { MakesStepsOf (Wait LookInside true) cpu.old cpu.new }
    ensures same { IsElseSame cpu.old cpu.new }
    ensures quiet { (p : Phase) × (view cpu.new ≡ phased Quiet p (view cpu.old)) }
{
    let backoff = Backoff::new();
    for _ in rt.forever() {
        if shared.load_inside(cpu) == 0 {
            return;
        }
        backoff.snooze();
    }
    unreachable!()
}

/// Waits for the run lock, and takes it with the station.
pub(crate) fn take_lock<'a, D: TxDevice, R: Wait>(rt: &R, shared: &Shared<'a, D>, cpu: &mut Cpu<D>)
    requires seat { IsSeatOf shared.now cpu.old }
    requires at { position cpu.old ≡ Control false }
    requires empty { HasNone cpu.old }
    ensures makes { MakesStepsOf TakeLock cpu.old cpu.new }
    ensures same { IsSameSeat cpu.old cpu.new × (cpu.new.indices ≡ cpu.old.indices) }
    ensures got { (d : HolderPart) × (view cpu.new ≡ try_lock_view_in_control d (view cpu.old)) × IsResting d.size d.ends × (0 < d.size)
        × (d.hand ≡ None) × (d.resizing ≡ None) × (d.shut ≡ None) × IsKnownSlot (view cpu.old).share.about d.slot }
    ensures units { (view cpu.old).control.first ≡ true → (view cpu.new).holder.units ≡ units_of (view cpu.old).trail }
    ensures station { HasStation cpu.new }
    ensures sole { IsSole (view cpu.old) → (solo (view cpu.new) ≡ locked_to true (solo (view cpu.old))) × IsAccounts (view cpu.new) }
{
    let backoff = Backoff::new();
    for _ in rt.forever() {
        if try_run_lock(shared, cpu) {
            shared.move_station(cpu);
            return;
        }
        backoff.snooze();
    }
    unreachable!()
}

/// Gives the station back and releases the run lock of a deactivated station.
pub(crate) fn release<'a, D: TxDevice>(shared: &Shared<'a, D>, cpu: &mut Cpu<D>)
    requires seat { IsSeatOf shared.now cpu.old }
    requires may { MayReleaseRunLock MayRelease cpu.old }
    ensures makes { MakesSteps (MoveStation ∷ Unlock ∷ []) cpu.old cpu.new }
    ensures same { IsSameSeat cpu.old cpu.new × (cpu.new.indices ≡ cpu.old.indices) }
    ensures released { view cpu.new ≡ with_lock_free (view cpu.old) }
    ensures empty { HasNone cpu.new }
{
    shared.move_station(cpu);
    shared.unlock(cpu);
}
