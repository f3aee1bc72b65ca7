//! The run lock is tried and released, and what was missed meanwhile is scheduled.
#![tactic(auto)]

ghost use Rattle.std.specs.Prelude.{◌≡◌, ◌⊎◌, Bool, true, false, [], ◌∷◌};
ghost use Rattle.lq_model.specs.declared.machine.Position.TheVariants.{Try1, Unlock as AtUnlock, Leave as AtLeave, Idle as AtIdle};
ghost use Rattle.lq_model.specs.declared.machine.Attempt.{Attempt};
ghost use Rattle.lq_table.specs.Sees.{position, IsSeatOf};
ghost use Rattle.lq_table.specs.Locks.{try_lock_at};
ghost use Rattle.lq_table.specs.States.{miss_at, set_sched_at, clear_sched_at};
ghost use Rattle.lq_table.specs.Step.{ClearSched, MakesSteps, SetSched};
ghost use Rattle.lq_run.specs.Runs.{after_missed, released_to, BeginsAsHolder, HasNone, MayReleaseActive, MayReleaseRunLock, StandsWithoutStation};
ghost use Rattle.lq_run.specs.Steps.{Begin, End, MakesStepsOf, NoteMissed, TryRunLock};

mod laws;

pub use laws::{raised_marks_stay, sole_seats_get_free_locks, sole_seats_schedule_missed};
use lq_device::TxDevice;
use lq_model::state::MISSED;
use lq_table::{Cpu, Shared};

/// Tries the run lock, as `spin_trylock` does (`queued_spin_trylock` of include/asm-generic/qspinlock.h): the word is looked
/// at first, and exchanged only where it is free. True where the seat has the lock.
pub fn try_run_lock<'a, D: TxDevice>(shared: &Shared<'a, D>, cpu: &mut Cpu<D>) -> bool
    requires seat { IsSeatOf shared.now cpu.old }
    requires at { try_lock_at (position cpu.old) ≡ true }
    ensures makes { MakesStepsOf (TryRunLock result) cpu.old cpu.new }
{
    if shared.look_lock(cpu) {
        return false;
    }
    shared.try_lock(cpu)
}

/// Sets MISSED after a failed try of the run lock, where a look at the state doesn't find it set. True where it was set before.
fn note_missed<'a, D: TxDevice>(shared: &Shared<'a, D>, cpu: &mut Cpu<D>) -> bool
    requires seat { IsSeatOf shared.now cpu.old }
    requires at { miss_at (position cpu.old) ≡ true }
    ensures makes { MakesStepsOf (NoteMissed result) cpu.old cpu.new }
{
    if shared.look_missed(cpu) {
        return true;
    }
    shared.miss(cpu)
}

/// Tries the run lock, as `qdisc_run_begin` of include/net/sch_generic.h does. Where it is held MISSED is set, so that the
/// holder looks once more, and the lock is tried again unless MISSED was set before. True where the seat has the lock.
pub fn begin<'a, D: TxDevice>(shared: &Shared<'a, D>, cpu: &mut Cpu<D>) -> bool
    requires seat { IsSeatOf shared.now cpu.old }
    requires at { (a : Attempt) × (position cpu.old ≡ Try1 a) }
    requires empty { HasNone cpu.old }
    ensures makes { MakesStepsOf (Begin result) cpu.old cpu.new }
    ensures got { result ≡ true → BeginsAsHolder cpu.old cpu.new }
    ensures missed { result ≡ false → StandsWithoutStation (after_missed (position cpu.old)) cpu.old cpu.new }
{
    if try_run_lock(shared, cpu) {
        shared.move_station(cpu);
        return true;
    }
    if note_missed(shared, cpu) {
        return false;
    }
    if try_run_lock(shared, cpu) {
        shared.move_station(cpu);
        return true;
    }
    false
}

/// Releases the run lock, and schedules where MISSED is set after it.
fn release<'a, D: TxDevice>(shared: &Shared<'a, D>, cpu: &mut Cpu<D>)
    requires seat { IsSeatOf shared.now cpu.old }
    requires may { MayReleaseRunLock (λ c. (position c ≡ AtUnlock) ⊎ MayReleaseActive c) cpu.old }
    ensures makes { MakesStepsOf End cpu.old cpu.new }
    ensures at { StandsWithoutStation (released_to (position cpu.old)) cpu.old cpu.new }
{
    shared.move_station(cpu);
    shared.unlock(cpu);
    let state = shared.load_state(cpu);
    if state & MISSED != 0 {
        shared.set_sched(cpu);
    }
}

/// Releases the run lock, and schedules where MISSED is set after it, as `qdisc_run_end` of include/net/sch_generic.h
/// does.
pub fn end<'a, D: TxDevice>(shared: &Shared<'a, D>, cpu: &mut Cpu<D>)
    requires seat { IsSeatOf shared.now cpu.old }
    requires may { MayReleaseRunLock (λ c. position c ≡ AtUnlock) cpu.old }
    ensures makes { MakesStepsOf End cpu.old cpu.new }
    ensures at { StandsWithoutStation AtLeave cpu.old cpu.new }
{
    release(shared, cpu);
}

/// Releases the run lock after a live resize, and schedules where MISSED is set after it: what control does in place of the
/// end of a run.
pub fn end_resize<'a, D: TxDevice>(shared: &Shared<'a, D>, cpu: &mut Cpu<D>)
    requires seat { IsSeatOf shared.now cpu.old }
    requires may { MayReleaseRunLock MayReleaseActive cpu.old }
    ensures makes { MakesStepsOf End cpu.old cpu.new }
    ensures at { StandsWithoutStation AtIdle cpu.old cpu.new }
{
    release(shared, cpu);
}

/// Sets SCHED, as `__netif_schedule` of net/core/dev.c does; where it was clear the seat is raised.
pub fn schedule<'a, D: TxDevice>(shared: &Shared<'a, D>, cpu: &mut Cpu<D>)
    requires seat { IsSeatOf shared.now cpu.old }
    requires at { set_sched_at (position cpu.old) ≡ true }
    ensures makes { (was : Bool) × MakesSteps (SetSched was ∷ []) cpu.old cpu.new }
{
    shared.set_sched(cpu);
}

/// Clears SCHED at the start of a soft interrupt, as `net_tx_action` of net/core/dev.c does.
pub fn unschedule<'a, D: TxDevice>(shared: &Shared<'a, D>, cpu: &mut Cpu<D>)
    requires seat { IsSeatOf shared.now cpu.old }
    requires at { clear_sched_at (position cpu.old) ≡ true }
    ensures makes { MakesSteps (ClearSched ∷ []) cpu.old cpu.new }
{
    shared.clear_sched(cpu);
}
