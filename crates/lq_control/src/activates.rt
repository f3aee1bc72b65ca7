//! A station is activated and deactivated.
ghost use Rattle.std.specs.Prelude.{◌≡◌, ℕ, true, false};
ghost use Rattle.lq_model.specs.declared.machine.Phase.TheVariants.{Active, Purged};
ghost use Rattle.lq_model.specs.declared.machine.Position.TheVariants.{Control, Idle};
ghost use Rattle.lq_model.specs.declared.plan.EventKind.TheVariants as kind;
ghost use Rattle.lq_table.specs.Controls.{clear_deactivated_view};
ghost use Rattle.lq_table.specs.Sees.{view, setup, position, IsSeatOf, IsElseSame, IsSole, solo};
ghost use Rattle.lq_control.specs.Alone.{DoesEventAlone};
ghost use Rattle.lq_control.specs.Control.{IsIn, deactivated_solo};
ghost use Rattle.lq_control.specs.Calls.{ControlsStation, MayControl, deactivated_by};
ghost use Rattle.lq_control.specs.Steps.{Deactivate, DevDeactivate, DevActivate};
ghost use Rattle.lq_ring.specs.StepLists.{MakesStepsFrom};

use crate::drains::wait_until_clear;
use crate::purges::purge_all;
use crate::waits::{release, take_lock, wait_for_calls};
use lq_device::TxDevice;
use lq_table::{Cpu, Shared};
use std::sync::Wait;

/// Activates a deactivated station: clears DEACTIVATED, as `transition_one_qdisc` of net/sched/sch_generic.c does for
/// `dev_activate`.
pub fn up<'a, D: TxDevice>(shared: &Shared<'a, D>, cpu: &mut Cpu<D>)
    requires seat { IsSeatOf shared.now cpu.old }
    requires at { (position cpu.old ≡ Idle) × ((view cpu.old).control.first ≡ true) }
    requires deactivated { IsIn Purged (view cpu.old) }
    ensures same { IsElseSame cpu.old cpu.new }
    ensures opened { view cpu.new ≡ clear_deactivated_view (view cpu.old) }
    ensures makes { MakesStepsFrom DevActivate cpu.old cpu.new }
    ensures alone { (event : ℕ) → DoesEventAlone (setup shared.now) event kind.Up (view cpu.old) (view cpu.new) }
{
    shared.begin_control(cpu);
    shared.clear_deactivated(cpu);
    shared.end_control(cpu);
}

/// Deactivates a station, as `dev_deactivate_many` of net/sched/sch_generic.c does: sets DEACTIVATED, waits until no call is
/// inside, purges under the run lock, and waits until the lock is free and SCHED is clear. What the station held gets Purged as
/// its fate, by the plan's event. It answers how many packets these were.
pub fn down<'a, D: TxDevice, R: Wait>(
    rt: &R,
    shared: &Shared<'a, D>,
    cpu: &mut Cpu<D>,
    event: u32,
) -> u32
    requires seat { IsSeatOf shared.now cpu.old }
    requires may { MayControl Idle Active cpu.old }
    ensures { ControlsStation Idle Purged (deactivated_by event) (DevDeactivate (setup shared.now) event result)
        (DoesEventAlone (setup shared.now) event kind.Down) cpu.old cpu.new }
{
    let purged = deactivate(rt, shared, cpu, event);
    wait_until_clear(rt, shared, cpu);
    shared.end_control(cpu);
    purged
}

/// Deactivates a station and purges it, up to the release of the run lock. It answers how many packets were purged.
pub(crate) fn deactivate<'a, D: TxDevice, R: Wait>(
    rt: &R,
    shared: &Shared<'a, D>,
    cpu: &mut Cpu<D>,
    event: u32,
) -> u32
    requires seat { IsSeatOf shared.now cpu.old }
    requires may { MayControl Idle Active cpu.old }
    ensures { ControlsStation (Control false) Purged (deactivated_by event) (Deactivate event result)
        (λ v w. IsSole v → solo w ≡ deactivated_solo event (solo v)) cpu.old cpu.new }
{
    shared.set_deactivated(cpu, event);
    wait_for_calls(rt, shared, cpu);
    take_lock(rt, shared, cpu);
    let purged = purge_all(shared, cpu);
    release(shared, cpu);
    purged
}
