//! The length of a station's rings is changed.
ghost use Rattle.std.specs.Prelude.{◌≡◌, ◌<◌, ◌≤◌, false, [], ◌∷◌, true};
ghost use Rattle.lq_model.specs.Account.{Resize, Up};
ghost use Rattle.lq_model.specs.declared.machine.Phase.TheVariants.{Active, Purged};
ghost use Rattle.lq_model.specs.declared.machine.Position.TheVariants.{Idle, Control};
ghost use Rattle.lq_model.specs.declared.plan.EventKind.TheVariants as kind;
ghost use Rattle.lq_table.specs.Sees.{view, setup, position, IsSeatOf, IsSole, solo, heard};
ghost use Rattle.lq_qdisc.specs.Sends.{IsReadyToSend};
ghost use Rattle.lq_control.specs.Alone.{DoesEventAlone};
ghost use Rattle.lq_control.specs.Control.{IsIn};
ghost use Rattle.lq_control.specs.Calls.{ControlsStation, MayControl, deactivated_by};
ghost use Rattle.lq_control.specs.Steps.{ResizeLive, Relength, ChangeTxQueueLen};
ghost use Rattle.lq_run.specs.Runs.{ended};
ghost use Rattle.lq_table.specs.Locks.{locked_to};

use crate::activates::deactivate;
use crate::drains::wait_until_clear;
use crate::waits::{release, take_lock};
use lq_device::TxDevice;
use lq_ring::resize_all;
use lq_run::end_resize;
use lq_table::{Cpu, Shared};
use std::sync::Wait;

/// Changes the length of the rings of an active station while senders go on, as `pfifo_fast_change_tx_queue_len` of
/// net/sched/sch_generic.c does. It waits for the run lock and for the three producer locks. Each band keeps its first packets
/// in order; the others get Shrunk as their fate, by the plan's event. It answers their number.
pub fn resize<'a, D: TxDevice, R: Wait>(
    rt: &R,
    shared: &Shared<'a, D>,
    cpu: &mut Cpu<D>,
    len: u32,
    event: u32,
) -> u32
    requires seat { IsSeatOf shared.now cpu.old }
    requires may { MayControl Idle Active cpu.old }
    requires len { (0 < len) × (len ≤ shared.now.max_len) }
    ensures { ControlsStation Idle Active (Resize len event ∷ []) (ResizeLive event len result)
        (λ v w. (IsSole v → solo w ≡ ended (heard (Resize len event) (locked_to true (solo v))))
        × DoesEventAlone (setup shared.now) event (kind.Resize len) v w) cpu.old cpu.new }
{
    shared.begin_control(cpu);
    take_lock(rt, shared, cpu);
    let shrunk = resize_all(rt, shared, cpu, len, event);
    end_resize(shared, cpu);
    shrunk
}

/// Changes the length of the empty rings of a station that is deactivated and purged.
fn relength<'a, D: TxDevice, R: Wait>(
    rt: &R,
    shared: &Shared<'a, D>,
    cpu: &mut Cpu<D>,
    len: u32,
    event: u32,
)
    requires seat { IsSeatOf shared.now cpu.old }
    requires at { (position cpu.old ≡ Control false) × IsReadyToSend cpu.old }
    requires purged { IsIn Purged (view cpu.old) }
    requires len { (0 < len) × (len ≤ shared.now.max_len) }
    ensures { ControlsStation (Control false) Purged (Resize len event ∷ []) (Relength event len)
        (λ v w. IsSole v → solo w ≡ locked_to false (heard (Resize len event) (locked_to true (solo v)))) cpu.old cpu.new }
{
    take_lock(rt, shared, cpu);
    resize_all(rt, shared, cpu, len, event);
    release(shared, cpu);
}

/// Changes the length of the rings of an active station while it is deactivated, as `dev_qdisc_change_tx_queue_len` of
/// net/sched/sch_generic.c does: no packet is dropped for want of room. What the station held gets Purged as its fate, by the
/// plan's event. It answers how many packets these were.
pub fn tx_queue_len<'a, D: TxDevice, R: Wait>(
    rt: &R,
    shared: &Shared<'a, D>,
    cpu: &mut Cpu<D>,
    len: u32,
    event: u32,
) -> u32
    requires seat { IsSeatOf shared.now cpu.old }
    requires may { MayControl Idle Active cpu.old }
    requires len { (0 < len) × (len ≤ shared.now.max_len) }
    ensures { ControlsStation Idle Active (Up ∷ Resize len event ∷ deactivated_by event) (ChangeTxQueueLen (setup shared.now) event len result)
        (DoesEventAlone (setup shared.now) event (kind.TxQueueLen len)) cpu.old cpu.new }
{
    let purged = deactivate(rt, shared, cpu, event);
    wait_until_clear(rt, shared, cpu);
    relength(rt, shared, cpu, len, event);
    shared.clear_deactivated(cpu);
    shared.end_control(cpu);
    purged
}
