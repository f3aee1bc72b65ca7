//! The device of a station is swapped.
ghost use Rattle.std.specs.Prelude.{◌≡◌, ◌-◌, [], true, false, Some, None, ◌∷◌};
ghost use Rattle.lq_device.specs.Station.{with_device};
ghost use Rattle.lq_model.specs.declared.machine.Phase.TheVariants.{Active, Purged};
ghost use Rattle.lq_model.specs.declared.machine.Position.TheVariants.{Idle, Control};
ghost use Rattle.lq_table.specs.Views.{HolderPart, WholePart, first_account};
ghost use Rattle.lq_table.specs.Rule.{shown};
ghost use Rattle.lq_table.specs.Controls.{shut_after};
ghost use Rattle.lq_table.specs.Sees.{view, position, IsSeatOf, IsElseSame, solo, setup, IsSole, heard, device_to};
ghost use Rattle.lq_control.specs.Control.{IsIn, all_opened};
ghost use Rattle.lq_control.specs.Calls.{MaySwapAt, SwapsUnderControl, deactivated_by};
ghost use Rattle.lq_control.specs.Steps.{open_steps, ChangeDevice, SwapAt};
ghost use Rattle.lq_model.specs.Account.{Swap, Up};
ghost use Rattle.lq_table.specs.Step.{MakesSteps, SetStation};
ghost use Rattle.lq_model.specs.declared.plan.EventKind.TheVariants as kind;
ghost use Rattle.lq_model.specs.Alone.{changed, new_device};
ghost use Rattle.lq_model.specs.Plan.{Plan, unit_of_swap};
ghost use Rattle.lq_model.specs.declared.device.Params.{Params};
ghost use Rattle.lq_qdisc.specs.Alone.{Does};
ghost use Rattle.lq_table.specs.Locks.{locked_to};

use crate::activates::deactivate;
use crate::drains::wait_until_clear;
use crate::waits::{release, take_lock};
use lq_device::TxDevice;
use lq_table::{Cpu, Shared};
use std::sync::Wait;

/// Swaps the device of the station that the seat carries.
fn change_device<D: TxDevice>(cpu: &mut Cpu<D>, unit: u32, device: D) -> D
    requires station { (h : HolderPart) × (cpu.old.station ≡ Some (shown h)) }
    requires device { ((D.state device).accepted ≡ []) × ((D.state device).hung ≡ false) }
    ensures makes { (h : HolderPart) → cpu.old.station ≡ Some (shown h)
        → MakesSteps (SetStation (with_device (shown h) unit (D.state device)) ∷ []) cpu.old cpu.new }
    ensures went { (h : HolderPart) → cpu.old.station ≡ Some (shown h) → D.state result ≡ h.station.device }
{
    cpu.station_mut().change(unit, device)
}

/// Opens the queues after the first, whose stop word the swap has stored.
fn open_queues<'a, D: TxDevice>(shared: &Shared<'a, D>, cpu: &mut Cpu<D>)
    requires seat { IsSeatOf shared.now cpu.old }
    requires at { (position cpu.old ≡ Control true) × IsIn Purged (view cpu.old) }
    requires shut { (view cpu.old).holder.shut ≡ shut_after 0 shared.now.queues }
    ensures makes { MakesSteps (open_steps (shared.now.queues - 1)) cpu.old cpu.new }
    ensures same { IsElseSame cpu.old cpu.new }
    ensures opened { (w : WholePart) × (view cpu.new ≡ all_opened None w (view cpu.old)) × (w.told ≡ (view cpu.old).whole.told) }
    ensures step { solo (view cpu.new) ≡ solo (view cpu.old) }
{
    for queue in 1..shared.queues() {
        shared.open_xoff(cpu, queue);
    }
}

/// Swaps the device of a station that is deactivated and purged, under the run lock, and opens its queues.
fn swap_device<'a, D: TxDevice, R: Wait>(
    rt: &R,
    shared: &Shared<'a, D>,
    cpu: &mut Cpu<D>,
    unit: u32,
    device: D,
) -> D
    requires seat { IsSeatOf shared.now cpu.old }
    requires may { MaySwapAt shared.now (Control false) Purged unit (D.state device) cpu.old }
    ensures { SwapsUnderControl (Control false) Purged (Swap unit ∷ []) (ChangeDevice (setup shared.now) unit (D.state device) (D.state result))
        (λ v w. IsSole v → solo w ≡ locked_to false (device_to (D.state device) (heard (Swap unit) (locked_to true (solo v))))) cpu.old cpu.new }
{
    take_lock(rt, shared, cpu);
    let old = change_device(cpu, unit, device);
    shared.swap(cpu);
    open_queues(shared, cpu);
    release(shared, cpu);
    old
}

/// Swaps the device of an active station while it is deactivated: what the station held gets Purged as its fate, by the
/// plan's event, and its queues are open afterwards. `unit` is above every unit that the station had, and the device was asked
/// nothing and has room for all packets of the station. The old device comes back: the one that came with the latest unit, which was
/// asked for packets of the station alone and hangs as it told, and what it has accepted is what the seat knows that unit to have
/// sent.
pub fn swap<'a, D: TxDevice, R: Wait>(
    rt: &R,
    shared: &Shared<'a, D>,
    cpu: &mut Cpu<D>,
    unit: u32,
    device: D,
    event: u32,
) -> D
    requires seat { IsSeatOf shared.now cpu.old }
    requires may { MaySwapAt shared.now Idle Active unit (D.state device) cpu.old }
    ensures { SwapsUnderControl Idle Active (Up ∷ Swap unit ∷ deactivated_by event)
        (SwapAt (setup shared.now) event unit (D.state device) (D.state result))
        (λ v w. (plan : Plan) (params : Params) → unit_of_swap plan event ≡ unit → (D.state device).told ≡ Some (new_device params)
        → Does shared.now.infos.now (first_account (setup shared.now)) (changed plan event (kind.Swap params)) (solo v) (solo w)) cpu.old cpu.new }
{
    deactivate(rt, shared, cpu, event);
    wait_until_clear(rt, shared, cpu);
    let old = swap_device(rt, shared, cpu, unit, device);
    shared.clear_deactivated(cpu);
    shared.end_control(cpu);
    old
}
