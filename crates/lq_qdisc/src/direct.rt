//! Handing a packet to the device.
ghost use Rattle.std.specs.Prelude.{◌≡◌, [], ◌∷◌, Bool, true, Some, None, ◌<◌, false, is_some, length, List, ◌++◌, ◌+◌};
ghost use Rattle.lq_device.specs.Station.{StationState, with_slot, HasAnswered};
ghost use Rattle.lq_model.specs.Device.{is_busy, is_hang};
ghost use Rattle.lq_model.specs.Plan.{queue_in};
ghost use Rattle.lq_model.specs.declared.device.Tx.TheVariants.{SentHang, Busy as NotSent};
ghost use Rattle.lq_model.specs.declared.machine.Position.TheVariants.{Gate, StoreXoff, Xmit, BlockedClear, Unlock};
ghost use Rattle.lq_table.specs.Step.{MakesSteps, Settle, Requeue, SetMissed, SetStation, Step};
ghost use Rattle.lq_table.specs.Sees.{view, position, packet_at, IsSeatOf, steps, setup, slot, carried, IsSameSeat, solo, heard, device_to};
ghost use Rattle.lq_qdisc.specs.Direct.{Directs, SeesOpen, sent_leads};
ghost use Rattle.lq_qdisc.specs.StepLists.{DirectXmit, StartXmit, MaybeClearMissed};
ghost use Rattle.lq_qdisc.specs.Parts.{MayXmit, StoresStops, XmitsBy};
ghost use Rattle.lq_qdisc.specs.Seats.{ChangesStation, KeepsSeatAndView};
ghost use Rattle.lq_model.specs.Account.{Back};
ghost use Rattle.lq_model.specs.declared.device.Tx.{Tx};
ghost use Rattle.lq_model.specs.declared.machine.Blocked.TheVariants.{InHand};
ghost use Rattle.lq_table.specs.States.{requeue_view, missed_to};
ghost use Rattle.lq_table.specs.Fates.{fate_sent};
ghost use Rattle.lq_table.specs.Rule.{shown};
ghost use Rattle.lq_table.specs.Stops.{HasRoom};
ghost use Rattle.lq_table.specs.Moves.{IsPacketOf};
ghost use Rattle.lq_qdisc.specs.Calls.{ClearsMissedAlone, IsServing, IsKeptInRun, IsSettledSame};
ghost use Rattle.lq_model.specs.declared.fate.Fate.TheVariants as fate;

use crate::answers::{Through, Why};
use crate::takes::{maybe_clear_missed, queue_of};
use lq_device::TxDevice;
use lq_model::{Fate, Tx};
use lq_table::{Cpu, Shared};

/// Hands packet `n`, which is in hand, to the device, as `sch_direct_xmit` of net/sched/sch_generic.c does. A packet that
/// the device doesn't take goes to the requeue slot, and MISSED is set, as `dev_requeue_skb` does there.
///
/// Yes only where the device accepted `n` in this call: its fate is Sent. Stopped only where the stop word of the packet's
/// queue was loaded as 1 or 2 in this call, Busy only where the device answered so.
pub fn direct_xmit<'a, D: TxDevice>(shared: &Shared<'a, D>, cpu: &mut Cpu<D>, n: u32) -> Through
    requires seat { IsSeatOf shared.now cpu.old }
    requires may { (direct : Bool) × MayXmit shared.now n direct cpu.old }
    ensures { XmitsBy (Gate (packet_at shared.now n)) result (Directs result n (queue_in shared.now.infos.now n))
        (λ s. DirectXmit shared.now.queues n (queue_in shared.now.infos.now n) s result) cpu.old cpu.new }
{
    let queue = queue_of(shared, n);
    if shared.load_xoff(cpu, queue) != 0 {
        requeue_stopped(shared, cpu, n, queue);
        return Through::Back(Why::Stopped);
    }
    start_xmit(shared, cpu, n, queue)
}

/// Lays packet `n` into the requeue slot, which is empty.
fn fill_requeue_slot<D: TxDevice>(cpu: &mut Cpu<D>, n: u32)
    requires station { (st : StationState) × (cpu.old.station ≡ Some st) × (st.slot ≡ None) }
    ensures { ChangesStation (λ st. with_slot st (Some n)) cpu.old cpu.new }
{
    cpu.station_mut().set_slot(n);
}

/// The queue of packet `n`, which is in hand, was found stopped: `n` goes to the requeue slot, which is empty, and MISSED is set.
fn requeue_stopped<'a, D: TxDevice>(shared: &Shared<'a, D>, cpu: &mut Cpu<D>, n: u32, queue: u32)
    requires seat { IsSeatOf shared.now cpu.old }
    requires within { queue < shared.now.queues }
    requires queue_is { queue ≡ queue_in shared.now.infos.now n }
    requires at { (direct : Bool) × (position cpu.old ≡ BlockedClear (InHand (packet_at shared.now n) direct)) }
    requires serving { IsServing cpu.old }
    requires hand { (view cpu.old).holder.hand ≡ Some n }
    requires slot { (view cpu.old).holder.slot ≡ None }
    ensures kept { IsKeptInRun cpu.old cpu.new }
    ensures serving { IsServing cpu.new }
    ensures at { position cpu.new ≡ Unlock }
    ensures run { (view cpu.new).place.run ≡ (view cpu.old).place.run }
    ensures fates { IsSettledSame cpu.old cpu.new }
    ensures holder { (view cpu.new).holder ≡ record (view cpu.old).holder { slot = Some n; hand = None } }
    ensures sole { ClearsMissedAlone queue (λ s. missed_to true (heard Back s)) (view cpu.old) (view cpu.new) }
    ensures makes { (cleared : List Step) × (was : Bool) × MaybeClearMissed queue cleared
        × MakesSteps (cleared ++ SetStation (with_slot (carried cpu.old) (Some n)) ∷ SetMissed was ∷ []) cpu.old cpu.new }
{
    maybe_clear_missed(shared, cpu, queue);
    fill_requeue_slot(cpu, n);
    shared.set_missed(cpu);
}

/// Hands packet `n` of this queue to the device of the station that the seat carries. Its device has room, and
/// doesn't hang. Gives the device's answer, and the fate that the packet has where it was accepted.
fn ask_device<D: TxDevice>(cpu: &mut Cpu<D>, queue: u32, n: u32) -> (Tx, Fate)
    requires station { (st : StationState) × (cpu.old.station ≡ Some st) × (0 < st.device.spare) × (st.device.hung ≡ false)
        × (length st.device.accepted < 1000000) }
    ensures same { KeepsSeatAndView cpu.old cpu.new }
    ensures station { cpu.new.station ≡ Some (carried cpu.new) }
    ensures handed { (st : StationState) → cpu.old.station ≡ Some st → (result.1 ≡ fate_sent st)
        × HasAnswered result.0 queue n st (carried cpu.new) }
    ensures made { steps cpu.new ≡ steps cpu.old }
{
    let station = cpu.station_mut();
    let unit = station.unit();
    let serial = station.sent();
    let answer = station.xmit(queue, n);
    (answer, Fate::Sent { unit, serial })
}

/// Whether the device didn't accept a packet that it answered so: it stays with the caller, as with `NETDEV_TX_BUSY`.
fn is_refusal(answer: Tx) -> bool
    ensures { result ≡ is_busy answer }
{
    match answer {
        Tx::Busy => true,
        Tx::Sent | Tx::SentStop | Tx::SentHang => false,
    }
}

/// Stores in each queue's stop word that the device hangs.
fn store_hung<'a, D: TxDevice>(shared: &Shared<'a, D>, cpu: &mut Cpu<D>)
    requires seat { IsSeatOf shared.now cpu.old }
    requires at { (direct : Bool) × (position cpu.old ≡ StoreXoff 0 true direct) }
    requires hung { (view cpu.old).holder.station.device.hung ≡ true }
    ensures { StoresStops shared.now 0 SentHang cpu.old cpu.new }
{
    for queue in 0..shared.queues() {
        shared.store_xoff(cpu, queue, 2);
    }
}

/// The device has answered Busy to packet `n`, which is in hand: `n` goes to the requeue slot, which is empty, and then MISSED is
/// set, as `dev_requeue_skb` of net/sched/sch_generic.c does.
fn requeue_busy<'a, D: TxDevice>(shared: &Shared<'a, D>, cpu: &mut Cpu<D>, n: u32)
    requires seat { IsSeatOf shared.now cpu.old }
    requires at { (direct : Bool) × (position cpu.old ≡ Xmit (packet_at shared.now n) direct) }
    requires slot_at { slot cpu.old ≡ (0, None) ∷ [] }
    requires station { is_some cpu.old.station ≡ true }
    requires hand { (view cpu.old).holder.hand ≡ Some n }
    requires empty { (view cpu.old).holder.slot ≡ None }
    requires called { HasAnswered NotSent (queue_in shared.now.infos.now n) n (shown (view cpu.old).holder) (carried cpu.old) }
    ensures same { IsSameSeat cpu.old cpu.new }
    ensures indices { cpu.new.indices ≡ cpu.old.indices }
    ensures same_slot { slot cpu.new ≡ slot cpu.old }
    ensures requeued { view cpu.new ≡ requeue_view (carried cpu.old) (view cpu.old) }
    ensures station { cpu.new.station ≡ Some (shown (view cpu.new).holder) }
    ensures step { solo (view cpu.new) ≡ device_to (carried cpu.old).device (heard Back (missed_to true (solo (view cpu.old)))) }
    ensures makes { (was : Bool) × MakesSteps (SetStation (with_slot (carried cpu.old) (Some n)) ∷ Requeue was ∷ []) cpu.old cpu.new }
{
    fill_requeue_slot(cpu, n);
    shared.requeue(cpu);
}

/// Stores the fate of packet `n`, which is in hand, and which the device has just accepted.
fn settle_sent<'a, D: TxDevice>(shared: &Shared<'a, D>, cpu: &mut Cpu<D>, n: u32, fate: Fate)
    requires seat { IsSeatOf shared.now cpu.old }
    requires within { n < length shared.now.infos.now }
    requires at { (direct : Bool) × (position cpu.old ≡ Xmit (packet_at shared.now n) direct) }
    requires hand { (view cpu.old).holder.hand ≡ Some n }
    requires room { HasRoom (view cpu.old).holder }
    requires accepted { (answer : Tx) × (is_busy answer ≡ false)
        × HasAnswered answer (queue_in shared.now.infos.now n) n (shown (view cpu.old).holder) (carried cpu.old) }
    requires fate_is { fate ≡ fate_sent (view cpu.old).holder.station }
    ensures { MakesSteps (Settle n fate ∷ []) cpu.old cpu.new }
{
    shared.settle(cpu, n, fate);
}

/// Stores what follows an answer of the device that accepted a packet of this queue: nothing, that the queue is stopped, or
/// that each queue is hung.
fn stop<'a, D: TxDevice>(shared: &Shared<'a, D>, cpu: &mut Cpu<D>, queue: u32, answer: Tx)
    requires seat { IsSeatOf shared.now cpu.old }
    requires within { queue < shared.now.queues }
    requires at { (direct : Bool) × (position cpu.old ≡ sent_leads answer queue direct (view cpu.old)) }
    requires hung { (view cpu.old).holder.station.device.hung ≡ is_hang answer }
    ensures { StoresStops shared.now queue answer cpu.old cpu.new }
{
    match answer {
        Tx::Sent | Tx::Busy => {}
        Tx::SentStop => shared.store_xoff(cpu, queue, 1),
        Tx::SentHang => store_hung(shared, cpu),
    }
}

/// Hands packet `n`, which the holder has in hand and whose queue is open, to the device, which has room; what follows goes by its
/// answer.
fn start_xmit<'a, D: TxDevice>(
    shared: &Shared<'a, D>,
    cpu: &mut Cpu<D>,
    n: u32,
    queue: u32,
) -> Through
    requires seat { IsSeatOf shared.now cpu.old }
    requires packet { IsPacketOf (setup shared.now) n }
    requires queue_is { queue ≡ queue_in shared.now.infos.now n }
    requires at { (direct : Bool) × (position cpu.old ≡ Xmit (packet_at shared.now n) direct) }
    requires serving { IsServing cpu.old }
    requires hand { (view cpu.old).holder.hand ≡ Some n }
    requires room { HasRoom (view cpu.old).holder }
    requires running { (view cpu.old).holder.station.device.hung ≡ false }
    requires is_open { SeesOpen queue (view cpu.old) }
    ensures { XmitsBy (Xmit (packet_at shared.now n)) result (Directs result n queue)
        (λ s. StartXmit shared.now.queues n queue s result) cpu.old cpu.new }
{
    let (answer, fate) = ask_device(cpu, queue, n);
    if is_refusal(answer) {
        requeue_busy(shared, cpu, n);
        return Through::Back(Why::Busy);
    }
    settle_sent(shared, cpu, n, fate);
    stop(shared, cpu, queue, answer);
    Through::Yes
}
