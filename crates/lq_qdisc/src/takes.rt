//! Taking the packet that is served next.
ghost use Rattle.std.specs.Prelude.{◌≡◌, ◌<◌, ℕ, [], ◌∷◌, Bool, true, false, if◌then◌else◌, length, Some, None, ⊤, ◌≤◌, MatchOption};
ghost use Rattle.lq_model.specs.Plan.{queue_in};
ghost use Rattle.lq_model.specs.Steps.{queue_of_blocked};
ghost use Rattle.lq_model.specs.declared.machine.Blocked.{Blocked};
ghost use Rattle.lq_model.specs.declared.machine.Position.TheVariants.{BlockedClear, Scan, Test, ClearMissed, Deq, Unlock, Gate};
ghost use Rattle.lq_table.specs.Sees.{view, setup, position, slot, CarriesSlot, IsSeatOf, IsSole, solo, packet_at};
ghost use Rattle.lq_table.specs.Moves.{IsPacketOf};
ghost use Rattle.lq_device.specs.Station.{StationState, with_slot};
ghost use Rattle.lq_table.specs.Rule.{shown};
ghost use Rattle.lq_qdisc.specs.Seats.{ChangesStation};
ghost use Rattle.lq_qdisc.specs.Calls.{IsServing, Looks, cleared, ClearsMissedAlone, IsKeptInRun, IsSettledSame, Finds, FindsNone, after_blocked, laid_aside, looking_at};
ghost use Rattle.lq_table.specs.States.{some_bit, set_bit_alone};
ghost use Rattle.lq_table.specs.Step.{ClearDraining, ClearMissed as ClearMissedStep, LoadState, MakesSteps};
ghost use Rattle.lq_qdisc.specs.StepLists.{DequeueSkb, DequeuesTo, PfifoFastDequeue, MaybeClearMissed, ScanBands};
ghost use Rattle.lq_qdisc.specs.Parts.{DequeuesAs, MayServe, TakesNothing};
ghost use Rattle.lq_ring.specs.StepLists.{MakesStepsFrom};
ghost use Rattle.lq_run.specs.Steps.{MakesStepsOf};
ghost use Rattle.std.specs.Option.{option_map_or};
ghost use Rattle.lq_run.specs.Runs.{begins};

use crate::answers::Taken;
use lq_device::TxDevice;
use lq_model::state::{DRAINING, MISSED};
use lq_ring::consume;
use lq_table::{Cpu, Shared};

/// Takes the next packet, as `dequeue_skb` of net/sched/sch_generic.c does: that of the requeue slot, or else the first of the
/// lowest band that holds one. Where the requeue slot is full the queue of its packet must be open; where it is empty and
/// there is one queue, that one. The caller has the run lock and no packet in hand.
///
/// Stopped comes only where that stop word was loaded as 1 or 2 in this call; Empty only where the requeue slot was empty
/// and each band's head slot was loaded as 0 in this call, once more where a bit was set after that.
pub fn dequeue<'a, D: TxDevice>(shared: &Shared<'a, D>, cpu: &mut Cpu<D>) -> Taken
    requires seat { IsSeatOf shared.now cpu.old }
    requires at { position cpu.old ≡ begins (view cpu.old) }
    requires serves { MayServe shared.now cpu.old }
    ensures { DequeuesAs shared.now result (DequeuesTo (setup shared.now) result)
        (λ s. DequeueSkb (setup shared.now) s result) cpu.old cpu.new }
{
    if let Some(n) = requeued(cpu) {
        return dequeue_requeued(shared, cpu, n);
    }
    if shared.queues() > 1 {
        return dequeue_bands(shared, cpu);
    }
    dequeue_open(shared, cpu)
}

/// The queue of a packet.
pub(crate) fn queue_of<'a, D: TxDevice>(shared: &Shared<'a, D>, n: u32) -> u32
    requires { n < length shared.now.infos.now }
    ensures { result ≡ queue_in shared.now.infos.now n }
{
    shared.infos()[n as usize].queue as u32
}

/// The packet in the requeue slot.
fn requeued<D: TxDevice>(cpu: &Cpu<D>) -> Option<u32>
    requires station { cpu.now.station ≡ Some (shown (view cpu.now).holder) }
    ensures { result ≡ (view cpu.now).holder.slot }
{
    cpu.station().slot()
}

/// Takes the packet out of the requeue slot, where its step has told so.
fn take_requeued<D: TxDevice>(cpu: &mut Cpu<D>)
    requires station { (st : StationState) × (cpu.old.station ≡ Some st) }
    ensures { ChangesStation (λ st. with_slot st None) cpu.old cpu.new }
{
    let _ = cpu.station_mut().take_slot();
}

/// Takes packet `n` of the requeue slot, where its queue is open.
fn dequeue_requeued<'a, D: TxDevice>(shared: &Shared<'a, D>, cpu: &mut Cpu<D>, n: u32) -> Taken
    requires seat { IsSeatOf shared.now cpu.old }
    requires at { position cpu.old ≡ Deq }
    requires serving { IsServing cpu.old }
    requires slot { ((view cpu.old).holder.slot ≡ Some n) × IsPacketOf (setup shared.now) n }
    ensures { DequeuesAs shared.now result (DequeuesTo (setup shared.now) result)
        (λ s. DequeueSkb (setup shared.now) s result) cpu.old cpu.new }
{
    let queue = queue_of(shared, n);
    if shared.load_xoff(cpu, queue) != 0 {
        maybe_clear_missed(shared, cpu, queue);
        return Taken::Stopped;
    }
    take_requeued(cpu);
    Taken::Packet(n)
}

/// Looks through the bands of a station with one queue, where that is open.
fn dequeue_open<'a, D: TxDevice>(shared: &Shared<'a, D>, cpu: &mut Cpu<D>) -> Taken
    requires seat { IsSeatOf shared.now cpu.old }
    requires at { position cpu.old ≡ Deq }
    requires serving { IsServing cpu.old }
    requires empty { (view cpu.old).holder.slot ≡ None }
    requires one { shared.now.queues ≤ 1 }
    ensures { DequeuesAs shared.now result (DequeuesTo (setup shared.now) result)
        (λ s. DequeueSkb (setup shared.now) s result) cpu.old cpu.new }
{
    if shared.load_xoff(cpu, 0) != 0 {
        maybe_clear_missed(shared, cpu, 0);
        return Taken::Stopped;
    }
    dequeue_bands(shared, cpu)
}

/// Takes the first packet of the lowest band that holds one, as `pfifo_fast_dequeue` of net/sched/sch_generic.c does in its
/// loop: a lower band was found empty in this call.
fn scan<'a, D: TxDevice>(shared: &Shared<'a, D>, cpu: &mut Cpu<D>) -> Option<u32>
    requires seat { IsSeatOf shared.now cpu.old }
    requires at { (second : Bool) × (position cpu.old ≡ Scan 0 second) }
    requires serving { IsServing cpu.old }
    ensures kept { IsKeptInRun cpu.old cpu.new }
    ensures run { (view cpu.new).place.run ≡ (view cpu.old).place.run }
    ensures serving { IsServing cpu.new }
    ensures at { (second : Bool) → position cpu.old ≡ Scan 0 second
        → position cpu.new ≡ option_map_or (λ n. Gate (packet_at shared.now n) false) result (looking_at 3 second) }
    ensures fates { IsSettledSame cpu.old cpu.new }
    ensures taken { MatchOption result (FindsNone (view cpu.old) (view cpu.new)) (λ n. Finds n (view cpu.old) (view cpu.new)) }
    ensures packet { MatchOption result ⊤ (λ n. IsPacketOf (setup shared.now) n) }
    ensures makes { MakesStepsFrom (λ s. ScanBands s result) cpu.old cpu.new }
{
    for band in 0..3 {
        if let Some(n) = consume(shared, cpu, band) {
            return Some(n);
        }
    }
    None
}

/// Whether MISSED or DRAINING is set: `QDISC_STATE_NON_EMPTY` of include/net/sch_generic.h.
pub(crate) fn is_non_empty(state: u64) -> bool
    ensures { result ≡ some_bit state }
{
    state & MISSED != 0 || state & DRAINING != 0
}

/// Whether one is, after a look that found nothing.
fn load_is_non_empty<'a, D: TxDevice>(shared: &Shared<'a, D>, cpu: &mut Cpu<D>) -> bool
    requires seat { IsSeatOf shared.now cpu.old }
    requires at { position cpu.old ≡ Test }
    ensures loads { TakesNothing (if result then ClearMissed else Unlock) (λ s. s)
        (λ b a. (state : ℕ) × (result ≡ some_bit state) × MakesSteps (LoadState state ∷ []) b a) cpu.old cpu.new }
    ensures sole { IsSole (view cpu.old) → result ≡ false → solo (view cpu.new) ≡ cleared (solo (view cpu.old)) }
{
    is_non_empty(shared.load_state(cpu))
}

/// Clears MISSED, and then DRAINING.
fn clear_non_empty<'a, D: TxDevice>(shared: &Shared<'a, D>, cpu: &mut Cpu<D>)
    requires seat { IsSeatOf shared.now cpu.old }
    requires at { position cpu.old ≡ ClearMissed }
    ensures { TakesNothing (Scan 0 true) cleared (MakesSteps (ClearMissedStep ∷ ClearDraining ∷ [])) cpu.old cpu.new }
{
    shared.clear_missed(cpu);
    shared.clear_draining(cpu);
}

/// Looks through the bands. Where all are empty and MISSED or DRAINING is set, clears both and looks once more: the retry of
/// `pfifo_fast_dequeue` of net/sched/sch_generic.c.
fn dequeue_bands<'a, D: TxDevice>(shared: &Shared<'a, D>, cpu: &mut Cpu<D>) -> Taken
    requires seat { IsSeatOf shared.now cpu.old }
    requires at { position cpu.old ≡ Scan 0 false }
    requires serving { IsServing cpu.old }
    ensures { DequeuesAs shared.now result (Looks result) (λ s. PfifoFastDequeue s result) cpu.old cpu.new }
{
    if let Some(n) = scan(shared, cpu) {
        return Taken::Packet(n);
    }
    if !load_is_non_empty(shared, cpu) {
        return Taken::Empty;
    }
    clear_non_empty(shared, cpu);
    match scan(shared, cpu) {
        Some(n) => Taken::Packet(n),
        None => Taken::Empty,
    }
}

/// At a stopped queue: clears MISSED, and loads the queue's stop word once more. Where it is open by now MISSED is set again,
/// so that the run's end schedules; where it is stopped still DRAINING is set, and its wake schedules:
/// `qdisc_maybe_clear_missed` of net/sched/sch_generic.c. A packet in hand is on its way to the requeue slot then.
pub(crate) fn maybe_clear_missed<'a, D: TxDevice>(
    shared: &Shared<'a, D>,
    cpu: &mut Cpu<D>,
    queue: u32,
)
    requires seat { IsSeatOf shared.now cpu.old }
    requires at { (b : Blocked) × (position cpu.old ≡ BlockedClear b) × (queue_of_blocked b ≡ queue) }
    requires queue { queue < shared.now.queues }
    requires slot { CarriesSlot cpu.old }
    requires shut { (view cpu.old).holder.shut ≡ None }
    ensures kept { IsKeptInRun cpu.old cpu.new }
    ensures run { (view cpu.new).place.run ≡ (view cpu.old).place.run }
    ensures station { (cpu.new.station ≡ cpu.old.station) × (slot cpu.new ≡ slot cpu.old) }
    ensures at { position cpu.new ≡ after_blocked (position cpu.old) }
    ensures holder { (view cpu.new).holder ≡ laid_aside (position cpu.old) (view cpu.old).holder }
    ensures fates { IsSettledSame cpu.old cpu.new }
    ensures sole { ClearsMissedAlone queue (set_bit_alone (view cpu.old)) (view cpu.old) (view cpu.new) }
    ensures makes { MakesStepsOf (MaybeClearMissed queue) cpu.old cpu.new }
{
    shared.clear_missed(cpu);
    if shared.load_xoff(cpu, queue) == 0 {
        shared.set_missed(cpu);
    } else {
        shared.set_draining(cpu);
    }
}
