//! Transmits, and attempts to run the queue discipline.
ghost use Rattle.std.specs.Prelude.{◌≡◌, ◌<◌, Bool, true, false, length, ℕ, [], ◌∷◌, ◌+◌, ◌*◌, None, Some};
ghost use Rattle.lq_model.specs.declared.machine.Attempt.TheVariants.{Direct as ToPass};
ghost use Rattle.lq_model.specs.declared.machine.Position.TheVariants.{Check, Put, Recheck, Try1};
ghost use Rattle.lq_table.specs.Sees.{view, setup, packet_at, IsSeatOf, position, slot, IsSameSeat, IsElseSame, solo};
ghost use Rattle.lq_table.specs.Moves.{is_set};
ghost use Rattle.lq_qdisc.specs.StepLists.{BypassLocked, EnqueueAndRun, EnqueueAndRunLocked, QdiscRun, RunAfterBypass, RunToEnd, TryBypass, XmitBypass, XmitSkb, PfifoFastEnqueue};
ghost use Rattle.lq_qdisc.specs.Sends.{serves_bands};
ghost use Rattle.lq_qdisc.specs.Calls.{IsServing};
ghost use Rattle.lq_qdisc.specs.Direct.{position_after};
ghost use Rattle.lq_qdisc.specs.declared.answers.Through.TheVariants.{Yes};
ghost use Rattle.lq_qdisc.specs.Parts.{BringsBy, EndsCallBy, IsFreeInside, MayBring, MayServe, MayXmit};
ghost use Rattle.lq_table.specs.Step.{MakesSteps, Settle};
ghost use Rattle.lq_run.specs.Steps.{MakesStepsOf};
ghost use Rattle.lq_model.specs.declared.fate.Fate.TheVariants as fate;
ghost use Rattle.lq_qdisc.specs.declared.answers.Sending.TheVariants as sending;
ghost use Rattle.lq_model.specs.declared.machine.Attempt.{Attempt};
ghost use Rattle.lq_ring.specs.Seats.{GoesOnFromPut};
ghost use Rattle.lq_table.specs.Fates.{settle_view_owed};
ghost use Rattle.lq_ring.specs.Put.{no_locks};
ghost use Rattle.lq_run.specs.Runs.{begins};

use crate::answers::{Sending, Through};
use crate::direct::direct_xmit;
use crate::runs::run;
use crate::takes::is_non_empty;
use lq_device::TxDevice;
use lq_model::Fate;
use lq_model::state::DEACTIVATED;
use lq_ring::produce;
use lq_run::{begin, end};
use lq_table::{Cpu, Shared};
use std::sync::Wait;

/// Whether DEACTIVATED is set.
pub(crate) fn is_deactivated(state: u64) -> bool
    ensures { result ≡ is_set 2 state }
{
    state & DEACTIVATED != 0
}

/// Serves the bands and releases the run lock: `__qdisc_run` of net/sched/sch_generic.c and `qdisc_run_end` of
/// include/net/sch_generic.h.
fn run_to_end<'a, D: TxDevice>(shared: &Shared<'a, D>, cpu: &mut Cpu<D>)
    requires seat { IsSeatOf shared.now cpu.old }
    requires at { position cpu.old ≡ begins (view cpu.old) }
    requires serves { MayServe shared.now cpu.old }
    requires begun { (view cpu.old).place.run ≡ 0 }
    ensures { EndsCallBy (RunToEnd (setup shared.now)) cpu.old cpu.new }
{
    run(shared, cpu);
    end(shared, cpu);
}

/// Tries the run lock, and serves the bands where it is got: `qdisc_run` of include/net/pkt_sched.h.
pub(crate) fn qdisc_run<'a, D: TxDevice>(shared: &Shared<'a, D>, cpu: &mut Cpu<D>)
    requires seat { IsSeatOf shared.now cpu.old }
    requires at { (a : Attempt) × (position cpu.old ≡ Try1 a) × (serves_bands a ≡ true) }
    requires free { IsFreeInside cpu.old }
    ensures { EndsCallBy (QdiscRun (setup shared.now)) cpu.old cpu.new }
{
    if begin(shared, cpu) {
        run_to_end(shared, cpu);
    }
}

/// Puts packet `n`, which the seat brings, into its band, as `pfifo_fast_enqueue` of net/sched/sch_generic.c does; where
/// that is full the packet is dropped, and its fate stored.
fn enqueue<'a, D: TxDevice, R: Wait>(
    rt: &R,
    shared: &Shared<'a, D>,
    cpu: &mut Cpu<D>,
    n: u32,
) -> Sending
    requires seat { IsSeatOf shared.now cpu.old }
    requires may { (holds : Bool) × MayBring shared.now n (Put (packet_at shared.now n) holds)
        (λ c. ((view c).locks ≡ no_locks) × ((view c).holder.resizing ≡ None)) cpu.old }
    ensures same { IsSameSeat cpu.old cpu.new × (cpu.new.station ≡ cpu.old.station) × (slot cpu.new ≡ slot cpu.old) }
    ensures at { GoesOnFromPut shared.now n cpu.old cpu.new }
    ensures makes { MakesStepsOf (PfifoFastEnqueue (setup shared.now) n result) cpu.old cpu.new }
{
    let band = shared.infos()[n as usize].band as u32;
    match produce(rt, shared, cpu, band, n) {
        Ok(()) => Sending::Queued,
        Err(full) => {
            shared.settle(cpu, n, Fate::Full { seen: full.seen });
            Sending::FullSeen(full.seen)
        }
    }
}

/// Puts packet `n` into its band, and then tries to run the queue discipline; it does so after a drop too.
fn enqueue_and_run<'a, D: TxDevice, R: Wait>(
    rt: &R,
    shared: &Shared<'a, D>,
    cpu: &mut Cpu<D>,
    n: u32,
) -> Sending
    requires seat { IsSeatOf shared.now cpu.old }
    requires may { MayBring shared.now n (Put (packet_at shared.now n) false) IsFreeInside cpu.old }
    ensures { BringsBy shared.now.infos.now n result (EnqueueAndRun (setup shared.now) n result) cpu.old cpu.new }
{
    let sending = enqueue(rt, shared, cpu, n);
    qdisc_run(shared, cpu);
    sending
}

/// Puts packet `n` into its band under the run lock, where something may be held, and serves the bands.
fn enqueue_and_run_locked<'a, D: TxDevice, R: Wait>(
    rt: &R,
    shared: &Shared<'a, D>,
    cpu: &mut Cpu<D>,
    n: u32,
) -> Sending
    requires seat { IsSeatOf shared.now cpu.old }
    requires may { MayBring shared.now n (Put (packet_at shared.now n) true) (MayServe shared.now) cpu.old }
    ensures { BringsBy shared.now.infos.now n result (EnqueueAndRunLocked (setup shared.now) n result) cpu.old cpu.new }
{
    let sending = enqueue(rt, shared, cpu, n);
    run_to_end(shared, cpu);
    sending
}

/// After a packet that was handed to the device past the bands, with this result: serves the bands where MISSED or DRAINING was set
/// meanwhile, and releases the run lock.
fn run_after_bypass<'a, D: TxDevice>(shared: &Shared<'a, D>, cpu: &mut Cpu<D>, through: Through)
    requires seat { IsSeatOf shared.now cpu.old }
    requires at { position cpu.old ≡ position_after through true (view cpu.old) }
    requires serving { IsServing cpu.old }
    requires empty { through ≡ Yes → ((view cpu.old).holder.hand ≡ None) × ((view cpu.old).holder.slot ≡ None) }
    ensures { EndsCallBy (λ s. RunAfterBypass (setup shared.now) s through) cpu.old cpu.new }
{
    if through == Through::Yes && is_non_empty(shared.load_state(cpu)) {
        run_to_end(shared, cpu);
    } else {
        end(shared, cpu);
    }
}

/// Hands packet `n` to the device, past the bands: neither MISSED nor DRAINING was set under the run lock.
fn xmit_bypass<'a, D: TxDevice>(shared: &Shared<'a, D>, cpu: &mut Cpu<D>, n: u32)
    requires seat { IsSeatOf shared.now cpu.old }
    requires may { MayXmit shared.now n true cpu.old }
    ensures { EndsCallBy (XmitBypass (setup shared.now) n) cpu.old cpu.new }
{
    let through = direct_xmit(shared, cpu, n);
    run_after_bypass(shared, cpu, through);
}

/// Under the run lock: packet `n` goes past the bands where the state, loaded again, has neither MISSED nor DRAINING set; else
/// through its band.
fn bypass_locked<'a, D: TxDevice, R: Wait>(
    rt: &R,
    shared: &Shared<'a, D>,
    cpu: &mut Cpu<D>,
    n: u32,
) -> Sending
    requires seat { IsSeatOf shared.now cpu.old }
    requires may { MayBring shared.now n (Recheck (packet_at shared.now n)) (MayServe shared.now) cpu.old }
    ensures { BringsBy shared.now.infos.now n result (λ s. BypassLocked (setup shared.now) n s result) cpu.old cpu.new }
{
    let state = shared.recheck(cpu, n);
    if is_non_empty(state) {
        return enqueue_and_run_locked(rt, shared, cpu, n);
    }
    xmit_bypass(shared, cpu, n);
    Sending::Direct
}

/// Packet `n` may go past the bands, if the run lock is free: `__dev_xmit_skb` of net/core/dev.c for a qdisc with
/// `TCQ_F_CAN_BYPASS` that `nolock_qdisc_is_empty` calls empty.
fn try_bypass<'a, D: TxDevice, R: Wait>(
    rt: &R,
    shared: &Shared<'a, D>,
    cpu: &mut Cpu<D>,
    n: u32,
) -> Sending
    requires seat { IsSeatOf shared.now cpu.old }
    requires may { MayBring shared.now n (Try1 (ToPass (packet_at shared.now n))) IsFreeInside cpu.old }
    ensures { BringsBy shared.now.infos.now n result (TryBypass (setup shared.now) n result) cpu.old cpu.new }
{
    if begin(shared, cpu) {
        bypass_locked(rt, shared, cpu, n)
    } else {
        enqueue_and_run(rt, shared, cpu, n)
    }
}

/// Refuses packet `n` by the event that this word of the state tells, and stores its fate.
fn refuse<'a, D: TxDevice>(shared: &Shared<'a, D>, cpu: &mut Cpu<D>, n: u32, state: u64) -> Sending
    requires seat { IsSeatOf shared.now cpu.old }
    requires packet { n < length shared.now.infos.now }
    requires state { (event : ℕ) × (bits : ℕ) × (bits < 16) × (event < 4294967296) × (state ≡ bits + 256 * (event + 1))
        × ((view cpu.old).packets.owed ≡ Some (n, fate.Refused event)) }
    ensures same { IsElseSame cpu.old cpu.new }
    ensures settled { view cpu.new ≡ settle_view_owed (view cpu.old) }
    ensures event { (event : ℕ) × (bits : ℕ) × (bits < 16) × (state ≡ bits + 256 * (event + 1)) × (result ≡ sending.Refused event)
        × MakesSteps (Settle n (fate.Refused event) ∷ []) cpu.old cpu.new }
    ensures step { solo (view cpu.new) ≡ solo (view cpu.old) }
{
    let event = (state / 256 - 1) as u32;
    shared.settle(cpu, n, Fate::Refused { event });
    Sending::Refused(event)
}

/// What a transmit of packet `n` does between its two steps on the calls inside: `__dev_xmit_skb` of net/core/dev.c, the
/// part for a qdisc with `TCQ_F_NOLOCK`.
pub(crate) fn xmit_skb<'a, D: TxDevice, R: Wait>(
    rt: &R,
    shared: &Shared<'a, D>,
    cpu: &mut Cpu<D>,
    n: u32,
) -> Sending
    requires seat { IsSeatOf shared.now cpu.old }
    requires may { MayBring shared.now n (Check (packet_at shared.now n)) IsFreeInside cpu.old }
    ensures { BringsBy shared.now.infos.now n result (λ s. XmitSkb (setup shared.now) n s result) cpu.old cpu.new }
{
    let state = shared.check(cpu, n);
    if is_deactivated(state) {
        return refuse(shared, cpu, n, state);
    }
    if shared.bypass() && !is_non_empty(state) {
        return try_bypass(rt, shared, cpu, n);
    }
    enqueue_and_run(rt, shared, cpu, n)
}
