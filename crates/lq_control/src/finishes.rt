//! The end of a station, once all its seats are joined.
ghost use Rattle.std.specs.Prelude.{◌≡◌, ◌<◌, ◌+◌, None, true, false, length, if◌then◌else◌};
ghost use Rattle.lq_model.specs.declared.machine.Phase.TheVariants.{Active};
ghost use Rattle.lq_model.specs.declared.machine.Position.TheVariants.{Idle, Control};
ghost use Rattle.lq_table.specs.Sees.{view, setup, position, IsSeatOf, IsSameSeat, IsElseSame, IsSole, solo};
ghost use Rattle.lq_run.specs.Steps.{MakesStepsOf};
ghost use Rattle.lq_qdisc.specs.Sends.{IsCallKept, IsReadyToSend};
ghost use Rattle.lq_control.specs.declared.finishes.Seen.TheVariants.{Hung, Ended};
ghost use Rattle.lq_control.specs.Control.{IsIn};
ghost use Rattle.lq_control.specs.EndSteps.{LoadStops, Look, LookLeft, are_quiet as quiet, SendLeft, SendAllLeft, ServeToEnd, PurgeHung, EndStation};
ghost use Rattle.lq_control.specs.Ending.{IsEndedAlike, IsFinishedAlone};
ghost use Rattle.lq_control.specs.Finish.{AreAllDone, AreKept, AreStopsBelow, AreTurnsFrom, IsActiveOrPurged, IsFinished, IsLook, IsSent, Hangs, Shows, AreFor};
ghost use Rattle.lq_control.specs.Seats.{IsFirstReadyAt, IsReadyAt};
ghost use Rattle.lq_control.specs.Steps.{Wait};
ghost use Rattle.lq_control.specs.Calls.{MaySendLeft};
ghost use Rattle.lq_table.specs.Views.{first_account};
ghost use Rattle.lq_qdisc.specs.Alone.{IsAlone};
ghost use Rattle.lq_ring.specs.StepLists.{MakesStepsFrom};

use crate::drains::drain;
use crate::purges::purge_held;
use crate::waits::take_lock;
use crossbeam_utils::Backoff;
use lq_device::TxDevice;
use lq_model::Cause;
use lq_model::state::{DEACTIVATED, HUNG, OPEN, SCHED};
use lq_qdisc::{irq, transmit};
use lq_run::end_resize;
use lq_table::{Cpu, Shared};
use std::sync::Wait;

/// What a look at a station's words shows.
#[derive(Clone, Copy)]
enum Seen {
    /// Deactivated, or quiet: nothing is held.
    Ended,
    /// Each stop word is 2.
    Hung,
    Going,
}

/// Transmits packet `n` where it is left: where it is one of the station, and its owner's turn word is at most twice its rank.
fn send_left<'a, D: TxDevice, R: Wait>(rt: &R, shared: &Shared<'a, D>, cpu: &mut Cpu<D>, n: u32)
    requires seat { IsSeatOf shared.now cpu.old }
    requires may { MaySendLeft (setup shared.now) n cpu.old }
    requires packet { n < length shared.now.infos.now }
    ensures kept { IsCallKept cpu.old cpu.new }
    ensures at { (position cpu.new ≡ Idle) × IsReadyToSend cpu.new }
    ensures raised { (view cpu.new).place.raised ≡ false }
    ensures turns { AreTurnsFrom (setup shared.now) (n + 1) (view cpu.new).turns }
    ensures sent { IsSent (setup shared.now) (view cpu.old) (view cpu.new) }
    ensures done { AreAllDone (setup shared.now) (view cpu.old).turns → view cpu.new ≡ view cpu.old }
    ensures makes { MakesStepsFrom (SendLeft (setup shared.now) n) cpu.old cpu.new }
{
    let info = shared.infos()[n as usize];
    if info.station as u32 != shared.number() {
        return;
    }
    if shared.load_turn(cpu, info.owner as u32) <= 2 * info.rank as u64 {
        let _sending = transmit(rt, shared, cpu, n);
        drain(rt, shared, cpu);
    }
}

/// Transmits the packets that are left, of all owners in one pass in ascending order.
fn send_all_left<'a, D: TxDevice, R: Wait>(rt: &R, shared: &Shared<'a, D>, cpu: &mut Cpu<D>)
    requires seat { IsSeatOf shared.now cpu.old }
    requires may { MaySendLeft (setup shared.now) 0 cpu.old }
    ensures kept { IsCallKept cpu.old cpu.new }
    ensures at { (position cpu.new ≡ Idle) × IsReadyToSend cpu.new }
    ensures raised { (view cpu.new).place.raised ≡ false }
    ensures makes { MakesStepsFrom (SendAllLeft (setup shared.now)) cpu.old cpu.new }
{
    for n in 0..shared.infos().len() {
        send_left(rt, shared, cpu, n as u32);
    }
}

/// Whether each queue's stop word is `word`.
fn are_stops<'a, D: TxDevice>(shared: &Shared<'a, D>, cpu: &mut Cpu<D>, word: u64) -> bool
    requires seat { IsSeatOf shared.now cpu.old }
    requires at { position cpu.old ≡ Control false }
    requires station { cpu.old.station ≡ None }
    ensures makes { MakesStepsOf (LoadStops shared.now.queues word result) cpu.old cpu.new }
    ensures same { IsElseSame cpu.old cpu.new × (view cpu.new ≡ view cpu.old) }
    ensures sole { IsSole (view cpu.old) → (view cpu.old).whole.state.shut ≡ None → result ≡ true
        → AreStopsBelow shared.now.queues word (view cpu.old) }
{
    for queue in 0..shared.queues() {
        if shared.load_xoff(cpu, queue) != word {
            return false;
        }
    }
    true
}

/// Whether each queue is open, the run lock was free, and SCHED clear.
fn are_quiet(opened: bool, lock: u64, state: u64) -> bool
    ensures quiet { result ≡ quiet opened lock state }
    ensures opened { result ≡ true → opened ≡ true }
{
    opened && lock == 0 && state & SCHED == 0
}

/// Looks at a station's words. They are quiet where the run lock is free, no call is inside, SCHED is clear and each queue is
/// open.
fn look<'a, D: TxDevice>(shared: &Shared<'a, D>, cpu: &mut Cpu<D>) -> Seen
    requires seat { IsSeatOf shared.now cpu.old }
    requires at { IsFirstReadyAt (Control false) cpu.old }
    requires sole { IsSole (view cpu.old) × IsActiveOrPurged (view cpu.old) }
    ensures makes { MakesStepsOf (Look shared.now.queues result) cpu.old cpu.new }
    ensures same { IsElseSame cpu.old cpu.new × IsLook (view cpu.old) (view cpu.new) }
    ensures kept { AreKept (setup shared.now) (view cpu.new) }
    ensures shows { Shows result (view cpu.new) }
{
    let lock = shared.load_lock(cpu);
    let state = shared.load_state(cpu);
    if state & DEACTIVATED != 0 {
        return Seen::Ended;
    }
    if are_stops(shared, cpu, HUNG) {
        return Seen::Hung;
    }
    let open = are_stops(shared, cpu, OPEN);
    if !are_quiet(open, lock, state) {
        return Seen::Going;
    }
    if shared.load_inside(cpu) != 0 {
        return Seen::Going;
    }
    Seen::Ended
}

/// Looks at the words of a station that isn't raised; and as long as it isn't deactivated or hung, and its words aren't quiet, wakes
/// its queues and does soft interrupts. True where it is hung. The seat is in a call of control afterwards.
fn serve_to_end<'a, D: TxDevice, R: Wait>(rt: &R, shared: &Shared<'a, D>, cpu: &mut Cpu<D>) -> bool
    requires seat { IsSeatOf shared.now cpu.old }
    requires at { IsFirstReadyAt Idle cpu.old × ((view cpu.old).place.raised ≡ false) }
    requires sole { IsSole (view cpu.old) × IsActiveOrPurged (view cpu.old) }
    ensures same { IsSameSeat cpu.old cpu.new }
    ensures at { (position cpu.new ≡ Control false) × IsReadyToSend cpu.new × ((view cpu.new).place.raised ≡ false) }
    ensures kept { AreKept (setup shared.now) (view cpu.new) }
    ensures shows { Shows (if result then Hung else Ended) (view cpu.new) }
    ensures alone { let k = setup shared.now in IsAlone k.infos (first_account k) (solo (view cpu.old))
        → IsEndedAlike k.infos (first_account k) (solo (view cpu.old)) (solo (view cpu.new)) }
    ensures makes { MakesStepsFrom (ServeToEnd (setup shared.now) (if result then Hung else Ended)) cpu.old cpu.new }
{
    let backoff = Backoff::new();
    for _ in rt.forever() {
        shared.begin_control(cpu);
        match look(shared, cpu) {
            Seen::Ended => return false,
            Seen::Hung => return true,
            Seen::Going => shared.end_control(cpu),
        }
        irq(shared, cpu);
        drain(rt, shared, cpu);
        backoff.snooze();
    }
    unreachable!()
}

/// Whether no call is inside and SCHED is clear.
fn is_left<'a, D: TxDevice>(shared: &Shared<'a, D>, cpu: &mut Cpu<D>) -> bool
    requires seat { IsSeatOf shared.now cpu.old }
    requires at { position cpu.old ≡ Control false }
    requires active { IsIn Active (view cpu.old) }
    ensures makes { MakesStepsOf (LookLeft result) cpu.old cpu.new }
    ensures same { IsElseSame cpu.old cpu.new × IsLook (view cpu.old) (view cpu.new) }
{
    shared.load_inside(cpu) == 0 && shared.load_state(cpu) & SCHED == 0
}

/// Waits until no call is inside and SCHED is clear.
fn wait_until_left<'a, D: TxDevice, R: Wait>(rt: &R, shared: &Shared<'a, D>, cpu: &mut Cpu<D>)
    requires seat { IsSeatOf shared.now cpu.old }
    requires at { position cpu.old ≡ Control false }
    requires active { IsIn Active (view cpu.old) }
    ensures makes { MakesStepsOf (Wait LookLeft true) cpu.old cpu.new }
    ensures same { IsElseSame cpu.old cpu.new × IsLook (view cpu.old) (view cpu.new) }
{
    let backoff = Backoff::new();
    for _ in rt.forever() {
        if is_left(shared, cpu) {
            return;
        }
        backoff.snooze();
    }
    unreachable!()
}

/// Purges a station whose device hangs, once no call is inside and SCHED is clear: all packets that it holds get Purged as their
/// fate, by the hung unit. It answers their number.
fn purge_hung<'a, D: TxDevice, R: Wait>(rt: &R, shared: &Shared<'a, D>, cpu: &mut Cpu<D>) -> u32
    requires seat { IsSeatOf shared.now cpu.old }
    requires at { IsFirstReadyAt (Control false) cpu.old }
    requires sole { IsSole (view cpu.old) }
    requires hung { Hangs (view cpu.old) }
    ensures kept { IsCallKept cpu.old cpu.new }
    ensures at { IsReadyAt Idle Active cpu.new }
    ensures raised { (view cpu.new).place.raised ≡ (view cpu.old).place.raised }
    ensures makes { MakesStepsFrom (PurgeHung result) cpu.old cpu.new }
{
    wait_until_left(rt, shared, cpu);
    take_lock(rt, shared, cpu);
    let unit = cpu.station().unit();
    shared.begin_hung_purge(cpu);
    let purged = purge_held(shared, cpu, Cause::Hung(unit));
    end_resize(shared, cpu);
    purged
}

/// Ends a station whose seats are all joined into this one, which isn't raised: transmits what is left of each owner's packets;
/// then wakes the queues and does soft interrupts until the station is deactivated or hung, or its words are quiet; and where it
/// is hung, purges it, with the hung unit as the cause. It answers the number purged. Nothing is held afterwards, and each packet
/// of the station has a fate. Where no packet is left this is the end of the run of one sender.
pub fn finish<'a, D: TxDevice, R: Wait>(rt: &R, shared: &Shared<'a, D>, cpu: &mut Cpu<D>) -> u32
    requires seat { IsSeatOf shared.now cpu.old }
    requires at { IsFirstReadyAt Idle cpu.old × ((view cpu.old).place.raised ≡ false) }
    requires sole { IsSole (view cpu.old) × IsActiveOrPurged (view cpu.old) }
    requires made { AreFor (setup shared.now) (view cpu.old) }
    requires turns { AreTurnsFrom (setup shared.now) 0 (view cpu.old).turns }
    ensures kept { IsCallKept cpu.old cpu.new }
    ensures at { (position cpu.new ≡ Idle) × ((view cpu.new).place.raised ≡ false) × IsReadyToSend cpu.new }
    ensures finished { IsFinished (setup shared.now) (view cpu.new) }
    ensures alone { let k = setup shared.now in AreAllDone k (view cpu.old).turns → IsAlone k.infos (first_account k) (solo (view cpu.old))
        → IsFinishedAlone k.infos (first_account k) (solo (view cpu.old)) (solo (view cpu.new)) }
    ensures makes { MakesStepsFrom (EndStation (setup shared.now) result) cpu.old cpu.new }
{
    send_all_left(rt, shared, cpu);
    if serve_to_end(rt, shared, cpu) {
        return purge_hung(rt, shared, cpu);
    }
    shared.end_control(cpu);
    0
}
