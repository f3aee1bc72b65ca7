//! A live resize of the three rings, which control does under the run lock and the three producer locks.
ghost use Rattle.std.specs.Prelude.{◌≡◌, ◌<◌, ◌≤◌, ◌+◌, ℕ, List, [], ◌∷◌, None, Some, length, slice_index, true, false};
ghost use Rattle.lq_ring_core.specs.Slots.{round};
ghost use Rattle.lq_table.specs.Views.{HolderPart, Work};
ghost use Rattle.lq_table.specs.Producers.{with_lock_at};
ghost use Rattle.lq_band_laws.specs.Ring.{locked_at};
ghost use Rattle.lq_device.specs.Station.{StationState};
ghost use Rattle.lq_table.specs.Rule.{shown, IsResting};
ghost use Rattle.lq_table.specs.Sees.{slot, view, IsSameSeat, IsSeatOf, lock_at};
ghost use Rattle.lq_table.specs.Step.{MakesSteps, SetEnds};
ghost use Rattle.lq_ring.specs.Put.{no_locks};
ghost use Rattle.lq_ring.specs.Resized.{all_lost, having_resized, locked_three};
ghost use Rattle.lq_ring.specs.Seats.{ChangesView, MayResize};
ghost use Rattle.lq_ring.specs.StepLists.{LockAll, MakesStepsFrom, ResizeAll, TurnAll, TurnAt, unlock_steps};
ghost use Rattle.lq_ring.specs.Work.{event_of_work, having_turned, work_at, ArePacketsOf, IsTurner, IsWorkBegun, IsWorkDone};
ghost use Rattle.lq_band_laws.specs.Three.{at};
ghost use Rattle.lq_ring.specs.Take.{CarriesStation};

use crate::puts::lock_producer;
use crate::takes::{ends_of, set_ends};
use crate::turns::{Resize, turn_band};
use lq_device::TxDevice;
use lq_table::{Cpu, Shared};
use std::sync::Wait;

/// The producer's index in a band after a resize, and how many packets the band dropped.
#[derive(Clone, Copy, Drop)]
struct Turned {
    /// Where the next packet is put.
    index: u32,
    /// How many packets were dropped.
    dropped: u32,
}

/// The same of the three bands.
#[derive(Clone, Copy, Drop)]
struct AllTurned {
    /// Band 0.
    low: Turned,
    /// Band 1.
    mid: Turned,
    /// Band 2.
    high: Turned,
}

/// The producer's index after so many packets from slot 0 on.
fn index_after(kept: u32, len: u32) -> u32
    requires { kept ≤ len }
    ensures { result ≡ round len kept }
{
    if kept == len { 0 } else { kept }
}

/// Turns one band, whose ends the station has, in a resize half done, and sets its producer. The band's work has not begun.
fn turn_at<'a, D: TxDevice>(
    shared: &Shared<'a, D>,
    cpu: &mut Cpu<D>,
    band: u32,
    resize: Resize,
) -> Turned
    requires seat { IsSeatOf shared.now cpu.old }
    requires place { (band < 3) × (resize.len ≤ shared.now.max_len) }
    requires turner { IsTurner (view cpu.old) × (event_of_work (view cpu.old) ≡ resize.event) }
    requires lock { (at band (view cpu.old).locks).holds ≡ true }
    requires ready { let w = work_at band (view cpu.old) in (st : StationState) × (held : List ℕ) × (cpu.old.station ≡ Some st)
        × IsWorkBegun shared.now.max_len resize.size (slice_index st.tails band) (slice_index st.heads band) resize.len held w
        × ArePacketsOf shared.now.infos.now band held }
    ensures makes { MakesStepsFrom (λ s. TurnAt band result.index) cpu.old cpu.new }
    ensures stands { (w : Work) × ChangesView (λ v. with_lock_at band (locked_at result.index) (having_turned band resize.event w v)) cpu.old cpu.new
        × IsWorkDone shared.now.max_len resize.len (work_at band (view cpu.old)) w
        × (result.index ≡ round resize.len (length w.kept)) }
    ensures count { (result.dropped ≡ length (work_at band (view cpu.old)).waiting) × (result.dropped ≤ resize.size) }
{
    let ends = ends_of(cpu, band);
    let done = turn_band(shared, cpu, band, ends, resize);
    let index = index_after(done.kept, resize.len);
    shared.set_producer(cpu, band, index);
    Turned {
        index,
        dropped: done.dropped,
    }
}

/// Turns the three bands of a station whose run lock and producer locks the seat has, as control. The rings rest.
fn turn_all<'a, D: TxDevice>(shared: &Shared<'a, D>, cpu: &mut Cpu<D>, resize: Resize) -> AllTurned
    requires seat { IsSeatOf shared.now cpu.old }
    requires long { (0 < resize.len) × (resize.len ≤ shared.now.max_len) }
    requires at { MayResize cpu.old }
    requires rests { ((view cpu.old).holder.resizing ≡ None) × IsResting (view cpu.old).holder.size (view cpu.old).holder.ends
        × ((view cpu.old).holder.size ≡ resize.size) }
    requires station { CarriesStation cpu.old }
    requires locks { (b : ℕ) → b < 3 → ((lock_at b cpu.old).holds ≡ true) × ((lock_at b cpu.old).stored ≡ false) }
    ensures makes { (held : ℕ → List ℕ)
        × MakesStepsFrom (λ s. TurnAll resize.len resize.event held result.low.index result.mid.index result.high.index) cpu.old cpu.new
        × ChangesView (λ v. record (having_resized resize.len resize.event (all_lost resize.len held) v) {
          locks = locked_three result.low.index result.mid.index result.high.index;
        }) cpu.old cpu.new
        × (result.low.dropped + result.mid.dropped + result.high.dropped ≡ length (all_lost resize.len held)) }
    ensures few { (result.low.dropped ≤ resize.size) × (result.mid.dropped ≤ resize.size) × (result.high.dropped ≤ resize.size) }
{
    shared.begin_resize(cpu, resize.len, resize.event);
    let low = turn_at(shared, cpu, 0, resize);
    let mid = turn_at(shared, cpu, 1, resize);
    let high = turn_at(shared, cpu, 2, resize);
    shared.store_size(cpu, resize.len);
    AllTurned { low, mid, high }
}

/// Waits for the producer locks of bands 0, 1 and 2 in this order.
fn lock_all<'a, D: TxDevice, R: Wait>(rt: &R, shared: &Shared<'a, D>, cpu: &mut Cpu<D>)
    requires seat { IsSeatOf shared.now cpu.old }
    requires idle { (view cpu.old).locks ≡ no_locks }
    ensures makes { MakesStepsFrom (λ s. LockAll) cpu.old cpu.new }
    ensures stands { (low mid high : ℕ) × IsSameSeat cpu.old cpu.new × (cpu.new.station ≡ cpu.old.station) × (slot cpu.new ≡ slot cpu.old)
        × (view cpu.new ≡ record (view cpu.old) { locks = locked_three low mid high }) }
{
    lock_producer(rt, shared, cpu, 0);
    lock_producer(rt, shared, cpu, 1);
    lock_producer(rt, shared, cpu, 2);
}

/// Gives the three producer locks back, with the indices that the resize has set.
fn unlock_all<'a, D: TxDevice>(shared: &Shared<'a, D>, cpu: &mut Cpu<D>, turned: AllTurned)
    requires seat { IsSeatOf shared.now cpu.old }
    requires locks { ((view cpu.old).locks ≡ locked_three turned.low.index turned.mid.index turned.high.index)
        × ((view cpu.old).holder.resizing ≡ None) }
    ensures { (stored : ℕ) × MakesSteps (unlock_steps stored turned.low.index turned.mid.index turned.high.index) cpu.old cpu.new }
{
    shared.load_size(cpu);
    shared.give_producer(cpu, 0, turned.low.index);
    shared.give_producer(cpu, 1, turned.mid.index);
    shared.give_producer(cpu, 2, turned.high.index);
}

/// Sets the station's heads and tails to 0.
fn restart_ends<D: TxDevice>(cpu: &mut Cpu<D>)
    requires station { (h : HolderPart) × (cpu.old.station ≡ Some (shown h)) }
    ensures { MakesSteps (SetEnds 0 0 0 ∷ SetEnds 1 0 0 ∷ SetEnds 2 0 0 ∷ []) cpu.old cpu.new }
{
    set_ends(cpu, 0, 0, 0);
    set_ends(cpu, 1, 0, 0);
    set_ends(cpu, 2, 0, 0);
}

/// Changes the length of the rings while senders go on, as `ptr_ring_resize_multiple` of include/linux/ptr_ring.h does for
/// `pfifo_fast_change_tx_queue_len` of net/sched/sch_generic.c. It waits for the three producer locks, turns each ring in
/// place, and takes no memory. It answers how many packets were dropped.
///
/// Each band keeps its first packets, up to the new length, in order; those after them get Shrunk with the plan's event as
/// their fate, which this call stores. A deactivated station that was purged loses none, and a seat that has the table alone finds
/// what its account says. Before the call the rings rest, and the seat has no producer lock.
pub fn resize_all<'a, D: TxDevice, R: Wait>(
    rt: &R,
    shared: &Shared<'a, D>,
    cpu: &mut Cpu<D>,
    len: u32,
    event: u32,
) -> u32
    requires seat { IsSeatOf shared.now cpu.old }
    requires long { (0 < len) × (len ≤ shared.now.max_len) }
    requires at { MayResize cpu.old }
    requires rests { IsResting (view cpu.old).holder.size (view cpu.old).holder.ends × ((view cpu.old).holder.resizing ≡ None) }
    requires station { CarriesStation cpu.old }
    requires idle { (view cpu.old).locks ≡ no_locks }
    ensures resizes { (held : ℕ → List ℕ) × MakesStepsFrom (λ s. ResizeAll len event held) cpu.old cpu.new
        × (view cpu.new ≡ having_resized len event (all_lost len held) (view cpu.old)) × (result ≡ length (all_lost len held)) }
    ensures same { IsSameSeat cpu.old cpu.new × (slot cpu.new ≡ slot cpu.old) }
    ensures station { CarriesStation cpu.new }
{
    lock_all(rt, shared, cpu);
    let size = shared.load_size(cpu) as u32;
    let turned = turn_all(shared, cpu, Resize { size, len, event });
    unlock_all(shared, cpu, turned);
    restart_ends(cpu);
    turned.low.dropped + turned.mid.dropped + turned.high.dropped
}
