//! The exchanges of a resize on one band, which keep what stands in its slots and change only the order.
ghost use Rattle.std.specs.Prelude.{◌≡◌, ◌≢◌, ◌+◌, ◌-◌, ◌/◌, ◌<◌, ◌≤◌, ℕ, List, [], ◌∷◌, drop, length, take, false, ◌==◌, if◌then◌else◌, slice_index};
ghost use Rattle.lq_model.specs.Plan.{band_in};
ghost use Rattle.lq_model.specs.declared.fate.Fate.TheVariants as fate;
ghost use Rattle.lq_table.specs.Fates.{MayShrink};
ghost use Rattle.lq_table.specs.Resizes.{is_member, out_of, settled_work};
ghost use Rattle.lq_table.specs.Sees.{view, IsSeatOf};
ghost use Rattle.lq_table.specs.Step.{ClearSlot, MakesSteps};
ghost use Rattle.lq_ring.specs.Fates.{fates_onto};
ghost use Rattle.lq_ring.specs.Seats.{ChangesView};
ghost use Rattle.lq_ring.specs.StepLists.{MakesStepsFrom, TurnRing};
ghost use Rattle.lq_ring.specs.Work.{back_in, work_at, working, HasSlots, IsTurner, changing_slots, exchanged, reversed_to, rotated, zeroed_to, ArePacketsOf, event_of_work};
ghost use Rattle.lq_band_laws.specs.Ring.{word_at};

use crate::turns::Resize;
use lq_device::TxDevice;
use lq_model::Fate;
use lq_table::{Cpu, Shared};

/// Empties a slot.
fn take_out<'a, D: TxDevice>(shared: &Shared<'a, D>, cpu: &mut Cpu<D>, band: u32, i: u32) -> u64
    requires seat { IsSeatOf shared.now cpu.old }
    requires place { (band < 3) × (i < shared.now.max_len) }
    requires turner { IsTurner (view cpu.old) }
    ensures makes { MakesSteps (ClearSlot band i result ∷ []) cpu.old cpu.new }
    ensures stands { ChangesView (λ v. working band (out_of i (work_at band v)) v) cpu.old cpu.new }
{
    shared.clear_slot(cpu, band, i)
}

/// Puts a word that came into the hand last into an empty slot, unless it is 0.
fn put_back<'a, D: TxDevice>(shared: &Shared<'a, D>, cpu: &mut Cpu<D>, band: u32, i: u32, x: u64)
    requires seat { IsSeatOf shared.now cpu.old }
    requires place { (band < 3) × (i < shared.now.max_len) }
    requires turner { IsTurner (view cpu.old) }
    requires hand { x ≢ 0 → (hand : List ℕ) × ((work_at band (view cpu.old)).hand ≡ (x - 1) ∷ hand)
        × (slice_index (work_at band (view cpu.old)).slots i ≡ 0) × (x ≤ 1000000) }
    ensures makes { MakesStepsFrom (λ s. TurnRing band) cpu.old cpu.new }
    ensures stands { ChangesView (λ v. working band (back_in i x (work_at band v)) v) cpu.old cpu.new }
{
    if x != 0 {
        shared.fill_slot(cpu, band, i, (x - 1) as u32);
    }
}

/// Two slots get what the other had.
fn exchange<'a, D: TxDevice>(shared: &Shared<'a, D>, cpu: &mut Cpu<D>, band: u32, i: u32, j: u32)
    requires seat { IsSeatOf shared.now cpu.old }
    requires place { (band < 3) × (i < j) × (j < shared.now.max_len) }
    requires turner { IsTurner (view cpu.old) }
    requires slots { HasSlots shared.now.max_len (work_at band (view cpu.old)) }
    ensures makes { MakesStepsFrom (λ s. TurnRing band) cpu.old cpu.new }
    ensures stands { ChangesView (changing_slots band (exchanged i j)) cpu.old cpu.new }
{
    let x = take_out(shared, cpu, band, i);
    let y = take_out(shared, cpu, band, j);
    put_back(shared, cpu, band, i, y);
    put_back(shared, cpu, band, j, x);
}

/// The slots from a up to b get what they had the other way round.
fn reverse<'a, D: TxDevice>(shared: &Shared<'a, D>, cpu: &mut Cpu<D>, band: u32, a: u32, b: u32)
    requires seat { IsSeatOf shared.now cpu.old }
    requires place { (band < 3) × (a ≤ b) × (b ≤ shared.now.max_len) }
    requires turner { IsTurner (view cpu.old) }
    requires slots { HasSlots shared.now.max_len (work_at band (view cpu.old)) }
    ensures makes { MakesStepsFrom (λ s. TurnRing band) cpu.old cpu.new }
    ensures stands { ChangesView (changing_slots band (reversed_to a b ((b - a) / 2))) cpu.old cpu.new }
{
    for k in 0..(b - a) / 2 {
        exchange(shared, cpu, band, a + k, b - 1 - k);
    }
}

/// The slot at the head becomes slot 0.
pub(crate) fn rotate<'a, D: TxDevice>(
    shared: &Shared<'a, D>,
    cpu: &mut Cpu<D>,
    band: u32,
    head: u32,
    size: u32,
)
    requires seat { IsSeatOf shared.now cpu.old }
    requires place { (band < 3) × (head ≤ size) × (size ≤ shared.now.max_len) }
    requires turner { IsTurner (view cpu.old) }
    requires slots { HasSlots shared.now.max_len (work_at band (view cpu.old)) }
    ensures makes { MakesStepsFrom (λ s. TurnRing band) cpu.old cpu.new }
    ensures stands { ChangesView (changing_slots band (rotated head size)) cpu.old cpu.new }
{
    reverse(shared, cpu, band, 0, head);
    reverse(shared, cpu, band, head, size);
    reverse(shared, cpu, band, 0, size);
}

/// Empties the slots of packets that were taken, from the tail up to the head. None of them has a packet that the band keeps or drops.
pub(crate) fn clear_stale<'a, D: TxDevice>(
    shared: &Shared<'a, D>,
    cpu: &mut Cpu<D>,
    band: u32,
    tail: u32,
    head: u32,
)
    requires seat { IsSeatOf shared.now cpu.old }
    requires place { (band < 3) × (tail ≤ head) × (head ≤ shared.now.max_len) }
    requires turner { IsTurner (view cpu.old) }
    requires stale { let w = work_at band (view cpu.old) in
        (j : ℕ) → tail ≤ j → j < head → is_member (slice_index w.slots j) w ≡ false }
    ensures makes { MakesStepsFrom (λ s. TurnRing band) cpu.old cpu.new }
    ensures stands { ChangesView (changing_slots band (zeroed_to tail (head - tail))) cpu.old cpu.new }
{
    for n in 0..head - tail {
        take_out(shared, cpu, band, tail + n);
    }
}

/// Stores the fate of the dropped packet whose word this is, unless it is 0. It answers how many fates it stored.
fn settle_word<'a, D: TxDevice>(
    shared: &Shared<'a, D>,
    cpu: &mut Cpu<D>,
    band: u32,
    x: u64,
    event: u32,
) -> u32
    requires seat { IsSeatOf shared.now cpu.old }
    requires turner { IsTurner (view cpu.old) }
    requires word { x ≢ 0 → MayShrink band (x - 1) event (view cpu.old) × (band < 3)
        × (band_in shared.now.infos.now (x - 1) ≡ band) × (x - 1 < length shared.now.infos.now) × (x ≤ 1000000) }
    ensures makes { MakesStepsFrom (λ s. TurnRing band) cpu.old cpu.new }
    ensures stands { ChangesView (λ v. let w = work_at band v in record (working band (if x == 0 then w else settled_work w) v) {
      settled = if x == 0 then v.settled else (x - 1, fate.Shrunk event) ∷ v.settled;
    }) cpu.old cpu.new }
    ensures count { result ≡ (if x == 0 then 0 else 1) }
{
    if x == 0 {
        return 0;
    }
    shared.settle(cpu, (x - 1) as u32, Fate::Shrunk { event });
    1
}

/// How many of the first slots have a packet, up to the first that is empty.
pub(crate) fn count_filled<'a, D: TxDevice>(
    shared: &Shared<'a, D>,
    cpu: &mut Cpu<D>,
    band: u32,
    limit: u32,
) -> u32
    requires seat { IsSeatOf shared.now cpu.old }
    requires place { (band < 3) × (limit ≤ shared.now.max_len) }
    requires turner { IsTurner (view cpu.old) }
    requires slots { HasSlots shared.now.max_len (work_at band (view cpu.old)) }
    ensures makes { MakesStepsFrom (λ s. TurnRing band) cpu.old cpu.new }
    ensures stands { ChangesView (λ v. v) cpu.old cpu.new }
    ensures filled { let slots = (work_at band (view cpu.old)).slots in (result ≤ limit)
        × ((j : ℕ) → j < result → slice_index slots j ≢ 0) × (result < limit → slice_index slots result ≡ 0) }
{
    for i in 0..limit {
        let x = take_out(shared, cpu, band, i);
        put_back(shared, cpu, band, i, x);
        if x == 0 {
            return i;
        }
    }
    limit
}

/// Empties the slots from `from` on, which have the dropped packets in order, and stores their fates. It answers their number.
pub(crate) fn drop_rest<'a, D: TxDevice>(
    shared: &Shared<'a, D>,
    cpu: &mut Cpu<D>,
    band: u32,
    from: u32,
    resize: Resize,
) -> u32
    requires seat { IsSeatOf shared.now cpu.old }
    requires place { (band < 3) × (from ≤ resize.size) × (resize.size ≤ shared.now.max_len) }
    requires turner { IsTurner (view cpu.old) × (event_of_work (view cpu.old) ≡ resize.event) }
    requires rest { let w = work_at band (view cpu.old) in (w.hand ≡ [])
        × ((n : ℕ) → n < resize.size - from → slice_index w.slots (from + n) ≡ word_at w.waiting n) }
    requires packets { ArePacketsOf shared.now.infos.now band (work_at band (view cpu.old)).waiting }
    ensures makes { MakesStepsFrom (λ s. TurnRing band) cpu.old cpu.new }
    ensures stands { ChangesView (λ v. let w = work_at band v in let n = resize.size - from in
        record (working band (record w { slots = zeroed_to from n w.slots; waiting = drop n w.waiting }) v) {
          settled = fates_onto (fate.Shrunk resize.event) (take n w.waiting) v.settled;
        }) cpu.old cpu.new }
    ensures few { result ≤ resize.size - from }
    ensures count { let waiting = (work_at band (view cpu.old)).waiting in
        result + length (drop (resize.size - from) waiting) ≡ length waiting }
{
    let mut count = 0;
    for n in 0..resize.size - from {
        let x = take_out(shared, cpu, band, from + n);
        count += settle_word(shared, cpu, band, x, resize.event);
    }
    count
}
