//! Takes by the holder of the run lock, which waits for nobody.
ghost use Rattle.std.specs.Prelude.{◌≡◌, ◌-◌, ◌<◌, ◌≤◌, [], ◌∷◌, IfSome, MatchOption, Some, slice_get, slice_index, Bool, true, false, None};
ghost use Rattle.lq_device.specs.Station.{StationState};
ghost use Rattle.lq_model.specs.Account.{held_in, Take};
ghost use Rattle.lq_table.specs.Consumers.{head_slot_view_empty, CarriesEndsBeforeTake};
ghost use Rattle.lq_table.specs.Moves.{IsPacketOf};
ghost use Rattle.lq_table.specs.Rule.{IsResting};
ghost use Rattle.lq_table.specs.Sees.{account_of, ends_at, heard, slot, solo, view, IsSameSeat, IsSeatOf, IsSole, position};
ghost use Rattle.lq_table.specs.Step.{MakesSteps, SetEnds};
ghost use Rattle.lq_ring.specs.StepLists.{discard_steps, zero_steps, Consume, MakesStepsFrom};
ghost use Rattle.lq_ring.specs.Take.{consuming, CarriesStation};
ghost use Rattle.lq_model.specs.declared.machine.Position.TheVariants.{Gate, Scan};
ghost use Rattle.lq_model.specs.Steps.{after_band};
ghost use Rattle.lq_table.specs.Views.{machine_packet};
ghost use Rattle.lq_band_laws.specs.Ring.{is_emptying};
ghost use Rattle.lq_band_laws.specs.Three.{at};
ghost use Rattle.lq_ring.specs.Put.{no_locks};
ghost use Rattle.lq_model.specs.Positions.{holds_lock};

use crate::turns::Ends;
use lq_device::TxDevice;
use lq_model::batch;
use lq_table::{Cpu, Shared};

/// The ends of a band's ring, as the station has them.
pub(crate) fn ends_of<D: TxDevice>(cpu: &Cpu<D>, band: u32) -> Ends
    requires band { band < 3 }
    requires station { (st : StationState) × (cpu.now.station ≡ Some st) }
    ensures { (st : StationState) → cpu.now.station ≡ Some st
        → (result.tail ≡ slice_index st.tails band) × (result.head ≡ slice_index st.heads band) }
{
    let station = cpu.station();
    Ends {
        tail: station.tail(band),
        head: station.head(band),
    }
}

pub(crate) fn set_ends<D: TxDevice>(cpu: &mut Cpu<D>, band: u32, head: u32, tail: u32)
    requires band { (band < 3) × (tail ≤ head) }
    requires station { (st : StationState) × (cpu.old.station ≡ Some st) }
    ensures { MakesSteps (SetEnds band head tail ∷ []) cpu.old cpu.new }
{
    cpu.station_mut().set_ends(band, head, tail);
}

/// The loop of `__ptr_ring_discard_one`: empties the slots from the entry just taken down to the tail, none of which is emptied
/// before. The seat has the run lock, and no resize is half done.
fn zero_tail<'a, D: TxDevice>(
    shared: &Shared<'a, D>,
    cpu: &mut Cpu<D>,
    band: u32,
    tail: u32,
    head: u32,
)
    requires seat { IsSeatOf shared.now cpu.old }
    requires band { band < 3 }
    requires holder { (holds_lock (position cpu.old) ≡ true) × ((view cpu.old).holder.resizing ≡ None)
        × ((view cpu.old).holder.size ≤ shared.now.max_len) }
    requires ends { (ends_at band cpu.old ≡ record { head = head; tail = tail; edge = head }) × (tail < head)
        × (head ≤ (view cpu.old).holder.size) × (is_emptying (view cpu.old).holder.size (ends_at band cpu.old) ≡ true) }
    requires before { CarriesEndsBeforeTake band cpu.old }
    ensures { MakesSteps (zero_steps band head (head - tail)) cpu.old cpu.new }
{
    for n in 0..head - tail {
        shared.zero_slot(cpu, band, head - 1 - n);
    }
}

/// What `__ptr_ring_discard_one` does after a take: where a batch was taken, or the last slot, the taken slots are
/// emptied, and the station has the new ends. Until then the one that the seat carries has the band's ends as before the take.
pub(crate) fn discard_one<'a, D: TxDevice>(
    shared: &Shared<'a, D>,
    cpu: &mut Cpu<D>,
    band: u32,
    size: u32,
)
    requires seat { IsSeatOf shared.now cpu.old }
    requires below { band < 3 }
    requires holder { (holds_lock (position cpu.old) ≡ true) × ((view cpu.old).holder.resizing ≡ None)
        × ((view cpu.old).holder.size ≡ size) × (size ≤ shared.now.max_len) }
    requires station { CarriesEndsBeforeTake band cpu.old }
    requires ends { let ends = ends_at band cpu.old in (ends.edge ≡ ends.head) × (ends.tail < ends.head) × (ends.head ≤ size) }
    ensures { MakesSteps (discard_steps band size (ends_at band cpu.old)) cpu.old cpu.new }
{
    let Ends { tail, head } = ends_of(cpu, band);
    let head = head + 1;
    if tail + batch(size) <= head || head == size {
        zero_tail(shared, cpu, band, tail, head);
        let end = if head == size { 0 } else { head };
        set_ends(cpu, band, end, end);
    } else {
        set_ends(cpu, band, head, tail);
    }
}

/// Takes the packet at the head of the band that the seat scans, as `__ptr_ring_consume` of include/linux/ptr_ring.h
/// does for `pfifo_fast_dequeue` of net/sched/sch_generic.c: the packet, one of the station's, is in hand then. It waits for nobody.
///
/// None comes only where the slot at the head was loaded as 0 in this call. A seat that has the table alone gets the
/// first packet that the account says the band holds. With a packet it goes on to the gate, else to the next band. No take or
/// resize is half done before, and the seat carries the station.
pub fn consume<'a, D: TxDevice>(shared: &Shared<'a, D>, cpu: &mut Cpu<D>, band: u32) -> Option<u32>
    requires seat { IsSeatOf shared.now cpu.old }
    requires below { band < 3 }
    requires at { (second : Bool) × (position cpu.old ≡ Scan band second) }
    requires rests { IsResting (view cpu.old).holder.size (view cpu.old).holder.ends × ((view cpu.old).holder.resizing ≡ None) }
    requires station { CarriesStation cpu.old }
    requires idle { (view cpu.old).locks ≡ no_locks }
    ensures makes { MakesStepsFrom (λ s. Consume band s result) cpu.old cpu.new }
    ensures same { IsSameSeat cpu.old cpu.new × (cpu.new.indices ≡ cpu.old.indices) × (slot cpu.new ≡ slot cpu.old) }
    ensures knows { MatchOption result (view cpu.new ≡ head_slot_view_empty band (view cpu.old))
        (λ n. view cpu.new ≡ consuming band n (view cpu.old)) }
    ensures at { MatchOption result ((second : Bool) → position cpu.old ≡ Scan band second → position cpu.new ≡ after_band band second)
        (λ n. position cpu.new ≡ Gate (machine_packet (view cpu.old).share.about.infos n) false) }
    ensures rests { IsResting (view cpu.new).holder.size (view cpu.new).holder.ends }
    ensures station { CarriesStation cpu.new }
    ensures packet { IfSome result (λ n. IsPacketOf (view cpu.old).share.about n) }
    ensures step { MatchOption result (solo (view cpu.new) ≡ solo (view cpu.old))
        (λ n. solo (view cpu.new) ≡ heard (Take band) (solo (view cpu.old))) }
    ensures sole { IsSole (view cpu.old) → slice_get (held_in (account_of (view cpu.old)) band) 0 ≡ result }
    ensures known { (view cpu.old).whole.state.ends ≡ (view cpu.old).holder.ends
        → (view cpu.new).whole.state.ends ≡ (view cpu.new).holder.ends }
{
    let size = shared.load_size(cpu);
    let found = shared.head_slot(cpu, band);
    if found == 0 {
        return None;
    }
    discard_one(shared, cpu, band, size as u32);
    Some((found - 1) as u32)
}
