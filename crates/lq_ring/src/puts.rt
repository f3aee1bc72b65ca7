//! Puts by many senders, under a band's producer lock.
ghost use Rattle.std.specs.Prelude.{◌≡◌, ◌<◌, ◌+◌, MatchResult, Bool, None};
ghost use Rattle.lq_band_laws.specs.Ring.{locked_at, unlocked};
ghost use Rattle.lq_band_laws.specs.Three.{at, put};
ghost use Rattle.lq_model.specs.Account.{Join, Full as FullEvent};
ghost use Rattle.lq_table.specs.Producers.{with_lock_at, SeesEnd};
ghost use Rattle.lq_table.specs.Sees.{heard, lock_at, slot, solo, view, IsSameSeat, IsSeatOf, position, packet_at, Brings};
ghost use Rattle.lq_ring.specs.Put.{dropping_full, putting, no_locks};
ghost use Rattle.lq_ring.specs.Seats.{GoesOnFromPut};
ghost use Rattle.lq_ring.specs.StepLists.{LockProducer, MakesStepsFrom, Produce, ProduceLocked};
ghost use Rattle.lq_model.specs.declared.machine.Position.TheVariants.{Put};

use crossbeam_utils::Backoff;
use lq_device::TxDevice;
use lq_ring_core::{Full, next_place};
use lq_table::{Cpu, Shared};
use std::sync::Wait;

/// Waits for the band's producer lock, `producer_lock` of a `ptr_ring`, and gives the producer index under it.
pub(crate) fn lock_producer<'a, D: TxDevice, R: Wait>(
    rt: &R,
    shared: &Shared<'a, D>,
    cpu: &mut Cpu<D>,
    band: u32,
) -> u32
    requires seat { IsSeatOf shared.now cpu.old }
    requires band { band < 3 }
    requires idle { lock_at band cpu.old ≡ unlocked }
    ensures makes { MakesStepsFrom (λ s. LockProducer band result) cpu.old cpu.new }
    ensures stands { IsSameSeat cpu.old cpu.new × (cpu.new.station ≡ cpu.old.station) × (slot cpu.new ≡ slot cpu.old)
        × (view cpu.new ≡ with_lock_at band (locked_at result) (view cpu.old)) × (at band cpu.new.indices ≡ result)
        × (result < shared.now.max_len) }
{
    let backoff = Backoff::new();
    for _ in rt.forever() {
        let seen = shared.load_producer(cpu, band);
        if seen % 2 == 0 {
            if shared.take_producer(cpu, band, seen) {
                return (seen / 2) as u32;
            }
        }
        backoff.snooze();
    }
    unreachable!()
}

/// `__ptr_ring_produce` with the end of `ptr_ring_produce`: the slot at the index is looked at, and written where it is
/// empty, and the producer lock is given back. The seat brings the packet to the band, and of the producer locks it has just got
/// the band's, with this index.
fn produce_locked<'a, D: TxDevice>(
    shared: &Shared<'a, D>,
    cpu: &mut Cpu<D>,
    band: u32,
    n: u32,
    index: u32,
) -> Result<(), Full>
    requires seat { IsSeatOf shared.now cpu.old }
    requires below { band < 3 }
    requires locked { ((view cpu.old).locks ≡ put band (locked_at index) no_locks) × (at band cpu.old.indices ≡ index)
        × (index < shared.now.max_len) × ((view cpu.old).holder.resizing ≡ None) }
    requires at { (holds : Bool) × (position cpu.old ≡ Put (packet_at shared.now n) holds) }
    requires packet { Brings shared.now n band cpu.old × ((view cpu.old).packets.owed ≡ None) }
    ensures makes { MakesStepsFrom (λ s. ProduceLocked band index n result) cpu.old cpu.new }
    ensures stands { MatchResult result (λ _. view cpu.new ≡ putting band n (view cpu.old))
        (λ full. view cpu.new ≡ dropping_full n full.seen (view cpu.old)) }
{
    let size = shared.load_size(cpu);
    let found = shared.producer_slot(cpu, band);
    if found != 0 {
        shared.give_producer(cpu, band, index);
        return Err(Full {
            seen: (found - 1) as u32,
        });
    }
    shared.store_slot(cpu, band, n);
    let next = next_place(index, size as u32);
    shared.give_producer(cpu, band, next);
    Ok(())
}

/// Puts packet `n`, which the seat brings, into its band's ring, as `ptr_ring_produce` of include/linux/ptr_ring.h does for
/// `pfifo_fast_enqueue` of net/sched/sch_generic.c. It waits for the band's producer lock, and for nothing else.
///
/// Full comes only where the slot at the producer index, loaded under that lock, had the packet `seen`: no word of the
/// ring has changed then, and the fate that names `seen` is owed for the packet. A seat that has the table alone gets
/// Full exactly where the account says that the band is full. Before the call the seat has no producer lock.
pub fn produce<'a, D: TxDevice, R: Wait>(
    rt: &R,
    shared: &Shared<'a, D>,
    cpu: &mut Cpu<D>,
    band: u32,
    n: u32,
) -> Result<(), Full>
    requires seat { IsSeatOf shared.now cpu.old }
    requires below { band < 3 }
    requires at { (holds : Bool) × (position cpu.old ≡ Put (packet_at shared.now n) holds) }
    requires packet { Brings shared.now n band cpu.old × ((view cpu.old).packets.owed ≡ None) }
    requires idle { ((view cpu.old).locks ≡ no_locks) × ((view cpu.old).holder.resizing ≡ None) }
    ensures makes { MakesStepsFrom (λ s. Produce band n result) cpu.old cpu.new }
    ensures same { IsSameSeat cpu.old cpu.new × (cpu.new.station ≡ cpu.old.station) × (slot cpu.new ≡ slot cpu.old) }
    ensures knows { MatchResult result (λ _. view cpu.new ≡ putting band n (view cpu.old))
        (λ full. view cpu.new ≡ dropping_full n full.seen (view cpu.old)) }
    ensures at { GoesOnFromPut shared.now n cpu.old cpu.new }
    ensures step { MatchResult result (λ _. solo (view cpu.new) ≡ heard (Join n band) (solo (view cpu.old)))
        (λ full. solo (view cpu.new) ≡ heard (FullEvent n full.seen) (solo (view cpu.old))) }
    ensures sole { MatchResult result (λ _. SeesEnd band (view cpu.old) 0) (λ full. SeesEnd band (view cpu.old) (full.seen + 1)) }
{
    let index = lock_producer(rt, shared, cpu, band);
    produce_locked(shared, cpu, band, n, index)
}
