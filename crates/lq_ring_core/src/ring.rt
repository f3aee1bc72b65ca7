//! The pointer ring on one thread (`struct ptr_ring` of include/linux/ptr_ring.h).
ghost use Rattle.std.specs.Prelude.{◌≡◌, ◌+◌, ◌-◌, ◌<◌, ◌≤◌, ◌↔◌, [], ◌∷◌, ◌++◌, length, take, drop, min, slice_get, Some, IfOk, IfErr, OnOk, OnErr, OnSome, IfSome, IfNone, IsErr, IsNone, IsTrue, All};
ghost use Rattle.std.specs.Bool.{OnTrue, OnFalse};
ghost use Rattle.lq_model.specs.Band.{Band, IsOccupied, MayBeFull, empty_band, held_of, joined, taken_by, resized};
ghost use Rattle.lq_ring_core.specs.Ring.{IsBounded, IsFull, new_ring, entries_of, after_produce, after_consume, after_consumes, after_clear, with_before, after_unconsume, after_resize, dropped_of};
ghost use Rattle.lq_ring_core.specs.Bands.{IsBand};

use crate::slots::{
    clear_down, copy_entries, copy_slots, distance, next_place, place_before, round,
};
use lq_model::batch;
use std::alloc::{AllocError, Global};
use std::marker::Model;
use std::mem;

/// The ring refuses an entry: the slot at the producer index still has the entry `seen`.
#[derive(Clone, Copy, Debug, PartialEq, Eq)]
pub struct Full {
    pub seen: u32,
}

/// Why there is no ring.
#[derive(Clone, Copy, Debug, PartialEq, Eq)]
pub enum RingRefusal {
    /// A ring has at least one slot.
    ZeroSize,
    /// Want of memory.
    NoMemory,
}

impl From<AllocError> for RingRefusal {
    ghost use Rattle.std.specs.Prelude.{◌≡◌};
    ghost use Rattle.lq_ring_core.specs.declared.ring.RingRefusal.{RingRefusal};

    ghost from_gives = { λ _ refusal. refusal ≡ RingRefusal.NoMemory };

    fn from(_: AllocError) -> RingRefusal {
        RingRefusal::NoMemory
    }
}

/// A ring of entries below 4,294,967,295. Clauses see the entries held, the stale entries before the head, and the
/// head.
#[derive(Drop)]
pub struct Ring {
    /// An empty slot is 0, and one with an entry has the entry plus 1.
    slots: Vec<u32>,
    /// As long as `slots`: what the next resize fills.
    spare: Vec<u32>,
    /// How many of the slots are in use, from slot 0 on.
    size: u32,
    /// The slot that the next entry gets. It is empty unless the ring is full.
    producer: u32,
    /// The slot of the oldest entry that is held.
    head: u32,
    /// The first slot that isn't emptied yet: at most a batch before the head.
    tail: u32,
}

impl Model for Ring {
    ghost use Rattle.lq_ring_core.specs.Ring.{RingState};

    ghost Value = { RingState };

    ghost use Rattle.lq_ring_core.specs.View.{state_of, IsSound};

    ghost view = { state_of };

    ghost invariant = { IsSound };
}

impl Ring {
    /// An empty ring of `size` slots, which a resize may take to at most `max`. All its memory is taken here.
    pub fn new(alloc: Global, size: u32, max: u32) -> Result<Ring, RingRefusal>
        requires size_within { size ≤ max }
        requires max_within { max ≤ 65536 }
        ensures ok { IfOk result (λ ring. ring ≡ new_ring size max) }
        ensures zero { (result ≡ Err RingRefusal.ZeroSize) ↔ (size ≡ 0) }
        ensures band { IfOk result (λ ring. IsBand ring empty_band) }
    {
        if size == 0 {
            return Err(RingRefusal::ZeroSize);
        }
        Ok(Ring {
            slots: vec![in alloc; 0; max as usize]?,
            spare: vec![in alloc; 0; max as usize]?,
            size,
            producer: 0,
            head: 0,
            tail: 0,
        })
    }

    /// How many slots are in use.
    pub fn size(&self) -> u32
        ensures size { result ≡ self.now.size }
        ensures bounded { IsBounded self.now }
    {
        self.size
    }

    /// Puts an entry after the others, as `__ptr_ring_produce`. It is refused exactly where the slot at the
    /// producer index isn't empty; nothing changes then.
    pub fn produce(&mut self, n: u32) -> Result<(), Full>
        requires { n < 4294967295 }
        ensures ok { OnOk result (self.new ≡ after_produce self.old n) }
        ensures full { IsErr result ↔ IsFull self.old }
        ensures seen { IfErr result (λ full. slice_get (entries_of self.old) 0 ≡ Some full.seen) }
        ensures err { OnErr result (self.new ≡ self.old) }
        ensures room { OnOk result (length self.old.held < self.old.size) }

        // Where the ring is a band, this is the band's join, refused exactly where its slot is occupied.
        ensures joins { (band : Band) → IsBand self.old band → OnOk result (IsBand self.new (joined band n)) }
        ensures occupied { (band : Band) → IsBand self.old band → (IsErr result ↔ IsOccupied self.old.size band) }
        ensures may_be_full { (band : Band) → IsBand self.old band → IfErr result (λ full. MayBeFull self.old.size band full.seen) }
    {
        let slot = self.slots[self.producer as usize];
        if slot != 0 {
            return Err(Full { seen: slot - 1 });
        }
        self.slots[self.producer as usize] = n + 1;
        self.producer = next_place(self.producer, self.size);
        Ok(())
    }

    /// The oldest entry that is held, as `__ptr_ring_peek`: `None` exactly where nothing is held.
    pub fn peek(&self) -> Option<u32>
        ensures first { result ≡ slice_get self.now.held 0 }
        ensures none { IsNone result ↔ (self.now.held ≡ []) }
        ensures entry { IfSome result (λ n. n < 4294967295) }
    {
        self.slots[self.head as usize].checked_sub(1)
    }

    /// Takes the oldest entry that is held, as `__ptr_ring_consume`: `None` exactly where nothing is held.
    pub fn consume(&mut self) -> Option<u32>
        ensures first { result ≡ slice_get self.old.held 0 }
        ensures none { IsNone result ↔ (self.old.held ≡ []) }
        ensures entry { IfSome result (λ n. n < 4294967295) }
        ensures taken { OnSome result (self.new ≡ after_consume self.old) }
        ensures unchanged { IfNone result (self.new ≡ self.old) }
        ensures takes { (band : Band) → IsBand self.old band → OnSome result (IsBand self.new (taken_by band 1)) }
    {
        let n = self.peek()?;
        self.discard_one();
        Some(n)
    }

    /// Discards the oldest entry, as `__ptr_ring_discard_one`. The slots are emptied from the entry just taken down
    /// to the tail, so that a producer that waits for a slot waits for all of them.
    fn discard_one(&mut self)
        requires { 0 < length self.old.held }
        ensures { self.new ≡ after_consume self.old }
    {
        let end = self.head + 1;
        if end - self.tail < batch(self.size) && end < self.size {
            self.head = end;
            return;
        }
        clear_down(&mut self.slots, self.tail as usize, end as usize);
        self.head = next_place(self.head, self.size);
        self.tail = self.head;
    }

    /// Takes the oldest entries to the front of `out`, until it is full or nothing is held, as
    /// `__ptr_ring_consume_batched`. Answers how many.
    pub fn consume_batched(&mut self, out: &mut [u32]) -> usize
        ensures count { result ≡ min (length out.old) (length self.old.held) }
        ensures out { out.new ≡ take result self.old.held ++ drop result out.old }
        ensures entries { All (λ n. n < 4294967295) (take result out.new) }
        ensures held { self.new.held ≡ drop result self.old.held }
        ensures taken { self.new ≡ after_consumes result self.old }
        ensures takes { (band : Band) → IsBand self.old band → IsBand self.new (taken_by band result) }
    {
        let mut taken = 0;
        while taken < out.len() {
            let Some(n) = self.consume() else {
                return taken;
            };
            out[taken] = n;
            taken += 1;
        }
        taken
    }

    /// Puts entries that were taken back before the held ones, as `ptr_ring_unconsume`: the last one first, so that
    /// those which find no slot are at the front of `entries`. Answers how many these are; they are destroyed.
    pub fn unconsume(&mut self, entries: &[u32]) -> usize
        requires { All (λ n. n < 4294967295) entries.now }
        ensures destroyed { result ≡ length entries.now + length self.old.held - self.old.size }
        ensures state { self.new ≡ after_unconsume self.old entries.now }
    {
        self.clear_stale();
        let mut left = entries.len();
        while left > 0 && self.put_back(entries[left - 1]) {
            left -= 1;
        }
        left
    }

    /// Empties the stale slots.
    fn clear_stale(&mut self)
        ensures cleared { self.new ≡ after_clear self.old }
        ensures bounded { IsBounded self.new }
    {
        clear_down(&mut self.slots, self.tail as usize, self.head as usize);
        self.tail = self.head;
    }

    /// Puts an entry before the held ones, unless the slot there isn't empty.
    fn put_back(&mut self, n: u32) -> bool
        requires entry { n < 4294967295 }
        requires no_stale { self.old.stale ≡ [] }
        ensures room { IsTrue result ↔ (length self.old.held < self.old.size) }
        ensures put { OnTrue result (self.new ≡ with_before self.old (n ∷ [])) }
        ensures unchanged { OnFalse result (self.new ≡ self.old) }
    {
        let place = place_before(self.head, self.size);
        if self.slots[place as usize] != 0 {
            return false;
        }
        self.slots[place as usize] = n + 1;
        self.head = place;
        self.tail = place;
        true
    }

    /// Gives the ring another number of slots, as `ptr_ring_resize`. The first held entries are kept, so many as fit.
    /// The others are destroyed: they stand in order at the front of `dropped`. Answers how many these are.
    pub fn resize(&mut self, size: u32, dropped: &mut [u32]) -> u32
        requires positive { 0 < size }
        requires within_max { size ≤ self.old.max_size }
        requires room { self.old.size ≤ length dropped.old }
        ensures count { result ≡ length self.old.held - size }
        ensures within { result ≤ self.old.size }
        ensures dropped { dropped.new ≡ dropped_of self.old size ++ drop result dropped.old }
        ensures state { self.new ≡ after_resize self.old size }
        ensures resizes { (band : Band) → self.old.held ≡ held_of band → IsBand self.new (resized band size) }
    {
        let held = self.held();
        let kept = held.min(size);
        mem::swap(&mut self.slots, &mut self.spare);
        copy_slots(
            &self.spare,
            self.size,
            self.head,
            kept,
            &mut self.slots,
            size,
        );
        copy_entries(&self.spare, self.size, self.head, kept, held, dropped);
        self.size = size;
        self.producer = round(kept, size);
        self.head = 0;
        self.tail = 0;
        held - kept
    }

    /// How many entries are held.
    fn held(&self) -> u32
        ensures { result ≡ length self.now.held }
    {
        let ahead = distance(self.head, self.producer, self.size);
        if ahead == 0 && self.slots[self.head as usize] != 0 {
            self.size
        } else {
            ahead
        }
    }
}
