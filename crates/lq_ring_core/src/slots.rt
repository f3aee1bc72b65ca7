//! The places and slots of a ring, as functions over numbers and slices.

ghost use Rattle.std.specs.Prelude.{◌≡◌, ℕ, ◌+◌, ◌-◌, ◌<◌, ◌≤◌, ◌++◌, length, drop};
ghost use Rattle.lq_ring_core.specs.Ring.{next_place, place_before};
ghost use Rattle.lq_ring_core.specs.Slots.{IsCleared, IsCopied, distance, round, slot_at, entries_from};

/// The place behind another, round a ring of this size.
pub fn next_place(place: u32, size: u32) -> u32
    requires { place < 4294967295 }
    ensures { result ≡ next_place size place }
{
    if place + 1 == size { 0 } else { place + 1 }
}

/// Empties the slots before `end`, down to `start`.
pub(crate) fn clear_down(slots: &mut [u32], start: usize, end: usize)
    requires in_order { start ≤ end }
    requires within { end ≤ length slots.old }
    ensures { IsCleared slots.old slots.new start end }
{
    let mut place = end;
    while place > start {
        place -= 1;
        slots[place] = 0;
    }
}

/// The place before another, round a ring of this size.
pub fn place_before(place: u32, size: u32) -> u32
    requires { place < size }
    ensures { result ≡ place_before size place 1 }
{
    if place == 0 { size - 1 } else { place - 1 }
}

/// How far the producer is ahead of the head, round a ring of this size.
pub(crate) fn distance(head: u32, producer: u32, size: u32) -> u32
    requires head { head < size }
    requires producer { producer < size }
    requires size { size ≤ 65536 }
    ensures { result ≡ distance size head producer }
{
    if head <= producer {
        producer - head
    } else {
        producer + size - head
    }
}

/// The place that a place up to twice the ring's size stands for.
pub(crate) fn round(place: u32, size: u32) -> u32
    ensures { result ≡ round size place }
{
    if place < size { place } else { place - size }
}

/// Fills the first `out_size` slots of `out`: with the first `kept` slots from the head on, and then with empty ones.
pub(crate) fn copy_slots(
    slots: &[u32],
    size: u32,
    head: u32,
    kept: u32,
    out: &mut [u32],
    out_size: u32,
)
    requires within { size ≤ length slots.now }
    requires size { size ≤ 65536 }
    requires head { head < size }
    requires kept { kept ≤ size }
    requires kept_fit { kept ≤ out_size }
    requires out { out_size ≤ length out.old }
    ensures len { length out.new ≡ length out.old }
    ensures copied { IsCopied slots.now size head out.new kept out_size }
{
    for place in 0..out_size {
        out[place as usize] = if place < kept {
            slots[round(head + place, size) as usize]
        } else {
            0
        };
    }
}

/// Puts the held entries after the first `kept` to the front of `out`.
pub(crate) fn copy_entries(
    slots: &[u32],
    size: u32,
    head: u32,
    kept: u32,
    held: u32,
    out: &mut [u32],
)
    requires within { size ≤ length slots.now }
    requires size { size ≤ 65536 }
    requires head { head < size }
    requires kept { kept ≤ held }
    requires held { held ≤ size }
    requires out { held ≤ length out.old }
    requires entries { (i : ℕ) → i < held → 0 < slot_at slots.now size (head + i) }
    ensures { out.new ≡ entries_from slots.now size (head + kept) (held - kept) ++ drop (held - kept) out.old }
{
    for place in kept..held {
        out[(place - kept) as usize] = slots[round(head + place, size) as usize] - 1;
    }
}
