// The handles of a host. Handle 0 is standard output, and handle k + 1 is slot k, which is never given out again.
ghost use Rattle.std.specs.Prelude.{◌≡◌, ◌<◌, ◌≤◌, ◌+◌, ◌-◌, ◌^◌, ◌≢◌, ◌⊎◌, List, ℕ, Err, None, Some, length, IfOk, OnErr, IsSome, vec_len, vec_capacity, is_ok, if◌then◌else◌};
ghost use Rattle.lq_host.specs.Host.{with_handle, Reads, Writes, IsReader, IsWriter, read_further};
ghost use Rattle.lq_host.specs.Slots.{handles_of, opened_of};

use crate::HostError;

// A handle that was given out, and what it is open for.
#[derive(Drop)]
pub(crate) enum Slot {
    // Nothing: it was finished.
    Closed,
    // Reading.
    Reader {
        // The file's name.
        name: String,
        // The byte that is read next, counted from 0.
        place: usize,
    },
    // Writing at the end of a file.
    Writer {
        // The file's name.
        name: String,
    },
}

// Opens a slot, and answers its handle. There is no room only where each handle was given out, or the list has to grow.
pub(crate) fn push_slot(slots: &mut Vec<Slot>, slot: Slot) -> Result<u32, HostError>
    ensures fresh { IfOk result (λ h. handles_of slots.old.items h ≡ None) }
    ensures ok { IfOk result (λ h. handles_of slots.new.items ≡ with_handle (handles_of slots.old.items) h (opened_of slot)) }
    ensures err { OnErr result (slots.new.items ≡ slots.old.items) }
    ensures memory { result ≢ Err HostError.Failed }
    ensures no_room { OnErr result ((2 ^ 32 - 1 ≤ vec_len slots.old) ⊎ (vec_capacity slots.old ≤ vec_len slots.old)) }
    ensures len { vec_len slots.new ≡ (if is_ok result then vec_len slots.old + 1 else vec_len slots.old) }
{
    let count = slots.len();
    if count >= u32::MAX as usize {
        return Err(HostError::NoMemory);
    }
    slots.push(slot)?;
    Ok(count as u32 + 1)
}

// The place of an open handle's slot.
pub(crate) fn slot_at(slots: &[Slot], h: u32) -> usize
    requires open { IsSome (handles_of slots.now h) }
    requires not_output { 0 < h }
    ensures place { h ≡ result + 1 }
    ensures within { result < length slots.now }
{
    h as usize - 1
}

// The file that a handle reads, and its place there.
pub(crate) fn reader_at(slots: &[Slot], h: u32) -> (&str, usize)
    requires { IsReader (handles_of slots.now h) }
    ensures { handles_of slots.now h ≡ Some (Reads result.0.now result.1) }
{
    match &slots[slot_at(slots, h)] {
        Slot::Reader { name, place } => (name.as_str(), *place),
        _ => unreachable!(),
    }
}

// The file that a handle writes.
pub(crate) fn writer_at(slots: &[Slot], h: u32) -> &str
    requires writer { IsWriter (handles_of slots.now h) }
    requires not_output { 0 < h }
    ensures { handles_of slots.now h ≡ Some (Writes result.now) }
{
    match &slots[slot_at(slots, h)] {
        Slot::Writer { name } => name.as_str(),
        _ => unreachable!(),
    }
}

// A reading handle has read so many bytes more.
pub(crate) fn advance(slots: &mut Vec<Slot>, h: u32, count: usize)
    requires reader { IsReader (handles_of slots.old.items h) }
    requires fits { (name : List ℕ) (place : ℕ) →
        handles_of slots.old.items h ≡ Some (Reads name place) → place + count < 2 ^ 64 }
    ensures { handles_of slots.new.items
        ≡ with_handle (handles_of slots.old.items) h (read_further (handles_of slots.old.items h) count) }
{
    let i = slot_at(slots, h);
    match &mut slots[i] {
        Slot::Reader { place, .. } => *place += count,
        _ => unreachable!(),
    }
}

// A handle is closed.
pub(crate) fn close(slots: &mut Vec<Slot>, h: u32)
    requires open { IsSome (handles_of slots.old.items h) }
    requires not_output { 0 < h }
    ensures { handles_of slots.new.items ≡ with_handle (handles_of slots.old.items) h None }
{
    let i = slot_at(slots, h);
    slots[i] = Slot::Closed;
}
