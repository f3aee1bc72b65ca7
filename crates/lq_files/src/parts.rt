//! Texts that are made in parts, some at once by a thread each, and written one after the other.
//!
//! One thread calls the host, with the same pieces as if it made the text alone.
ghost use Rattle.std.specs.Prelude.{◌≡◌, ◌+◌, ◌≤◌, ◌<◌, ◌++◌, [], ℕ, List, IfOk, IfSome, OnErr, OnOk, length, vec_len};
ghost use Rattle.lq_host.specs.Host.{IsWriter, wrote};
ghost use Rattle.lq_files.specs.Parts.{AreParts, IsFront, IsPart, IsPartAt, IsStreamed};
ghost use Rattle.lq_files.specs.Stop.{StopsFor};

use crate::answer::Stop;
use crate::pieces::{PIECE, write_more, write_text};
use crate::source::Source;
use lq_host::Host;
use std::alloc::{AllocError, Global};
use std::marker::Sync;
use std::thread;
use std::thread::Threads;

/// How many parts are made at once. It is a constant, since a look at the processors that there are would open a file that no
/// word names.
const PARTS: usize = 4;

/// A text of fewer pieces is made by the calling thread alone: to start threads would take longer.
const FEW: usize = 4_096;

/// How many pieces a part of the first round has at most.
const FIRST: usize = 4_096;

/// A part ends with the piece by which it has so many bytes, whatever else is meant for it: so little memory is taken, however long
/// the pieces are.
const ROOM: usize = 524_288;

/// A part of a text.
#[derive(Drop)]
pub struct Part {
    text: Vec<u8>,
    /// The first of its pieces.
    start: usize,
    /// The piece behind its last one; none where memory was wanting.
    end: Option<usize>,
    /// Keeps the fields of two parts, to which threads write side by side, in different lines of the processor's cache.
    _apart: [u64; 10],
}

/// Where a text is made: its parts, and what is made and not written yet.
#[derive(Drop)]
pub struct Buffers {
    pub rest: Vec<u8>,
    pub parts: Vec<Part>,
}

/// The buffers for a text of so many pieces, with room for what mostly stands in them.
pub fn make_buffers(alloc: Global, count: usize) -> Result<Buffers, AllocError>
    ensures rest { IfOk result (λ buffers. buffers.rest.items ≡ []) }
    ensures parts { IfOk result (λ buffers. 0 < vec_len buffers.parts) }
{
    let (number, room) = if count < FEW {
        (1, PIECE)
    } else {
        (PARTS, ROOM + PIECE)
    };
    Ok(Buffers {
        rest: Vec::with_capacity(alloc, PIECE)?,
        parts: make_parts(alloc, number, room)?,
    })
}

/// So many parts, with room for so many bytes each.
fn make_parts(alloc: Global, number: usize, room: usize) -> Result<Vec<Part>, AllocError>
    ensures { IfOk result (λ parts. vec_len parts ≡ number) }
{
    let mut parts = Vec::new(alloc);
    while parts.len() < number {
        parts.push(Part {
            text: Vec::with_capacity(alloc, room)?,
            start: 0,
            end: None,
            _apart: [0; 10],
        })?;
    }
    Ok(parts)
}

/// Makes pieces from `start` on and below `end`, up to that by which the text has `ROOM` bytes: the piece behind the last one, or
/// none where memory is wanting.
fn make_text<S: Source>(source: &S, text: &mut Vec<u8>, start: usize, end: usize) -> Option<usize>
    requires can_make { S.can_make source.now }
    requires order { start ≤ end }
    requires within { end ≤ S.count source.now }
    ensures text { IfSome result (λ next. text.new.items ++ S.from source.now next ≡ S.from source.now start) }
    ensures within { IfSome result (λ next. (start ≤ next) × (next ≤ end)) }
    ensures some { IfSome result (λ next. start < end → start < next) }
{
    text.clear();
    let mut next = start;
    while next < end && text.len() < ROOM {
        if source.push_piece(text, next).is_err() {
            return None;
        }
        next += 1;
    }
    Some(next)
}

/// Makes a part of at most `size` pieces, the one at this place among those that are made at once from piece `at` on.
fn make_part<S: Source>(source: &S, at: usize, size: usize, place: usize, part: &mut Part)
    requires can_make { S.can_make source.now }
    requires at { at ≤ S.count source.now }
    requires size { 0 < size }
    ensures { IsPartAt (S.from source.now) (S.count source.now) at place part.new }
{
    let count = source.len();
    let start = count.min(at.saturating_add(size.saturating_mul(place)));
    let end = count.min(start.saturating_add(size));
    part.start = start;
    part.end = make_text(source, &mut part.text, start, end);
}

/// Makes these parts, side by side.
fn make_at_once<R: Threads + Sync, S: Source>(
    rt: &R,
    source: &S,
    at: usize,
    size: usize,
    parts: &mut [Part],
)
    requires can_make { S.can_make source.now }
    requires at { at ≤ S.count source.now }
    requires size { 0 < size }
    ensures { AreParts (S.from source.now) (S.count source.now) at parts.new }
{
    thread::for_each_mut(
        rt,
        parts,
        PARTS,
        &|place, part: &mut Part|
            requires { S.can_make source.now × (at ≤ S.count source.now) × (0 < size) }
            ensures { IsPartAt (S.from source.entry.now) (S.count source.entry.now) at place part.new }
        { make_part(source, at, size, place, part) },
    );
}

/// The next parts of a text, from piece `at` on.
fn make_next<R: Threads + Sync, S: Source>(
    rt: &R,
    source: &S,
    at: usize,
    size: usize,
    mut parts: Vec<Part>,
) -> Vec<Part>
    requires can_make { S.can_make source.now }
    requires at { at ≤ S.count source.now }
    requires size { 0 < size }
    ensures parts { AreParts (S.from source.now) (S.count source.now) at result.items }
    ensures number { vec_len result ≡ vec_len parts }
{
    make_at_once(rt, source, at, size, parts.as_mut_slice());
    parts
}

/// Writes a part behind the bytes that are kept from before, where it begins with the next piece: the piece behind it. Any other part
/// is left out, since the one before it ended early: its pieces are made again.
fn write_part<H: Host>(
    host: &mut H,
    h: u32,
    rest: &mut Vec<u8>,
    next: usize,
    part: &Part,
) -> Result<usize, Stop>
    requires writer { IsWriter ((H.state host.old).handles h) }
    requires short { vec_len rest.old < PIECE }
    ensures handles { (H.state host.new).handles ≡ (H.state host.old).handles }
    ensures ok { (from : ℕ → List ℕ) (count : ℕ) → IsPart from count part.now
        → IfOk result (λ end. IsStreamed (H.state host.old) h (H.state host.new) rest.new.items (from end) (rest.old.items ++ from next)) }
    ensures order { (from : ℕ → List ℕ) (count : ℕ) → IsPart from count part.now → next ≤ count
        → IfOk result (λ end. (next ≤ end) × (end ≤ count)) }
    ensures further { (from : ℕ → List ℕ) (count : ℕ) → IsPart from count part.now → part.now.start ≡ next → next < count
        → IfOk result (λ end. next < end) }
    ensures short { OnOk result (vec_len rest.new < PIECE) }
    ensures err { (from : ℕ → List ℕ) (count : ℕ) → IsPart from count part.now
        → OnErr result (IsFront (H.state host.old) h (H.state host.new) (rest.old.items ++ from next)) }
    ensures cause { StopsFor (H.fault_count host.old) (H.fault_count host.new) result }
{
    if part.start != next {
        return Ok(next);
    }
    let Some(end) = part.end else {
        return Err(Stop::NoMemory);
    };
    write_more(host, h, rest, &part.text)?;
    Ok(end)
}

/// Writes the parts that come next from piece `at` on, behind the bytes that are kept from before: the piece behind them.
fn write_parts<H: Host>(
    host: &mut H,
    h: u32,
    rest: &mut Vec<u8>,
    at: usize,
    parts: &[Part],
) -> Result<usize, Stop>
    requires writer { IsWriter ((H.state host.old).handles h) }
    requires short { vec_len rest.old < PIECE }
    ensures handles { (H.state host.new).handles ≡ (H.state host.old).handles }
    ensures ok { (from : ℕ → List ℕ) (count : ℕ) → AreParts from count at parts.now
        → IfOk result (λ next. IsStreamed (H.state host.old) h (H.state host.new) rest.new.items (from next) (rest.old.items ++ from at)) }
    ensures further { (from : ℕ → List ℕ) (count : ℕ) → AreParts from count at parts.now → 0 < length parts.now → at < count
        → IfOk result (λ next. (at < next) × (next ≤ count)) }
    ensures short { OnOk result (vec_len rest.new < PIECE) }
    ensures err { (from : ℕ → List ℕ) (count : ℕ) → AreParts from count at parts.now
        → OnErr result (IsFront (H.state host.old) h (H.state host.new) (rest.old.items ++ from at)) }
    ensures cause { StopsFor (H.fault_count host.old) (H.fault_count host.new) result }
{
    let mut next = at;
    for part in parts {
        next = write_part(host, h, rest, next, part)?;
    }
    Ok(next)
}

/// How many pieces a part of the next round has at most: so many that none gets full, and not much fewer.
fn next_size(size: usize, parts: &[Part]) -> usize
    requires { 0 < size }
    ensures { 0 < result }
{
    let mut longest = 0;
    for part in parts {
        longest = part.text.len().max(longest);
    }
    if longest >= ROOM {
        size.div_ceil(2)
    } else if longest < ROOM / 2 {
        size.saturating_mul(2)
    } else {
        size
    }
}

/// Writes a text to a handle, behind the bytes that are kept from before. Where it stops, a prefix was written.
pub fn write_source<R: Threads + Sync, H: Host, S: Source>(
    rt: &R,
    host: &mut H,
    h: u32,
    source: &S,
    buffers: Buffers,
) -> Result<(), Stop>
    requires writer { IsWriter ((H.state host.old).handles h) }
    requires can_make { S.can_make source.now }
    requires short { vec_len buffers.rest < PIECE }
    requires parts { 0 < vec_len buffers.parts }
    ensures handles { (H.state host.new).handles ≡ (H.state host.old).handles }
    ensures ok { OnOk result (H.state host.new ≡ wrote (H.state host.old) h (buffers.rest.items ++ S.from source.now 0)) }
    ensures err { OnErr result (IsFront (H.state host.old) h (H.state host.new) (buffers.rest.items ++ S.from source.now 0)) }
    ensures cause { StopsFor (H.fault_count host.old) (H.fault_count host.new) result }
{
    let Buffers {
        mut rest,
        mut parts,
    } = buffers;
    let count = source.len();
    let mut at = 0;
    let mut size = FIRST;
    while at < count {
        parts = make_next(rt, source, at, size, parts);
        at = write_parts(host, h, &mut rest, at, &parts)?;
        size = next_size(size, &parts);
    }
    write_text(host, h, &rest)
}
