//! What holds of a tap's files whatever order its steps took: each packet was read, found the ring full or was lost, once; the
//! capture is the records of the packets that were read, each sender's in its order; and packets were full or lost only where enough
//! others came in. The capture is a generated one, of frames of 34 bytes.
use crate::records_of;
use lq_host::MemHost;
use std::alloc::Global;
use std::test::Fail;

/// The most senders of a tap.
const SENDERS: usize = 8;

/// From so many slots on, slots of packets that were taken are emptied by the batch, of so many.
const BATCHED: usize = 32;

const BATCH: usize = 16;

/// What is wrong with the lines of a tap.
pub type Wrong = &'static str;

const NO_MEMORY: Wrong = "no memory";

/// A fate, as its line tells it.
#[derive(Clone, Copy, Debug, PartialEq, Eq)]
enum Told {
    Read { place: usize },
    Full { seen: usize },
    Lost,
}

/// A tap's senders and slots, as its words have them.
#[derive(Clone, Copy, Debug)]
pub struct TapShape {
    pub senders: usize,
    pub len: usize,
}

/// How many packets were read, found the ring full, and were lost.
#[derive(Clone, Copy, Debug, PartialEq, Eq)]
pub struct TapCounts {
    pub read: usize,
    pub full: usize,
    pub lost: usize,
}

/// What a line of the text of fates tells, which must be that of packet `n`.
fn told_by(line: &str, n: usize) -> Option<Told> {
    let mut words = line.split(' ');
    if words.next()?.parse::<usize>().ok()? != n {
        return None;
    }
    let kind = words.next()?;
    if kind == "lost" {
        return Some(Told::Lost);
    }
    let number = words.next()?.parse::<usize>().ok()?;
    if kind == "read" {
        return Some(Told::Read { place: number });
    }
    if kind == "full" {
        return Some(Told::Full { seen: number });
    }
    None
}

/// The fates that a text tells, one a line, the packets in their order.
fn fates_told(alloc: Global, text: &[u8]) -> Result<Vec<Told>, Wrong> {
    let text = std::str::from_utf8(text).ok().ok_or("no text")?;
    let mut fates = Vec::new(alloc);
    for line in text.lines() {
        let fate = told_by(line, fates.len()).ok_or("a line that tells no fate")?;
        fates.push(fate).ok().ok_or(NO_MEMORY)?;
    }
    Ok(fates)
}

fn count_of(fates: &[Told]) -> TapCounts {
    let read = fates
        .iter()
        .filter(|fate| matches!(fate, Told::Read { place: _ }))
        .count();
    let full = fates
        .iter()
        .filter(|fate| matches!(fate, Told::Full { seen: _ }))
        .count();
    let lost = fates
        .iter()
        .filter(|fate| matches!(fate, Told::Lost))
        .count();
    TapCounts { read, full, lost }
}

/// The packets that were read, in order of place: each place below their number stands once.
fn read_in_order(alloc: Global, fates: &[Told], count: usize) -> Result<Vec<usize>, Wrong> {
    let mut packets = vec![in alloc; usize::MAX; count].ok().ok_or(NO_MEMORY)?;
    for (n, fate) in fates.iter().enumerate() {
        if let Told::Read { place } = fate {
            let at = packets.get_mut(*place).ok_or("a place too high")?;
            if *at != usize::MAX {
                return Err("a place twice");
            }
            *at = n;
        }
    }
    Ok(packets)
}

/// Whether each sender's packets ascend.
fn are_in_order(packets: &[usize], senders: usize) -> bool {
    let mut next = [0usize; SENDERS];
    for n in packets {
        let sender = n.checked_rem(senders).unwrap_or(SENDERS);
        let Some(lowest) = next.get_mut(sender) else {
            return false;
        };
        if *n < *lowest {
            return false;
        }
        *lowest = n.saturating_add(1);
    }
    true
}

/// Whether packet `n` may have this fate, where so many packets came in.
fn may_have(fates: &[Told], n: usize, fate: &Told, len: usize, came_in: usize) -> bool {
    let batch = if len < BATCHED { 1 } else { BATCH };
    match fate {
        Told::Read { place: _ } => true,
        Told::Full { seen } => {
            let other = fates.get(*seen);
            *seen != n
                && matches!(other, Some(Told::Read { place: _ }) | Some(Told::Lost))
                && came_in.saturating_add(batch) >= len
        }
        Told::Lost => came_in > len,
    }
}

fn check_fates(fates: &[Told], counts: TapCounts, len: usize) -> Result<(), Wrong> {
    let came_in = counts.read.saturating_add(counts.lost);
    for (n, fate) in fates.iter().enumerate() {
        if !may_have(fates, n, fate, len, came_in) {
            return Err("a packet full or lost without a cause");
        }
    }
    if counts.lost > counts.read {
        return Err("more lost than read");
    }
    if fates.len() <= len && counts.read != fates.len() {
        return Err("not all read, where all have room");
    }
    Ok(())
}

/// What a text of so many packets' fates tells, which is checked: the counts, and the packets that were read, in order.
pub fn check_tap_lines(
    alloc: Global,
    text: &[u8],
    count: u32,
    shape: TapShape,
) -> Result<(TapCounts, Vec<usize>), Wrong> {
    let fates = fates_told(alloc, text)?;
    if fates.len() != count as usize {
        return Err("another number of fates");
    }
    let counts = count_of(&fates);
    check_fates(&fates, counts, shape.len)?;
    let read = read_in_order(alloc, &fates, counts.read)?;
    if !are_in_order(&read, shape.senders) {
        return Err("a sender's packets out of order");
    }
    Ok((counts, read))
}

/// Checks the files `t.fates` and `t.pcap` of a tap of `count` packets, and its counts, which it answers.
pub fn check_tap(
    alloc: Global,
    host: &MemHost,
    capture: &[u8],
    count: u32,
    shape: TapShape,
) -> Result<TapCounts, Fail> {
    let text = host.file("t.fates").ok_or("no fates")?;
    let (counts, read) = check_tap_lines(alloc, text, count, shape)?;
    let records = records_of(alloc, capture, &read)?;
    if host.file("t.pcap").ok_or("no capture")? != records.as_slice() {
        return Err("a capture that isn't the packets read".into());
    }
    let TapCounts { read, full, lost } = counts;
    let line = format!(in alloc; "total {count} read {read} full {full} lost {lost}\n")?;
    if host.output() != line.as_bytes() {
        return Err("other counts".into());
    }
    Ok(counts)
}
