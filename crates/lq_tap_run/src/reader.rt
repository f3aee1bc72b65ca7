//! What the reader does: it takes batches, reads the first half of each, and gives the rest back.
ghost use Rattle.std.specs.Prelude.{◌≡◌, ◌+◌, ◌<◌, ◌≤◌, ◌++◌, length, vec_capacity, vec_len};
ghost use Rattle.lq_tap.specs.Sees.{IsReaderOf, view};
ghost use Rattle.lq_tap_run.specs.Reads.{HasRead, HasReadAll, IsReaderDone, ReadsOn};
ghost use Rattle.lq_tap_run.specs.Rounds.{GivesHalf, ReadsToEnd};

use crate::shared::Run;
use lq_gate::Gate;
use lq_tap::{Tap, TapSeat, ended, get_batch, give_back};
use std::sync::Wait;

/// The reader: its seat, and the packets that it read, in order.
#[derive(Drop)]
pub struct Reader {
    pub seat: TapSeat,
    /// It has room for all packets.
    pub read: Vec<u32>,
    /// Room for a batch.
    pub batch: Vec<u32>,
}

/// Reads these packets, for which there is room.
fn read_these(read: &mut Vec<u32>, packets: &[u32])
    requires room { length read.old.items + length packets.now ≤ vec_capacity read.old }
    ensures read { read.new.items ≡ read.old.items ++ packets.now }
    ensures room { vec_capacity read.new ≡ vec_capacity read.old }
{
    for n in packets {
        read.push_reserved(*n);
    }
}

/// Reads the first half of a batch, rounded up, and gives the rest back.
fn read_half<R: Wait>(rt: &R, tap: &Tap, seat: &mut TapSeat, read: &mut Vec<u32>, batch: &[u32])
    requires seat { IsReaderOf tap.now seat.old }
    requires taken { ((view seat.old).reader.taken ≡ read.old.items ++ batch.now) × ((view seat.old).reader.batch ≡ batch.now) }
    requires few { length (view seat.old).reader.destroyed ≤ length read.old.items }
    requires room { length (view seat.old).reader.taken ≤ vec_capacity read.old }
    ensures read { HasRead tap.now seat.new read.new.items }
    ensures gives { GivesHalf tap.now.len batch.now seat.old seat.new }
    ensures on { ReadsOn seat.old seat.new }
    ensures room { vec_capacity read.new ≡ vec_capacity read.old }
{
    let half = batch.len() - batch.len() / 2;
    read_these(read, &batch[..half]);
    let _lost = give_back(rt, tap, seat, &batch[half..]);
}

/// Reads until all senders have ended and a batch that came later is empty.
fn read_all<'r, R: Wait, G: Gate>(
    rt: &R,
    run: &Run<'r, G>,
    seat: &mut TapSeat,
    read: &mut Vec<u32>,
    batch: &mut [u32],
)
    requires read { HasRead run.now.tap.now seat.old read.old.items }
    requires room { (view seat.old).about.packets ≤ vec_capacity read.old }
    requires batch { (0 < length batch.old) × (length batch.old ≤ 64) }
    ensures read { HasRead run.now.tap.now seat.new read.new.items × IsReaderDone seat.new }
    ensures rounds { ReadsToEnd run.now.tap.now.len run.now.senders (length batch.old) seat.old seat.new }
    ensures on { ReadsOn seat.old seat.new }
{
    let mut k = 0u32;
    for _ in rt.forever() {
        let over = ended(run.tap, seat);
        run.gate.pass(run.senders, k);
        let count = get_batch(rt, run.tap, seat, batch);
        if count > 0 {
            k = k.wrapping_add(1);
            read_half(rt, run.tap, seat, read, &batch[..count]);
        } else if over {
            return;
        }
    }
    unreachable!()
}

/// The reader after the last batch.
pub fn all_read<'r, R: Wait, G: Gate>(rt: &R, run: &Run<'r, G>, mut reader: Reader) -> Reader
    requires read { HasRead run.now.tap.now reader.seat reader.read.items }
    requires room { (view reader.seat).about.packets ≤ vec_capacity reader.read }
    requires batch { (0 < vec_len reader.batch) × (vec_len reader.batch ≤ 64) }
    ensures { HasReadAll run.now.tap.now run.now.senders (vec_len reader.batch) reader.seat result }
{
    read_all(
        rt,
        run,
        &mut reader.seat,
        &mut reader.read,
        reader.batch.as_mut_slice(),
    );
    reader
}
