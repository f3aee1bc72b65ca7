//! What a sender does: it puts its packets, and keeps those that it found full.
ghost use Rattle.std.specs.Prelude.{◌≡◌, ℕ, ◌+◌, ◌<◌, length};
ghost use Rattle.lq_tap_run.specs.Lanes.{AreDone, AreReady, LaneHasRoom, IsLaneDone, IsLaneReady, LaneStandsAt};

use crate::shared::Run;
use lq_gate::Gate;
use lq_tap::{TapSeat, end_sender, put};
use std::marker::Sync;
use std::sync::Wait;
use std::thread;
use std::thread::Threads;

/// A sender: its seat, and the packets that it found full, each with the packet that it saw in its slot.
#[derive(Drop)]
pub struct Lane {
    pub seat: TapSeat,
    pub full: Vec<(u32, u32)>,
}

/// Puts packet `n`, the next of the sender's.
fn put_next<'r, R: Wait, G: Gate>(rt: &R, run: &Run<'r, G>, lane: &mut Lane, n: u32)
    requires stands { (sender : ℕ) × (k : ℕ) × LaneStandsAt run.now.tap.now run.now.packets run.now.senders sender k n lane.old }
    requires next { n < run.now.packets }
    requires room { LaneHasRoom run.now.packets run.now.senders lane.old }
    ensures stands { (sender k : ℕ) → LaneStandsAt run.now.tap.now run.now.packets run.now.senders sender k n lane.old
        → LaneStandsAt run.now.tap.now run.now.packets run.now.senders sender (k + 1) (n + run.now.senders) lane.new }
    ensures room { LaneHasRoom run.now.packets run.now.senders lane.new }
{
    if let Err(full) = put(rt, run.tap, &mut lane.seat, n) {
        lane.full.push_reserved((n, full.seen));
    }
}

/// Puts a sender's packets, in ascending number.
fn put_all<'r, R: Wait, G: Gate>(rt: &R, run: &Run<'r, G>, sender: u32, lane: &mut Lane)
    requires { IsLaneReady run.now.tap.now run.now.packets run.now.senders sender lane.old }
    ensures { IsLaneDone run.now.tap.now run.now.packets run.now.senders sender lane.new }
{
    let mut n = sender;
    let mut k = 0;
    while n < run.packets {
        run.gate.pass(sender, k);
        put_next(rt, run, lane, n);
        n += run.senders;
        k += 1;
    }
    end_sender(run.tap, &mut lane.seat);
}

/// Puts the packets of the sender at this place.
fn put_from<'r, R: Wait, G: Gate>(rt: &R, run: &Run<'r, G>, place: usize, lane: &mut Lane)
    requires { IsLaneReady run.now.tap.now run.now.packets run.now.senders place lane.old }
    ensures { IsLaneDone run.now.tap.now run.now.packets run.now.senders place lane.new }
{
    put_all(rt, run, place as u32, lane);
}

/// All senders, side by side.
fn senders_put<'r, R: Threads + Wait + Sync, G: Gate>(rt: &R, run: &Run<'r, G>, lanes: &mut [Lane])
    requires count { length lanes.old ≡ run.now.senders }
    requires ready { AreReady run.now.tap.now run.now.packets run.now.senders lanes.old }
    ensures { AreDone run.now.tap.now run.now.packets run.now.senders lanes.new }
{
    let threads = lanes.len();
    thread::for_each_mut(
        rt,
        lanes,
        threads,
        &|i, lane: &mut Lane|
            requires { IsLaneReady run.now.tap.now run.now.packets run.now.senders i lane.old }
            ensures { IsLaneDone run.entry.now.tap.now run.entry.now.packets run.entry.now.senders i lane.new }
        { put_from(rt, run, i, lane) },
    );
}

/// The lanes after the last packet.
pub fn all_put<'r, R: Threads + Wait + Sync, G: Gate>(
    rt: &R,
    run: &Run<'r, G>,
    mut lanes: Vec<Lane>,
) -> Vec<Lane>
    requires count { length lanes.items ≡ run.now.senders }
    requires ready { AreReady run.now.tap.now run.now.packets run.now.senders lanes.items }
    ensures done { AreDone run.now.tap.now run.now.packets run.now.senders result.items }
    ensures count { length result.items ≡ run.now.senders }
{
    senders_put(rt, run, lanes.as_mut_slice());
    lanes
}
