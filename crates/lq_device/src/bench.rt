//! The device of the built-in bench: it keeps the numbers of the packets that it accepted, and tells all.
ghost use Rattle.std.specs.Prelude.{◌≡◌, ◌≤◌, ◌<◌, ◌+◌, ◌==◌, ◌&&◌, nat_lt, false, OnOk, OnErr, vec_len};
ghost use Rattle.lq_device.specs.Multiples.{left_to_multiple};
ghost use Rattle.lq_model.specs.Device.{IsConfigured};

use crate::asked::Asked;
use crate::device::TxDevice;
use crate::multiples::{is_multiple_next, left_after_one};
use lq_model::{NoMemory, Params, StationPlan, Tx};
use std::alloc::Global;

/// A device that answers by its parameters alone, so that a run over it can be told in advance.
///
/// A call is answered Busy where its number since `configure`, counted from 1, is a multiple of `busy_every` and fewer
/// than `busy_limit` answers were Busy. Every other call is accepted: with SentHang where the number accepted is
/// `hang_after`, else with SentStop where it is a multiple of `burst`, else with Sent.
#[derive(Drop)]
pub struct BenchDevice {
    alloc: Global,
    /// The packets accepted since `configure`, in the order of the calls; its capacity is the room.
    accepted: Vec<u32>,
    /// The calls of `xmit` since `configure`, for contracts alone.
    asked: Asked,
    params: Params,
    /// How many answers since `configure` were Busy: at most `params.busy_limit`.
    busies: u32,
    hung: bool,
    /// How many calls are left to the next whose number is a multiple of `busy_every`, that one counted; 0 where that is 0.
    to_busy: u32,
    /// The same of the accepted packets and `burst`.
    to_stop: u32,
    ghost busies_within: { busies ≤ params.busy_limit },
    ghost busy_counted: { to_busy ≡ left_to_multiple (vec_len accepted + busies) params.busy_every },
    ghost stop_counted: { to_stop ≡ left_to_multiple (vec_len accepted) params.burst },
}

/// A station of which a plan writes no key: one queue, rings of 1000 slots (`DEFAULT_TX_QUEUE_LEN` of
/// include/net/pkt_sched.h), and a device that accepts each packet.
pub const PLAIN: StationPlan = StationPlan {
    len: 1000,
    max_len: 1000,
    bypass: true,
    params: Params {
        burst: 0,
        busy_every: 0,
        busy_limit: 0,
        hang_after: 0,
    },
    queues: 1,
    card: None,
};

/// Whether a device hangs once it has accepted so many packets.
fn hangs_at(accepted: usize, hang_after: u32) -> bool
    ensures { result ≡ (nat_lt 0 hang_after && (accepted == hang_after)) }
{
    hang_after > 0 && accepted == hang_after as usize
}

impl BenchDevice {
    ghost use Rattle.lq_device.specs.Bench.{bench_state, unconfigured};

    /// A device that has no room yet: it is to be configured before it is handed a packet.
    pub fn new(alloc: Global) -> BenchDevice
        ensures { bench_state result ≡ unconfigured }
    {
        BenchDevice {
            alloc,
            accepted: Vec::new(alloc),
            asked: Asked::nothing(),
            params: PLAIN.params,
            busies: 0,
            hung: false,
            to_busy: 0,
            to_stop: 0,
        }
    }
}

impl TxDevice for BenchDevice {
    ghost use Rattle.lq_device.specs.Bench.{bench_state};

    ghost state = { bench_state };

    fn configure(&mut self, params: &Params, room: usize) -> Result<(), NoMemory>
        ensures ok { OnOk result (IsConfigured params.now room (bench_state self.old) (bench_state self.new)) }
        ensures busy_left { OnOk result ((bench_state self.new).busy_left ≡ params.now.busy_limit) }
        ensures err { OnErr result (bench_state self.new ≡ bench_state self.old) }
    {
        let Ok(accepted) = Vec::with_capacity(self.alloc, room) else {
            return Err(NoMemory);
        };
        *self = BenchDevice {
            alloc: self.alloc,
            accepted,
            asked: Asked::nothing(),
            params: *params,
            busies: 0,
            hung: false,
            to_busy: params.busy_every,
            to_stop: params.burst,
        };
        Ok(())
    }

    fn xmit(&mut self, queue: u32, packet: u32) -> Tx {
        self.asked.push(queue, packet);
        let may_be_busy = is_multiple_next(self.to_busy);
        self.to_busy = left_after_one(self.to_busy, self.params.busy_every);
        if may_be_busy && self.busies < self.params.busy_limit {
            self.busies += 1;
            return Tx::Busy;
        }
        self.accepted.push_reserved(packet);
        let stops = is_multiple_next(self.to_stop);
        self.to_stop = left_after_one(self.to_stop, self.params.burst);
        if hangs_at(self.accepted.len(), self.params.hang_after) {
            self.hung = true;
            Tx::SentHang
        } else if stops {
            Tx::SentStop
        } else {
            Tx::Sent
        }
    }

    fn hung(&self) -> bool {
        self.hung
    }
}
