//! A device whose list can be read.
ghost use Rattle.std.specs.Prelude.{◌≡◌, IfOk};
ghost use Rattle.lq_test_below.specs.Recorder.{IsFreshWithRoom, recorder_state};

use lq_device::{Asked, TxDevice};
use lq_model::{NoMemory, Params, Tx};
use std::alloc::Global;

/// A device that accepts each packet, and shows which it accepted. It doesn't tell its rule.
#[derive(Drop)]
pub struct Recorder {
    alloc: Global,
    /// The packets accepted, in the order of the calls; its capacity is the room.
    accepted: Vec<u32>,
    /// The calls of `xmit`, for contracts alone.
    asked: Asked,
    /// The queue of a packet is stopped where the number accepted is a multiple of this, unless it is 0.
    burst: u32,
}

impl Recorder {
    /// A device that has room for so many packets.
    pub fn new(alloc: Global, burst: u32, room: usize) -> Result<Recorder, NoMemory>
        ensures { IfOk result (λ d. IsFreshWithRoom room (recorder_state d)) }
    {
        let Ok(accepted) = Vec::with_capacity(alloc, room) else {
            return Err(NoMemory);
        };
        Ok(Recorder {
            alloc,
            accepted,
            asked: Asked::nothing(),
            burst,
        })
    }

    /// The packets that it accepted, in the order of the calls.
    pub fn accepted(&self) -> &[u32]
        ensures { result.now ≡ (recorder_state self.now).accepted }
    {
        self.accepted.as_slice()
    }
}

impl TxDevice for Recorder {
    ghost use Rattle.std.specs.Prelude.{OnOk, OnErr};
    ghost use Rattle.lq_model.specs.Device.{IsConfigured};

    ghost state = { recorder_state };

    fn configure(&mut self, params: &Params, room: usize) -> Result<(), NoMemory>
        ensures ok { OnOk result (IsConfigured params.now room (recorder_state self.old) (recorder_state self.new)) }
        ensures err { OnErr result (recorder_state self.new ≡ recorder_state self.old) }
    {
        let Ok(accepted) = Vec::with_capacity(self.alloc, room) else {
            return Err(NoMemory);
        };
        *self = Recorder {
            alloc: self.alloc,
            accepted,
            asked: Asked::nothing(),
            burst: params.burst,
        };
        Ok(())
    }

    fn xmit(&mut self, queue: u32, packet: u32) -> Tx {
        self.asked.push(queue, packet);
        self.accepted.push_reserved(packet);
        if self.burst > 0 && self.accepted.len() % self.burst as usize == 0 {
            Tx::SentStop
        } else {
            Tx::Sent
        }
    }

    fn hung(&self) -> bool {
        false
    }
}
