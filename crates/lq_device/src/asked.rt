//! The calls that a device was asked, which contracts alone remember: a log of them takes no memory.
ghost use Rattle.std.specs.Prelude.{◌≡◌, [], ◌∷◌, ◌++◌};

use std::mem::replace;
use std::snapshot::Snapshot;

/// A call after those before it. One is made for a moment, so that a snapshot can be taken of it.
#[derive(Drop)]
enum Log {
    Empty,
    Call {
        before: Snapshot<Log>,
        queue: u32,
        packet: u32,
    },
}

/// The calls of `xmit` that a device was asked, in their order. It has no bytes: a device that keeps one can tell contracts
/// what it was asked.
#[derive(Drop)]
pub struct Asked {
    log: Snapshot<Log>,
}

impl Asked {
    ghost use Rattle.lq_model.specs.Device.{device_call};
    ghost use Rattle.lq_device.specs.Asked.{asked_list};

    /// No call.
    pub fn nothing() -> Asked
        ensures { asked_list result ≡ [] }
    {
        Asked {
            log: Snapshot::of(&Log::Empty),
        }
    }

    /// One more call, on a queue and for a packet.
    pub fn push(&mut self, queue: u32, packet: u32)
        ensures { asked_list self.new ≡ asked_list self.old ++ device_call queue packet ∷ [] }
    {
        let before = replace(&mut self.log, Snapshot::of(&Log::Empty));
        self.log = Snapshot::of(&Log::Call {
            before,
            queue,
            packet,
        });
    }
}
