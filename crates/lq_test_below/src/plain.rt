//! Devices, packets of one sender, and what became of them, for the tests on one thread.
ghost use Rattle.std.specs.Prelude.{◌≡◌, ℕ, ◌<◌, length, Ok};
ghost use Rattle.lq_test_below.specs.Plain.{IsPlainPacket};

use lq_model::{Fate, Info, Params};
use std::process::Abort;

/// The device accepts every packet.
pub const PARAMS: Params = Params {
    burst: 0,
    busy_every: 0,
    busy_limit: 0,
    hang_after: 0,
};

/// Each packet that the device accepts stops its queue.
pub const STOPPING: Params = Params { burst: 1, ..PARAMS };

/// Packet `rank` of the sender, of this band and queue.
pub fn info_at(rank: u32, band: u8, queue: u8) -> Info {
    Info {
        owner: 1,
        station: 0,
        band,
        queue,
        rank,
    }
}

/// The fate of a packet that the device accepted after so many others.
pub fn sent(serial: u32) -> Option<Fate> {
    Some(Fate::Sent { unit: 0, serial })
}

/// Stops the test where a packet isn't the sender's of that rank.
pub fn check_packets<A: Abort>(rt: &A, infos: &[Info], queues: u32)
    ensures { (k : ℕ) → k < length infos.now → IsPlainPacket infos.now queues k }
{
    for k in 0..infos.len() {
        assert!(rt; infos[k].owner == 1);
        assert!(rt; infos[k].station == 0);
        assert!(rt; infos[k].band < 3);
        assert!(rt; (infos[k].queue as u32) < queues);
        assert!(rt; infos[k].rank as usize == k);
    }
}

/// What was made, with memory.
pub fn with_memory<A: Abort, T, E: Drop>(rt: &A, made: Result<T, E>) -> T
    ensures { made ≡ Ok result }
{
    made.ok().expect(rt, "memory")
}
