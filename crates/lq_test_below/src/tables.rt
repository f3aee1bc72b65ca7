//! Packets, a table of them and the calls on its first seat, for the tests.
ghost use Rattle.std.specs.Prelude.{ℕ, ◌+◌, ◌<◌, [], length};
ghost use Rattle.lq_model.specs.declared.machine.Phase.TheVariants.{Active};
ghost use Rattle.lq_test_below.specs.Recorder.{IsFreshWithRoom, recorder_state};
ghost use Rattle.lq_test_below.specs.Seats.{HasAllShares, IsBetweenCalls, IsFirst, IsKeptFirst, IsSender, IsTheirs};

use crate::plain::PARAMS;
use crate::recorder::Recorder;
use lq_control::drain;
use lq_device::{PLAIN, Station, StationPlan, TxDevice};
use lq_model::{Fate, Info, Params};
use lq_qdisc::{Sending, irq, transmit};
use lq_table::{Cpu, Shared};
use std::alloc::Global;
use std::process::Abort;
use std::sync::Wait;

/// How many senders have packets: owners 1 to 3. Owner 0 has none.
pub const SENDERS: u32 = 3;

/// The packets of the three senders in turn. All are in band 1, or each sender's are in the bands 0, 1 and 2 in turn.
pub fn packets<A: Abort>(rt: &A, alloc: Global, count: u32, mixed: bool) -> Vec<Info> {
    let mut infos = Vec::new(alloc);
    for n in 0..count {
        let rank = n / SENDERS;
        let info = Info {
            owner: (n % SENDERS + 1) as u8,
            station: 0,
            band: if mixed { (rank % 3) as u8 } else { 1 },
            queue: 0,
            rank,
        };
        infos.push(info).expect(rt, "memory");
    }
    infos
}

fn check_packets<A: Abort>(rt: &A, infos: &[Info])
    ensures { (k : ℕ) → k < length infos.now → IsTheirs infos.now k }
{
    for k in 0..infos.len() {
        assert!(rt; infos[k].owner as usize == k % 3 + 1);
        assert!(rt; infos[k].station == 0);
        assert!(rt; infos[k].band < 3);
        assert!(rt; infos[k].queue == 0);
        assert!(rt; infos[k].rank as usize == k / 3);
    }
}

/// A new device, with room for all packets.
pub fn device<A: Abort>(rt: &A, alloc: Global, burst: u32, infos: &[Info]) -> Recorder
    ensures { IsFreshWithRoom (length infos.now) (recorder_state result) }
{
    Recorder::new(alloc, burst, infos.len()).expect(rt, "memory")
}

/// The table of these packets, and its one seat. The device stops its queue at each multiple of `burst`.
pub fn table<'a, A: Abort>(
    rt: &A,
    alloc: Global,
    infos: &'a [Info],
    len: u32,
    burst: u32,
) -> (Shared<'a, Recorder>, Cpu<Recorder>)
    ensures { IsFirst Active [] result.0 result.1 × HasAllShares result.1 }
{
    assert!(rt; infos.len() <= 100000);
    assert!(rt; 0 < len);
    assert!(rt; len <= 100);
    check_packets(rt, infos);
    let plan = StationPlan {
        len,
        max_len: len,
        params: Params { burst, ..PARAMS },
        ..PLAIN
    };
    let station = Station::new(alloc, 0, device(rt, alloc, burst, infos))
        .ok()
        .expect(rt, "memory");
    Shared::make(alloc, infos, 0, plan, SENDERS + 1, station)
        .ok()
        .expect(rt, "memory")
}

/// Sends packet `n`, which is this owner's, and does the soft interrupts that the seat owes.
pub fn send<'a, A: Abort + Wait, D: TxDevice>(
    rt: &A,
    shared: &Shared<'a, D>,
    cpu: &mut Cpu<D>,
    owner: u32,
    n: u32,
) -> Sending
    requires sender { IsSender shared.now owner cpu.old }
    ensures sender { IsSender shared.now owner cpu.new }
    ensures kept { IsKeptFirst cpu.old cpu.new }
{
    let infos = shared.infos();
    assert!(rt; (n as usize) < infos.len());
    let info = infos[n as usize];
    assert!(rt; info.owner as u32 == owner);
    assert!(rt; owner < shared.senders());
    assert!(rt; info.station as u32 == shared.number());
    assert!(rt; info.band < 3);
    assert!(rt; (info.queue as u32) < shared.queues());
    let sending = transmit(rt, shared, cpu, n);
    drain(rt, shared, cpu);
    sending
}

/// An interrupt of the driver, with the soft interrupts that it raises.
pub fn wake<'a, R: Wait, D: TxDevice>(rt: &R, shared: &Shared<'a, D>, cpu: &mut Cpu<D>)
    requires between { IsBetweenCalls shared.now cpu.old }
    ensures between { IsBetweenCalls shared.now cpu.new }
    ensures kept { IsKeptFirst cpu.old cpu.new }
{
    irq(shared, cpu);
    drain(rt, shared, cpu);
}

/// Closes the table, and reads the packets' fates: each has one.
pub fn fates<'a, A: Abort, D: TxDevice>(
    rt: &A,
    alloc: Global,
    shared: Shared<'a, D>,
    cpu: Cpu<D>,
) -> Vec<Fate>
    requires between { IsBetweenCalls shared cpu }
{
    assert!(rt; !cpu.raised());
    let packets = shared.infos().len();
    let closed = shared.close(cpu);
    let mut fates = Vec::new(alloc);
    for n in 0..packets {
        let fate = closed.fate_words().fate(n as u32).expect(rt, "a fate");
        fates.push(fate).expect(rt, "memory");
    }
    fates
}
