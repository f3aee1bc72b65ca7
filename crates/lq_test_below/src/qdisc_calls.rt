//! Worked rows on one thread: what is answered and what becomes of each packet was told by hand from the rules.
ghost use Rattle.std.specs.Prelude.{◌≤◌, length};
ghost use Rattle.lq_test_below.specs.Plain.{IsFirstOwnerAtRest};

use crate::plain::{PARAMS, STOPPING, check_packets, info_at, sent};
use lq_device::{BenchDevice, PLAIN, Station, StationPlan, TxDevice};
use lq_model::{Fate, Info, Params};
use lq_qdisc::{Sending, irq, softirq, transmit};
use lq_table::{Cpu, Shared};
use std::alloc::Global;
use std::process::Abort;
use std::sync::Wait;

fn plan(len: u32, params: Params) -> StationPlan {
    StationPlan {
        len,
        max_len: len,
        params,
        ..PLAIN
    }
}

/// The table of these packets, and its one seat.
fn table<'a, A: Abort>(
    rt: &A,
    alloc: Global,
    infos: &'a [Info],
    plan: StationPlan,
) -> (Shared<'a, BenchDevice>, Cpu<BenchDevice>)
    ensures { IsFirstOwnerAtRest result.0 result.1 }
{
    assert!(rt; infos.len() <= 100);
    assert!(rt; 0 < plan.len);
    assert!(rt; plan.len <= plan.max_len);
    assert!(rt; plan.max_len <= 100);
    assert!(rt; 0 < plan.queues);
    assert!(rt; plan.queues <= 8);
    check_packets(rt, infos, plan.queues);
    let mut device = BenchDevice::new(alloc);
    device
        .configure(&plan.params, infos.len())
        .expect(rt, "memory");
    let station = Station::new(alloc, 0, device).ok().expect(rt, "memory");
    Shared::make(alloc, infos, 0, plan, 2, station)
        .ok()
        .expect(rt, "memory")
}

/// The soft interrupt of a seat that is raised.
fn interrupt<'a, D: TxDevice>(shared: &Shared<'a, D>, cpu: &mut Cpu<D>)
    requires rests { IsFirstOwnerAtRest shared.now cpu.old }
    ensures rests { IsFirstOwnerAtRest shared.now cpu.new }
{
    if cpu.raised() {
        softirq(shared, cpu);
    }
}

/// Soft interrupts while the seat is raised, of which no row here has more than two in a row.
fn drain<'a, D: TxDevice>(shared: &Shared<'a, D>, cpu: &mut Cpu<D>)
    requires rests { IsFirstOwnerAtRest shared.now cpu.old }
    ensures rests { IsFirstOwnerAtRest shared.now cpu.new }
{
    interrupt(shared, cpu);
    interrupt(shared, cpu);
}

/// Interrupts of the driver, with the soft interrupts that they raise.
fn wake<'a, D: TxDevice>(shared: &Shared<'a, D>, cpu: &mut Cpu<D>, times: u32)
    requires rests { IsFirstOwnerAtRest shared.now cpu.old }
    ensures rests { IsFirstOwnerAtRest shared.now cpu.new }
{
    for _ in 0..times {
        irq(shared, cpu);
        drain(shared, cpu);
    }
}

fn send<'a, A: Abort + Wait, D: TxDevice>(
    rt: &A,
    shared: &Shared<'a, D>,
    cpu: &mut Cpu<D>,
    n: u32,
) -> Sending
    requires rests { IsFirstOwnerAtRest shared.now cpu.old }
    ensures rests { IsFirstOwnerAtRest shared.now cpu.new }
{
    let n = n as usize;
    let infos = shared.infos();
    assert!(rt; n < infos.len());
    assert!(rt; infos[n].owner == 1);
    assert!(rt; shared.senders() == 2);
    assert!(rt; infos[n].station as u32 == shared.number());
    assert!(rt; infos[n].band < 3);
    assert!(rt; (infos[n].queue as u32) < shared.queues());
    transmit(rt, shared, cpu, n as u32)
}

/// Sends the packets from 0 on, with the soft interrupts after each, and compares the answers.
fn send_all<'a, A: Abort + Wait, D: TxDevice>(
    rt: &A,
    shared: &Shared<'a, D>,
    cpu: &mut Cpu<D>,
    answers: &[Sending],
)
    requires rests { IsFirstOwnerAtRest shared.now cpu.old }
    requires few { length answers.now ≤ 100 }
    ensures rests { IsFirstOwnerAtRest shared.now cpu.new }
{
    for n in 0..answers.len() {
        assert_eq!(rt; send(rt, shared, cpu, n as u32), answers[n]);
        drain(shared, cpu);
    }
}

/// Closes the table, and compares the packets' fates.
fn close<'a, A: Abort, D: TxDevice>(
    rt: &A,
    shared: Shared<'a, D>,
    cpu: Cpu<D>,
    fates: &[Option<Fate>],
)
    requires rests { IsFirstOwnerAtRest shared cpu }
{
    assert!(rt; !cpu.raised());
    let packets = shared.infos().len();
    assert_eq!(rt; fates.len(), packets);
    let closed = shared.close(cpu);
    for n in 0..packets {
        assert_eq!(rt; closed.fate_words().fate(n as u32), fates[n]);
    }
}

// Packet 0 stops the queue, and packet 1 is requeued. It is served first, and then the bands from the lowest on.
#[test]
fn stopped_queue_requeues(rt: HostRuntime) {
    let infos = [
        info_at(0, 1, 0),
        info_at(1, 2, 0),
        info_at(2, 1, 0),
        info_at(3, 0, 0),
    ];
    let (shared, mut cpu) = table(&rt, rt.alloc(), &infos, plan(8, STOPPING));
    assert_eq!(rt;
        send(&rt, &shared, &mut cpu, 1),
        Sending::OutOfTurn { found: 0 }
    );
    let answers = [
        Sending::Direct,
        Sending::Direct,
        Sending::Queued,
        Sending::Queued,
    ];
    send_all(&rt, &shared, &mut cpu, &answers);
    wake(&shared, &mut cpu, 3);
    close(&rt, shared, cpu, &[sent(0), sent(1), sent(3), sent(2)]);
}

// Each second packet that the device accepts stops its own queue of two: packet 3 waits in the requeue slot for queue 0. After the
// first wake it is sent and stops that queue again, so packet 5 is requeued. After the second 5 and 6 are sent, 6 stops queue
// 1, and 7 is requeued. After the third 7 and 4 are sent.
#[test]
fn two_queues_stop_apart(rt: HostRuntime) {
    let infos = [
        info_at(0, 1, 0),
        info_at(1, 1, 0),
        info_at(2, 1, 1),
        info_at(3, 1, 0),
        info_at(4, 2, 1),
        info_at(5, 0, 0),
        info_at(6, 0, 1),
        info_at(7, 1, 1),
    ];
    let stopping = Params { burst: 2, ..PARAMS };
    let plan = StationPlan {
        queues: 2,
        ..plan(8, stopping)
    };
    let (shared, mut cpu) = table(&rt, rt.alloc(), &infos, plan);
    let (direct, queued) = (Sending::Direct, Sending::Queued);
    let answers = [
        direct, direct, direct, direct, queued, queued, queued, queued,
    ];
    send_all(&rt, &shared, &mut cpu, &answers);
    wake(&shared, &mut cpu, 3);
    let fates = [
        sent(0),
        sent(1),
        sent(2),
        sent(3),
        sent(7),
        sent(4),
        sent(5),
        sent(6),
    ];
    close(&rt, shared, cpu, &fates);
}
