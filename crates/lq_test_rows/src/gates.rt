//! What the gate is told, and what it shows that no contract can say: that each sender is a thread of its own, and that each wakes the
//! stopped queues at its times.
use crate::done::run;
use crate::holds::{Holds, Order, meeting};
use lq_test_fixture::{capture_of, check_run};
use lq_top::{Gate, Resources};
use std::alloc::Global;
use std::marker::Sync;
use std::sync::Wait;
use std::sync::atomic::{AtomicBool, AtomicU32, Ordering};
use std::test::Fail;
use std::thread::Threads;

const SENDERS: usize = 3;

/// The number that each sender is to tell next.
#[derive(Drop)]
pub struct Recording {
    next: [AtomicU32; SENDERS],
    is_wrong: AtomicBool,
}

impl Recording {
    pub fn new() -> Recording {
        Recording {
            next: [AtomicU32::new(0), AtomicU32::new(0), AtomicU32::new(0)],
            is_wrong: AtomicBool::new(false),
        }
    }

    pub fn passes(&self) -> [u32; SENDERS] {
        let [first, second, third] = &self.next;
        [
            first.load(Ordering::SeqCst),
            second.load(Ordering::SeqCst),
            third.load(Ordering::SeqCst),
        ]
    }
}

impl Gate for Recording {
    fn pass(&self, sender: u32, k: u32) {
        let is_next = match self.next.get(sender as usize) {
            Some(next) => next.fetch_add(1, Ordering::SeqCst) == k,
            None => false,
        };
        if !is_next {
            self.is_wrong.store(true, Ordering::SeqCst);
        }
    }
}

/// Plans, and how often each sender passes the gate where there are seven packets: before each of its own, packets 0, 3 and 6 of
/// sender 0 where there are three, and once after the last.
const PASSES: [(&str, [u32; SENDERS]); 2] = [
    ("[[station]]\n", [8, 0, 0]),
    ("senders = 3\n[[station]]\n", [4, 3, 3]),
];

#[test]
fn gate_is_told_each_sender_and_its_packets(rt: HostRuntime) -> Result<(), Fail> {
    let alloc = rt.alloc();
    let capture = capture_of(alloc, &[(0, 1, 0); 7])?;
    for (plan, passes) in &PASSES {
        let gate = Recording::new();
        let on = Resources {
            rt: &rt,
            alloc,
            gate: &gate,
        };
        run(&on, plan, &capture)?;
        assert!(rt; !gate.is_wrong.load(Ordering::SeqCst));
        assert_eq!(rt; gate.passes(), *passes);
    }
    Ok(())
}

/// Runs so many packets under a plan, with senders that are held: all packets are sent, and no pass is held too long.
fn all_are_sent<R: Threads + Wait + Sync>(
    rt: &R,
    alloc: Global,
    plan: &str,
    count: usize,
    orders: &[Order],
) -> Result<(), Fail> {
    let frames = vec![in alloc; (0, 1, 0); count]?;
    let capture = capture_of(alloc, &frames)?;
    let gate = Holds::new(alloc, orders)?;
    let on = Resources {
        rt,
        alloc,
        gate: &gate,
    };
    let done = run(&on, plan, &capture)?;
    if gate.gave_up() {
        return Err(Fail::new(format_args!("held too long: {plan}")));
    }
    let sent = check_run(rt, alloc, &done.host, plan.as_bytes(), &capture)?;
    if sent != count {
        return Err(Fail::new(format_args!("not all sent: {plan}")));
    }
    Ok(())
}

/// Plans, and how many senders each has.
const MEETINGS: [(&str, u32); 3] = [
    ("senders = 3\n[[station]]\n", 3),
    ("senders = 8\n[[station]]\n", 8),
    ("version = 2\nsenders = 64\n[[station]]\n", 64),
];

#[test]
fn all_senders_meet_before_their_first_packets(rt: HostRuntime) -> Result<(), Fail> {
    let alloc = rt.alloc();
    for &(plan, senders) in &MEETINGS {
        let orders = meeting(alloc, senders)?;
        all_are_sent(&rt, alloc, plan, senders as usize, &orders)?;
    }
    Ok(())
}

/// The second sender begins when the first has ended. The queue stops after each packet, and nothing but the senders' wakes opens it
/// before the end: were it never woken, the rings of four slots would be full of the first packets, and most of the others dropped.
#[test]
fn senders_wake_the_queues(rt: HostRuntime) -> Result<(), Fail> {
    let plan = "senders = 2\nirq_every = 1\n[[station]]\nlen = 4\nburst = 1\n";
    all_are_sent(&rt, rt.alloc(), plan, 40, &[((1, 0), (0, 20))])
}

/// The fates of eight packets of two senders, of which the second begins when the first has ended. The ring has one slot, the queue stops
/// after each packet, and each sender opens it after each second packet of its own. Opened before that packet, packet 1 would have left
/// the ring, and packet 3 wouldn't find it full.
const OPENED_AFTER: &str = "0 sent 0 0
1 sent 0 3
2 sent 0 1
3 full 1
4 sent 0 2
5 sent 0 4
6 full 4
7 full 5
";

#[test]
fn senders_open_the_queues_after_their_packets(rt: HostRuntime) -> Result<(), Fail> {
    let alloc = rt.alloc();
    let plan = "senders = 2\nirq_every = 2\n[[station]]\nlen = 1\nburst = 1\n";
    let capture = capture_of(alloc, &[(0, 1, 0); 8])?;
    let gate = Holds::new(alloc, &[((1, 0), (0, 4))])?;
    let on = Resources {
        rt: &rt,
        alloc,
        gate: &gate,
    };
    let done = run(&on, plan, &capture)?;
    assert!(rt; !gate.gave_up());
    done.has_file("o.fates", OPENED_AFTER.as_bytes())
}
