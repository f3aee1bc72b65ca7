//! Long runs, and those of several senders, whose exact fates nobody claims: what holds whatever order their steps took is checked over
//! the files.
use crate::done::run;
use lq_pcap::gen_capture;
use lq_test_fixture::{check_run, unheld};
use std::alloc::Global;
use std::marker::Sync;
use std::sync::Wait;
use std::test::Fail;
use std::thread::Threads;

/// A run over so many generated packets, of which at least so many are sent.
#[derive(Clone, Copy)]
struct Row {
    plan: &'static str,
    number: u32,
    count: u32,
    least: usize,
}

const ROWS: [Row; 7] = [
    // More packets than 16 bits count, over as many stations as a plan may have, of which each sends its packets at once. The run opens
    // 11 handles.
    Row {
        plan: "[[station]]\n[[station]]\n[[station]]\n[[station]]\n[[station]]\n[[station]]\n[[station]]\n[[station]]\n",
        number: 1,
        count: 70_000,
        least: 70_000,
    },
    Row {
        plan: "senders = 8\n[[station]]\nlen = 4096\n",
        number: 1,
        count: 100_000,
        least: 0,
    },
    // short rings, a queue that stops, and a device that is busy
    Row {
        plan: "senders = 8\nirq_every = 16\n[[station]]\nlen = 4\nburst = 3\nbusy_every = 5\nbusy_limit = 2000\n",
        number: 2,
        count: 20_000,
        least: 0,
    },
    // the rings' length changes beside the senders
    Row {
        plan: "senders = 8\nirq_every = 4\n[[station]]\nlen = 64\nmax_len = 4096\nburst = 16\n[[event]]\nbefore = 20000\nkind = \"resize\"\nstation = 0\nlen = 8\n[[event]]\nbefore = 40000\nkind = \"resize\"\nstation = 0\nlen = 4096\n[[event]]\nbefore = 60000\nkind = \"resize\"\nstation = 0\nlen = 32\n",
        number: 3,
        count: 100_000,
        least: 0,
    },
    // the station is deactivated and activated beside them
    Row {
        plan: "senders = 8\n[[station]]\nlen = 16\nburst = 4\n[[event]]\nbefore = 2000\nkind = \"down\"\nstation = 0\n[[event]]\nbefore = 4000\nkind = \"up\"\nstation = 0\n[[event]]\nbefore = 6000\nkind = \"tx_queue_len\"\nstation = 0\nlen = 8\n",
        number: 4,
        count: 10_000,
        least: 0,
    },
    // as many children as a root may have, by sixteen senders, over rings that fill up
    Row {
        plan: "version = 3\nsenders = 16\nirq_every = 16\n[[station]]\nmq = 8\nlen = 16\nburst = 4\n",
        number: 5,
        count: 20_000,
        least: 0,
    },
    // the greatest numbers of version 2, over four queues
    Row {
        plan: "version = 2\nsenders = 64\n[[station]]\nlen = 65536\nqueues = 4\n",
        number: 1,
        count: 100_000,
        least: 0,
    },
];

fn check_row<R: Threads + Wait + Sync>(rt: &R, alloc: Global, row: &Row) -> Result<(), Fail> {
    let capture = gen_capture(alloc, row.number, row.count.min(1_000_000))?;
    let done = run(&unheld(rt, alloc), row.plan, &capture)?;
    let sent = check_run(rt, alloc, &done.host, row.plan.as_bytes(), &capture)?;
    if sent < row.least {
        return Err(Fail::new(format_args!("too few sent: {}", row.plan)));
    }
    Ok(())
}

#[test]
fn settles_each_packet(rt: HostRuntime) -> Result<(), Fail> {
    for row in &ROWS {
        check_row(&rt, rt.alloc(), row)?;
    }
    Ok(())
}

/// A quarter of the most packets, by one sender less than the most.
const MANY: Row = Row {
    plan: "version = 2\nsenders = 63\n[[station]]\nlen = 4096\n",
    number: 6,
    count: 250_000,
    least: 0,
};

#[test]
fn settles_250000_packets_of_63_senders(rt: HostRuntime) -> Result<(), Fail> {
    check_row(&rt, rt.alloc(), &MANY)
}

/// As many packets as a capture may have, by as many senders as a plan may have. What the run leaves is what its contract says.
#[test]
fn comes_to_its_end_with_the_most_packets(rt: HostRuntime) -> Result<(), Fail> {
    let alloc = rt.alloc();
    let capture = gen_capture(alloc, 7, 1_000_000)?;
    let plan = "version = 2\nsenders = 64\n[[station]]\nlen = 65536\n";
    run(&unheld(&rt, alloc), plan, &capture)?;
    Ok(())
}

/// A run of 64 packets under a plan, which comes to its end with ample memory.
fn settles_64_packets<R: Threads + Wait + Sync>(
    rt: &R,
    alloc: Global,
    plan: &str,
    capture: &[u8],
) -> Result<(), Fail> {
    let on = unheld(rt, alloc);
    let done = run(&on, plan, capture)?;
    check_run(rt, alloc, &done.host, plan.as_bytes(), capture)?;
    Ok(())
}

/// Each number of senders, and with them each number of children in turn.
#[test]
fn comes_to_its_end_at_each_size(rt: HostRuntime) -> Result<(), Fail> {
    let alloc = rt.alloc();
    let capture = gen_capture(alloc, 1, 64)?;
    for senders in 1..65u32 {
        let children = senders
            .wrapping_sub(1)
            .checked_rem(8)
            .unwrap_or(0)
            .wrapping_add(1);
        let plan = format!(in alloc;
            "version = 3\nsenders = {senders}\n[[station]]\nmq = {children}\nlen = 64\n"
        )?;
        settles_64_packets(&rt, alloc, plan.as_str(), &capture)?;
    }
    Ok(())
}

/// The greatest plan of version 2: all stations, with the longest rings and all queues, and all events, of which as many swap a device as
/// the bench has units for.
fn greatest_plan(alloc: Global) -> Result<String, Fail> {
    let mut plan = String::from_str(alloc, "version = 2\nsenders = 64\n")?;
    for _ in 0..8 {
        plan.push_str("[[station]]\nlen = 65536\nqueues = 8\n")?;
    }
    for e in 0..64u32 {
        let kind = if e < 8 {
            "\"swap\""
        } else {
            "\"resize\"\nlen = 65536"
        };
        let station = e.checked_rem(8).unwrap_or(0);
        plan.push_str(&format!(in alloc;
            "[[event]]\nbefore = {e}\nkind = {kind}\nstation = {station}\n"
        )?)?;
    }
    Ok(plan)
}

#[test]
fn comes_to_its_end_under_the_greatest_plan(rt: HostRuntime) -> Result<(), Fail> {
    let alloc = rt.alloc();
    let capture = gen_capture(alloc, 1, 64)?;
    let plan = greatest_plan(alloc)?;
    settles_64_packets(&rt, alloc, plan.as_str(), &capture)
}
