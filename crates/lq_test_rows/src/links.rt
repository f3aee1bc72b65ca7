//! A link: the fates of packets over a station whose queue a card on a wire opens, and captures that such a plan refuses.
use crate::done::run;
use crate::pcapng::FRAME;
use lq_test_fixture::{HEADER, RUN, call, host_of, unheld};
use lq_top::{Free, Resources};
use std::alloc::{AllocError, Global};
use std::marker::Sync;
use std::sync::Wait;
use std::test::Fail;
use std::thread::Threads;

/// The captured bytes of each packet, which aren't all that was on the wire.
const CAPTURED: u32 = 34;

/// Where they stand in the block of `FRAME`.
const FRAME_START: usize = 28;

const FRAME_END: usize = 62;

/// When a packet came, in microseconds, and its length on the wire. At 8,000 kbit/s one of 76 bytes takes 100 microseconds, and one of 1,476 takes 1,500.
type Packet = (u32, u32);

fn capture_of(alloc: Global, packets: &[Packet]) -> Result<Vec<u8>, AllocError> {
    let mut bytes = HEADER.to_vec(alloc)?;
    for (time, length) in packets {
        for &number in &[0, *time, CAPTURED, *length] {
            bytes.extend_from_slice(&number.to_le_bytes())?;
        }
        bytes.extend_from_slice(&FRAME[FRAME_START..FRAME_END])?;
    }
    Ok(bytes)
}

/// A packet that was sent, when the card accepted it and when its frame ended, in microseconds.
type Sent = (u32, u32, u32);

fn times_of(alloc: Global, sent: &[Sent]) -> Result<String, AllocError> {
    let mut text = String::new(alloc);
    for (n, accepted, ends) in sent {
        let (accepted, ends) = (u64::from(*accepted) * 1000, u64::from(*ends) * 1000);
        text.push_str(format!(in alloc; "{n} {accepted} {ends}\n")?.as_str())?;
    }
    Ok(text)
}

/// The keys of the station beside its rate, the events, the packets, and what became of them.
#[derive(Clone, Copy)]
struct Row {
    keys: &'static str,
    packets: &'static [Packet],
    fates: &'static str,
    times: &'static [Sent],
}

const SENT_4: &str = "0 sent 0 0\n1 sent 0 1\n2 sent 0 2\n3 sent 0 3\n";

const ROWS: [Row; 10] = [
    Row {
        keys: "ring = 1",
        packets: &[(0, 76), (50, 76), (100, 76), (150, 76), (900, 76)],
        fates: "0 sent 0 0\n1 sent 0 1\n2 sent 0 2\n3 sent 0 3\n4 sent 0 4\n",
        times: &[
            (0, 0, 100),
            (1, 100, 200),
            (2, 200, 300),
            (3, 300, 400),
            (4, 900, 1000),
        ],
    },
    Row {
        keys: "ring = 1",
        packets: &[(0, 1476), (10, 76), (20, 76)],
        fates: "0 sent 0 0\n1 sent 0 1\n2 sent 0 2\n",
        times: &[(0, 0, 1500), (1, 1500, 1600), (2, 1600, 1700)],
    },
    Row {
        keys: "ring = 3",
        packets: &[(0, 76), (0, 76), (0, 76), (0, 76)],
        fates: SENT_4,
        times: &[(0, 0, 100), (1, 0, 200), (2, 0, 300), (3, 100, 400)],
    },
    Row {
        keys: "bql = 100",
        packets: &[(0, 76), (0, 1476), (0, 76), (2000, 76)],
        fates: SENT_4,
        times: &[(0, 0, 100), (1, 0, 1600), (2, 1600, 1700), (3, 2000, 2100)],
    },
    Row {
        keys: "ring = 2\ncoalesce_us = 250",
        packets: &[(0, 76), (0, 76), (0, 76), (0, 76), (0, 76), (0, 76)],
        fates: "0 sent 0 0\n1 sent 0 1\n2 sent 0 2\n3 sent 0 3\n4 sent 0 4\n5 sent 0 5\n",
        times: &[
            (0, 0, 100),
            (1, 0, 200),
            (2, 350, 450),
            (3, 350, 550),
            (4, 700, 800),
            (5, 700, 900),
        ],
    },
    // packet 0 is in the ring, packet 1 in the requeue slot, and packet 2 in the one slot of its band
    Row {
        keys: "ring = 1\nlen = 1",
        packets: &[(0, 76), (0, 76), (0, 76), (0, 76)],
        fates: "0 sent 0 0\n1 sent 0 1\n2 sent 0 2\n3 full 2\n",
        times: &[(0, 0, 100), (1, 100, 200), (2, 200, 300)],
    },
    // at 250 all have left that wait
    Row {
        keys: "ring = 1\nlen = 1",
        packets: &[(0, 76), (0, 76), (0, 76), (250, 76)],
        fates: SENT_4,
        times: &[(0, 0, 100), (1, 100, 200), (2, 200, 300), (3, 300, 400)],
    },
    // a longer frame in front: at 250 none has
    Row {
        keys: "ring = 1\nlen = 1",
        packets: &[(0, 1476), (0, 76), (0, 76), (250, 76)],
        fates: "0 sent 0 0\n1 sent 0 1\n2 sent 0 2\n3 full 2\n",
        times: &[(0, 0, 1500), (1, 1500, 1600), (2, 1600, 1700)],
    },
    // a card with room for two more takes three at once, and the fourth waits
    Row {
        keys: "ring = 3\nlen = 1",
        packets: &[(0, 76), (0, 76), (0, 76), (0, 76), (0, 76), (0, 76)],
        fates: "0 sent 0 0\n1 sent 0 1\n2 sent 0 2\n3 sent 0 3\n4 sent 0 4\n5 full 4\n",
        times: &[
            (0, 0, 100),
            (1, 0, 200),
            (2, 0, 300),
            (3, 100, 400),
            (4, 200, 500),
        ],
    },
    // what is in the ring when the station is deactivated is sent
    Row {
        keys: "ring = 1\n[[event]]\nbefore = 2\nkind = \"down\"\nstation = 0\n[[event]]\nbefore = 3\nkind = \"up\"\nstation = 0",
        packets: &[(0, 76), (0, 76), (10, 76), (20, 76)],
        fates: "0 sent 0 0\n1 purged 0\n2 refused 0\n3 sent 0 1\n",
        times: &[(0, 0, 100), (3, 100, 200)],
    },
];

fn check_row<R: Threads + Wait + Sync>(on: &Resources<'_, R, Free>, row: &Row) -> Result<(), Fail> {
    let keys = row.keys;
    let plan = format!(in on.alloc; "version = 5\n[[station]]\nrate_kbit = 8000\n{keys}\n")?;
    let capture = capture_of(on.alloc, row.packets)?;
    let done = run(on, plan.as_str(), &capture)?;
    done.has_file("o.fates", row.fates.as_bytes())?;
    done.has_file("o.times", times_of(on.alloc, row.times)?.as_bytes())
}

#[test]
fn a_card_opens_its_queue_as_it_has_room(rt: HostRuntime) -> Result<(), Fail> {
    let on = unheld(&rt, rt.alloc());
    for row in &ROWS {
        check_row(&on, row)?;
    }
    Ok(())
}

// TIMES THAT GO BACK

/// A plan, and whether it takes a capture whose times go back.
const PLANS: [(&str, bool); 4] = [
    ("version = 4\nirq_us = 10\n[[station]]\n", true),
    ("version = 5\n[[station]]\n", true),
    ("version = 5\nirq_us = 10\n[[station]]\n", false),
    ("version = 5\n[[station]]\nrate_kbit = 8000\n", false),
];

fn check_plan<R: Threads + Wait + Sync>(
    on: &Resources<'_, R, Free>,
    plan: &str,
    takes: bool,
) -> Result<(), Fail> {
    let capture = capture_of(on.alloc, &[(100, 76), (100, 76), (99, 76), (50, 76)])?;
    let mut host = host_of(on.alloc, plan.as_bytes(), &capture)?;
    let code = call(on, &RUN, &mut host)?.code();
    let is_right = if takes {
        code == 0 && host.file("o.fates").is_some()
    } else {
        code == 4
            && host.output() == b"capture refused: 16 TimeBack at 2\n".as_slice()
            && host.file("o.fates").is_none()
    };
    if is_right {
        return Ok(());
    }
    Err(Fail::new(format_args!("exit code {code}: {plan}")))
}

#[test]
fn a_time_that_goes_back_is_refused(rt: HostRuntime) -> Result<(), Fail> {
    let on = unheld(&rt, rt.alloc());
    for (plan, takes) in &PLANS {
        check_plan(&on, plan, *takes)?;
    }
    Ok(())
}
