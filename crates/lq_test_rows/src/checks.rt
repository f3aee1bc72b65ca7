//! That the checks of runs and taps take right ones and refuse each kind of wrong line and file. The packets, the lines and the files
//! are made by hand.
use lq_host::{Host, MemHost};
use lq_test_fixture::{
    Flaw, HEADER, TapCounts, TapShape, Wrong, capture_of, check_run, check_tap_lines, host_of,
    records_of,
};
use std::alloc::Global;
use std::marker::Sync;
use std::test::Fail;
use std::thread::Threads;

/// A station of its own, 0, and a root over stations 1 and 2. The rings of station 0 get two slots before packet 2 and one again
/// before packet 4; it is deactivated by event 2 and activated before packet 8, and event 4 swaps its device, unit 0, for unit
/// 3, which hangs after two packets. Event 5 deactivates stations 1 and 2 for a while, and leaves their rings three slots.
const PLAN: &[u8] = b"version = 3
senders = 2
[[station]]
len = 1
max_len = 2
[[station]]
mq = 2
len = 3
[[event]]
before = 2
kind = \"resize\"
station = 0
len = 2
[[event]]
before = 4
kind = \"resize\"
station = 0
len = 1
[[event]]
before = 6
kind = \"down\"
station = 0
[[event]]
before = 8
kind = \"up\"
station = 0
[[event]]
before = 12
kind = \"swap\"
station = 0
hang_after = 2
[[event]]
before = 16
kind = \"tx_queue_len\"
station = 1
len = 3
";

/// How many packets there are. Those of even numbers are the first sender's.
const COUNT: usize = 18;

/// The frame of each packet, and a line that may come of it. Its type of service is that of the band; its destination is that of the
/// station, or of the root, of whose children its source chooses one.
const PACKETS: [((u8, u8, u8), &str); COUNT] = [
    ((0x10, 0, 0), "0 sent 0 0"),
    ((0x10, 0, 0), "1 sent 0 1"),
    ((0x10, 0, 0), "2 shrunk 1"),
    ((0x10, 0, 0), "3 full 2"),
    ((0x10, 0, 0), "4 purged 2"),
    ((0x10, 0, 0), "5 refused 2"),
    ((0x10, 0, 0), "6 refused 2"),
    ((0, 0, 0), "7 sent 0 3"),
    ((0x10, 0, 0), "8 sent 0 2"),
    ((0x10, 0, 1), "9 sent 1 0"),
    ((0x10, 1, 1), "10 purged 5"),
    ((0, 1, 1), "11 sent 2 0"),
    ((0x10, 0, 0), "12 sent 3 0"),
    ((0x10, 0, 0), "13 sent 3 1"),
    ((0x10, 0, 0), "14 purged hung"),
    ((0x10, 0, 0), "15 full 14"),
    ((0x10, 0, 1), "16 sent 1 1"),
    ((0x10, 0, 1), "17 full 16"),
];

/// Lines in the place of packets' own.
type Changes<'a> = &'a [(usize, &'a str)];

fn line_at<'a>(n: usize, own: &'a str, changes: Changes<'a>) -> &'a str {
    for (changed, line) in changes {
        if *changed == n {
            return line;
        }
    }
    own
}

/// The right text, with these lines in the place of packets' own.
fn text_with(alloc: Global, changes: Changes<'_>) -> Result<String, Fail> {
    let mut text = String::new(alloc);
    for (n, (_, own)) in PACKETS.iter().enumerate() {
        text.push_str(line_at(n, own, changes))?;
        text.push_str("\n")?;
    }
    Ok(text)
}

/// What the check says of a run with this text and no capture of a unit.
fn flaw_in<R: Threads + Sync>(rt: &R, alloc: Global, text: &str) -> Result<Option<Flaw>, Fail> {
    let frames = PACKETS
        .iter()
        .map(|(frame, _)| *frame)
        .collect::<Vec<(u8, u8, u8)>>(alloc)?;
    let capture = capture_of(alloc, &frames)?;
    let mut host = MemHost::new(alloc);
    host.put_file("o.fates", text.as_bytes())?;
    Ok(check_run(rt, alloc, &host, PLAN, &capture).err())
}

fn flaw_with<R: Threads + Sync>(
    rt: &R,
    alloc: Global,
    changes: Changes<'_>,
) -> Result<Option<Flaw>, Fail> {
    let text = text_with(alloc, changes)?;
    flaw_in(rt, alloc, text.as_str())
}

/// A wrong line in the place of a packet's own, and what is wrong then.
const WRONG: [(usize, &str, Flaw); 47] = [
    // no line of the format, or that of another packet
    (0, "0 lost 0", Flaw::Line(0)),
    (0, "0 sent 0", Flaw::Line(0)),
    (0, "0 sent 0 0 0", Flaw::Line(0)),
    (0, "0 sent 0 first", Flaw::Line(0)),
    (3, "3 full", Flaw::Line(3)),
    (3, "3 full 2 0", Flaw::Line(3)),
    (3, "4 full 2", Flaw::Line(3)),
    (14, "14 purged hang", Flaw::Line(14)),
    // a serial that another packet has, one that is too high, and one that is left out
    (1, "1 sent 0 0", Flaw::Serials(0)),
    (1, "1 sent 0 9", Flaw::Serials(0)),
    (0, "0 purged 2", Flaw::Serials(0)),
    // a unit of another station, of another child of the root, and none
    (9, "9 sent 0 4", Flaw::Unit(9)),
    (11, "11 sent 1 2", Flaw::Unit(11)),
    (9, "9 sent 4 0", Flaw::Unit(9)),
    // a packet of the first sender: the unit that the swap brings later, and the one that it took away before
    (8, "8 sent 3 2", Flaw::Unit(8)),
    (12, "12 sent 0 4", Flaw::Unit(12)),
    // seen: the packet itself, one of another band, of another station, of another child, one that was dropped as full, one that was
    // refused, and none
    (3, "3 full 3", Flaw::Seen(3)),
    (3, "3 full 7", Flaw::Seen(3)),
    (3, "3 full 9", Flaw::Seen(3)),
    (17, "17 full 10", Flaw::Seen(17)),
    (15, "15 full 3", Flaw::Seen(15)),
    (3, "3 full 5", Flaw::Seen(3)),
    (3, "3 full 18", Flaw::Seen(3)),
    // fewer packets were let into the band than fill a ring of three slots but for a batch
    (9, "9 full 16", Flaw::Room(9)),
    // a resize to a greater length, no resize, one of another station, none, and one that stands before the first sender's packet
    (1, "1 shrunk 0", Flaw::Shrunk(1)),
    (1, "1 shrunk 2", Flaw::Shrunk(1)),
    (9, "9 shrunk 1", Flaw::Shrunk(9)),
    (1, "1 shrunk 6", Flaw::Shrunk(1)),
    (8, "8 shrunk 1", Flaw::Shrunk(8)),
    // a resize, an activation, another station's event, none; of the first sender's packets one before it, and one behind the next
    (1, "1 purged 1", Flaw::Purged(1)),
    (1, "1 purged 3", Flaw::Purged(1)),
    (9, "9 purged 2", Flaw::Purged(9)),
    (1, "1 purged 5", Flaw::Purged(1)),
    (1, "1 purged 6", Flaw::Purged(1)),
    (12, "12 purged 2", Flaw::Purged(12)),
    (4, "4 purged 4", Flaw::Purged(4)),
    // a unit that doesn't hang, one that sent one packet fewer, and a packet that had been purged before
    (16, "16 purged hung", Flaw::Hung(16)),
    (13, "13 sent 0 4", Flaw::Hung(14)),
    (4, "4 purged hung", Flaw::Hung(4)),
    // a resize, another station's event; the first sender's packet by another one, and where its station is active
    (5, "5 refused 1", Flaw::Refused(5)),
    (11, "11 refused 2", Flaw::Refused(11)),
    (6, "6 refused 4", Flaw::Refused(6)),
    (8, "8 refused 2", Flaw::Refused(8)),
    // the first sender's packet where its station is deactivated
    (6, "6 sent 0 4", Flaw::Taken(6)),
    (6, "6 purged 4", Flaw::Taken(6)),
    // one packet more than the unit takes
    (14, "14 sent 3 2", Flaw::TooMany(3)),
    // behind a lower packet of its sender that a higher unit sent
    (15, "15 sent 0 4", Flaw::Order(3)),
];

/// Of right lines the first file that is missed is told.
const MISSED: Flaw = Flaw::Capture(0);

#[test]
fn refuses_each_wrong_line(rt: HostRuntime) -> Result<(), Fail> {
    let alloc = rt.alloc();
    assert_eq!(rt; flaw_with(&rt, alloc, &[])?, Some(MISSED));
    for &(n, line, flaw) in &WRONG {
        assert_eq!(rt;
            flaw_with(&rt, alloc, &[(n, line)])?,
            Some(flaw),
            "{line:?}"
        );
    }
    // a sender's packets of one band in the other order
    let turned = flaw_with(&rt, alloc, &[(0, "0 sent 0 2"), (8, "8 sent 0 0")])?;
    assert_eq!(rt; turned, Some(Flaw::Order(0)));
    Ok(())
}

#[test]
fn refuses_another_number_of_lines(rt: HostRuntime) -> Result<(), Fail> {
    let alloc = rt.alloc();
    let text = text_with(alloc, &[])?;
    let (fewer, _) = text.as_str().split_once("17 ").ok_or("no last line")?;
    assert_eq!(rt; flaw_in(&rt, alloc, fewer)?, Some(Flaw::Line(17)));
    let more = format!(in alloc; "{text}18 sent 1 2\n")?;
    assert_eq!(rt; flaw_in(&rt, alloc, more.as_str())?, Some(Flaw::MoreLines));
    Ok(())
}

/// A root over two queues.
const ROOT: &[u8] = b"version = 3\n[[station]]\nmq = 2\n";

const FATES: &[u8] = b"0 sent 1 0\n1 sent 0 0\n2 sent 1 1\n";

const COUNTS: &str = "unit 0 sent 1
unit 1 sent 2
station 0 full 0 shrunk 0 purged 0 refused 0
station 1 full 0 shrunk 0 purged 0 refused 0
total 3 sent 3 full 0 shrunk 0 purged 0 refused 0
mq 0 queues 2 sent 3
";

/// The files of captures, and the packets that each has.
const CAPTURES: [(&str, &[usize]); 3] = [
    ("o.0.pcap", &[1]),
    ("o.1.pcap", &[0, 2]),
    ("o.mq0.pcap", &[1, 0, 2]),
];

/// A host with the files of a right run of three packets over the root, and this output.
fn host_after(alloc: Global, capture: &[u8], counts: &str) -> Result<MemHost, Fail> {
    let mut host = host_of(alloc, ROOT, capture)?;
    host.put_file("o.fates", FATES)?;
    for &(name, packets) in &CAPTURES {
        host.put_file(name, &records_of(alloc, capture, packets)?)?;
    }
    host.write(0, counts.as_bytes())?;
    Ok(host)
}

/// A file with other packets than its own, and what is wrong then.
const CHANGED: [(&str, &[usize], Flaw); 5] = [
    ("o.0.pcap", &[0], Flaw::Capture(0)),
    ("o.1.pcap", &[2, 0], Flaw::Capture(1)),
    ("o.2.pcap", &[], Flaw::Capture(2)),
    ("o.mq0.pcap", &[0, 1, 2], Flaw::Joint(0)),
    ("o.mq0.pcap", &[1, 0], Flaw::Joint(0)),
];

/// What the check says of a run over the root with these counts, where a file has other packets than its own.
fn flaw_of<R: Threads + Sync>(
    rt: &R,
    alloc: Global,
    counts: &str,
    changed: Option<(&str, &[usize])>,
) -> Result<Option<Flaw>, Fail> {
    let capture = capture_of(alloc, &[(0, 1, 0), (0, 0, 0), (0, 3, 0)])?;
    let mut host = host_after(alloc, &capture, counts)?;
    if let Some((name, packets)) = changed {
        host.put_file(name, &records_of(alloc, &capture, packets)?)?;
    }
    Ok(check_run(rt, alloc, &host, ROOT, &capture).err())
}

#[test]
fn refuses_each_wrong_file(rt: HostRuntime) -> Result<(), Fail> {
    let alloc = rt.alloc();
    assert_eq!(rt; flaw_of(&rt, alloc, COUNTS, None)?, None);
    for &(name, packets, flaw) in &CHANGED {
        let found = flaw_of(&rt, alloc, COUNTS, Some((name, packets)))?;
        assert_eq!(rt; found, Some(flaw), "{name}");
    }
    let (without, _) = COUNTS.split_once("mq ").ok_or("no line of the root")?;
    assert_eq!(rt; flaw_of(&rt, alloc, without, None)?, Some(Flaw::Counts));
    let none = MemHost::new(alloc);
    assert_eq!(rt;
        check_run(&rt, alloc, &none, ROOT, &HEADER),
        Err(Flaw::Text)
    );
    Ok(())
}

/// The lines of a tap's four packets of one sender, over a ring of one slot.
const RIGHT: &str = "0 read 0\n1 full 0\n2 lost\n3 read 1\n";

/// Other lines of a tap over a ring of so many slots, and what is wrong with them.
struct Lines {
    len: usize,
    lines: &'static str,
    wrong: Wrong,
}

const WRONG_LINES: [Lines; 13] = [
    // a packet that saw itself, one that is none, and one that wasn't in the ring either
    Lines {
        len: 1,
        lines: "0 read 0\n1 full 1\n2 lost\n3 read 1\n",
        wrong: "a packet full or lost without a cause",
    },
    Lines {
        len: 1,
        lines: "0 read 0\n1 full 4\n2 lost\n3 read 1\n",
        wrong: "a packet full or lost without a cause",
    },
    Lines {
        len: 1,
        lines: "0 full 1\n1 full 0\n2 lost\n3 read 0\n",
        wrong: "a packet full or lost without a cause",
    },
    // three came in, which fill the ring: none is lost then, and none where all have room
    Lines {
        len: 3,
        lines: RIGHT,
        wrong: "a packet full or lost without a cause",
    },
    Lines {
        len: 4,
        lines: "0 read 0\n1 full 0\n2 read 1\n3 read 2\n",
        wrong: "not all read, where all have room",
    },
    Lines {
        len: 1,
        lines: "0 lost\n1 lost\n2 lost\n3 read 0\n",
        wrong: "more lost than read",
    },
    Lines {
        len: 1,
        lines: "0 read 0\n1 full 0\n2 lost\n3 read 0\n",
        wrong: "a place twice",
    },
    Lines {
        len: 1,
        lines: "0 read 0\n1 full 0\n2 lost\n3 read 2\n",
        wrong: "a place too high",
    },
    Lines {
        len: 1,
        lines: "0 read 1\n1 full 0\n2 lost\n3 read 0\n",
        wrong: "a sender's packets out of order",
    },
    Lines {
        len: 1,
        lines: "0 read 0\n1 full 0\n2 lost\n",
        wrong: "another number of fates",
    },
    // lines of another packet, of no tap, and cut off
    Lines {
        len: 1,
        lines: "0 read 0\n1 full 0\n3 lost\n2 read 1\n",
        wrong: "a line that tells no fate",
    },
    Lines {
        len: 1,
        lines: "0 read 0\n1 full 0\n2 sent 0 1\n3 read 1\n",
        wrong: "a line that tells no fate",
    },
    Lines {
        len: 1,
        lines: "0 read 0\n1 full\n2 lost\n3 read 1\n",
        wrong: "a line that tells no fate",
    },
];

#[test]
fn takes_right_lines_of_a_tap_alone(rt: HostRuntime) -> Result<(), Fail> {
    let alloc = rt.alloc();
    let shape = |len: usize| TapShape { senders: 1, len };
    let (counts, read) = check_tap_lines(alloc, RIGHT.as_bytes(), 4, shape(1))?;
    let told = TapCounts {
        read: 2,
        full: 1,
        lost: 1,
    };
    assert_eq!(rt; counts, told);
    assert_eq!(rt; read.as_slice(), [0usize, 3].as_slice());
    for row in &WRONG_LINES {
        let found = check_tap_lines(alloc, row.lines.as_bytes(), 4, shape(row.len)).err();
        assert_eq!(rt; found, Some(row.wrong), "{}", row.lines);
    }
    Ok(())
}
