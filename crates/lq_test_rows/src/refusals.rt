//! Words, plans and captures that are refused: the status, the line, and no file made.
use lq_host::MemHost;
use lq_test_fixture::{
    EIGHT_STATIONS, HEADER, PLAN, RUN, call, call_on, host_of, host_with, three_frames, unheld,
};
use lq_top::{Free, Resources, Status};
use std::marker::Sync;
use std::sync::Wait;
use std::test::Fail;
use std::thread::Threads;

const USAGE: &str =
    "usage: lqtx run PLAN CAPTURE OUT | lqtx gen NUMBER COUNT OUT | lqtx trace FILE | lqtx tap SENDERS LEN BATCH CAPTURE OUT\n";

/// Files that a run, `gen` or a tap would make.
const OUTPUTS: [&str; 5] = ["o.0.pcap", "o.fates", "g", "t.pcap", "t.fates"];

/// The call is refused with this code and line, and made no file.
fn check_refused(host: &MemHost, status: Status, code: u8, line: &str) -> Result<(), Fail> {
    let made = OUTPUTS.iter().any(|name| host.file(name).is_some());
    if status.code() == code && host.output() == line.as_bytes() && !made {
        return Ok(());
    }
    Err(Fail::new(format_args!("not refused so: {line}")))
}

/// Command lines that aren't of the table, with a bar between the words.
const COMMANDS: [&str; 59] = [
    "run",
    "run|p|c",
    "run|p|c|o|o",
    "run|p|c|",
    "run|p|-c|o",
    "run|-|c|o",
    "Run|p|c|o",
    "p|run|c|o",
    "--|run|p|c|o",
    "run|--|p|c|o",
    "run|p|c|--",
    "run|p|c|-",
    "run|p|c|o|--",
    "run|p",
    "run p c o",
    "--",
    "--help",
    "-h",
    "--version",
    "run|--help",
    "help",
    "help|run",
    "trace",
    "trace|t|t",
    "trace|t|t|t",
    "trace|-t",
    "gen|1|2",
    "gen|1|2|g|g",
    "gen|1|2|-g",
    // a number out of its range, or not written as a number
    "gen|4294967296|1|g",
    "gen|99999999999999999999|1|g",
    "gen|1|1000001|g",
    "gen|01|2|g",
    "gen|1|02|g",
    "gen|00|2|g",
    "gen|+1|2|g",
    "gen|1|+2|g",
    "gen|1|2x|g",
    "gen|0x1|2|g",
    "gen|1_0|2|g",
    "gen|1| 2|g",
    "tap|0|8|4|c|t",
    "tap|9|8|4|c|t",
    "tap|1|0|4|c|t",
    "tap|1|4097|4|c|t",
    "tap|1|8|0|c|t",
    "tap|1|8|65|c|t",
    "tap|01|8|4|c|t",
    "tap|1|08|4|c|t",
    "tap|1|8|04|c|t",
    "tap|00|8|4|c|t",
    "tap|+1|8|4|c|t",
    "tap|1|+8|4|c|t",
    "tap|1|-8|4|c|t",
    "tap|1|8|+4|c|t",
    "tap|1|8|-4|c|t",
    "tap|1|8 |4|c|t",
    "tap|1|8|4.0|c|t",
    "tap|1|4294967304|4|c|t",
];

fn refused_words<R: Threads + Wait + Sync>(
    on: &Resources<'_, R, Free>,
    words: &[&str],
) -> Result<(), Fail> {
    let mut host = host_with(on.alloc, &three_frames(on.alloc)?)?;
    let status = call(on, words, &mut host)?;
    check_refused(&host, status, 2, USAGE)
}

#[test]
fn tells_how_it_is_called(rt: HostRuntime) -> Result<(), Fail> {
    let alloc = rt.alloc();
    let on = unheld(&rt, alloc);
    refused_words(&on, &[])?;
    for &command in &COMMANDS {
        let words = command.split('|').collect::<Vec<&str>>(alloc)?;
        refused_words(&on, &words)?;
    }
    Ok(())
}

/// `help` and `version` are names of files like any other.
#[test]
fn takes_help_and_version_as_names(rt: HostRuntime) -> Result<(), Fail> {
    let alloc = rt.alloc();
    let on = unheld(&rt, alloc);
    let capture = three_frames(alloc)?;
    for &name in &["help", "version"] {
        let mut host = host_with(alloc, &capture)?;
        host.put_file(name, PLAN)?;
        let status = call(&on, &["run", name, "c", "o"], &mut host)?;
        assert_eq!(rt; status, Status::Done, "{name}");
        assert_eq!(rt; host.file("o.0.pcap"), Some(capture.as_slice()));
    }
    Ok(())
}

/// Plans, and the line that refuses each.
const PLANS: [(&[u8], &str); 32] = [
    (b"len = = 3", "plan refused: 1 NotToml\n"),
    (b"[[station]]\nlenght = 5\n", "plan refused: 2 UnknownKey\n"),
    // a key of the document, but under the head of a station
    (
        b"[[station]]\nlen = 2\nburst = 1\nbypass = false\nirq_every = 1000\n",
        "plan refused: 2 UnknownKey\n",
    ),
    (b"[[station]]\nqueues = 2\n", "plan refused: 2 UnknownKey\n"),
    (b"senders = 2\n", "plan refused: 3 Missing\n"),
    (b"", "plan refused: 3 Missing\n"),
    (b"[[station]]\nlen = \"a\"\n", "plan refused: 4 Kind\n"),
    (b"[[station]]\nlen = 4097\n", "plan refused: 5 Range\n"),
    (
        b"version = 2\nsenders = 65\n[[station]]\n",
        "plan refused: 5 Range\n",
    ),
    (
        b"version = 2\n[[station]]\nmq = 2\n",
        "plan refused: 2 UnknownKey\n",
    ),
    // nine children over all stations
    (
        b"version = 3\n[[station]]\nmq = 8\n[[station]]\n",
        "plan refused: 5 Range\n",
    ),
    (
        b"version = 3\n[[station]]\nmq = 2\nqueues = 2\n",
        "plan refused: 5 Range\n",
    ),
    // queues that are opened by time, or after so many packets, but not both; keys and words of version 4 alone
    (
        b"version = 4\nirq_us = 10\nirq_every = 10\n[[station]]\n",
        "plan refused: 5 Range\n",
    ),
    (
        b"version = 4\nirq_us = 1000001\n[[station]]\n",
        "plan refused: 5 Range\n",
    ),
    (
        b"version = 4\nirq_us = 0\n[[station]]\n",
        "plan refused: 5 Range\n",
    ),
    (
        b"version = 3\nirq_us = 10\n[[station]]\n",
        "plan refused: 2 UnknownKey\n",
    ),
    (
        b"version = 3\nspread = \"flow\"\n[[station]]\n",
        "plan refused: 2 UnknownKey\n",
    ),
    (
        b"version = 3\nsplit = \"flow\"\n[[station]]\n",
        "plan refused: 5 Range\n",
    ),
    // the device of a child is swapped
    (
        b"version = 3\n[[station]]\nmq = 2\n[[event]]\nbefore = 0\nkind = \"swap\"\nstation = 0\n",
        "plan refused: 5 Range\n",
    ),
    (
        b"[[station]]\n[[event]]\nbefore = 0\nkind = \"up\"\nstation = 0\n",
        "plan refused: 6 EventOrder\n",
    ),
    // odd input: a byte that isn't UTF-8, keys at the wrong place, and values of another kind or out of range, with others beside them
    // that are wrong for a later reason
    (b"\xff", "plan refused: 1 NotToml\n"),
    (
        b"[[station]]\nlen = \"a\"\nfoo = 1\n",
        "plan refused: 2 UnknownKey\n",
    ),
    (
        b"[[station]]\n[[event]]\nbefore = 0\nkind = \"down\"\nstation = 0\nlen = 3\n",
        "plan refused: 2 UnknownKey\n",
    ),
    (b"[[event]]\nbefore = 0\n", "plan refused: 3 Missing\n"),
    (b"station = 5\n", "plan refused: 4 Kind\n"),
    (b"station = []\n", "plan refused: 5 Range\n"),
    (b"version = 6\n[[station]]\n", "plan refused: 5 Range\n"),
    (b"[[station]]\nmax_len = 10\n", "plan refused: 5 Range\n"),
    (
        b"[[station]]\n[[event]]\nbefore = 0\nkind = \"sway\"\nstation = 0\nlen = 1\n",
        "plan refused: 5 Range\n",
    ),
    (
        b"[[station]]\n[[event]]\nbefore = 2\nkind = \"down\"\nstation = 0\n[[event]]\nbefore = 1\nkind = \"up\"\nstation = 0\n",
        "plan refused: 6 EventOrder\n",
    ),
    // no line of TOML, but too long
    (&[b'='; 65_537], "plan refused: 8 TooLong\n"),
    (&[0xff; 65_537], "plan refused: 8 TooLong\n"),
];

#[test]
fn refuses_plans_with_the_least_reason(rt: HostRuntime) -> Result<(), Fail> {
    let alloc = rt.alloc();
    let on = unheld(&rt, alloc);
    for &(plan, line) in &PLANS {
        let mut host = host_of(alloc, plan, b"no capture")?;
        let status = call(&on, &RUN, &mut host)?;
        check_refused(&host, status, 3, line)?;
    }
    Ok(())
}

/// Eight stations, and a swap.
const SWAPPED: &[u8] =
    b"[[station]]\n[[station]]\n[[station]]\n[[station]]\n[[station]]\n[[station]]\n[[station]]\n[[station]]\n[[event]]\nbefore = 0\nkind = \"swap\"\nstation = 0\n";

/// Two children and a station whose device is swapped.
const GROUPED: &[u8] =
    b"version = 3\n[[station]]\nmq = 2\n[[station]]\n[[event]]\nbefore = 0\nkind = \"swap\"\nstation = 1\n";

/// Plans that need more units than the bench has, and how many that has. The capture isn't opened: it isn't there.
const SHORT: [(&[u8], usize, &str); 4] = [
    (EIGHT_STATIONS, 7, "bench refused: needs 8 units, has 7\n"),
    (SWAPPED, 8, "bench refused: needs 9 units, has 8\n"),
    (GROUPED, 3, "bench refused: needs 4 units, has 3\n"),
    (PLAN, 0, "bench refused: needs 1 units, has 0\n"),
];

#[test]
fn refuses_plans_that_need_more_units(rt: HostRuntime) -> Result<(), Fail> {
    let alloc = rt.alloc();
    let on = unheld(&rt, alloc);
    for &(plan, devices, line) in &SHORT {
        let mut host = MemHost::new(alloc);
        host.put_file("p", plan)?;
        let status = call_on(&on, &RUN, &mut host, devices)?;
        check_refused(&host, status, 3, line)?;
    }
    Ok(())
}

/// The capture is refused for this reason.
fn refused_capture<R: Threads + Wait + Sync>(
    on: &Resources<'_, R, Free>,
    capture: &[u8],
    why: &str,
) -> Result<(), Fail> {
    let alloc = on.alloc;
    let mut host = host_with(alloc, capture)?;
    let status = call(on, &RUN, &mut host)?;
    let line = format!(in alloc; "capture refused: {why}\n")?;
    check_refused(&host, status, 4, line.as_str())
}

/// A header, changed at some places, and why it is refused.
const HEADERS: [(&[(usize, u8)], &str); 2] = [
    (&[(4, 3)], "3 Version at 4"),
    (
        &[(0, 0x1f), (1, 0x8b), (2, 8), (3, 0), (4, 3)],
        "2 Magic at 0",
    ),
];

fn header_with(changes: &[(usize, u8)]) -> [u8; 24] {
    let mut header = HEADER;
    for (place, byte) in changes {
        if *place < 24 {
            header[*place] = *byte;
        }
    }
    header
}

#[test]
fn refuses_captures_with_their_place(rt: HostRuntime) -> Result<(), Fail> {
    let alloc = rt.alloc();
    let on = unheld(&rt, alloc);
    for &(changes, why) in &HEADERS {
        refused_capture(&on, &header_with(changes), why)?;
    }
    let mut long = HEADER.to_vec(alloc)?;
    long.extend_from_slice(&[0, 0, 0, 0, 0, 0, 0, 0, 1, 0, 4, 0, 1, 0, 4, 0])?;
    refused_capture(&on, &long, "5 LongRecord at 24")
}

/// What a capture of three frames gives that is cut to lengths from the first to the second: how many packets, or
/// why it is refused, where a short header is refused at its length.
const CUTS: [(usize, usize, Result<u32, &str>); 11] = [
    (0, 23, Err("1 ShortHeader")),
    (24, 24, Ok(0)),
    (25, 39, Err("4 CutRecordHeader at 24")),
    (40, 73, Err("6 CutData at 24")),
    (74, 74, Ok(1)),
    (75, 89, Err("4 CutRecordHeader at 74")),
    (90, 123, Err("6 CutData at 74")),
    (124, 124, Ok(2)),
    (125, 139, Err("4 CutRecordHeader at 124")),
    (140, 173, Err("6 CutData at 124")),
    (174, 174, Ok(3)),
];

/// So many packets are sent, and the capture is written again.
fn sent_again<R: Threads + Wait + Sync>(
    on: &Resources<'_, R, Free>,
    capture: &[u8],
    count: u32,
) -> Result<(), Fail> {
    let alloc = on.alloc;
    let mut host = host_with(alloc, capture)?;
    let status = call(on, &RUN, &mut host)?;
    let output = format!(in alloc;
        "unit 0 sent {count}\nstation 0 full 0 shrunk 0 purged 0 refused 0\ntotal {count} sent {count} full 0 shrunk 0 purged 0 refused 0\n"
    )?;
    let told = status == Status::Done && host.output() == output.as_bytes();
    if told && host.file("o.0.pcap") == Some(capture) {
        return Ok(());
    }
    Err(Fail::new(format_args!("{count} packets not written again")))
}

fn check_cut<R: Threads + Wait + Sync>(
    on: &Resources<'_, R, Free>,
    capture: &[u8],
    given: Result<u32, &str>,
) -> Result<(), Fail> {
    let len = capture.len();
    match given {
        Ok(count) => sent_again(on, capture, count),
        Err(why) if len < HEADER.len() => {
            let why = format!(in on.alloc; "{why} at {len}")?;
            refused_capture(on, capture, why.as_str())
        }
        Err(why) => refused_capture(on, capture, why),
    }
}

#[test]
fn answers_each_cut_of_a_capture(rt: HostRuntime) -> Result<(), Fail> {
    let alloc = rt.alloc();
    let on = unheld(&rt, alloc);
    let three = three_frames(alloc)?;
    let mut lengths = 0u32;
    for &(first, last, given) in &CUTS {
        for len in first..last + 1 {
            check_cut(&on, three.get(..len).ok_or("short")?, given)?;
            lengths = lengths.wrapping_add(1);
        }
    }
    assert_eq!(rt; lengths, 175);
    Ok(())
}
