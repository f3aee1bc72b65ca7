//! Runs of one sender: the files and the output of each, over captures of both formats.
use crate::done::{Done, run};
use crate::pcapng::section_of;
use lq_test_fixture::{capture_of, records_of, unheld};
use lq_top::{Free, Resources};
use std::alloc::Global;
use std::marker::Sync;
use std::sync::Wait;
use std::test::Fail;
use std::thread::Threads;

/// A frame by its type of service, which chooses the band, and the lowest bytes of its source and destination, which choose the queue
/// and the station.
type Frame = (u8, u8, u8);

const BAND_0: Frame = (0x10, 1, 0);

const BAND_1: Frame = (0, 1, 0);

const BAND_2: Frame = (8, 1, 0);

/// A run, and what it leaves.
struct Row {
    plan: &'static str,
    frames: &'static [Frame],
    fates: &'static str,
    /// The captures that it writes, each with its packets in their order.
    captures: &'static [(&'static str, &'static [usize])],
    /// A capture that it doesn't write.
    none: &'static str,
    output: &'static str,
}

/// The output where the device is swapped.
const SWAPPED: &str =
    "unit 0 sent 1\nunit 1 sent 2\nstation 0 full 0 shrunk 0 purged 1 refused 0\ntotal 4 sent 3 full 0 shrunk 0 purged 1 refused 0\n";

const ROWS: [Row; 20] = [
    // every packet goes past the rings
    Row {
        plan: "[[station]]\n",
        frames: &[BAND_1, BAND_0, BAND_2],
        fates: "0 sent 0 0\n1 sent 0 1\n2 sent 0 2\n",
        captures: &[("o.0.pcap", &[0, 1, 2])],
        none: "o.1.pcap",
        output: "unit 0 sent 3\nstation 0 full 0 shrunk 0 purged 0 refused 0\ntotal 3 sent 3 full 0 shrunk 0 purged 0 refused 0\n",
    },
    Row {
        plan: "[[station]]\n",
        frames: &[],
        fates: "",
        captures: &[("o.0.pcap", &[])],
        none: "o.1.pcap",
        output: "unit 0 sent 0\nstation 0 full 0 shrunk 0 purged 0 refused 0\ntotal 0 sent 0 full 0 shrunk 0 purged 0 refused 0\n",
    },
    // a stopped queue requeues
    Row {
        plan: "irq_every = 4\n[[station]]\nburst = 1\n",
        frames: &[BAND_1, BAND_2, BAND_1, BAND_0],
        fates: "0 sent 0 0\n1 sent 0 1\n2 sent 0 3\n3 sent 0 2\n",
        captures: &[("o.0.pcap", &[0, 1, 3, 2])],
        none: "o.1.pcap",
        output: "unit 0 sent 4\nstation 0 full 0 shrunk 0 purged 0 refused 0\ntotal 4 sent 4 full 0 shrunk 0 purged 0 refused 0\n",
    },
    // without the bypass nothing does
    Row {
        plan: "irq_every = 4\n[[station]]\nburst = 1\nbypass = false\n",
        frames: &[BAND_1, BAND_2, BAND_1, BAND_0],
        fates: "0 sent 0 0\n1 sent 0 3\n2 sent 0 2\n3 sent 0 1\n",
        captures: &[("o.0.pcap", &[0, 3, 2, 1])],
        none: "o.1.pcap",
        output: "unit 0 sent 4\nstation 0 full 0 shrunk 0 purged 0 refused 0\ntotal 4 sent 4 full 0 shrunk 0 purged 0 refused 0\n",
    },
    // a busy device is offered the packet again
    Row {
        plan: "[[station]]\nbusy_every = 2\nbusy_limit = 3\n",
        frames: &[BAND_1; 5],
        fates: "0 sent 0 0\n1 sent 0 1\n2 sent 0 2\n3 sent 0 3\n4 sent 0 4\n",
        captures: &[("o.0.pcap", &[0, 1, 2, 3, 4])],
        none: "o.1.pcap",
        output: "unit 0 sent 5\nstation 0 full 0 shrunk 0 purged 0 refused 0\ntotal 5 sent 5 full 0 shrunk 0 purged 0 refused 0\n",
    },
    // what a device that hangs leaves is purged
    Row {
        plan: "[[station]]\nhang_after = 2\n",
        frames: &[BAND_1; 5],
        fates: "0 sent 0 0\n1 sent 0 1\n2 purged hung\n3 purged hung\n4 purged hung\n",
        captures: &[("o.0.pcap", &[0, 1])],
        none: "o.1.pcap",
        output: "unit 0 sent 2\nstation 0 full 0 shrunk 0 purged 3 refused 0\ntotal 5 sent 2 full 0 shrunk 0 purged 3 refused 0\n",
    },
    // the packet that a full ring names is the one in its slot
    Row {
        plan: "irq_every = 1000\n[[station]]\nlen = 1\nburst = 1\n",
        frames: &[BAND_1; 4],
        fates: "0 sent 0 0\n1 sent 0 1\n2 sent 0 2\n3 full 2\n",
        captures: &[("o.0.pcap", &[0, 1, 2])],
        none: "o.1.pcap",
        output: "unit 0 sent 3\nstation 0 full 1 shrunk 0 purged 0 refused 0\ntotal 4 sent 3 full 1 shrunk 0 purged 0 refused 0\n",
    },
    // a device is busy a thousand times
    Row {
        plan: "[[station]]\nbusy_every = 1\nbusy_limit = 1000\n",
        frames: &[BAND_1; 3],
        fates: "0 sent 0 0\n1 sent 0 1\n2 sent 0 2\n",
        captures: &[("o.0.pcap", &[0, 1, 2])],
        none: "o.1.pcap",
        output: "unit 0 sent 3\nstation 0 full 0 shrunk 0 purged 0 refused 0\ntotal 3 sent 3 full 0 shrunk 0 purged 0 refused 0\n",
    },
    // packet 0 is sent, 1 requeued, and 2 to 6 are held when the ring is shortened
    Row {
        plan: "irq_every = 1000\n[[station]]\nlen = 8\nburst = 1\n[[event]]\nbefore = 7\nkind = \"resize\"\nstation = 0\nlen = 3\n",
        frames: &[BAND_1; 8],
        fates: "0 sent 0 0\n1 sent 0 1\n2 sent 0 2\n3 sent 0 3\n4 sent 0 4\n5 shrunk 0\n6 shrunk 0\n7 full 2\n",
        captures: &[("o.0.pcap", &[0, 1, 2, 3, 4])],
        none: "o.1.pcap",
        output: "unit 0 sent 5\nstation 0 full 1 shrunk 2 purged 0 refused 0\ntotal 8 sent 5 full 1 shrunk 2 purged 0 refused 0\n",
    },
    // the ring has wrapped when it is shortened: of packets 6 to 8 it keeps the first two
    Row {
        plan: "irq_every = 2\n[[station]]\nlen = 4\nburst = 1\n[[event]]\nbefore = 10\nkind = \"resize\"\nstation = 0\nlen = 2\n",
        frames: &[BAND_1; 14],
        fates: "0 sent 0 0\n1 sent 0 1\n2 sent 0 2\n3 sent 0 3\n4 sent 0 4\n5 sent 0 5\n6 sent 0 6\n7 sent 0 7\n8 shrunk 0\n9 full 5\n10 full 6\n11 full 6\n12 sent 0 8\n13 full 7\n",
        captures: &[("o.0.pcap", &[0, 1, 2, 3, 4, 5, 6, 7, 12])],
        none: "o.1.pcap",
        output: "unit 0 sent 9\nstation 0 full 4 shrunk 1 purged 0 refused 0\ntotal 14 sent 9 full 4 shrunk 1 purged 0 refused 0\n",
    },
    // while the station is deactivated packets are refused
    Row {
        plan: "[[station]]\n[[event]]\nbefore = 0\nkind = \"down\"\nstation = 0\n[[event]]\nbefore = 2\nkind = \"up\"\nstation = 0\n",
        frames: &[BAND_1; 4],
        fates: "0 refused 0\n1 refused 0\n2 sent 0 0\n3 sent 0 1\n",
        captures: &[("o.0.pcap", &[2, 3])],
        none: "o.1.pcap",
        output: "unit 0 sent 2\nstation 0 full 0 shrunk 0 purged 0 refused 2\ntotal 4 sent 2 full 0 shrunk 0 purged 0 refused 2\n",
    },
    // a deactivation purges what is held
    Row {
        plan: "irq_every = 1000\n[[station]]\nburst = 1\n[[event]]\nbefore = 3\nkind = \"down\"\nstation = 0\n",
        frames: &[BAND_1; 4],
        fates: "0 sent 0 0\n1 purged 0\n2 purged 0\n3 refused 0\n",
        captures: &[("o.0.pcap", &[0])],
        none: "o.1.pcap",
        output: "unit 0 sent 1\nstation 0 full 0 shrunk 0 purged 2 refused 1\ntotal 4 sent 1 full 0 shrunk 0 purged 2 refused 1\n",
    },
    // a change of the queue length purges packets 1 and 2; the queue stays stopped
    Row {
        plan: "irq_every = 1000\n[[station]]\nlen = 8\nburst = 1\n[[event]]\nbefore = 3\nkind = \"tx_queue_len\"\nstation = 0\nlen = 2\n",
        frames: &[BAND_1; 7],
        fates: "0 sent 0 0\n1 purged 0\n2 purged 0\n3 sent 0 1\n4 sent 0 2\n5 sent 0 3\n6 full 4\n",
        captures: &[("o.0.pcap", &[0, 3, 4, 5])],
        none: "o.1.pcap",
        output: "unit 0 sent 4\nstation 0 full 1 shrunk 0 purged 2 refused 0\ntotal 7 sent 4 full 1 shrunk 0 purged 2 refused 0\n",
    },
    // Two queues share the rings of a station, and each second packet that the device accepts stops its own queue. Packet 3 waits in the
    // requeue slot for queue 0; 5 is requeued after the first wake, 7 after the second, and 4 is sent last.
    Row {
        plan: "version = 2\nirq_every = 1000\n[[station]]\nqueues = 2\nburst = 2\n",
        frames: &[
            (0, 0, 0),
            (0, 0, 0),
            (0, 1, 0),
            (0, 0, 0),
            (8, 1, 0),
            (0x10, 0, 0),
            (0x10, 1, 0),
            (0, 1, 0),
        ],
        fates: "0 sent 0 0\n1 sent 0 1\n2 sent 0 2\n3 sent 0 3\n4 sent 0 7\n5 sent 0 4\n6 sent 0 5\n7 sent 0 6\n",
        captures: &[("o.0.pcap", &[0, 1, 2, 3, 5, 6, 7, 4])],
        none: "o.1.pcap",
        output: "unit 0 sent 8\nstation 0 full 0 shrunk 0 purged 0 refused 0\ntotal 8 sent 8 full 0 shrunk 0 purged 0 refused 0\n",
    },
    // the device is swapped before packet 2: packet 1, which waits then, is purged, and the others go to the second unit
    Row {
        plan: "irq_every = 1000\n[[station]]\nburst = 1\n[[event]]\nbefore = 2\nkind = \"swap\"\nstation = 0\n",
        frames: &[BAND_1; 4],
        fates: "0 sent 0 0\n1 purged 0\n2 sent 1 0\n3 sent 1 1\n",
        captures: &[("o.0.pcap", &[0]), ("o.1.pcap", &[2, 3])],
        none: "o.2.pcap",
        output: SWAPPED,
    },
    Row {
        plan: "[[station]]\nhang_after = 1\n[[event]]\nbefore = 2\nkind = \"swap\"\nstation = 0\n",
        frames: &[BAND_1; 4],
        fates: "0 sent 0 0\n1 purged 0\n2 sent 1 0\n3 sent 1 1\n",
        captures: &[("o.0.pcap", &[0]), ("o.1.pcap", &[2, 3])],
        none: "o.2.pcap",
        output: SWAPPED,
    },
    // two stations, each with a device of its own: the destination byte chooses
    Row {
        plan: "[[station]]\n[[station]]\n",
        frames: &[(0, 1, 0), (0, 1, 1), (0, 1, 2)],
        fates: "0 sent 0 0\n1 sent 1 0\n2 sent 0 1\n",
        captures: &[("o.0.pcap", &[0, 2]), ("o.1.pcap", &[1])],
        none: "o.2.pcap",
        output: "unit 0 sent 2\nunit 1 sent 1\nstation 0 full 0 shrunk 0 purged 0 refused 0\nstation 1 full 0 shrunk 0 purged 0 refused 0\ntotal 3 sent 3 full 0 shrunk 0 purged 0 refused 0\n",
    },
    // the source byte chooses the child, which sends at once; at serial 0 the lower child stands first
    Row {
        plan: "version = 3\n[[station]]\nmq = 2\n",
        frames: &[(0, 1, 0), (0, 0, 0), (0, 3, 0)],
        fates: "0 sent 1 0\n1 sent 0 0\n2 sent 1 1\n",
        captures: &[
            ("o.0.pcap", &[1]),
            ("o.1.pcap", &[0, 2]),
            ("o.mq0.pcap", &[1, 0, 2]),
        ],
        none: "o.mq1.pcap",
        output: "unit 0 sent 1\nunit 1 sent 2\nstation 0 full 0 shrunk 0 purged 0 refused 0\nstation 1 full 0 shrunk 0 purged 0 refused 0\ntotal 3 sent 3 full 0 shrunk 0 purged 0 refused 0\nmq 0 queues 2 sent 3\n",
    },
    // an event is done to both children
    Row {
        plan: "version = 3\n[[station]]\nmq = 2\n[[event]]\nbefore = 2\nkind = \"down\"\nstation = 0\n",
        frames: &[(0, 1, 0), (0, 0, 0), (0, 3, 0)],
        fates: "0 sent 1 0\n1 sent 0 0\n2 refused 0\n",
        captures: &[
            ("o.0.pcap", &[1]),
            ("o.1.pcap", &[0]),
            ("o.mq0.pcap", &[1, 0]),
        ],
        none: "o.mq1.pcap",
        output: "unit 0 sent 1\nunit 1 sent 1\nstation 0 full 0 shrunk 0 purged 0 refused 0\nstation 1 full 0 shrunk 0 purged 0 refused 1\ntotal 3 sent 2 full 0 shrunk 0 purged 0 refused 1\nmq 0 queues 2 sent 2\n",
    },
    // two children and a station alone. The device of child 1 stops its queue at packet 1, so that packet 3 waits in the requeue slot, 4
    // in band 1 and 5 in band 0; child 0 goes on. At the end 3 and 5 are sent after the first wake, and 4 after the second.
    Row {
        plan: "version = 3\nirq_every = 1000\n[[station]]\nmq = 2\nburst = 2\n[[station]]\n",
        frames: &[
            (0, 1, 0),
            (0, 1, 0),
            (0, 0, 1),
            (0, 1, 0),
            (0, 1, 0),
            (0x10, 1, 0),
            (0, 0, 0),
        ],
        fates: "0 sent 1 0\n1 sent 1 1\n2 sent 2 0\n3 sent 1 2\n4 sent 1 4\n5 sent 1 3\n6 sent 0 0\n",
        captures: &[
            ("o.0.pcap", &[6]),
            ("o.1.pcap", &[0, 1, 3, 5, 4]),
            ("o.2.pcap", &[2]),
            ("o.mq0.pcap", &[6, 0, 1, 3, 5, 4]),
        ],
        none: "o.mq1.pcap",
        output: "unit 0 sent 1\nunit 1 sent 5\nunit 2 sent 1\nstation 0 full 0 shrunk 0 purged 0 refused 0\nstation 1 full 0 shrunk 0 purged 0 refused 0\nstation 2 full 0 shrunk 0 purged 0 refused 0\ntotal 7 sent 7 full 0 shrunk 0 purged 0 refused 0\nmq 0 queues 2 sent 6\n",
    },
];

#[derive(Clone, Copy)]
enum Format {
    Classic,
    Pcapng,
}

/// The capture with these of some frames.
fn packets_of(
    alloc: Global,
    format: Format,
    frames: &[Frame],
    packets: &[usize],
) -> Result<Vec<u8>, Fail> {
    match format {
        Format::Classic => records_of(alloc, &capture_of(alloc, frames)?, packets),
        Format::Pcapng => section_of(alloc, frames, packets),
    }
}

/// The capture with all of them.
fn whole_capture(alloc: Global, format: Format, frames: &[Frame]) -> Result<Vec<u8>, Fail> {
    let all = (0..frames.len()).collect::<Vec<usize>>(alloc)?;
    packets_of(alloc, format, frames, &all)
}

fn check_captures(alloc: Global, done: &Done<'_>, row: &Row, format: Format) -> Result<(), Fail> {
    for (name, packets) in row.captures {
        let sent = packets_of(alloc, format, row.frames, packets)?;
        done.has_file(name, &sent)?;
    }
    done.has_no_file(row.none)
}

fn check_row<R: Threads + Wait + Sync>(
    on: &Resources<'_, R, Free>,
    row: &Row,
    format: Format,
) -> Result<(), Fail> {
    let alloc = on.alloc;
    let capture = whole_capture(alloc, format, row.frames)?;
    let done = run(on, row.plan, &capture)?;
    done.has_file("o.fates", row.fates.as_bytes())?;
    done.told(row.output.as_bytes())?;
    check_captures(alloc, &done, row, format)
}

#[test]
fn leaves_what_each_row_says(rt: HostRuntime) -> Result<(), Fail> {
    let on = unheld(&rt, rt.alloc());
    for row in &ROWS {
        check_row(&on, row, Format::Classic)?;
        check_row(&on, row, Format::Pcapng)?;
    }
    Ok(())
}
