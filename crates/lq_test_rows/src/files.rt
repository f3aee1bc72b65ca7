//! Runs over real files.
use lq_device::BenchDevice;
use lq_host::{FileHost, Host, HostError};
use lq_pcap::{CaptureReason, gen_capture};
use lq_test_fixture::{PLAN, capture_of, records_of};
use lq_top::{Free, Status, lqtx};
use std::alloc::Global;
use std::fs;
use std::fs::OpenFile as _;
use std::marker::Sync;
use std::process::Abort;
use std::rt::Files;
use std::sync::Wait;
use std::test::Fail;
use std::thread::Threads;

/// A host that notes whether what was written last to standard output is this line.
#[derive(Drop)]
struct Listening<H: Host + Drop> {
    host: H,
    line: &'static [u8],
    heard: bool,
}

impl<H: Host + Drop> Host for Listening<H> {
    ghost state = { λ m. H.state m.host };

    ghost fault_count = { λ m. H.fault_count m.host };

    ghost may_open = { H.may_open };

    ghost may_create = { H.may_create };

    ghost output_is_open = { λ m. H.output_is_open m.host };

    fn open_read(&mut self, name: &str) -> Result<u32, HostError> {
        self.host.open_read(name)
    }

    fn create(&mut self, name: &str) -> Result<u32, HostError> {
        self.host.create(name)
    }

    fn read(&mut self, h: u32, buf: &mut [u8]) -> Result<usize, HostError> {
        self.host.read(h, buf)
    }

    fn write(&mut self, h: u32, bytes: &[u8]) -> Result<(), HostError> {
        if h == 0 {
            self.heard = bytes == self.line;
        }
        self.host.write(h, bytes)
    }

    fn finish(&mut self, h: u32) -> Result<(), HostError> {
        self.host.finish(h)
    }

    fn faults(&self) -> u64 {
        self.host.faults()
    }
}

/// One byte more than a capture may have, whatever the bytes are: these have no magic number either. The file has a length
/// and no bytes of its own, so that none of them are made or copied before they are read.
#[test]
#[tactic(auto, using(lq_test_fixture::proofs::NameLemmas::may_any))]
fn refuses_a_capture_that_is_too_long(rt: HostRuntime) -> Result<(), Fail> {
    let alloc = rt.alloc();
    let [plan, captured, first] = [
        "lq_test_rows_long/p",
        "lq_test_rows_long/c",
        "lq_test_rows_long/o.0.pcap",
    ];
    fs::create_dir_all(&rt, "lq_test_rows_long")?;
    fs::write(&rt, plan, PLAN)?;
    fs::create(&rt, captured)?.set_len(67_108_865)?;

    let mut host = Listening {
        host: FileHost::new(rt.clone()?),
        line: b"capture refused: 9 TooLong at 67108864\n",
        heard: false,
    };
    let mut bench = vec![in alloc; BenchDevice::new(alloc)]?;
    let words = ["run", plan, captured, "lq_test_rows_long/o"];
    let mut ended = Vec::new(alloc);
    let status = lqtx(&rt, alloc, &words, &mut host, &mut bench, &mut ended, &Free);
    let written = fs::metadata(&rt, first).is_ok();
    fs::remove_dir_all(&rt, "lq_test_rows_long")?;

    assert_eq!(rt;
        status,
        Status::Capture {
            reason: CaptureReason::TooLong,
            place: 67_108_864
        }
    );
    assert!(rt; host.heard);
    assert!(rt; !written);
    assert_eq!(rt; host.faults(), 0);
    Ok(())
}

/// A bench of so many devices.
fn devices(alloc: Global, count: usize) -> Result<Vec<BenchDevice>, Fail> {
    let mut bench = Vec::new(alloc);
    for _ in 0..count {
        bench.push(BenchDevice::new(alloc))?;
    }
    Ok(bench)
}

/// A real file has these bytes and no others; it is removed.
fn take_file<R: Files + AllocGlobal>(rt: &R, name: &str, bytes: &[u8]) -> Result<(), Fail> {
    let found = fs::read(rt, name)?;
    fs::remove_file(rt, name)?;
    if found.as_slice() == bytes {
        return Ok(());
    }
    Err(Fail::new(format_args!("another {name}")))
}

/// Calls the program over real files, on a bench of so many devices. It does all that it is told.
fn call_over_files<R: Abort + Threads + Wait + Sync>(
    rt: &R,
    alloc: Global,
    mut host: FileHost<HostRuntime>,
    words: &[&str],
    count: usize,
) -> Result<(), Fail> {
    let mut bench = devices(alloc, count)?;
    let mut ended = Vec::new(alloc);
    let status = lqtx(rt, alloc, words, &mut host, &mut bench, &mut ended, &Free);
    assert_eq!(rt; status, Status::Done);
    assert_eq!(rt; host.faults(), 0);
    Ok(())
}

/// A multi-queue root of two children, and a station alone: the source byte chooses the child.
const GROUP: &[u8] = b"version = 3\n[[station]]\nmq = 2\n[[station]]\n";

/// The outputs of a run under that plan, each with its packets in their order; those of the root stand by serial, and then by child.
const OUTPUTS: [(&str, &[usize]); 4] = [
    ("lq_test_rows_group/o.0.pcap", &[1]),
    ("lq_test_rows_group/o.1.pcap", &[0, 2]),
    ("lq_test_rows_group/o.2.pcap", &[3]),
    ("lq_test_rows_group/o.mq0.pcap", &[1, 0, 2]),
];

/// Plan and capture are read from real files, and the outputs are written to real files; one of them stood there before.
#[test]
fn a_root_over_real_files(rt: HostRuntime) -> Result<(), Fail> {
    let alloc = rt.alloc();
    let [plan, captured, first, fates] = [
        "lq_test_rows_group/p",
        "lq_test_rows_group/c",
        "lq_test_rows_group/o.0.pcap",
        "lq_test_rows_group/o.fates",
    ];
    let capture = capture_of(alloc, &[(0, 1, 0), (0, 0, 0), (0, 3, 0), (0, 0, 1)])?;
    fs::create_dir_all(&rt, "lq_test_rows_group")?;
    fs::write(&rt, plan, GROUP)?;
    fs::write(&rt, captured, &capture)?;
    fs::write(
        &rt,
        first,
        b"what stood there before, and is longer than what is written: it is to be gone, all of it",
    )?;
    let words = ["run", plan, captured, "lq_test_rows_group/o"];
    call_over_files(&rt, alloc, FileHost::new(rt.clone()?), &words, 3)?;
    for &(name, packets) in &OUTPUTS {
        take_file(&rt, name, &records_of(alloc, &capture, packets)?)?;
    }
    take_file(
        &rt,
        fates,
        b"0 sent 1 0\n1 sent 0 0\n2 sent 1 1\n3 sent 2 0\n",
    )?;
    take_file(&rt, plan, GROUP)?;
    take_file(&rt, captured, &capture)?;
    // nothing else was made
    fs::remove_dir(&rt, "lq_test_rows_group")?;
    Ok(())
}

#[test]
fn a_tap_over_real_files(rt: HostRuntime) -> Result<(), Fail> {
    let alloc = rt.alloc();
    let [captured, out, read, fates] = [
        "lq_test_rows_tap/c",
        "lq_test_rows_tap/t",
        "lq_test_rows_tap/t.pcap",
        "lq_test_rows_tap/t.fates",
    ];
    let capture = gen_capture(alloc, 1, 3)?;
    fs::create_dir_all(&rt, "lq_test_rows_tap")?;
    fs::write(&rt, captured, &capture)?;
    let words = ["tap", "1", "8", "4", captured, out];
    call_over_files(&rt, alloc, FileHost::new(rt.clone()?), &words, 0)?;
    take_file(&rt, read, &capture)?;
    take_file(&rt, fates, b"0 read 0\n1 read 1\n2 read 2\n")?;
    take_file(&rt, captured, &capture)?;
    fs::remove_dir(&rt, "lq_test_rows_tap")?;
    Ok(())
}
