//! Devices that are swapped under load: eight senders over one station, whose device is swapped twice.
use lq_device::{BenchDevice, NoMemory, Params, Tx, TxDevice};
use lq_pcap::gen_capture;
use lq_test_fixture::{RUN, check_run, host_of};
use lq_top::{Free, Status, lqtx};
use std::alloc::{AllocError, Global};
use std::sync::atomic::{AtomicU32, Ordering};
use std::test::Fail;

const PACKETS: u32 = 100_000;

const PLAN: &[u8] =
    b"senders = 8\n[[station]]\nburst = 7\n[[event]]\nbefore = 30000\nkind = \"swap\"\nstation = 0\n[[event]]\nbefore = 60000\nkind = \"swap\"\nstation = 0\n";

/// A device of the built-in bench whose drops are counted.
struct Counted<'a> {
    device: BenchDevice,
    drops: &'a AtomicU32,
}

impl<'a> Drop for Counted<'a> {
    fn drop(self) {
        let Counted { device: _, drops } = self;
        drops.fetch_add(1, Ordering::SeqCst);
    }
}

impl<'a> TxDevice for Counted<'a> {
    ghost use Rattle.lq_device.specs.Bench.{bench_state};

    ghost state = { λ d. bench_state d.device };

    fn configure(&mut self, params: &Params, room: usize) -> Result<(), NoMemory> {
        self.device.configure(params, room)
    }

    fn xmit(&mut self, queue: u32, packet: u32) -> Tx {
        self.device.xmit(queue, packet)
    }

    fn hung(&self) -> bool {
        self.device.hung()
    }
}

fn bench_of(alloc: Global, drops: &AtomicU32) -> Result<Vec<Counted<'_>>, AllocError> {
    let mut bench = Vec::new(alloc);
    for _ in 0..3 {
        bench.push(Counted {
            device: BenchDevice::new(alloc),
            drops,
        })?;
    }
    Ok(bench)
}

/// No device is dropped while they are swapped, and each once with the bench.
#[test]
fn swaps_devices_under_load(rt: HostRuntime) -> Result<(), Fail> {
    let alloc = rt.alloc();
    let capture = gen_capture(alloc, 2, PACKETS)?;
    let mut host = host_of(alloc, PLAN, &capture)?;
    let drops = AtomicU32::new(0);
    let mut bench = bench_of(alloc, &drops)?;
    let mut ended = Vec::new(alloc);
    let status = lqtx(&rt, alloc, &RUN, &mut host, &mut bench, &mut ended, &Free);
    assert_eq!(rt; status, Status::Done);
    assert_eq!(rt; drops.load(Ordering::SeqCst), 0);
    drop(bench);
    assert_eq!(rt; drops.load(Ordering::SeqCst), 3);
    check_run(&rt, alloc, &host, PLAN, &capture)?;
    Ok(())
}
