//! When the gate is passed: a gate that looks at what the device has accepted.
use lq_device::{BenchDevice, NoMemory, Params, Tx, TxDevice};
use lq_test_fixture::{RUN, host_with, three_frames};
use lq_top::{Gate, Status, lqtx};
use std::sync::atomic::{AtomicU64, Ordering};
use std::test::Fail;

/// A device of the built-in bench that counts its accepted packets where a gate sees it.
#[derive(Drop)]
struct Counted<'a> {
    device: BenchDevice,
    accepted: &'a AtomicU64,
}

impl<'a> TxDevice for Counted<'a> {
    ghost use Rattle.lq_device.specs.Bench.{bench_state};

    ghost state = { λ d. bench_state d.device };

    fn configure(&mut self, params: &Params, room: usize) -> Result<(), NoMemory> {
        self.device.configure(params, room)
    }

    fn xmit(&mut self, queue: u32, packet: u32) -> Tx {
        let answer = self.device.xmit(queue, packet);
        match answer {
            Tx::Sent | Tx::SentStop | Tx::SentHang => {
                self.accepted.fetch_add(1, Ordering::SeqCst);
            }
            Tx::Busy => {}
        }
        answer
    }

    fn hung(&self) -> bool {
        self.device.hung()
    }
}

/// A gate that counts the passes at which the device hasn't accepted just the packets before.
#[derive(Drop)]
struct Watch<'a> {
    accepted: &'a AtomicU64,
    wrong: AtomicU64,
}

impl<'a> Gate for Watch<'a> {
    fn pass(&self, _sender: u32, k: u32) {
        if self.accepted.load(Ordering::SeqCst) != k as u64 {
            self.wrong.fetch_add(1, Ordering::SeqCst);
        }
    }
}

#[test]
fn is_passed_while_the_packet_is_still_to_come(rt: HostRuntime) -> Result<(), Fail> {
    let alloc = rt.alloc();
    let capture = three_frames(alloc)?;
    let mut host = host_with(alloc, &capture)?;
    let accepted = AtomicU64::new(0);
    let gate = Watch {
        accepted: &accepted,
        wrong: AtomicU64::new(0),
    };
    let mut bench = vec![in alloc;
        Counted {
            device: BenchDevice::new(alloc),
            accepted: &accepted,
        },
    ]?;
    let mut ended = Vec::new(alloc);
    let status = lqtx(&rt, alloc, &RUN, &mut host, &mut bench, &mut ended, &gate);
    assert_eq!(rt; status, Status::Done);
    assert_eq!(rt; accepted.load(Ordering::SeqCst), 3);
    assert_eq!(rt; gate.wrong.load(Ordering::SeqCst), 0);
    Ok(())
}
