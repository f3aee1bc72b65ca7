//! That two senders are under way at once, which no contract can say: a device holds its first packet until the other sender's
//! transmit has returned.
use lq_device::{BenchDevice, NoMemory, Params, Tx, TxDevice};
use lq_test_fixture::{RUN, capture_of, host_of};
use lq_top::{Gate, Status, lqtx};
use std::hint::spin_loop;
use std::sync::atomic::{AtomicBool, Ordering};
use std::test::Fail;

/// A wait gives up after so many turns.
const TURNS: u32 = 20_000_000;

/// What the device and the gate tell each other.
#[derive(Drop)]
struct Flags {
    /// The device has packet 0.
    held: AtomicBool,
    /// The other sender's transmit has returned.
    returned: AtomicBool,
    /// A wait gave up.
    gave_up: AtomicBool,
}

impl Flags {
    /// Waits until the flag is set.
    fn wait_for(&self, flag: &AtomicBool) {
        for _ in 0..TURNS {
            if flag.load(Ordering::SeqCst) {
                return;
            }
            spin_loop();
        }
        self.gave_up.store(true, Ordering::SeqCst);
    }
}

/// A device of the built-in bench that holds packet 0 until the other sender's transmit has returned.
#[derive(Drop)]
struct Holding<'a> {
    device: BenchDevice,
    flags: &'a Flags,
}

impl<'a> TxDevice for Holding<'a> {
    ghost use Rattle.lq_device.specs.Bench.{bench_state};

    ghost state = { λ d. bench_state d.device };

    fn configure(&mut self, params: &Params, room: usize) -> Result<(), NoMemory> {
        self.device.configure(params, room)
    }

    fn xmit(&mut self, queue: u32, packet: u32) -> Tx {
        if packet == 0 {
            self.flags.held.store(true, Ordering::SeqCst);
            self.flags.wait_for(&self.flags.returned);
        }
        self.device.xmit(queue, packet)
    }

    fn hung(&self) -> bool {
        self.device.hung()
    }
}

/// Holds the other sender until the device has packet 0, and tells that its transmit has returned.
#[derive(Drop)]
struct Beside<'a> {
    flags: &'a Flags,
}

impl<'a> Gate for Beside<'a> {
    fn pass(&self, sender: u32, k: u32) {
        match (sender, k) {
            (1, 0) => self.flags.wait_for(&self.flags.held),
            (1, 1) => self.flags.returned.store(true, Ordering::SeqCst),
            _ => {}
        }
    }
}

#[test]
fn transmits_while_another_sender_is_at_the_device(rt: HostRuntime) -> Result<(), Fail> {
    let alloc = rt.alloc();
    let capture = capture_of(alloc, &[(0, 1, 0), (0, 1, 0)])?;
    let plan = b"senders = 2\nirq_every = 1000\n[[station]]\n";
    let mut host = host_of(alloc, plan, &capture)?;
    let flags = Flags {
        held: AtomicBool::new(false),
        returned: AtomicBool::new(false),
        gave_up: AtomicBool::new(false),
    };
    let mut bench = vec![in alloc;
        Holding {
            device: BenchDevice::new(alloc),
            flags: &flags,
        },
    ]?;
    let mut ended = Vec::new(alloc);
    let gate = Beside { flags: &flags };
    let status = lqtx(&rt, alloc, &RUN, &mut host, &mut bench, &mut ended, &gate);
    assert_eq!(rt; status, Status::Done);
    assert!(rt; !flags.gave_up.load(Ordering::SeqCst));
    assert_eq!(rt;
        host.file("o.fates").ok_or("no fates")?,
        b"0 sent 0 0\n1 sent 0 1\n".as_slice()
    );
    Ok(())
}
