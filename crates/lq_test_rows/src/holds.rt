//! A gate that makes threads wait for each other.
use lq_top::Gate;
use std::alloc::{AllocError, Global};
use std::hint::spin_loop;
use std::sync::atomic::{AtomicBool, Ordering};

/// A wait gives up after so many turns: some seconds of a processor that many threads share, since the last of 64 threads that wait begins late.
const TURNS: u32 = 1_000_000_000;

/// A pass of the gate: of which sender, or of the reader, and its `k`.
pub type Pass = (u32, u32);

/// A pass, and another one that must have come before it goes on.
pub type Order = (Pass, Pass);

/// All senders meet before their first packets: each waits there for the next one, and the last for the first. Were two of them to go
/// one after the other, some sender would wait for one that begins when it has ended.
pub fn meeting(alloc: Global, senders: u32) -> Result<Vec<Order>, AllocError> {
    let mut orders = Vec::new(alloc);
    for sender in 1..senders {
        orders.push(((sender.wrapping_sub(1), 0), (sender, 0)))?;
    }
    orders.push(((senders.wrapping_sub(1), 0), (0, 0)))?;
    Ok(orders)
}

/// A pass that is held until another one has come.
#[derive(Drop)]
struct Hold {
    held: Pass,
    until: Pass,
    came: AtomicBool,
}

impl Hold {
    fn wait(&self, gave_up: &AtomicBool) {
        for _ in 0..TURNS {
            if self.came.load(Ordering::SeqCst) {
                return;
            }
            spin_loop();
        }
        gave_up.store(true, Ordering::SeqCst);
    }
}

/// A gate that holds passes, and tells whether one was held too long.
#[derive(Drop)]
pub struct Holds {
    holds: Vec<Hold>,
    gave_up: AtomicBool,
}

impl Holds {
    pub fn new(alloc: Global, orders: &[Order]) -> Result<Holds, AllocError> {
        let mut holds = Vec::new(alloc);
        for (held, until) in orders {
            holds.push(Hold {
                held: *held,
                until: *until,
                came: AtomicBool::new(false),
            })?;
        }
        Ok(Holds {
            holds,
            gave_up: AtomicBool::new(false),
        })
    }

    pub fn gave_up(&self) -> bool {
        self.gave_up.load(Ordering::SeqCst)
    }
}

impl Gate for Holds {
    fn pass(&self, sender: u32, k: u32) {
        for hold in self.holds.iter() {
            if hold.until == (sender, k) {
                hold.came.store(true, Ordering::SeqCst);
            }
        }
        for hold in self.holds.iter() {
            if hold.held == (sender, k) {
                hold.wait(&self.gave_up);
            }
        }
    }
}
