//! What atomic steps, the calls of the shared table and the transmits of packets cost, on one thread and on four at once. With no word the
//! loops are short and no time is printed; `lq_bench COUNT` makes COUNT rounds of each kind, or as many as there are packets,
//! and prints nanoseconds a round.
#![tactic(auto)]

mod four;
mod holding;
mod kind;
mod packets;
mod path;
mod paths;
mod rounds;
mod senders;
mod table;
mod timing;
mod words;

use crate::paths::measure_paths;
use crate::table::measure_all;
use crate::words::measure_words;
use std::marker::Sync;
use std::process::ExitCode;
use std::rt::Runtime;
use std::sync::Wait;
use std::thread::Threads;
use std::{env, io};

/// How many rounds there are where no word says so.
const FEW: u32 = 100;

/// The count that the first word names, if there is one.
fn count_of(rt: &HostRuntime) -> Option<u32> {
    let Ok(mut words) = env::args(rt) else {
        return None;
    };
    let word = words.nth(1)?;
    word.parse::<u32>().ok()
}

/// The atomic steps themselves, the calls of the table, and then the transmits.
fn measure<R: Runtime + AllocGlobal + Wait + Threads + Sync>(
    rt: &R,
    count: u32,
    shows: bool,
) -> io::Result<()> {
    measure_words(rt, count, shows)?;
    measure_all(rt, count, shows)?;
    measure_paths(rt, count, shows)
}

fn main(rt: HostRuntime) -> ExitCode {
    let told = count_of(&rt);
    let done = match told {
        Some(count) => measure(&rt, count, true),
        None => measure(&rt, FEW, false),
    };
    if done.is_ok() {
        ExitCode::SUCCESS
    } else {
        ExitCode::FAILURE
    }
}
