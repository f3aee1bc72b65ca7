//! A call that is done, and what it must have left.
use lq_host::MemHost;
use lq_test_fixture::{RUN, call, host_of};
use lq_top::{Gate, Resources, Status};
use std::marker::Sync;
use std::sync::Wait;
use std::test::Fail;
use std::thread::Threads;

/// What a call left that is done.
#[derive(Drop)]
pub struct Done<'a> {
    /// Which row it is of, for the message where something else was left.
    row: &'a str,
    pub host: MemHost,
}

impl<'a> Done<'a> {
    /// The file is there, with these bytes.
    pub fn has_file(&self, name: &str, bytes: &[u8]) -> Result<(), Fail> {
        if self.host.file(name) == Some(bytes) {
            return Ok(());
        }
        let row = self.row;
        Err(Fail::new(format_args!("no {name}, or another one: {row}")))
    }

    pub fn has_no_file(&self, name: &str) -> Result<(), Fail> {
        if self.host.file(name).is_none() {
            return Ok(());
        }
        let row = self.row;
        Err(Fail::new(format_args!("a file {name}: {row}")))
    }

    /// These bytes were written to standard output.
    pub fn told(&self, output: &[u8]) -> Result<(), Fail> {
        if self.host.output() == output {
            return Ok(());
        }
        let row = self.row;
        Err(Fail::new(format_args!("another output: {row}")))
    }
}

/// Calls the program with these words, for a row, on a bench of as many devices as the program has.
pub fn call_done<'a, R: Threads + Wait + Sync, G: Gate>(
    on: &Resources<'_, R, G>,
    row: &'a str,
    words: &[&str],
    mut host: MemHost,
) -> Result<Done<'a>, Fail> {
    let status = call(on, words, &mut host)?;
    if status == Status::Done {
        return Ok(Done { row, host });
    }
    Err(Fail::new(format_args!("{status:?}: {row}")))
}

/// Runs a capture under a plan.
pub fn run<'a, R: Threads + Wait + Sync, G: Gate>(
    on: &Resources<'_, R, G>,
    plan: &'a str,
    capture: &[u8],
) -> Result<Done<'a>, Fail> {
    let host = host_of(on.alloc, plan.as_bytes(), capture)?;
    call_done(on, plan, &RUN, host)
}
