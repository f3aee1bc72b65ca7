//! The atomic steps themselves, on a word of a table of which nothing is known.
ghost use Rattle.std.specs.Prelude.{◌<◌, All, IfOk, OnOk};
ghost use Rattle.lq_bench.specs.Words.{IsStepperAt};

use crate::table::{Measured, show};
use atomic_table::{Play, Seat, Shared, Split, Table, TableRule};
use std::alloc::{AllocError, Global};
use std::marker::Sync;
use std::rt::{Clock, Runtime};
use std::thread::Threads;
use std::time::{Duration, Instant};
use std::{io, thread};

/// Every table is allowed.
pub struct AnyTable;

impl TableRule<(), (), ()> for AnyTable {
    ghost holds = { λ _ _. Unit };

    ghost first = { λ _. tt };
}

/// A step that tells nothing.
pub struct Anything;

impl Play<(), ()> for Anything {
    ghost then = { λ _ _ _ _. Unit };
}

/// A seat of which nothing is known gives another such.
pub struct Another;

impl Split<()> for Another {
    ghost left = { λ v. v };

    ghost right = { λ v. v };
}

type Word = Shared<(), (), (), AnyTable>;

/// A seat of which nothing is known.
#[derive(Drop)]
struct Stepper {
    seat: Seat<(), ()>,
}

/// An atomic step on a word.
#[derive(Clone, Copy, Drop)]
pub enum Operation {
    Load,
    Store,
    Exchange,
    CompareExchange,
    Add,
    Subtract,
    And,
    Or,
}

impl Operation {
    /// What is printed of it.
    pub fn name(self) -> &'static str {
        match self {
            Operation::Load => "a load of a word",
            Operation::Store => "a store into a word",
            Operation::Exchange => "an exchange of a word",
            Operation::CompareExchange => "a compare-and-exchange of a word",
            Operation::Add => "an add to a word",
            Operation::Subtract => "a subtract from a word",
            Operation::And => "an and on a word",
            Operation::Or => "an or on a word",
        }
    }
}

/// One step of this kind.
fn step(operation: Operation, table: &Word, stepper: &mut Stepper)
    requires at { IsStepperAt table.now stepper.old }
    ensures at { IsStepperAt table.now stepper.new }
{
    match operation {
        Operation::Load => {
            table.load::<Anything>(&mut stepper.seat, 0);
        }
        Operation::Store => table.store::<Anything>(&mut stepper.seat, 0, 0),
        Operation::Exchange => {
            table.swap::<Anything>(&mut stepper.seat, 0, 0);
        }
        Operation::CompareExchange => {
            table.compare_exchange::<Anything>(&mut stepper.seat, 0, 0, 0);
        }
        Operation::Add => {
            table.fetch_add::<Anything>(&mut stepper.seat, 0, 1);
        }
        Operation::Subtract => {
            table.fetch_sub::<Anything>(&mut stepper.seat, 0, 1);
        }
        Operation::And => {
            table.fetch_and::<Anything>(&mut stepper.seat, 0, 1);
        }
        Operation::Or => {
            table.fetch_or::<Anything>(&mut stepper.seat, 0, 1);
        }
    }
}

/// So many steps.
fn steps(operation: Operation, table: &Word, stepper: &mut Stepper, count: u32)
    requires at { IsStepperAt table.now stepper.old }
    ensures at { IsStepperAt table.now stepper.new }
{
    for _ in 0..count {
        step(operation, table, stepper);
    }
}

/// Each seat makes so many steps, on a thread of its own.
fn side_by_side<R: Threads + Sync>(
    rt: &R,
    operation: Operation,
    table: &Word,
    steppers: &mut [Stepper],
    count: u32,
)
    requires at { All (λ s. IsStepperAt table.now s) steppers.old }
    ensures at { All (λ s. IsStepperAt table.now s) steppers.new }
{
    let threads = steppers.len();
    if threads > 0 {
        thread::for_each_mut(
            rt,
            steppers,
            threads,
            &|_, stepper: &mut Stepper|
                requires { IsStepperAt table.now stepper.old }
                ensures { IsStepperAt table.entry.now stepper.new }
            { steps(operation, table, stepper, count) },
        );
    }
}

/// How long that takes.
fn timed<R: Threads + Sync + Clock>(
    rt: &R,
    operation: Operation,
    table: &Word,
    steppers: &mut [Stepper],
    count: u32,
) -> io::Result<Duration>
    requires at { All (λ s. IsStepperAt table.now s) steppers.old }
    ensures at { All (λ s. IsStepperAt table.now s) steppers.new }
{
    let start = Instant::now(rt)?;
    side_by_side(rt, operation, table, steppers, count);
    start.elapsed(rt)
}

/// Each kind of step.
fn measure_each<R: Runtime + Threads + Sync>(
    rt: &R,
    table: &Word,
    steppers: &mut [Stepper],
    count: u32,
    shows: bool,
) -> io::Result<()>
    requires at { All (λ s. IsStepperAt table.now s) steppers.old }
    ensures { OnOk result (All (λ s. IsStepperAt table.now s) steppers.new) }
{
    for &operation in &[
        Operation::Load,
        Operation::Store,
        Operation::Exchange,
        Operation::CompareExchange,
        Operation::Add,
        Operation::Subtract,
        Operation::And,
        Operation::Or,
    ] {
        let time = timed(rt, operation, table, steppers, count)?;
        let measured = Measured {
            threads: steppers.len(),
            count,
            time,
        };
        show(rt, operation.name(), measured, shows)?;
    }
    Ok(())
}

/// A table of one word, and its first seat.
fn one_word(alloc: Global) -> Result<(Table<(), (), (), AnyTable, Global>, Stepper), AllocError>
    ensures { IfOk result (λ t. IsStepperAt t.0.shared t.1) }
{
    let (table, seat) = Table::of_words(alloc, &[0], &())?;
    Ok((table, Stepper { seat }))
}

/// The first seat, and so many that were split off it.
fn seats_of(
    alloc: Global,
    table: &Word,
    first: Stepper,
    others: u32,
) -> Result<Vec<Stepper>, AllocError>
    requires first { IsStepperAt table.now first }
    ensures { IfOk result (λ seats. All (λ s. IsStepperAt table.now s) seats.items) }
{
    let mut first = first;
    let mut seats = Vec::new(alloc);
    for _ in 0..others {
        let seat = table.split_seat::<Another>(&mut first.seat);
        seats.push(Stepper { seat }).map_err(|_| AllocError)?;
    }
    seats.push(first).map_err(|_| AllocError)?;
    Ok(seats)
}

/// Each kind of step by one thread and so many others.
fn measure_by<R: Runtime + AllocGlobal + Threads + Sync>(
    rt: &R,
    others: u32,
    count: u32,
    shows: bool,
) -> io::Result<()>
    requires few { others < 4 }
{
    let Ok((table, first)) = one_word(rt.alloc()) else {
        return Err(io::ErrorKind::OutOfMemory.into());
    };
    let Ok(mut seats) = seats_of(rt.alloc(), &table.shared, first, others) else {
        return Err(io::ErrorKind::OutOfMemory.into());
    };
    measure_each(rt, &table.shared, seats.as_mut_slice(), count, shows)
}

/// Each kind of step, alone and by four threads on the same word.
pub fn measure_words<R: Runtime + AllocGlobal + Threads + Sync>(
    rt: &R,
    count: u32,
    shows: bool,
) -> io::Result<()> {
    measure_by(rt, 0, count, shows)?;
    measure_by(rt, 3, count, shows)
}
