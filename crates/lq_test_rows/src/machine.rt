//! The machine with two queues, and a seat that begins a call while it is in one.
ghost use Rattle.lq_run_core.specs.Numbered.{IsInRange};

use lq_run_core::{Answer, Machine, Position, Seat, Start};
use std::process::Abort;
use std::test::Fail;

fn begin(rt: &impl Abort, machine: &mut Machine, seat: u32, start: Start)
    requires { IsInRange start machine.old.machine }
{
    assert!(rt; seat < machine.seats());
    assert!(rt; machine.next() < 1000000);
    assert!(rt; machine.begin(seat, start));
}

fn answer(rt: &impl Abort, machine: &mut Machine, seat: u32, answer: Answer) {
    assert!(rt; seat < machine.seats());
    assert!(rt; machine.step(seat, answer));
}

fn steps(rt: &impl Abort, machine: &mut Machine, seat: u32, count: u32) {
    for _ in 0..count {
        answer(rt, machine, seat, Answer::Plain);
    }
}

// The state, the run lock, the greatest stop word, the calls inside, and how many packets are held, sent and full.
fn words(machine: &Machine) -> [u64; 7] {
    [
        machine.state(),
        machine.lock(),
        machine.xoff(),
        machine.inside(),
        machine.held(),
        machine.sent(),
        machine.full(),
    ]
}

// With two queues the stop word of one holds back its own packets, and a wake of the other leaves it.
#[test]
fn the_other_queue_stays_stopped(rt: HostRuntime) -> Result<(), Fail> {
    let mut machine = Machine::with_queues(rt.alloc(), 2, 4, false, 2)?;
    begin(&rt, &mut machine, 0, Start::SendOn { band: 1, queue: 1 });
    steps(&rt, &mut machine, 0, 7);
    answer(&rt, &mut machine, 0, Answer::Stop);
    steps(&rt, &mut machine, 0, 8);
    assert_eq!(rt; words(&machine), [0, 0, 1, 0, 0, 1, 0]);
    begin(&rt, &mut machine, 1, Start::Wake);
    steps(&rt, &mut machine, 1, 1);
    begin(&rt, &mut machine, 0, Start::Send { band: 2 });
    steps(&rt, &mut machine, 0, 16);
    assert_eq!(rt; words(&machine), [0, 0, 1, 0, 0, 2, 0]);
    assert!(rt; machine.seats() == 2);
    let Seat {
        position,
        raised,
        run,
    } = machine.seat(1);
    assert!(rt; matches!(position, Position::Idle));
    assert!(rt; !raised);
    assert_eq!(rt; run, 0);
    Ok(())
}

#[test]
fn a_seat_in_a_call_begins_no_other(rt: HostRuntime) -> Result<(), Fail> {
    let mut machine = Machine::with_queues(rt.alloc(), 1, 4, false, 2)?;
    let send = Start::SendOn { band: 1, queue: 1 };
    assert!(rt; machine.begin(0, send));
    assert!(rt; !machine.begin(0, send));
    assert_eq!(rt; machine.next(), 1);
    Ok(())
}
