//! The command `trace`. The files of examples/schedules, without their comments: each ends with no packet held and nobody
//! on the way, but for the two chases, which come back to where their round began, and for a wake that hasn't scheduled yet. Step numbers and packets sent are counted by hand from
//! the comments of the files.
use crate::done::call_done;
use lq_host::{HostCall, MemHost};
use lq_run_core::TraceReason;
use lq_test_fixture::{call, unheld};
use lq_top::{Free, Resources, Status};
use std::alloc::Global;
use std::marker::Sync;
use std::sync::Wait;
use std::test::Fail;
use std::thread::Threads;

/// `second-try.schedule`
const SECOND_TRY: &str = "seats 2 len 4 bypass 0
0 send 1
0 step 14
1 send 1
1 step 4
0 step 3
1 step 1
1 step 1
1 step 18
";

/// `second-try-finds-nothing.schedule`
const SECOND_TRY_FINDS_NOTHING: &str = "seats 2 len 4 bypass 0
0 send 1
0 step 4
1 send 1
1 step 7
1 send 1
1 step 4
0 step 26
1 step 15
0 step 2
";

/// `release-then-look.schedule`
const RELEASE_THEN_LOOK: &str = "seats 2 len 4 bypass 0
0 send 1
0 step 14
1 send 1
1 step 7
0 step 1
0 step 3
0 softirq
0 step 22
";

/// `clear-then-look.schedule`
const CLEAR_THEN_LOOK: &str = "seats 2 len 4 bypass 1
0 send 1
0 step 2
1 send 1
1 step 4
0 step 3
1 step 10
1 step 3
0 step 5
1 step 4
1 softirq
1 step 22
";

/// `look-at-the-stop-word-again.schedule`
const LOOK_AT_THE_STOP_WORD_AGAIN: &str = "seats 2 len 4 bypass 0
0 send 1
0 step 8
0 stop
0 step 2
1 wake
1 step 2
1 softirq
1 step 7
1 send 1
1 step 5
0 step 1
1 step 1
0 step 6
0 softirq
0 step 22
";

/// `wake-after-the-second-look.schedule`
const WAKE_AFTER_THE_SECOND_LOOK: &str = "seats 2 len 4 bypass 0
0 send 1
0 step 8
0 stop
0 step 1
1 send 1
1 step 7
0 step 3
1 wake
1 step 2
0 step 4
1 softirq
1 step 22
";

/// `soft-interrupt-clears-first.schedule`
const SOFT_INTERRUPT_CLEARS_FIRST: &str = "seats 2 len 4 bypass 0
0 send 1
0 step 8
0 stop
0 step 8
1 wake
1 step 2
1 softirq
1 step 2
0 send 1
0 step 8
0 busy
0 step 5
1 step 1
1 step 17
";

/// `bypass-looks-under-the-lock.schedule`
const BYPASS_LOOKS_UNDER_THE_LOCK: &str = "seats 2 len 4 bypass 1
1 send 1
1 step 2
0 send 1
0 step 5
0 busy
0 step 2
1 step 2
0 step 3
1 step 22
0 softirq
0 step 12
";

/// The same up to where the wake comes between the holder's look at the stop word and its setting of DRAINING: the seat that woke
/// the queue is raised, and its soft interrupt is still to come.
const WAKE_RAISES_ITS_SEAT: &str = "seats 2 len 4 bypass 0
0 send 1
0 step 8
0 stop
0 step 1
1 send 1
1 step 7
0 step 3
1 wake
1 step 2
0 step 4
";

/// `chase.schedule`
const CHASE: &str = "seats 2 len 8 bypass 0
0 send 0
0 step 9
1 send 0
1 step 3
0 step 8
1 step 1
0 step 1
1 step 1
0 step 3
0 softirq
0 step 3
1 step 1
0 step 1
1 step 6
0 step 1
1 step 5
0 step 1
1 step 3
1 softirq
0 step 10
1 step 4
0 step 1
1 step 1
0 step 3
0 softirq
0 step 3
1 step 1
0 step 1
1 step 6
0 step 1
1 step 5
0 step 1
1 step 3
1 softirq
";

/// `stopped-chase.schedule`
const STOPPED_CHASE: &str = "seats 2 len 8 bypass 0
0 send 0
0 step 7
0 stop
0 step 1
1 send 0
1 step 3
0 step 4
1 step 1
0 step 1
1 step 1
0 step 3
0 softirq
0 step 3
1 step 1
0 step 1
1 step 2
0 step 1
1 step 3
0 step 1
1 step 3
1 softirq
0 step 4
1 step 4
0 step 1
1 step 1
0 step 3
0 softirq
0 step 3
1 step 1
0 step 1
1 step 2
0 step 1
1 step 3
0 step 1
1 step 3
1 softirq
";

/// `wake.schedule`
const WAKE: &str = "seats 2 len 8 bypass 0
0 send 1
0 step 8
0 stop
0 step 8
0 send 1
0 step 11
1 wake
1 step 1
";

/// What each leaves.
const DONE: [(&str, &str); 12] = [
    (
        SECOND_TRY,
        "steps 41\nstate 0 lock 0 xoff 0 inside 0\nheld 0 sent 2 full 0\nseat 0 idle\nseat 1 idle\n",
    ),
    (
        SECOND_TRY_FINDS_NOTHING,
        "steps 58\nstate 0 lock 0 xoff 0 inside 0\nheld 0 sent 3 full 0\nseat 0 idle\nseat 1 idle\n",
    ),
    (
        RELEASE_THEN_LOOK,
        "steps 47\nstate 0 lock 0 xoff 0 inside 0\nheld 0 sent 2 full 0\nseat 0 idle\nseat 1 idle\n",
    ),
    (
        CLEAR_THEN_LOOK,
        "steps 53\nstate 0 lock 0 xoff 0 inside 0\nheld 0 sent 2 full 0\nseat 0 idle\nseat 1 idle\n",
    ),
    (
        LOOK_AT_THE_STOP_WORD_AGAIN,
        "steps 55\nstate 0 lock 0 xoff 0 inside 0\nheld 0 sent 2 full 0\nseat 0 idle\nseat 1 idle\n",
    ),
    (
        WAKE_AFTER_THE_SECOND_LOOK,
        "steps 48\nstate 0 lock 0 xoff 0 inside 0\nheld 0 sent 2 full 0\nseat 0 idle\nseat 1 idle\n",
    ),
    (
        SOFT_INTERRUPT_CLEARS_FIRST,
        "steps 53\nstate 0 lock 0 xoff 0 inside 0\nheld 0 sent 2 full 0\nseat 0 idle\nseat 1 idle\n",
    ),
    (
        BYPASS_LOOKS_UNDER_THE_LOCK,
        "steps 49\nstate 0 lock 0 xoff 0 inside 0\nheld 0 sent 2 full 0\nseat 0 idle\nseat 1 idle\n",
    ),
    (
        WAKE_RAISES_ITS_SEAT,
        "steps 26\nstate 9 lock 0 xoff 0 inside 0\nheld 1 sent 1 full 0\nseat 0 idle\nseat 1 idle raised\n",
    ),
    (
        CHASE,
        "steps 87\nstate 5 lock 1 xoff 0 inside 1\nheld 0 sent 2 full 0\nseat 0 deq\nseat 1 enter\n",
    ),
    (
        STOPPED_CHASE,
        "steps 65\nstate 13 lock 1 xoff 1 inside 1\nheld 1 sent 1 full 0\nseat 0 deq\nseat 1 enter\n",
    ),
    (
        WAKE,
        "steps 29\nstate 8 lock 0 xoff 0 inside 0\nheld 1 sent 1 full 0\nseat 0 idle\nseat 1 sched\n",
    ),
];

/// A host with these bytes as the schedule `t`.
fn host_of(alloc: Global, schedule: &[u8]) -> Result<MemHost, Fail> {
    let mut host = MemHost::new(alloc);
    host.put_file("t", schedule)?;
    Ok(host)
}

#[test]
fn nothing_is_left_behind(rt: HostRuntime) -> Result<(), Fail> {
    let alloc = rt.alloc();
    let on = unheld(&rt, alloc);
    for (schedule, output) in &DONE {
        let host = host_of(alloc, schedule.as_bytes())?;
        let done = call_done(&on, schedule, &["trace", "t"], host)?;
        done.told(output.as_bytes())?;
        done.has_file("t", schedule.as_bytes())?;
    }
    Ok(())
}

/// Schedules, the reason for which each is refused with its line, and the line that tells it.
const REFUSED: [(&str, TraceReason, u32, &str); 4] = [
    (
        "seats 2 len 4 bypass 0\n2 send 1\n",
        TraceReason::NoSeat,
        2,
        "trace refused: 2 NoSeat at line 2\n",
    ),
    (
        "seats 2 len 4 bypass 0\n0 step 1\n",
        TraceReason::SeatWaits,
        2,
        "trace refused: 3 SeatWaits at line 2\n",
    ),
    (
        "seats 9 len 4 bypass 0\n2 send 1\n",
        TraceReason::Syntax,
        1,
        "trace refused: 1 Syntax at line 1\n",
    ),
    (
        "",
        TraceReason::Syntax,
        1,
        "trace refused: 1 Syntax at line 1\n",
    ),
];

/// The schedule of these bytes is refused so.
fn check_refused<R: Threads + Wait + Sync>(
    on: &Resources<'_, R, Free>,
    schedule: &[u8],
    (reason, line): (TraceReason, u32),
    output: &str,
) -> Result<(), Fail> {
    let mut host = host_of(on.alloc, schedule)?;
    let status = call(on, &["trace", "t"], &mut host)?;
    let is_so = status == Status::Trace { reason, line } && status.code() == 7;
    if is_so && host.output() == output.as_bytes() {
        return Ok(());
    }
    Err(Fail::new(format_args!("not refused so: {output}")))
}

#[test]
fn tells_the_first_line_that_fails(rt: HostRuntime) -> Result<(), Fail> {
    let on = unheld(&rt, rt.alloc());
    for &(schedule, reason, line, output) in &REFUSED {
        check_refused(&on, schedule.as_bytes(), (reason, line), output)?;
    }
    Ok(())
}

/// A schedule of 65,536 empty lines has a line too few, and one of 65,537 is too long.
#[test]
fn longest_schedule(rt: HostRuntime) -> Result<(), Fail> {
    let alloc = rt.alloc();
    let on = unheld(&rt, alloc);
    let mut bytes = vec![in alloc; b'\n'; 65_536]?;
    let cut = (TraceReason::Syntax, 65_537);
    check_refused(&on, &bytes, cut, "trace refused: 1 Syntax at line 65537\n")?;
    bytes.push(b'\n')?;
    let long = (TraceReason::TooLong, 0);
    check_refused(&on, &bytes, long, "trace refused: 5 TooLong at line 0\n")
}

/// Each kind of call that it makes fails once: it writes nothing.
#[test]
fn writes_nothing_at_a_fault(rt: HostRuntime) -> Result<(), Fail> {
    let alloc = rt.alloc();
    let on = unheld(&rt, alloc);
    for &(kind, k) in &[
        (HostCall::OpenRead, 1),
        (HostCall::Read, 2),
        (HostCall::Finish, 1),
        (HostCall::Write, 1),
    ] {
        let mut host = host_of(alloc, SECOND_TRY.as_bytes())?;
        host.fail_at(kind, k)?;
        let status = call(&on, &["trace", "t"], &mut host)?;
        assert_eq!(rt; status, Status::Fault, "call {k} of {kind:?}");
        assert_eq!(rt; host.output(), b"".as_slice());
    }
    Ok(())
}
