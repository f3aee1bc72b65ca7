//! Texts that schedules leave, and the first line of each that fails.
use lq_run_core::{TraceReason, TraceRefusal, trace};

/// The wake comes between the holder's look at the stop word and its setting of DRAINING.
const WAKE_WHILE_STOPPING: &str = "seats 2 len 4 bypass 0
0 send 1
0 step 8
0 stop
0 step 1
1 send 1
1 step 7
0 step 3
1 wake
1 step 2
0 step 4
";

#[test]
fn text_of_what_a_schedule_leaves(rt: HostRuntime) {
    let rows = [
        (
            WAKE_WHILE_STOPPING,
            "steps 26\nstate 9 lock 0 xoff 0 inside 0\nheld 1 sent 1 full 0\nseat 0 idle\nseat 1 idle raised\n",
        ),
        (
            "seats 1 len 1 bypass 0\n\n# one packet\n0 send 0\n0 step 5",
            "steps 5\nstate 0 lock 1 xoff 0 inside 1\nheld 1 sent 0 full 0\nseat 0 scan 0 first\n",
        ),
    ];
    for (schedule, text) in rows {
        let out = trace(rt.alloc(), schedule.as_bytes()).expect(&rt, "a text");
        assert_eq!(rt; out.as_slice(), text.as_bytes());
    }
}

#[test]
fn first_line_that_fails(rt: HostRuntime) {
    let rows = [
        ("seats 2 len 4 bypass 0\n2 send 1\n", TraceReason::NoSeat, 2),
        (
            "seats 2 len 4 bypass 0\n0 step 1\n",
            TraceReason::SeatWaits,
            2,
        ),
        ("seats 9 len 4 bypass 0\n2 send 1\n", TraceReason::Syntax, 1),
        ("# nothing\n\n", TraceReason::Syntax, 3),
        (
            "seats 2 len 4 bypass 0\n\n0 softirq\n0 sand\n",
            TraceReason::SeatWaits,
            3,
        ),
        (
            "seats 2 len 4 bypass 0\n99999999999 wake",
            TraceReason::NoSeat,
            2,
        ),
        ("seats 2 len 4 bypass 0\r\n0 wake\n", TraceReason::Syntax, 1),
    ];
    for (schedule, reason, line) in rows {
        let refused = trace(rt.alloc(), schedule.as_bytes()).expect_err(&rt, "a refusal");
        assert_eq!(rt; refused, TraceRefusal::Refused { reason, line });
    }
}
