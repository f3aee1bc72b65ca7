//! Texts of plans: the least reason of each, and what keys that are left out or written come to.
ghost use Rattle.std.specs.Prelude.{◌<◌, length};

use lq_model::{Card, Classify, Limit};
use lq_plan::{
    EventKind, EventPlan, Irq, Params, Plan, PlanReason, PlanRefusal, Split, Spread, StationPlan,
    generated_plan, read_plan,
};
use std::process::Abort;

const REFUSED: [(&[u8], PlanReason); 38] = [
    (b"len = = 3", PlanReason::NotToml),
    (b"\xff", PlanReason::NotToml),
    (b"[[station]]\nlenght = 5\n", PlanReason::UnknownKey),
    (
        b"[[station]]\nlen = \"a\"\nfoo = 1\n",
        PlanReason::UnknownKey,
    ),
    (
        b"[[station]]\n[[event]]\nbefore = 0\nkind = \"down\"\nstation = 0\nlen = 3\n",
        PlanReason::UnknownKey,
    ),
    (b"[[station]]\nqueues = 2\n", PlanReason::UnknownKey),
    (b"senders = 2\n", PlanReason::Missing),
    (b"[[event]]\nbefore = 0\n", PlanReason::Missing),
    (b"[[station]]\nlen = \"a\"\n", PlanReason::Kind),
    (b"station = 5\n", PlanReason::Kind),
    (b"[[station]]\nlen = 4097\n", PlanReason::Range),
    (b"station = []\n", PlanReason::Range),
    (b"version = 6\n[[station]]\n", PlanReason::Range),
    (
        b"version = 5\n[[station]]\nrate_kbit = 1\nring = 1\nbql = 1\nqueues = 2\n",
        PlanReason::TwoLimits,
    ),
    (
        b"version = 5\n[[station]]\nrate_kbit = 1\n[[station]]\n",
        PlanReason::OneLink,
    ),
    (
        b"version = 3\nirq_us = 5\n[[station]]\n",
        PlanReason::UnknownKey,
    ),
    (
        b"version = 3\nspread = \"flow\"\n[[station]]\n",
        PlanReason::UnknownKey,
    ),
    (
        b"version = 3\nsplit = \"flow\"\n[[station]]\n",
        PlanReason::Range,
    ),
    (b"split = \"flow\"\n[[station]]\n", PlanReason::Range),
    (b"version = 4\nirq_us = 0\n[[station]]\n", PlanReason::Range),
    (
        b"version = 4\nirq_us = 1000001\n[[station]]\n",
        PlanReason::Range,
    ),
    (
        b"version = 4\nirq_every = 1\nirq_us = 1\n[[station]]\n",
        PlanReason::Range,
    ),
    (
        b"version = 4\nirq_us = \"1\"\n[[station]]\n",
        PlanReason::Kind,
    ),
    (
        b"version = 4\nspread = \"ports\"\n[[station]]\n",
        PlanReason::Range,
    ),
    (
        b"version = 4\nspread = \"round\"\n[[station]]\n",
        PlanReason::Range,
    ),
    (b"version = 4\nspread = 1\n[[station]]\n", PlanReason::Kind),
    (
        b"version = 2\nsenders = 65\n[[station]]\n",
        PlanReason::Range,
    ),
    (b"[[station]]\nmax_len = 10\n", PlanReason::Range),
    (
        b"version = 2\n[[station]]\nmq = 2\n",
        PlanReason::UnknownKey,
    ),
    (b"version = 3\n[[station]]\nmq = 9\n", PlanReason::Range),
    (b"version = 3\n[[station]]\nmq = 0\n", PlanReason::Range),
    (
        b"version = 3\n[[station]]\nmq = 5\n[[station]]\nmq = 4\n",
        PlanReason::Range,
    ),
    (
        b"version = 3\n[[station]]\nmq = 2\nqueues = 2\n",
        PlanReason::Range,
    ),
    (
        b"version = 3\n[[station]]\nmq = 2\n[[event]]\nbefore = 0\nkind = \"swap\"\nstation = 0\n",
        PlanReason::Range,
    ),
    (b"senders = 4294967297\n[[station]]\n", PlanReason::Range),
    (
        b"[[station]]\n[[event]]\nbefore = 0\nkind = \"sway\"\nstation = 0\nlen = 1\n",
        PlanReason::Range,
    ),
    (
        b"[[station]]\n[[event]]\nbefore = 0\nkind = \"up\"\nstation = 0\n",
        PlanReason::EventOrder,
    ),
    (
        b"[[station]]\n[[event]]\nbefore = 2\nkind = \"down\"\nstation = 0\n[[event]]\nbefore = 1\nkind = \"up\"\nstation = 0\n",
        PlanReason::EventOrder,
    ),
];

fn expect_refused(rt: &(impl Abort + AllocGlobal), text: &[u8], reason: PlanReason) {
    let refusal = read_plan(rt.alloc(), text).err();
    assert_eq!(rt; refusal, Some(PlanRefusal::Refused { reason }));
}

#[test]
fn least_reason_of_each_text(rt: HostRuntime) {
    for &(text, reason) in &REFUSED {
        expect_refused(&rt, text, reason);
    }
}

const NO_RULES: Params = Params {
    burst: 0,
    busy_every: 0,
    busy_limit: 0,
    hang_after: 0,
};

/// A station of which no key is written.
const PLAIN: StationPlan = StationPlan {
    len: 1000,
    max_len: 1000,
    bypass: true,
    params: NO_RULES,
    queues: 1,
    card: None,
};

/// What a plan says.
#[derive(Clone, Copy)]
struct Said {
    version: u32,
    split: Split,
    spread: Spread,
    classify: Classify,
    senders: u32,
    irq: Irq,
    units: u32,
    /// Of each group its first child, and how many it has.
    groups: &'static [(u32, u32)],
    stations: &'static [StationPlan],
    events: &'static [EventPlan],
}

const NO_KEYS: Said = Said {
    version: 1,
    split: Split::Round,
    spread: Spread::Bytes,
    classify: Classify::Tos,
    senders: 1,
    irq: Irq::Every { packets: 1 },
    units: 1,
    groups: &[(0, 1)],
    stations: &[PLAIN],
    events: &[],
};

/// The plan of a generated run, which docs/FORMATS.md gives.
const GENERATED: Said = Said {
    irq: Irq::Every { packets: 64 },
    stations: &[StationPlan {
        len: 32,
        max_len: 32,
        params: Params {
            burst: 48,
            ..NO_RULES
        },
        ..PLAIN
    }],
    ..NO_KEYS
};

const ALL_KEYS: &[u8] = b"version = 1
senders = 8
split = \"source\"
irq_every = 1000
station = [{ len = 3, max_len = 7, bypass = false, burst = 1, busy_every = 2, busy_limit = 3, hang_after = 1000000 }, { len = 4096 }]
[[event]]
before = 0
kind = \"resize\"
station = 0
len = 7
[[event]]
before = 0
kind = \"tx_queue_len\"
station = 1
len = 4096
[[event]]
before = 5
kind = \"swap\"
station = 1
busy_every = 9
[[event]]
before = 5
kind = \"down\"
station = 0
[[event]]
before = 1000000
kind = \"up\"
station = 0
";

const ALL: Said = Said {
    version: 1,
    split: Split::Source,
    spread: Spread::Bytes,
    classify: Classify::Tos,
    senders: 8,
    irq: Irq::Every { packets: 1000 },
    units: 3,
    groups: &[(0, 1), (1, 1)],
    stations: &[
        StationPlan {
            len: 3,
            max_len: 7,
            bypass: false,
            params: Params {
                burst: 1,
                busy_every: 2,
                busy_limit: 3,
                hang_after: 1_000_000,
            },
            queues: 1,
            card: None,
        },
        StationPlan {
            len: 4096,
            max_len: 4096,
            ..PLAIN
        },
    ],
    events: &[
        EventPlan {
            before: 0,
            station: 0,
            mq: 1,
            kind: EventKind::Resize { len: 7 },
        },
        EventPlan {
            before: 0,
            station: 1,
            mq: 1,
            kind: EventKind::TxQueueLen { len: 4096 },
        },
        EventPlan {
            before: 5,
            station: 1,
            mq: 1,
            kind: EventKind::Swap {
                params: Params {
                    busy_every: 9,
                    ..NO_RULES
                },
            },
        },
        EventPlan {
            before: 5,
            station: 0,
            mq: 1,
            kind: EventKind::Down,
        },
        EventPlan {
            before: 1_000_000,
            station: 0,
            mq: 1,
            kind: EventKind::Up,
        },
    ],
};

/// The greatest numbers of version 2, and the queues of a station that doesn't say how many it has.
const VERSION_2: Said = Said {
    version: 2,
    senders: 64,
    units: 2,
    groups: &[(0, 1), (1, 1)],
    stations: &[
        StationPlan {
            len: 65_536,
            max_len: 65_536,
            queues: 8,
            ..PLAIN
        },
        PLAIN,
    ],
    ..NO_KEYS
};

/// A child of the group of version 3.
const CHILD: StationPlan = StationPlan {
    len: 3,
    max_len: 3,
    ..PLAIN
};

/// Groups: their children are the stations, in order, and an event is done to all children of its group; a station alone may
/// have several queues, and its device may be swapped.
const VERSION_3: Said = Said {
    version: 3,
    units: 9,
    groups: &[(0, 1), (1, 7)],
    stations: &[
        StationPlan {
            len: 2,
            max_len: 2,
            queues: 4,
            ..PLAIN
        },
        CHILD,
        CHILD,
        CHILD,
        CHILD,
        CHILD,
        CHILD,
        CHILD,
    ],
    events: &[
        EventPlan {
            before: 1,
            station: 1,
            mq: 7,
            kind: EventKind::Down,
        },
        EventPlan {
            before: 1,
            station: 0,
            mq: 1,
            kind: EventKind::Swap { params: NO_RULES },
        },
    ],
    ..NO_KEYS
};

/// Packets of one flow have one sender, one station and one queue, and the queues are opened each second.
const VERSION_4: Said = Said {
    version: 4,
    split: Split::Flow,
    spread: Spread::Flow,
    senders: 3,
    irq: Irq::Period {
        microseconds: 1_000_000,
    },
    ..NO_KEYS
};

/// The keys of version 4 that say what those before it do.
const AS_BEFORE: Said = Said {
    version: 4,
    irq: Irq::Every { packets: 7 },
    ..NO_KEYS
};

/// The device of a card stops at each packet, without a key that says so.
const STOPS_AT_EACH: Params = Params {
    burst: 1,
    ..NO_RULES
};

/// A link of which no key but its rate is written, of packets that keep priority 0.
const LINK: Said = Said {
    version: 5,
    classify: Classify::Never,
    stations: &[StationPlan {
        params: STOPS_AT_EACH,
        card: Some(Card {
            rate_kbit: 1_000_000_000,
            limit: Limit::Ring { descriptors: 256 },
            coalesce_us: 0,
            overhead: 24,
            mpu: 84,
        }),
        ..PLAIN
    }],
    ..NO_KEYS
};

/// The greatest numbers of a link.
const BYTES: Said = Said {
    version: 5,
    stations: &[StationPlan {
        params: STOPS_AT_EACH,
        card: Some(Card {
            rate_kbit: 1,
            limit: Limit::Bql {
                bytes: 1_000_000_000,
            },
            coalesce_us: 1_000_000,
            overhead: 0,
            mpu: 1000,
        }),
        ..PLAIN
    }],
    ..NO_KEYS
};

// The first child of a group, and how many it has.
fn group_of(plan: &Plan, j: u32) -> (u32, u32)
    requires { j < length plan.now.groups }
{
    (plan.first(j), plan.mq(j))
}

fn check_groups(rt: &impl Abort, plan: &Plan, groups: &[(u32, u32)]) {
    assert_eq!(rt; plan.groups() as usize, groups.len());
    for j in 0..plan.groups() {
        assert_eq!(rt; (j, group_of(plan, j)), (j, groups[j as usize]));
    }
}

fn check_stations(rt: &impl Abort, plan: &Plan, stations: &[StationPlan]) {
    assert_eq!(rt; plan.stations() as usize, stations.len());
    for j in 0..plan.stations() {
        assert_eq!(rt; (j, plan.station(j)), (j, stations[j as usize]));
    }
}

fn check_events(rt: &impl Abort, plan: &Plan, events: &[EventPlan]) {
    assert_eq!(rt; plan.events() as usize, events.len());
    for e in 0..plan.events() {
        assert_eq!(rt; (e, plan.event(e)), (e, events[e as usize]));
    }
}

fn check_plan(rt: &impl Abort, plan: &Plan, said: &Said) {
    assert_eq!(rt;
        (plan.split(), plan.spread(), plan.classify(), plan.irq()),
        (said.split, said.spread, said.classify, said.irq)
    );
    assert_eq!(rt;
        (plan.version(), plan.reads_times()),
        (said.version, said.version >= 4)
    );
    assert_eq!(rt;
        (plan.senders(), plan.units(), plan.children()),
        (said.senders, said.units, plan.stations())
    );
    check_groups(rt, plan, said.groups);
    check_stations(rt, plan, said.stations);
    check_events(rt, plan, said.events);
}

fn check_text(rt: &(impl Abort + AllocGlobal), text: &[u8], said: &Said) {
    let plan = read_plan(rt.alloc(), text).ok().expect(rt, "a plan");
    check_plan(rt, &plan, said);
}

#[test]
fn keys_left_out(rt: HostRuntime) {
    check_text(&rt, b"[[station]]\n", &NO_KEYS);
}

#[test]
fn all_keys(rt: HostRuntime) {
    check_text(&rt, ALL_KEYS, &ALL);
}

#[test]
fn later_versions(rt: HostRuntime) {
    let text = b"version = 2\nsenders = 64\n[[station]]\nlen = 65536\nqueues = 8\n[[station]]\n";
    check_text(&rt, text, &VERSION_2);
    let text =
        b"version = 3\n[[station]]\nlen = 2\nqueues = 4\n[[station]]\nlen = 3\nmq = 7\n[[event]]\nbefore = 1\nkind = \"down\"\nstation = 1\n[[event]]\nbefore = 1\nkind = \"swap\"\nstation = 0\n";
    check_text(&rt, text, &VERSION_3);
    let text =
        b"version = 4\nsenders = 3\nsplit = \"flow\"\nspread = \"flow\"\nirq_us = 1000000\n[[station]]\n";
    check_text(&rt, text, &VERSION_4);
    let text = b"version = 4\nspread = \"bytes\"\nirq_every = 7\n[[station]]\n";
    check_text(&rt, text, &AS_BEFORE);
    let text = b"version = 5\nclassify = \"none\"\n[[station]]\nrate_kbit = 1000000000\nbql = 0\n";
    check_text(&rt, text, &LINK);
    let text =
        b"version = 5\n[[station]]\nrate_kbit = 1\nbql = 1000000000\ncoalesce_us = 1000000\noverhead = 0\nmpu = 1000\n";
    check_text(&rt, text, &BYTES);
}

#[test]
fn generated_run_has_a_text(rt: HostRuntime) {
    let text = b"irq_every = 64\n[[station]]\nlen = 32\nburst = 48\n";
    check_text(&rt, text, &GENERATED);
    let plan = generated_plan(rt.alloc()).ok().expect(&rt, "memory");
    check_plan(&rt, &plan, &GENERATED);
}
