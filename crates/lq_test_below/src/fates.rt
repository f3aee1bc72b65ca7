//! The lines of fates and counts, and the packets of a unit in order of serial.
use lq_fates::{Cause, Fate, Info, counts_of, counts_text, fates_text, sent_by_units};

// Each kind of fate; unit 1 sent packet 7 before packet 0.
const FATES: [Fate; 9] = [
    Fate::Sent { unit: 1, serial: 1 },
    Fate::Full { seen: 0 },
    Fate::Sent { unit: 0, serial: 0 },
    Fate::Shrunk { event: 4 },
    Fate::Purged {
        cause: Cause::Event(12),
    },
    Fate::Purged {
        cause: Cause::Hung(1),
    },
    Fate::Refused { event: 3 },
    Fate::Sent { unit: 1, serial: 0 },
    Fate::Sent { unit: 0, serial: 1 },
];

fn at(station: u8) -> Info {
    Info {
        owner: 0,
        station,
        band: 1,
        queue: 0,
        rank: 0,
    }
}

#[test]
fn each_fate_has_a_line(rt: HostRuntime) {
    let text = fates_text(rt.alloc(), &FATES).expect(&rt, "memory");
    let want =
        "0 sent 1 1\n1 full 0\n2 sent 0 0\n3 shrunk 4\n4 purged 12\n5 purged hung\n6 refused 3\n7 sent 1 0\n8 sent 0 1\n";
    assert_eq!(rt; text.as_slice(), want.as_bytes());
}

#[test]
fn units_stations_and_all_have_counts(rt: HostRuntime) {
    let infos = [
        at(1),
        at(0),
        at(0),
        at(1),
        at(0),
        at(1),
        at(1),
        at(1),
        at(0),
    ];
    let fates = Vec::from_array(rt.alloc(), FATES).expect(&rt, "memory");
    let counts = counts_of(rt.alloc(), &fates, &infos, 2, 3).expect(&rt, "memory");
    let text = counts_text(rt.alloc(), &counts, fates.len()).expect(&rt, "memory");
    let want =
        "unit 0 sent 2\nunit 1 sent 2\nunit 2 sent 0\nstation 0 full 1 shrunk 0 purged 1 refused 0\nstation 1 full 0 shrunk 1 purged 1 refused 1\ntotal 9 sent 4 full 1 shrunk 1 purged 2 refused 1\n";
    assert_eq!(rt; text.as_slice(), want.as_bytes());
}

#[test]
fn sent_packets_stand_in_order_of_serial(rt: HostRuntime) {
    let fates = [
        Fate::Sent { unit: 1, serial: 1 },
        Fate::Full { seen: 0 },
        Fate::Sent { unit: 0, serial: 0 },
        Fate::Sent { unit: 1, serial: 0 },
    ];
    let fates = Vec::from_array(rt.alloc(), fates).expect(&rt, "memory");
    let sent = sent_by_units(rt.alloc(), &fates, &[1, 2]).expect(&rt, "memory");
    assert_eq!(rt; sent.len(), 2);
    assert_eq!(rt; sent[0].as_slice(), [2].as_slice());
    assert_eq!(rt; sent[1].as_slice(), [3, 0].as_slice());
}
