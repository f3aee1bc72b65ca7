//! The device of the built-in bench, and a station with one, call by call.
ghost use Rattle.std.specs.Prelude.{◌≡◌, ◌+◌, ◌<◌, ◌≤◌, [], false, length};
ghost use Rattle.lq_device.specs.Bench.{bench_state};
ghost use Rattle.lq_device.specs.Station.{sent_list};

use lq_device::{BenchDevice, Params, Station, Tx, TxDevice};
use std::process::Abort;

// Stops the test where the device doesn't answer so, call after call.
fn check_answers(rt: &impl Abort, device: &mut BenchDevice, answers: &[Tx])
    requires { length answers.now ≤ (bench_state device.old).spare }
{
    for n in 0..answers.len() {
        assert!(rt; !device.hung());
        assert_eq!(rt; (n, device.xmit(0, 7)), (n, answers[n]));
    }
}

#[test]
fn answers_by_its_parameters(rt: HostRuntime) {
    use Tx::{Busy, Sent, SentHang, SentStop};
    let rows = [
        ((0, 0, 0, 0), [Sent, Sent, Sent, Sent, Sent, Sent, Sent]),
        ((0, 2, 3, 0), [Sent, Busy, Sent, Busy, Sent, Busy, Sent]),
        ((0, 1, 4, 0), [Busy, Busy, Busy, Busy, Sent, Sent, Sent]),
        (
            (3, 2, 1, 0),
            [Sent, Busy, Sent, SentStop, Sent, Sent, SentStop],
        ),
        (
            (2, 0, 9, 7),
            [Sent, SentStop, Sent, SentStop, Sent, SentStop, SentHang],
        ),
    ];
    for &((burst, busy_every, busy_limit, hang_after), answers) in &rows {
        let params = Params {
            burst,
            busy_every,
            busy_limit,
            hang_after,
        };
        let mut device = BenchDevice::new(rt.alloc());
        device.configure(&params, 7).ok().expect(&rt, "memory");
        check_answers(&rt, &mut device, &answers);
    }
}

// A device with room for eight packets: it stops at each second one, is busy once at its third call, and hangs at the third packet.
fn configured(rt: &(impl Abort + AllocGlobal)) -> BenchDevice
    ensures room { 8 ≤ (bench_state result).spare }
    ensures fresh { (bench_state result).accepted ≡ [] }
    ensures alive { (bench_state result).hung ≡ false }
{
    let params = Params {
        burst: 2,
        busy_every: 3,
        busy_limit: 1,
        hang_after: 3,
    };
    let mut device = BenchDevice::new(rt.alloc());
    device.configure(&params, 8).ok().expect(rt, "memory");
    device
}

// Stops the test where the station's device doesn't answer a packet so.
fn expect_answer(rt: &impl Abort, station: &mut Station<BenchDevice>, n: u32, answer: Tx)
    requires { 8 ≤ station.old.device.spare + length (sent_list station.old) }
    ensures { 8 ≤ station.new.device.spare + length (sent_list station.new) }
{
    assert!(rt; station.sent() < 8 && !station.hung());
    assert_eq!(rt; (n, station.xmit(0, n)), (n, answer));
}

// Puts a packet into the slot, which must be empty.
fn hold(rt: &impl Abort, station: &mut Station<BenchDevice>, n: u32)
    ensures { station.new.device ≡ station.old.device }
{
    assert!(rt; station.slot().is_none());
    station.set_slot(n);
}

// Stops the test where the station doesn't tell this of its unit, of how many packets it sent, of its slot, of the last answer, and of
// whether its device hangs.
fn expect_told(
    rt: &impl Abort,
    station: &Station<BenchDevice>,
    wanted: (u32, u32, Option<u32>, Option<Tx>, bool),
) {
    let told = (
        station.unit(),
        station.sent(),
        station.slot(),
        station.last(),
        station.hung(),
    );
    assert_eq!(rt; told, wanted);
}

// Stops the test where the head and the tail of a band are others.
fn expect_ends(rt: &impl Abort, station: &Station<BenchDevice>, band: u32, ends: (u32, u32))
    requires { band < 3 }
{
    let found = (station.head(band), station.tail(band));
    assert_eq!(rt; (band, found), (band, ends));
}

// A station that sent two packets, and holds a third, for which its device was busy.
fn busy_station(rt: &(impl Abort + AllocGlobal)) -> Station<BenchDevice>
    ensures { 8 ≤ result.device.spare + length (sent_list result) }
{
    let mut station = Station::new(rt.alloc(), 5, configured(rt))
        .ok()
        .expect(rt, "memory");
    expect_told(rt, &station, (5, 0, None, None, false));
    expect_answer(rt, &mut station, 40, Tx::Sent);
    expect_answer(rt, &mut station, 41, Tx::SentStop);
    hold(rt, &mut station, 42);
    expect_answer(rt, &mut station, 42, Tx::Busy);
    expect_told(rt, &station, (5, 2, Some(42), Some(Tx::Busy), false));
    station
}

// A station whose device hangs after three packets.
fn hung_station(rt: &(impl Abort + AllocGlobal)) -> Station<BenchDevice> {
    let mut station = busy_station(rt);
    assert_eq!(rt; station.take_slot(), Some(42));
    station.set_ends(2, 7, 4);
    expect_answer(rt, &mut station, 42, Tx::SentHang);
    expect_told(rt, &station, (5, 3, None, Some(Tx::SentHang), true));
    station
}

#[test]
fn keeps_what_lies_beside_the_device(rt: HostRuntime) {
    let mut station = hung_station(&rt);
    expect_ends(&rt, &station, 1, (0, 0));
    expect_ends(&rt, &station, 2, (7, 4));
    hold(&rt, &mut station, 43);
    assert!(rt; station.change(6, configured(&rt)).hung());
    expect_told(&rt, &station, (6, 0, Some(43), None, false));
    expect_ends(&rt, &station, 2, (7, 4));
    expect_answer(&rt, &mut station, 44, Tx::Sent);
    assert!(rt; !station.into_device().hung());
}
