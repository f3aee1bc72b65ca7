//! What a run needs before its first packet: room, a table over each station's device, and a seat there for each sender.
//!
//! All memory but that of the tables is taken before a device leaves the bench. Where there is none for a table, those
//! opened before it end, and each device is back in the bench.
ghost use Rattle.std.specs.Prelude.{◌≡◌, ◌≤◌, ◌<◌, ◌+◌, ◌-◌, ◌++◌, [], List, IfOk, OnOk, OnErr, drop, length, map, vec_len, vec_capacity};
ghost use Rattle.lq_seat.specs.State.{station_count};
ghost use Rattle.lq_senders.specs.Fates.{identities_of};
ghost use Rattle.lq_senders.specs.Senders.{IsSendable};
ghost use Rattle.lq_senders.specs.Runs.{SenderIsReady, SendersAreReady, SeatsSplit};
ghost use Rattle.lq_senders.specs.Setup.{AreConfigured, HaveNoSeats, AreOpened, AreWhole, HasNoSeats, origins_of};
ghost use Rattle.lq_senders.specs.Units.{SameDevices};
ghost use Rattle.lq_model.specs.Device.{DeviceState};

use crate::sender::{Run, Sender};
use lq_device::TxDevice;
use lq_gate::Gate;
use lq_model::{Info, NoMemory};
use lq_plan::Plan;
use lq_seat::{Seat, Table};
use std::alloc::Global;

/// An empty list with room for so many.
pub fn list_with_room<T>(alloc: Global, count: usize) -> Result<Vec<T>, NoMemory>
    ensures empty { IfOk result (λ list. list.items ≡ []) }
    ensures room { IfOk result (λ list. count ≤ vec_capacity list) }
{
    match Vec::with_capacity(alloc, count) {
        Ok(list) => Ok(list),
        Err(_) => Err(NoMemory),
    }
}

/// How many items more a list has room for that stands apart: at least three lines of the processor's cache, with the items of senders,
/// of seats (40 bytes) and of tables. So no processor takes a line, or the one beside it, from a sender whose seats it doesn't use; nor
/// does the box of a station, which lies behind the first sender's seats.
const APART: usize = 6;

/// The same with room behind the list that stays empty, so that no other sender's list shares a line of the processor's cache
/// with its last item.
pub fn list_apart<T>(alloc: Global, count: usize) -> Result<Vec<T>, NoMemory>
    ensures empty { IfOk result (λ list. list.items ≡ []) }
    ensures room { IfOk result (λ list. count ≤ vec_capacity list) }
{
    list_with_room(alloc, count.saturating_add(APART))
}

/// How many packets go to a station.
pub fn packets_of(infos: &[Info], station: u32) -> usize
    ensures { result ≡ station_count infos.now station }
{
    infos
        .iter()
        .filter(|info| info.station as u32 == station)
        .count()
}

/// Configures the device of each station where it stands in the bench, with room for the station's packets.
pub fn configure_units<D: TxDevice>(
    plan: &Plan,
    infos: &[Info],
    bench: &mut Vec<D>,
) -> Result<(), NoMemory>
    requires units { length plan.now.stations ≤ vec_len bench.old }
    ensures ok { OnOk result (AreConfigured plan.now infos.now (length plan.now.stations)
        (map D.state bench.old.items) (map D.state bench.new.items)) }
    ensures others { drop (length plan.now.stations) bench.new.items ≡ drop (length plan.now.stations) bench.old.items }
    ensures len { vec_len bench.new ≡ vec_len bench.old }
    ensures boxes { identities_of (map D.state bench.new.items) ≡ identities_of (map D.state bench.old.items) }
{
    for station in 0..plan.stations() {
        let room = packets_of(infos, station);
        let unit = &mut bench[station as usize];
        unit.configure(&plan.station(station).params, room)?;
    }
    Ok(())
}

/// All senders but the first, without seats but with the room for them.
pub fn other_senders<D: TxDevice>(alloc: Global, plan: &Plan) -> Result<Vec<Sender<D>>, NoMemory>
    ensures { IfOk result (λ others. HaveNoSeats plan.now others.items) }
{
    let senders = plan.senders();
    let mut others = list_apart(alloc, senders as usize - 1)?;
    for owner in 1..senders {
        let seats = list_apart(alloc, plan.stations() as usize)?;
        others.push_reserved(Sender {
            owner,
            seats,
            spares: Vec::new(alloc),
        });
    }
    Ok(others)
}

/// The tables of a plan's stations, and a seat at each.
#[derive(Drop)]
pub struct Stations<'a, D: TxDevice> {
    pub tables: Vec<Table<'a, D>>,
    pub seats: Vec<Seat<D>>,
}

/// Takes the device of each station out of the bench, into a table of its own, up to the first for which there is no room.
fn open_stations<'a, D: TxDevice>(
    alloc: Global,
    plan: &Plan,
    infos: &'a [Info],
    bench: &mut Vec<D>,
    stations: &mut Stations<'a, D>,
) -> Result<(), NoMemory>
    requires sendable { IsSendable plan.now infos.now }
    requires units { length plan.now.stations ≤ vec_len bench.old }
    requires configured { (before : List DeviceState)
        × AreConfigured plan.now infos.now (length plan.now.stations) before (map D.state bench.old.items) }
    requires none_yet { (stations.old.tables.items ≡ []) × (stations.old.seats.items ≡ []) }
    requires room { (length plan.now.stations ≤ vec_capacity stations.old.tables)
        × (length plan.now.stations ≤ vec_capacity stations.old.seats) }
    ensures opened { AreOpened plan.now infos.now (map D.state bench.old.items) stations.new.tables.items stations.new.seats.items }
    ensures few { vec_len stations.new.tables ≤ length plan.now.stations }
    ensures all { OnOk result (vec_len stations.new.tables ≡ length plan.now.stations) }
    ensures states { map D.state bench.new.items ≡ drop (vec_len stations.new.tables) (map D.state bench.old.items) }
    ensures others { drop (length plan.now.stations - vec_len stations.new.tables) bench.new.items
        ≡ drop (length plan.now.stations) bench.old.items }
    ensures len { vec_len stations.new.tables + vec_len bench.new ≡ vec_len bench.old }
    ensures capacity { vec_capacity bench.new ≡ vec_capacity bench.old }
{
    for station in 0..plan.stations() {
        let device = bench.remove(0);
        match Table::open(alloc, plan, infos, station, device) {
            Ok((table, cpu)) => {
                stations.tables.push_reserved(table);
                stations.seats.push_reserved(cpu);
            }
            Err(device) => {
                let _laid_back = bench.insert(0, device);
                return Err(NoMemory);
            }
        }
    }
    Ok(())
}

/// Ends the tables, and lays their devices back into the bench, in their order before those that stand there. Takes no
/// memory.
fn give_all_back<'a, D: TxDevice>(
    mut tables: Vec<Table<'a, D>>,
    mut seats: Vec<Seat<D>>,
    bench: &mut Vec<D>,
)
    requires whole { AreWhole tables.items seats.items }
    requires room { vec_len bench.old + vec_len tables ≤ vec_capacity bench.old }
    ensures boxes { identities_of (map D.state bench.new.items) ≡ origins_of seats.items ++ identities_of (map D.state bench.old.items) }
    ensures rest { drop (vec_len tables.entry) bench.new.items ≡ bench.old.items }
    ensures len { vec_len bench.new ≡ vec_len tables.entry + vec_len bench.old }
{
    while let Some(table) = tables.pop() {
        match seats.pop() {
            Some(cpu) => {
                let _laid_back = bench.insert(0, table.give_back(cpu));
            }
            None => unreachable!(),
        }
    }
}

/// Takes the device of each station out of the bench, into a table of its own.
///
/// # NoMemory
///
/// There was no room for a table. All devices are in the bench again.
pub fn open_all<'a, D: TxDevice>(
    alloc: Global,
    plan: &Plan,
    infos: &'a [Info],
    bench: &mut Vec<D>,
    mut stations: Stations<'a, D>,
) -> Result<Stations<'a, D>, NoMemory>
    requires sendable { IsSendable plan.now infos.now }
    requires units { length plan.now.stations ≤ vec_len bench.old }
    requires configured { (before : List DeviceState)
        × AreConfigured plan.now infos.now (length plan.now.stations) before (map D.state bench.old.items) }
    requires none_yet { (stations.tables.items ≡ []) × (stations.seats.items ≡ []) }
    requires room { (length plan.now.stations ≤ vec_capacity stations.tables)
        × (length plan.now.stations ≤ vec_capacity stations.seats) }
    ensures opened { IfOk result (λ s. AreOpened plan.now infos.now (map D.state bench.old.items) s.tables.items s.seats.items) }
    ensures all { IfOk result (λ s. vec_len s.tables ≡ length plan.now.stations) }
    ensures rest { OnOk result (bench.new.items ≡ drop (length plan.now.stations) bench.old.items) }
    ensures less { OnOk result (length plan.now.stations + vec_len bench.new ≡ vec_len bench.old) }
    ensures capacity { OnOk result (vec_capacity bench.new ≡ vec_capacity bench.old) }
    ensures others { OnErr result (drop (length plan.now.stations) bench.new.items ≡ drop (length plan.now.stations) bench.old.items) }
    ensures len { OnErr result (vec_len bench.new ≡ vec_len bench.old) }
    ensures boxes { OnErr result (identities_of (map D.state bench.new.items) ≡ identities_of (map D.state bench.old.items)) }
{
    match open_stations(alloc, plan, infos, bench, &mut stations) {
        Ok(()) => Ok(stations),
        Err(NoMemory) => {
            let Stations { tables, seats } = stations;
            give_all_back(tables, seats, bench);
            Err(NoMemory)
        }
    }
}

/// Splits a seat at each station off for this sender. Takes no memory.
fn split_sender<'r, 't, 'a, D: TxDevice, G: Gate>(
    run: &Run<'r, 't, 'a, D, G>,
    seats: &mut Vec<Seat<D>>,
    sender: &mut Sender<D>,
)
    requires empty { HasNoSeats run.now.job.plan.now (sender.old.owner - 1) sender.old }
    requires sender { sender.old.owner < run.now.job.plan.now.senders }
    requires splitting { SeatsSplit run.now sender.old.owner seats.old.items }
    ensures splitting { SeatsSplit run.now (sender.old.owner + 1) seats.new.items }
    ensures ready { SenderIsReady run.now (sender.old.owner - 1) sender.new }
    ensures devices { SameDevices seats.old.items seats.new.items }
{
    run.job.plan.stays_within_limits();
    for j in 0..run.tables.len() {
        let other = seats[j].split(&run.tables[j], sender.owner);
        sender.seats.push_reserved(other);
    }
}

/// Splits the seats of all senders but the first off. Takes no memory.
pub fn split_senders<'r, 't, 'a, D: TxDevice, G: Gate>(
    run: &Run<'r, 't, 'a, D, G>,
    seats: &mut Vec<Seat<D>>,
    others: &mut Vec<Sender<D>>,
)
    requires empty { HaveNoSeats run.now.job.plan.now others.old.items }
    requires splitting { SeatsSplit run.now 1 seats.old.items }
    ensures splitting { SeatsSplit run.now run.now.job.plan.now.senders seats.new.items }
    ensures ready { SendersAreReady run.now others.new.items }
    ensures one_each { length others.new.items + 1 ≡ run.now.job.plan.now.senders }
    ensures devices { SameDevices seats.old.items seats.new.items }
    ensures alone { run.now.job.plan.now.senders ≡ 1 → seats.new.items ≡ seats.old.items }
{
    for place in 0..others.len() {
        split_sender(run, seats, &mut others[place]);
    }
}
