//! Counts of fates by unit, by station and of all, taken in one pass.
ghost use Rattle.std.specs.Prelude.{◌≡◌, ◌^◌, ◌<◌, All, IfOk, length, replicate, []};
ghost use Rattle.lq_fates.specs.Counts.{AreCounts, AreWithOne, CanCount, CanCountOneMore, counted_unsent, counted_by_station, counted_by_unit, none_unsent};

use crate::fates::Fates;
use lq_model::{Fate, Info, NoMemory};
use std::alloc::Global;

/// How many packets weren't sent, by what became of them.
#[derive(Clone, Copy)]
pub struct Unsent {
    pub full: u64,
    pub shrunk: u64,
    pub purged: u64,
    pub refused: u64,
}

const NONE: Unsent = Unsent {
    full: 0,
    shrunk: 0,
    purged: 0,
    refused: 0,
};

/// Counts of the fates of a run's packets.
#[derive(Drop)]
pub struct Counts {
    /// What each unit sent.
    pub by_unit: Vec<u64>,
    /// What each station didn't send.
    pub by_station: Vec<Unsent>,
    /// Of all packets, those that were sent.
    pub sent: u64,
    /// Of all packets, those that weren't.
    pub unsent: Unsent,
}

fn count(unsent: &mut Unsent, fate: &Fate)
    requires { CanCountOneMore unsent.old }
    ensures { unsent.new ≡ counted_unsent fate.now unsent.old }
{
    match *fate {
        Fate::Sent { .. } => {}
        Fate::Full { .. } => unsent.full += 1,
        Fate::Shrunk { .. } => unsent.shrunk += 1,
        Fate::Purged { .. } => unsent.purged += 1,
        Fate::Refused { .. } => unsent.refused += 1,
    }
}

fn count_by_unit(counts: &mut Vec<u64>, fate: &Fate)
    requires { All (λ sent. sent < 2 ^ 63) counts.old.items }
    ensures { counts.new.items ≡ counted_by_unit fate.now counts.old.items }
{
    if let Fate::Sent { unit, .. } = *fate {
        let unit = unit as usize;
        if unit < counts.len() {
            counts[unit] += 1;
        }
    }
}

fn count_by_station(counts: &mut Vec<Unsent>, fate: &Fate, station: u32)
    requires { All CanCountOneMore counts.old.items }
    ensures { counts.new.items ≡ counted_by_station fate.now station counts.old.items }
{
    let station = station as usize;
    if station < counts.len() {
        count(&mut counts[station], fate);
    }
}

fn count_packet(counts: &mut Counts, fate: &Fate, station: u32)
    requires { CanCount counts.old }
    ensures { AreWithOne counts.old counts.new fate.now station }
{
    count_by_unit(&mut counts.by_unit, fate);
    count_by_station(&mut counts.by_station, fate, station);
    count(&mut counts.unsent, fate);
    if let Fate::Sent { .. } = *fate {
        counts.sent += 1;
    }
}

fn none_by_unit(alloc: Global, units: u32) -> Result<Vec<u64>, NoMemory>
    ensures { IfOk result (λ counts. counts.items ≡ replicate units 0) }
{
    vec![in alloc; 0u64; units as usize].map_err(|_| NoMemory)
}

fn none_by_station(alloc: Global, stations: u32) -> Result<Vec<Unsent>, NoMemory>
    ensures { IfOk result (λ counts. counts.items ≡ replicate stations none_unsent) }
{
    vec![in alloc; NONE; stations as usize].map_err(|_| NoMemory)
}

fn no_counts(alloc: Global, stations: u32, units: u32) -> Result<Counts, NoMemory>
    ensures { IfOk result (λ counts. AreCounts [] [] stations units counts) }
{
    let by_unit = none_by_unit(alloc, units)?;
    let by_station = none_by_station(alloc, stations)?;
    Ok(Counts {
        by_unit,
        by_station,
        sent: 0,
        unsent: NONE,
    })
}

/// The counts of packets with these fates, of which packet n goes to the station of the n-th info.
///
/// # NoMemory
///
/// There was no room for them.
pub fn counts_of<F: Fates>(
    alloc: Global,
    fates: &F,
    infos: &[Info],
    stations: u32,
    units: u32,
) -> Result<Counts, NoMemory>
    requires { length (F.fates fates.now) ≡ length infos.now }
    ensures { IfOk result (λ counts. AreCounts (F.fates fates.now) infos.now stations units counts) }
{
    let mut counts = no_counts(alloc, stations, units)?;
    for n in 0..fates.len() {
        let fate = fates.fate(n);
        count_packet(&mut counts, &fate, infos[n].station as u32);
    }
    Ok(counts)
}
