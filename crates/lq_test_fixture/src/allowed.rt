//! Which fates a plan allows the packets of a run.
use crate::fates::Told;
use crate::flaw::{Flaw, demand};
use crate::planned::{
    deactivates, down_before, is_behind, last_unit, least_when_full, next_deactivation, shrinks,
    unit_at, unit_before,
};
use lq_model::Info;
use lq_plan::Plan;
use std::alloc::Global;

/// The most stations of a plan.
const STATIONS: usize = 8;

/// The most units.
const UNITS: usize = 72;

/// The most senders.
const SENDERS: usize = 64;

/// A run, as its plan, its packets and their fates have it: the fate at place n is that of the packet at place n.
#[derive(Drop)]
pub struct Run<'a> {
    pub plan: &'a Plan,
    pub packets: &'a [Info],
    pub fates: &'a [Told],
}

/// What the fates come to: how many packets were let into each band of each station, and how many each unit sent.
#[derive(Drop)]
pub struct Tally {
    let_in: [[usize; 3]; STATIONS],
    sent: [usize; UNITS],
}

impl Tally {
    /// Of a run.
    pub fn of(run: &Run<'_>) -> Tally {
        let mut tally = Tally {
            let_in: [[0; 3]; STATIONS],
            sent: [0; UNITS],
        };
        for (packet, fate) in run.packets.iter().zip(run.fates) {
            tally.count(packet, *fate);
        }
        tally
    }

    fn count(&mut self, packet: &Info, fate: Told) {
        if fate.is_let_in() {
            if let Some(bands) = self.let_in.get_mut(packet.station as usize) {
                if let Some(count) = bands.get_mut(packet.band as usize) {
                    *count = count.saturating_add(1);
                }
            }
        }
        if let Told::Sent { unit, serial: _ } = fate {
            if let Some(count) = self.sent.get_mut(unit as usize) {
                *count = count.saturating_add(1);
            }
        }
    }

    fn let_in_with(&self, packet: &Info) -> usize {
        match self.let_in.get(packet.station as usize) {
            Some(bands) => bands.get(packet.band as usize).copied().unwrap_or(0),
            None => 0,
        }
    }

    /// How many packets a unit sent.
    pub fn sent_by(&self, unit: u32) -> usize {
        self.sent.get(unit as usize).copied().unwrap_or(0)
    }
}

/// A packet of a run, by its number.
#[derive(Clone, Copy)]
struct Packet {
    n: usize,
    info: Info,
}

impl Packet {
    fn station(self) -> u32 {
        u32::from(self.info.station)
    }

    /// Whether it is of the first sender, which does the events of the plan between its packets.
    fn is_first_senders(self) -> bool {
        self.info.owner == 0
    }
}

fn check_unit(plan: &Plan, packet: Packet, unit: u32) -> Result<(), Flaw> {
    let is_stations = match unit_at(plan, unit) {
        Some(found) => found.station == packet.station(),
        None => false,
    };
    let is_there = !packet.is_first_senders()
        || unit == unit_before(plan, packet.n, packet.station());
    demand(is_stations && is_there, Flaw::Unit(packet.n))
}

/// Whether this packet is another one of the same station and band that was let in.
fn may_be_seen(run: &Run<'_>, packet: Packet, seen: u32) -> bool {
    let seen = seen as usize;
    match (run.packets.get(seen), run.fates.get(seen)) {
        (Some(info), Some(fate)) => {
            seen != packet.n
                && info.station == packet.info.station
                && info.band == packet.info.band
                && fate.is_let_in()
        }
        _ => false,
    }
}

fn check_full(run: &Run<'_>, tally: &Tally, packet: Packet, seen: u32) -> Result<(), Flaw> {
    demand(may_be_seen(run, packet, seen), Flaw::Seen(packet.n))?;
    let least = least_when_full(run.plan, packet.station()) as usize;
    demand(
        tally.let_in_with(&packet.info) >= least,
        Flaw::Room(packet.n),
    )
}

/// A packet of the first sender is shrunk only by a resize behind it that comes before the next purge.
fn check_shrunk(plan: &Plan, packet: Packet, event: u32) -> Result<(), Flaw> {
    let found_it = match next_deactivation(plan, packet.n, packet.station()) {
        Some(next) => is_behind(plan, event, packet.n) && event < next,
        None => is_behind(plan, event, packet.n),
    };
    let may_find = !packet.is_first_senders() || found_it;
    demand(
        shrinks(plan, event, packet.station()) && may_find,
        Flaw::Shrunk(packet.n),
    )
}

/// A packet of the first sender is purged only by the next deactivation behind it.
fn check_purged(plan: &Plan, packet: Packet, event: u32) -> Result<(), Flaw> {
    let may_find = !packet.is_first_senders()
        || next_deactivation(plan, packet.n, packet.station()) == Some(event);
    demand(
        deactivates(plan, event, packet.station()) && may_find,
        Flaw::Purged(packet.n),
    )
}

/// The station's last unit is one that hangs, and sent as many packets as it may.
fn check_hung(run: &Run<'_>, tally: &Tally, packet: Packet) -> Result<(), Flaw> {
    let last = last_unit(run.plan, packet.station());
    let hangs = match unit_at(run.plan, last) {
        Some(found) => {
            let after = found.params.hang_after as usize;
            after > 0 && tally.sent_by(last) == after
        }
        None => false,
    };
    let may_be_held = !packet.is_first_senders()
        || next_deactivation(run.plan, packet.n, packet.station()).is_none();
    demand(hangs && may_be_held, Flaw::Hung(packet.n))
}

/// A packet of the first sender is refused exactly where the plan has its station deactivated, and by that event.
fn check_refused(plan: &Plan, packet: Packet, event: u32) -> Result<(), Flaw> {
    let may_meet = !packet.is_first_senders()
        || down_before(plan, packet.n, packet.station()) == Some(event);
    demand(
        deactivates(plan, event, packet.station()) && may_meet,
        Flaw::Refused(packet.n),
    )
}

fn check_fate(run: &Run<'_>, tally: &Tally, packet: Packet, fate: Told) -> Result<(), Flaw> {
    let plan = run.plan;
    if let Told::Refused { event } = fate {
        return check_refused(plan, packet, event);
    }
    if packet.is_first_senders() {
        let down = down_before(plan, packet.n, packet.station());
        demand(down.is_none(), Flaw::Taken(packet.n))?;
    }
    match fate {
        Told::Sent { unit, serial: _ } => check_unit(plan, packet, unit),
        Told::Full { seen } => check_full(run, tally, packet, seen),
        Told::Shrunk { event } => check_shrunk(plan, packet, event),
        Told::Purged { event } => check_purged(plan, packet, event),
        Told::PurgedHung => check_hung(run, tally, packet),
        Told::Refused { event: _ } => Ok(()),
    }
}

/// That no unit sent more than it may before it hangs.
fn check_hanging(plan: &Plan, tally: &Tally) -> Result<(), Flaw> {
    for unit in 0..plan.units() {
        if let Some(found) = unit_at(plan, unit) {
            let after = found.params.hang_after as usize;
            demand(
                after == 0 || tally.sent_by(unit) <= after,
                Flaw::TooMany(unit),
            )?;
        }
    }
    Ok(())
}

/// That the plan allows each packet its fate.
pub fn check_fates(run: &Run<'_>, tally: &Tally) -> Result<(), Flaw> {
    for (n, (info, fate)) in run.packets.iter().zip(run.fates).enumerate() {
        check_fate(run, tally, Packet { n, info: *info }, *fate)?;
    }
    check_hanging(run.plan, tally)
}

/// The packets that a unit sent, in order of serial: each serial below their number stands once.
fn sent_in_order(alloc: Global, run: &Run<'_>, tally: &Tally, by: u32) -> Result<Vec<usize>, Flaw> {
    let mut packets = vec![in alloc; usize::MAX; tally.sent_by(by)]?;
    for (n, fate) in run.fates.iter().enumerate() {
        if let Told::Sent { unit, serial } = fate {
            if *unit == by {
                match packets.get_mut(*serial as usize) {
                    Some(place) if *place == usize::MAX => *place = n,
                    _ => return Err(Flaw::Serials(by)),
                }
            }
        }
    }
    Ok(packets)
}

/// By station, sender and band: the lowest packet that may be sent next.
type Next = [[[usize; 3]; SENDERS]; STATIONS];

/// Takes the next place of a packet, and whether that is one behind the last of its sender, station and band.
fn comes_next(next: &mut Next, n: usize, info: &Info) -> bool {
    let Some(senders) = next.get_mut(info.station as usize) else {
        return false;
    };
    let Some(bands) = senders.get_mut(info.owner as usize) else {
        return false;
    };
    match bands.get_mut(info.band as usize) {
        Some(lowest) => {
            let ascends = n >= *lowest;
            *lowest = n.saturating_add(1);
            ascends
        }
        None => false,
    }
}

/// That each sender's packets of one station and band ascend in what a unit sent, also behind those of lower units.
fn check_order(run: &Run<'_>, next: &mut Next, unit: u32, sent: &[usize]) -> Result<(), Flaw> {
    for n in sent {
        let comes = match run.packets.get(*n) {
            Some(info) => comes_next(next, *n, info),
            None => false,
        };
        demand(comes, Flaw::Order(unit))?;
    }
    Ok(())
}

/// The packets that each unit sent, in order of serial, each sender's of one station and band in that sender's order.
pub fn sent_lists(alloc: Global, run: &Run<'_>, tally: &Tally) -> Result<Vec<Vec<usize>>, Flaw> {
    let mut next = [[[0usize; 3]; SENDERS]; STATIONS];
    let mut lists = Vec::new(alloc);
    for unit in 0..run.plan.units() {
        let sent = sent_in_order(alloc, run, tally, unit)?;
        check_order(run, &mut next, unit, &sent)?;
        lists.push(sent)?;
    }
    Ok(lists)
}
