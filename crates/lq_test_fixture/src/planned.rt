//! What a plan has for its stations, its units and the first sender's packets. The stations are the children of all roots: an
//! event of a root is one of each of its children.
use lq_model::batch;
use lq_plan::{EventKind, EventPlan, Params, Plan, is_at};

/// The plan's event of this number, if it is one of this station.
fn event_at(plan: &Plan, event: u32, station: u32) -> Option<EventPlan> {
    if event >= plan.events() {
        return None;
    }
    let found = plan.event(event);
    if is_at(&found, station) {
        Some(found)
    } else {
        None
    }
}

/// Whether an event deactivates this station, for good or for a while.
pub fn deactivates(plan: &Plan, event: u32, station: u32) -> bool {
    match event_at(plan, event, station) {
        Some(found) => matches!(
            found.kind,
            EventKind::Down | EventKind::TxQueueLen { len: _ } | EventKind::Swap { params: _ }
        ),
        None => false,
    }
}

/// Whether the first sender does an event of the plan behind its packet `n`.
pub fn is_behind(plan: &Plan, event: u32, n: usize) -> bool {
    event < plan.events() && plan.event(event).before as usize > n
}

/// The length of the station's rings before an event.
fn length_before(plan: &Plan, event: u32, station: u32) -> u32 {
    if station >= plan.stations() {
        return 0;
    }
    let mut length = plan.station(station).len;
    for e in 0..plan.events().min(event) {
        if let Some(found) = event_at(plan, e, station) {
            length = match found.kind {
                EventKind::Resize { len } | EventKind::TxQueueLen { len } => len,
                _ => length,
            };
        }
    }
    length
}

/// Whether an event resizes the station's rings to a lower length than they had.
pub fn shrinks(plan: &Plan, event: u32, station: u32) -> bool {
    match event_at(plan, event, station) {
        Some(found) => match found.kind {
            EventKind::Resize { len } => len < length_before(plan, event, station),
            _ => false,
        },
        None => false,
    }
}

/// The first event behind packet `n` of the first sender that deactivates the station: it purges all that is held.
pub fn next_deactivation(plan: &Plan, n: usize, station: u32) -> Option<u32> {
    for e in 0..plan.events() {
        if is_behind(plan, e, n) && deactivates(plan, e, station) {
            return Some(e);
        }
    }
    None
}

/// The event that has the station deactivated when packet `n` of the first sender comes.
pub fn down_before(plan: &Plan, n: usize, station: u32) -> Option<u32> {
    let mut down = None;
    for e in 0..plan.events() {
        if is_behind(plan, e, n) {
            return down;
        }
        if let Some(found) = event_at(plan, e, station) {
            down = match found.kind {
                EventKind::Down => Some(e),
                EventKind::Up => None,
                _ => down,
            };
        }
    }
    down
}

/// How many packets at least were let into a band of the station that was full: over the lengths that the plan gives its rings,
/// the length less a batch.
pub fn least_when_full(plan: &Plan, station: u32) -> u32 {
    let mut least = u32::MAX;
    for e in 0..=plan.events() {
        let length = length_before(plan, e, station);
        least = least.min(length.saturating_sub(batch(length)));
    }
    least
}

/// A unit of the plan: its station, and what it is configured with.
#[derive(Clone, Copy, Debug, PartialEq, Eq)]
pub struct Unit {
    pub station: u32,
    pub params: Params,
}

/// The unit of this number: the stations' first ones come first, and then those that swaps bring, in order.
pub fn unit_at(plan: &Plan, unit: u32) -> Option<Unit> {
    if unit < plan.stations() {
        let params = plan.station(unit).params;
        return Some(Unit {
            station: unit,
            params,
        });
    }
    let mut next = plan.stations();
    for e in 0..plan.events() {
        let event = plan.event(e);
        if let EventKind::Swap { params } = event.kind {
            if next == unit {
                return Some(Unit {
                    station: event.station,
                    params,
                });
            }
            next = next.saturating_add(1);
        }
    }
    None
}

/// The unit that the station has when packet `n` of the first sender comes.
pub fn unit_before(plan: &Plan, n: usize, station: u32) -> u32 {
    let mut unit = station;
    let mut next = plan.stations();
    for e in 0..plan.events() {
        if is_behind(plan, e, n) {
            return unit;
        }
        let event = plan.event(e);
        if let EventKind::Swap { params: _ } = event.kind {
            if event.station == station {
                unit = next;
            }
            next = next.saturating_add(1);
        }
    }
    unit
}

/// The last unit that the station has.
pub fn last_unit(plan: &Plan, station: u32) -> u32 {
    unit_before(plan, usize::MAX, station)
}
