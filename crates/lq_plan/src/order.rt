// The order of events.
ghost use Rattle.std.specs.Prelude.{◌≡◌, true, Some};
ghost use Rattle.std.specs.List.{list_any};
ghost use Rattle.lq_model.specs.Numbers.{first_numbers};
ghost use Rattle.lq_model.specs.Plan.{is_at, reach};
ghost use Rattle.lq_plan.specs.Limits.{active_after, falls_below, is_misplaced, is_out_of_order, kinds_at};

use crate::plan::MAX_STATIONS;
use lq_model::{EventKind, EventPlan};

/// Whether an event stands before an earlier packet than the one in front of it, or finds its station active or
/// deactivated where it can't be.
pub fn is_out_of_order(events: &[EventPlan]) -> bool
    ensures { result ≡ is_out_of_order events.now }
{
    falls(events) || a_station_has_misplaced(events)
}

fn falls(events: &[EventPlan]) -> bool
    ensures { result ≡ falls_below 0 events.now }
{
    let mut last = 0;
    for event in events {
        if event.before < last {
            return true;
        }
        last = event.before;
    }
    false
}

fn a_station_has_misplaced(events: &[EventPlan]) -> bool
    ensures { result ≡ list_any (λ station. is_misplaced (Some true) (kinds_at station events.now)) (first_numbers 8) }
{
    for station in 0..MAX_STATIONS {
        if has_misplaced(events, station) {
            return true;
        }
    }
    false
}

/// Whether an event is one of this station.
pub fn is_at(event: &EventPlan, station: u32) -> bool
    ensures { result ≡ is_at station event.now }
{
    event.station <= station && station - event.station < reach(event)
}

// To how many stations an event is done, from its own on.
fn reach(event: &EventPlan) -> u32
    ensures { result ≡ reach event.now }
{
    match event.kind {
        EventKind::Swap { .. } => 1,
        _ => event.mq,
    }
}

// Whether one of the events of a station finds it active or deactivated where it can't be.
fn has_misplaced(events: &[EventPlan], station: u32) -> bool
    ensures { result ≡ is_misplaced (Some true) (kinds_at station events.now) }
{
    let mut active = true;
    for event in events {
        if is_at(event, station) {
            match active_after(active, event.kind) {
                Some(next) => active = next,
                None => return true,
            }
        }
    }
    false
}

// Whether a station is active afterwards; None where this can't be done to it.
fn active_after(active: bool, kind: EventKind) -> Option<bool>
    ensures { result ≡ active_after active kind }
{
    match (active, kind) {
        (true, EventKind::Down) => Some(false),
        (true, EventKind::Up) => None,
        (true, _) => Some(true),
        (false, EventKind::Up) => Some(true),
        (false, _) => None,
    }
}
