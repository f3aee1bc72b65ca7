// A document and its faults.
ghost use Rattle.std.specs.Prelude.{◌≡◌, ◌&&◌, ◌||◌, codes, is_some, nat_lt, map, sum, IfOk};
ghost use Rattle.std.specs.List.{list_any};
ghost use Rattle.toml.specs.Data.{get_member};
ghost use Rattle.toml.specs.View.{table_view};
ghost use Rattle.lq_model.specs.Plan.{is_swap_kind, mq_at};
ghost use Rattle.lq_plan.specs.Document.{document_of, document_view, has_fault_in};
ghost use Rattle.lq_plan.specs.Faults.{has_fault};
ghost use Rattle.lq_plan.specs.Keys.{event_keys, event_word_in, group_in, has_card, mq_in, station_keys, version_of};
ghost use Rattle.lq_plan.specs.Reading.{first_fault, has_card_fault, has_group_fault, has_two_irqs, has_two_limits, kind_as, plan_in};
ghost use Rattle.lq_plan.specs.Tables.{tables_view};
ghost use Rattle.lq_plan.specs.Values.{tables_at};

use crate::faults::{Fault, has_fault};
use crate::keys::{
    Version, event_keys, event_word, group_of, has_card, mq_of, root_keys, station_keys, version_of,
};
use crate::plan::MAX_STATIONS;
use crate::values::{EventWord, elements_at, number_value, value_at};
use lq_model::PlanReason;
use std::alloc::{AllocError, Global};
use toml::{Table, Value};

/// The root of a document, and the tables of its two arrays.
#[derive(Drop)]
pub struct Document<'a> {
    pub root: &'a Table,
    pub stations: Vec<&'a Table>,
    pub events: Vec<&'a Table>,
}

impl<'a> Document<'a> {
    /// Finds the tables; what else stands in the arrays is left out.
    pub fn new(alloc: Global, root: &'a Table) -> Result<Self, AllocError>
        ensures { IfOk result (λ document. document_view document ≡ document_of (table_view root.now)) }
    {
        let stations = tables_at(alloc, root, "station")?;
        let events = tables_at(alloc, root, "event")?;
        Ok(Document {
            root,
            stations,
            events,
        })
    }

    /// Whether one of the tables has a fault, by the keys of this version.
    pub fn has_fault(&self, version: Version, fault: Fault) -> bool
        ensures { result ≡ has_fault_in version fault (document_view self.now) }
    {
        has_fault(fault, &root_keys(version), self.root)
            || a_station_has_fault(fault, version, &self.stations)
            || an_event_has_fault(fault, &self.stations, &self.events)
    }

    /// Why the document is no plan, by the keys and values of its tables.
    pub fn first_fault(&self) -> Option<PlanReason>
        ensures { result ≡ first_fault (version_of (document_view self.now).root) (document_view self.now) }
    {
        let version = version_of(self.root);
        if self.has_fault(version, Fault::UnknownKey) {
            Some(PlanReason::UnknownKey)
        } else if self.has_fault(version, Fault::MissingKey) {
            Some(PlanReason::Missing)
        } else if self.has_fault(version, Fault::WrongKind) {
            Some(PlanReason::Kind)
        } else if self.has_fault(version, Fault::OutOfRange)
            || self.has_group_fault()
            || has_two_irqs(self.root)
            || self.has_card_fault()
        {
            Some(PlanReason::Range)
        } else {
            None
        }
    }

    /// Whether there are too many stations, or an event swaps the device of a group of several.
    fn has_group_fault(&self) -> bool
        ensures { result ≡ has_group_fault (plan_in (document_view self.now)) }
    {
        are_too_many(&self.stations) || swaps_a_group(&self.stations, &self.events)
    }

    /// Whether a card opens the queue and something else does, too, or its device is swapped.
    fn has_card_fault(&self) -> bool
        ensures { result ≡ has_card_fault (document_view self.now) }
    {
        let card = has_a_card(&self.stations);
        let swap = swaps_a_device(&self.events);
        card && (has_irq(self.root) || swap)
    }

    /// Whether a station has both a limit of descriptors and one of bytes.
    pub fn has_two_limits(&self) -> bool
        ensures { result ≡ list_any has_two_limits (document_view self.now).stations }
    {
        a_station_has_two_limits(&self.stations)
    }
}

// Whether it says both how many packets and how many microseconds there are from one opening of the stopped queues to the next.
fn has_two_irqs(root: &Table) -> bool
    ensures { result ≡ has_two_irqs (table_view root.now) }
{
    value_at(root, "irq_every").is_some() && value_at(root, "irq_us").is_some()
}

fn has_a_card(stations: &[&Table]) -> bool
    ensures { result ≡ list_any (λ station. has_card (table_view station.now)) stations.now }
{
    stations.iter().any(|station| has_card(station))
}

fn has_irq(root: &Table) -> bool
    ensures { result ≡ (is_some (get_member (codes "irq_every") (table_view root.now)) || is_some (get_member (codes "irq_us") (table_view root.now))) }
{
    value_at(root, "irq_every").is_some() || value_at(root, "irq_us").is_some()
}

fn swaps_a_device(events: &[&Table]) -> bool
    ensures { result ≡ list_any (λ event. is_swap_kind (kind_as (event_word_in (table_view event.now)) (table_view event.now))) events.now }
{
    events.iter().any(|event| swaps_device(event))
}

fn swaps_device(event: &Table) -> bool
    ensures { result ≡ is_swap_kind (kind_as (event_word_in (table_view event.now)) (table_view event.now)) }
{
    event_word(event) == Some(EventWord::Swap)
}

fn a_station_has_two_limits(stations: &[&Table]) -> bool
    ensures { result ≡ list_any (λ station. has_two_limits (table_view station.now)) stations.now }
{
    stations.iter().any(|station| has_two_limits(station))
}

fn has_two_limits(station: &Table) -> bool
    ensures { result ≡ has_two_limits (table_view station.now) }
{
    value_at(station, "ring").is_some() && number_value(station, "bql", 0) > 0
}

// Whether the groups are more stations than a plan may have.
fn are_too_many(stations: &[&Table]) -> bool
    ensures { result ≡ nat_lt 8 (sum (map mq_in (tables_view stations.now))) }
{
    let mut room = u64::from(MAX_STATIONS);
    for station in stations {
        let mq = mq_of(station);
        if mq > room {
            return true;
        }
        room -= mq;
    }
    false
}

fn swaps_a_group(stations: &[&Table], events: &[&Table]) -> bool
    ensures { result ≡ list_any (λ event.
        is_swap_kind (kind_as (event_word_in (table_view event.now)) (table_view event.now))
        && nat_lt 1 (mq_at (map mq_in (tables_view stations.now)) (group_in (table_view event.now)))) events.now }
{
    events.iter().any(|event| swaps_group(stations, event))
}

// Whether an event swaps the device of a group of several.
fn swaps_group(stations: &[&Table], event: &Table) -> bool
    ensures { result ≡ (is_swap_kind (kind_as (event_word_in (table_view event.now)) (table_view event.now))
        && nat_lt 1 (mq_at (map mq_in (tables_view stations.now)) (group_in (table_view event.now)))) }
{
    event_word(event) == Some(EventWord::Swap) && mq_for(stations, event) > 1
}

// Of how many stations the group of an event is; 0 of no group.
fn mq_for(stations: &[&Table], event: &Table) -> u64
    ensures { result ≡ mq_at (map mq_in (tables_view stations.now)) (group_in (table_view event.now)) }
{
    match stations.get(group_of(event) as usize) {
        Some(station) => mq_of(station),
        None => 0,
    }
}

// The tables that are elements of the array at a key.
fn tables_at<'a>(alloc: Global, table: &'a Table, name: &str) -> Result<Vec<&'a Table>, AllocError>
    ensures { IfOk result (λ tables. tables_view tables.items ≡ tables_at name.now (table_view table.now)) }
{
    let elements = elements_at(table, name);
    let mut tables = Vec::with_capacity(alloc, elements.len())?;
    for element in elements {
        if let Some(table) = element.as_table() {
            tables.push(table)?;
        }
    }
    Ok(tables)
}

fn a_station_has_fault(fault: Fault, version: Version, stations: &[&Table]) -> bool
    ensures { result ≡ list_any (λ station. has_fault fault (station_keys version (table_view station.now)) (table_view station.now)) stations.now }
{
    stations.iter().any(|station| has_fault(fault, &station_keys(version, station), station))
}

fn an_event_has_fault(fault: Fault, stations: &[&Table], events: &[&Table]) -> bool
    ensures { result ≡ list_any (λ event. has_fault fault (event_keys (tables_view stations.now) (table_view event.now)) (table_view event.now))
        events.now }
{
    events.iter().any(|event| has_fault(fault, &event_keys(stations, event), event))
}
