// Reading a text as a plan.
ghost use Rattle.std.specs.Prelude.{◌≡◌, ◌≤◌, ◌++◌, map, length, replicate, sum, IfOk, IfErr, OnOk, Ok, Some};
ghost use Rattle.std.specs.List.{flat_map};
ghost use Rattle.toml.specs.View.{table_view};
ghost use Rattle.lq_plan.specs.Limits.{AreParamsWithin, IsCardWithin, IsIrqWithin, IsKindWithin, IsLimitWithin, IsStationWithin};
ghost use Rattle.lq_plan.specs.Keys.{event_word_in, mq_in, version_of};
ghost use Rattle.lq_plan.specs.Reading.{IsEventSmall, IsPlanRefusal, card_as, children_in, classify_in, event_in, has_many_links, irq_in, kind_as, limit_in, params_in, plan_by, plan_of, split_in, spread_in, station_plan_in};
ghost use Rattle.lq_plan.specs.Tables.{EachTable, tables_view};

use crate::document::Document;
use crate::keys::{
    event_word, group_of, has_card, least_burst, len_of, max_len_of, mq_of, overhead_of, queues_of,
    version_number,
};
use crate::order::is_out_of_order;
use crate::plan::{Plan, first_child};
use crate::refusal::PlanRefusal;
use crate::values::{
    EventWord, classify_of, flag_at, number_value, split_of, spread_of, text_at, value_at,
};
use lq_model::{
    Card, Classify, EventKind, EventPlan, Irq, Limit, Params, PlanReason, Split, Spread,
    StationPlan,
};
use std::alloc::{AllocError, Global};
use toml::Table;

/// The plan that the text is, a TOML document of the keys in docs/FORMATS.md.
///
/// # Refused
///
/// With the least reason of those that apply to the whole text.
///
/// # NoMemory
///
/// There was no room for the document, which is as large as the text, or for the plan.
pub fn read_plan(alloc: Global, text: &[u8]) -> Result<Plan, PlanRefusal>
    ensures plan { IfOk result (λ plan. plan_of text.now ≡ Ok plan) }
    ensures refusal { IfErr result (IsPlanRefusal (plan_of text.now)) }
{
    match toml::table_from_slice(alloc, text) {
        Ok(root) => read_root(alloc, &root),
        Err(error) => {
            if error.is_memory() {
                Err(PlanRefusal::NoMemory)
            } else {
                Err(refused(PlanReason::NotToml))
            }
        }
    }
}

fn refused(reason: PlanReason) -> PlanRefusal
    ensures { result ≡ PlanRefusal.Refused reason }
{
    PlanRefusal::Refused { reason }
}

fn read_root(alloc: Global, root: &Table) -> Result<Plan, PlanRefusal>
    ensures plan { IfOk result (λ plan. plan_by (version_of (table_view root.now)) (table_view root.now) ≡ Ok plan) }
    ensures refusal { IfErr result (IsPlanRefusal (plan_by (version_of (table_view root.now)) (table_view root.now))) }
{
    let document = Document::new(alloc, root)?;
    if let Some(reason) = document.first_fault() {
        return Err(refused(reason));
    }
    let stations = read_stations(alloc, &document.stations)?;
    let groups = read_groups(alloc, &document.stations)?;
    let events = read_events(alloc, &groups, &document.events)?;
    if is_out_of_order(&events) {
        return Err(refused(PlanReason::EventOrder));
    }
    if document.has_two_limits() {
        return Err(refused(PlanReason::TwoLimits));
    }
    if has_many_links(&stations) {
        return Err(refused(PlanReason::OneLink));
    }
    Ok(Plan {
        version: version_number(root) as u32,
        senders: number_value(root, "senders", 1) as u32,
        split: read_split(root),
        spread: read_spread(root),
        classify: read_classify(root),
        irq: read_irq(root),
        stations,
        groups,
        events,
    })
}

fn read_split(root: &Table) -> Split
    ensures { result ≡ split_in (table_view root.now) }
{
    match text_at(root, "split") {
        Some(text) => split_of(true, text).unwrap_or(Split::Round),
        None => Split::Round,
    }
}

fn read_spread(root: &Table) -> Spread
    ensures { result ≡ spread_in (table_view root.now) }
{
    match text_at(root, "spread") {
        Some(text) => spread_of(true, text).unwrap_or(Spread::Bytes),
        None => Spread::Bytes,
    }
}

fn read_classify(root: &Table) -> Classify
    ensures { result ≡ classify_in (table_view root.now) }
{
    match text_at(root, "classify") {
        Some(text) => classify_of(true, text).unwrap_or(Classify::Tos),
        None => Classify::Tos,
    }
}

fn read_irq(root: &Table) -> Irq
    requires { IsIrqWithin (irq_in (table_view root.now)) }
    ensures { result ≡ irq_in (table_view root.now) }
{
    if value_at(root, "irq_us").is_some() {
        Irq::Period {
            microseconds: number_value(root, "irq_us", 1) as u32,
        }
    } else {
        Irq::Every {
            packets: number_value(root, "irq_every", 1) as u32,
        }
    }
}

fn read_stations(alloc: Global, stations: &[&Table]) -> Result<Vec<StationPlan>, AllocError>
    requires within { EachTable (λ station. IsStationWithin (station_plan_in station)) stations.now }
    requires few { EachTable (λ station. mq_in station ≤ 8) stations.now }
    ensures { IfOk result (λ plans. plans.items ≡ flat_map children_in (tables_view stations.now)) }
{
    let mut plans = Vec::with_capacity(alloc, stations.len())?;
    for station in stations {
        push_children(&mut plans, read_station(station), mq_of(station) as u32)?;
    }
    Ok(plans)
}

// So many stations more, all alike.
fn push_children(
    plans: &mut Vec<StationPlan>,
    station: StationPlan,
    mq: u32,
) -> Result<(), AllocError>
    ensures { OnOk result (plans.new.items ≡ plans.old.items ++ replicate mq station) }
{
    for child in 0..mq {
        let _ = child;
        plans.push(station)?;
    }
    Ok(())
}

// Of how many stations each is the group.
fn read_groups(alloc: Global, stations: &[&Table]) -> Result<Vec<u32>, AllocError>
    requires { EachTable (λ station. mq_in station ≤ 8) stations.now }
    ensures { IfOk result (λ groups. groups.items ≡ map mq_in (tables_view stations.now)) }
{
    let mut groups = Vec::with_capacity(alloc, stations.len())?;
    for station in stations {
        groups.push(mq_of(station) as u32)?;
    }
    Ok(groups)
}

fn read_station(station: &Table) -> StationPlan
    requires { IsStationWithin (station_plan_in (table_view station.now)) }
    ensures { result ≡ station_plan_in (table_view station.now) }
{
    StationPlan {
        len: len_of(station) as u32,
        max_len: max_len_of(station) as u32,
        bypass: flag_at(station, "bypass", true),
        params: read_params(station, least_burst(station)),
        queues: queues_of(station) as u32,
        card: read_card(station),
    }
}

fn read_card(station: &Table) -> Option<Card>
    requires { (card : Card) → (station_plan_in (table_view station.now)).card ≡ Some card → IsCardWithin card }
    ensures { result ≡ (station_plan_in (table_view station.now)).card }
{
    if has_card(station) {
        Some(card_of(station))
    } else {
        None
    }
}

fn card_of(station: &Table) -> Card
    requires { IsCardWithin (card_as (table_view station.now)) }
    ensures { result ≡ card_as (table_view station.now) }
{
    Card {
        rate_kbit: number_value(station, "rate_kbit", 1) as u32,
        limit: read_limit(station),
        coalesce_us: number_value(station, "coalesce_us", 0) as u32,
        overhead: overhead_of(station) as u32,
        mpu: number_value(station, "mpu", 84) as u32,
    }
}

fn read_limit(station: &Table) -> Limit
    requires { IsLimitWithin (limit_in (table_view station.now)) }
    ensures { result ≡ limit_in (table_view station.now) }
{
    let bytes = number_value(station, "bql", 0);
    if bytes > 0 {
        Limit::Bql {
            bytes: bytes as u32,
        }
    } else {
        Limit::Ring {
            descriptors: number_value(station, "ring", 256) as u32,
        }
    }
}

// Whether there is a card, and its station has several queues or isn't the only one.
fn has_many_links(stations: &[StationPlan]) -> bool
    ensures { result ≡ has_many_links stations.now }
{
    let several = stations.len() > 1;
    stations.iter().any(|station| station.card.is_some() && (station.queues > 1 || several))
}

// Where `burst` has this default.
fn read_params(table: &Table, burst: u64) -> Params
    requires { AreParamsWithin (params_in burst (table_view table.now)) }
    ensures { result ≡ params_in burst (table_view table.now) }
{
    Params {
        burst: number_value(table, "burst", burst) as u32,
        busy_every: number_value(table, "busy_every", 0) as u32,
        busy_limit: number_value(table, "busy_limit", 0) as u32,
        hang_after: number_value(table, "hang_after", 0) as u32,
    }
}

fn read_events(
    alloc: Global,
    groups: &[u32],
    events: &[&Table],
) -> Result<Vec<EventPlan>, AllocError>
    requires few { (length groups.now ≤ 8) × (sum groups.now ≤ 8) }
    requires each { EachTable (IsEventSmall (length groups.now)) events.now }
    ensures { IfOk result (λ plans. plans.items ≡ map (event_in groups.now) (tables_view events.now)) }
{
    let mut plans = Vec::with_capacity(alloc, events.len())?;
    for event in events {
        plans.push(read_event(groups, event))?;
    }
    Ok(plans)
}

fn read_event(groups: &[u32], event: &Table) -> EventPlan
    requires few { (length groups.now ≤ 8) × (sum groups.now ≤ 8) }
    requires small { IsEventSmall (length groups.now) (table_view event.now) }
    ensures { result ≡ event_in groups.now (table_view event.now) }
{
    let group = group_of(event) as u32;
    EventPlan {
        before: number_value(event, "before", 0) as u32,
        station: first_child(groups, group),
        mq: groups[group as usize],
        kind: read_kind(event),
    }
}

fn read_kind(event: &Table) -> EventKind
    requires { IsKindWithin 65536 (kind_as (event_word_in (table_view event.now)) (table_view event.now)) }
    ensures { result ≡ kind_as (event_word_in (table_view event.now)) (table_view event.now) }
{
    match event_word(event) {
        Some(EventWord::Up) => EventKind::Up,
        Some(EventWord::Resize) => EventKind::Resize {
            len: number_value(event, "len", 1) as u32,
        },
        Some(EventWord::TxQueueLen) => EventKind::TxQueueLen {
            len: number_value(event, "len", 1) as u32,
        },
        Some(EventWord::Swap) => EventKind::Swap {
            params: read_params(event, 0),
        },
        Some(EventWord::Down) | None => EventKind::Down,
    }
}
