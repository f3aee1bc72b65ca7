// What may be wrong with the keys of a table and their values.
ghost use Rattle.std.specs.Prelude.{◌≡◌, ◌&&◌, not, is_none, is_some, string_bytes};
ghost use Rattle.std.specs.BTreeMap.{keys};
ghost use Rattle.std.specs.List.{list_all, list_any};
ghost use Rattle.std.specs.Str.{bytes_eq};
ghost use Rattle.toml.specs.Data.{as_table, get_member, integer};
ghost use Rattle.toml.specs.View.{table_view, view};
ghost use Rattle.lq_plan.specs.Faults.{has_fault, has_kind, is_allowed, is_required, is_within, value_fails};
ghost use Rattle.lq_plan.specs.Keys.{keys_view, key_view};

use crate::keys::{Key, Presence, Rule};
use crate::values::{classify_of, elements_in, event_word_of, split_of, spread_of, value_at};
use toml::{Table, Value};

/// What may be wrong with a table, each fault with its own test of all keys.
#[derive(Clone, Copy)]
pub enum Fault {
    UnknownKey,
    MissingKey,
    WrongKind,
    OutOfRange,
}

/// Whether a table with these keys has a fault.
pub fn has_fault(fault: Fault, keys: &[Key], table: &Table) -> bool
    ensures { result ≡ has_fault fault (keys_view keys.now) (table_view table.now) }
{
    match fault {
        Fault::UnknownKey => has_unknown_key(keys, table),
        Fault::MissingKey => misses_key(keys, table),
        Fault::WrongKind => has_wrong_kind(keys, table),
        Fault::OutOfRange => has_value_out_of_range(keys, table),
    }
}

fn has_unknown_key(known: &[Key], table: &Table) -> bool
    ensures { result ≡ list_any (λ name. not (list_any (λ key. is_allowed key.presence && bytes_eq key.name.now (string_bytes name)) known.now))
        (keys table.now) }
{
    table.keys().any(|name| !is_known(known, name.as_str()))
}

fn is_known(keys: &[Key], name: &str) -> bool
    ensures { result ≡ list_any (λ key. is_allowed key.presence && bytes_eq key.name.now name.now) keys.now }
{
    keys.iter().any(|key| key.presence != Presence::Unknown && key.name == name)
}

fn misses_key(keys: &[Key], table: &Table) -> bool
    ensures { result ≡ list_any (λ key. is_required key.presence && is_none (get_member key.name.now (table_view table.now))) keys.now }
{
    keys.iter().any(|key| is_missing(key, table))
}

fn is_missing(key: &Key, table: &Table) -> bool
    ensures { result ≡ (is_required key.now.presence && is_none (get_member key.now.name.now (table_view table.now))) }
{
    key.presence == Presence::Required && value_at(table, key.name).is_none()
}

fn has_wrong_kind(keys: &[Key], table: &Table) -> bool
    ensures { result ≡ list_any (λ key. value_fails has_kind (table_view table.now) (key_view key)) keys.now }
{
    keys.iter().any(|key| is_of_wrong_kind(key, table))
}

fn is_of_wrong_kind(key: &Key, table: &Table) -> bool
    ensures { result ≡ value_fails has_kind (table_view table.now) (key_view key.now) }
{
    match value_at(table, key.name) {
        Some(value) => !has_kind(key.rule, value),
        None => false,
    }
}

fn has_kind(rule: Rule, value: &Value) -> bool
    ensures { result ≡ has_kind rule (view value.now) }
{
    match rule {
        Rule::Number { .. } => value.is_integer(),
        Rule::Flag => value.is_bool(),
        Rule::SplitText { .. }
        | Rule::SpreadText { .. }
        | Rule::ClassifyText { .. }
        | Rule::EventText => value.is_str(),
        Rule::Tables { .. } => match elements_in(value) {
            Some(elements) => are_tables(elements),
            None => false,
        },
    }
}

fn are_tables(elements: &[Value]) -> bool
    ensures { result ≡ list_all (λ element. is_some (as_table (view element))) elements.now }
{
    elements.iter().all(|element| element.is_table())
}

fn has_value_out_of_range(keys: &[Key], table: &Table) -> bool
    ensures { result ≡ list_any (λ key. value_fails is_within (table_view table.now) (key_view key)) keys.now }
{
    keys.iter().any(|key| is_out_of_range(key, table))
}

fn is_out_of_range(key: &Key, table: &Table) -> bool
    ensures { result ≡ value_fails is_within (table_view table.now) (key_view key.now) }
{
    match value_at(table, key.name) {
        Some(value) => !is_within(key.rule, value),
        None => false,
    }
}

// Of a value that has the kind.
fn is_within(rule: Rule, value: &Value) -> bool
    ensures { result ≡ is_within rule (view value.now) }
{
    match rule {
        Rule::Number { low, high } => match value {
            Value::Integer(number) => is_between(low, high, *number),
            _ => true,
        },
        Rule::Flag => true,
        Rule::SplitText { flow } => match value {
            Value::String(text) => split_of(flow, text.as_str()).is_some(),
            _ => true,
        },
        Rule::SpreadText { flow } => match value {
            Value::String(text) => spread_of(flow, text.as_str()).is_some(),
            _ => true,
        },
        Rule::ClassifyText { never } => match value {
            Value::String(text) => classify_of(never, text.as_str()).is_some(),
            _ => true,
        },
        Rule::EventText => match value {
            Value::String(text) => event_word_of(text.as_str()).is_some(),
            _ => true,
        },
        Rule::Tables { low, high } => match elements_in(value) {
            Some(elements) => low <= elements.len() as u64 && elements.len() as u64 <= high,
            None => true,
        },
    }
}

fn is_between(low: u64, high: u64, number: i64) -> bool
    ensures { result ≡ is_within (Rule.Number low high) (integer number) }
{
    number >= 0 && low <= number as u64 && number as u64 <= high
}
