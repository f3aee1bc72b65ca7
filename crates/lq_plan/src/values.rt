// The values of a table.
ghost use Rattle.std.specs.Prelude.{◌≡◌, map, option_map, option_and_then, []};
ghost use Rattle.std.specs.Option.{option_map_or};
ghost use Rattle.toml.specs.Data.{as_array, get_member};
ghost use Rattle.toml.specs.View.{table_view, view};
ghost use Rattle.lq_plan.specs.Values.{classify_of, elements_of, event_word_of, flag_at, number_value, split_of, spread_of, text_at};

use lq_model::{Classify, Split, Spread};
use toml::{Table, Value};

/// What an event does to its station, as its `kind` says.
#[derive(Clone, Copy, PartialEq, Eq)]
pub enum EventWord {
    Down,
    Up,
    Resize,
    TxQueueLen,
    Swap,
}

/// The value at a key.
pub fn value_at<'a>(table: &'a Table, name: &str) -> Option<&'a Value>
    ensures { option_map (λ v. view v.now) result ≡ get_member name.now (table_view table.now) }
{
    table.get(name)
}

/// The number at a key, or its default where there is none that isn't negative.
pub fn number_value(table: &Table, name: &str, default: u64) -> u64
    ensures { result ≡ number_value name.now default (table_view table.now) }
{
    match value_at(table, name) {
        Some(Value::Integer(number)) if *number >= 0 => *number as u64,
        _ => default,
    }
}

/// The truth value at a key, or its default where there is none.
pub fn flag_at(table: &Table, name: &str, default: bool) -> bool
    ensures { result ≡ flag_at name.now default (table_view table.now) }
{
    match value_at(table, name) {
        Some(Value::Boolean(flag)) => *flag,
        _ => default,
    }
}

/// The text at a key.
pub fn text_at<'a>(table: &'a Table, name: &str) -> Option<&'a str>
    ensures { option_map (λ text. text.now) result ≡ text_at name.now (table_view table.now) }
{
    match value_at(table, name) {
        Some(Value::String(text)) => Some(text.as_str()),
        _ => None,
    }
}

/// The elements of an array.
pub fn elements_in(value: &Value) -> Option<&[Value]>
    ensures { option_map (λ elements. map view elements.now) result ≡ option_map elements_of (as_array (view value.now)) }
{
    match value {
        Value::Array(elements) => Some(elements),
        _ => None,
    }
}

/// The elements of the array at a key, or none.
pub fn elements_at<'a>(table: &'a Table, name: &str) -> &'a [Value]
    ensures { map view result.now ≡ option_map_or elements_of (option_and_then as_array (get_member name.now (table_view table.now))) [] }
{
    match value_at(table, name) {
        Some(value) => elements_in(value).unwrap_or(&[]),
        None => &[],
    }
}

/// How packets are split, by its text; by flow where that is known.
pub fn split_of(flow: bool, text: &str) -> Option<Split>
    ensures { result ≡ split_of flow text.now }
{
    match text {
        "round" => Some(Split::Round),
        "source" => Some(Split::Source),
        "flow" if flow => Some(Split::Flow),
        _ => None,
    }
}

/// By what packets are spread, by its text; by flow where that is known.
pub fn spread_of(flow: bool, text: &str) -> Option<Spread>
    ensures { result ≡ spread_of flow text.now }
{
    match text {
        "bytes" => Some(Spread::Bytes),
        "flow" if flow => Some(Spread::Flow),
        _ => None,
    }
}

/// How packets get their priority, by its text; not at all where that is known.
pub fn classify_of(never: bool, text: &str) -> Option<Classify>
    ensures { result ≡ classify_of never text.now }
{
    match text {
        "tos" => Some(Classify::Tos),
        "none" if never => Some(Classify::Never),
        _ => None,
    }
}

/// What an event does, by its text.
pub fn event_word_of(text: &str) -> Option<EventWord>
    ensures { result ≡ event_word_of text.now }
{
    match text {
        "down" => Some(EventWord::Down),
        "up" => Some(EventWord::Up),
        "resize" => Some(EventWord::Resize),
        "tx_queue_len" => Some(EventWord::TxQueueLen),
        "swap" => Some(EventWord::Swap),
        _ => None,
    }
}
