// The keys of a plan, as docs/FORMATS.md has them in a table.
ghost use Rattle.std.specs.Prelude.{◌≡◌, codes, if◌then◌else◌, nat_lt, ◌<◌};
ghost use Rattle.toml.specs.View.{table_view};
ghost use Rattle.lq_plan.specs.Tables.{tables_view};
ghost use Rattle.lq_plan.specs.Keys.{card_number, event_keys, key, key_view, event_word_in, has_card, keys_view, least_burst, len_in, len_presence, max_len_in, max_len_for, most_with, mq_in, group_in, overhead_in, params_presence, root_keys, station_keys, version_in, version_of};
ghost use Rattle.lq_plan.specs.Values.{number_value};

use crate::values::{EventWord, event_word_of, number_value, text_at, value_at};
use toml::Table;

/// Whether a key may be in its table.
#[derive(Clone, Copy)]
pub enum Presence {
    Required,
    Optional,
    /// The table doesn't have it.
    Unknown,
}

/// What the value at a key may be.
#[derive(Clone, Copy)]
pub enum Rule {
    /// A whole number from `low` to `high`.
    Number { low: u64, high: u64 },
    /// True or false.
    Flag,
    /// How packets are split, as a text; by flow where that is known.
    SplitText { flow: bool },
    /// By what they are spread, as a text; by flow where that is known.
    SpreadText { flow: bool },
    /// How packets get their priority, as a text; not at all where that is known.
    ClassifyText { never: bool },
    /// What an event does, as a text.
    EventText,
    /// An array of so many tables.
    Tables { low: u64, high: u64 },
}

/// A key of a table.
#[derive(Clone, Copy)]
pub struct Key {
    pub name: &'static str,
    pub presence: Presence,
    pub rule: Rule,
}

/// What differs between the versions of the format.
#[derive(Clone, Copy)]
pub struct Version {
    pub number: u64,
    pub max_senders: u64,
    pub max_len: u64,
    /// Whether a station may say how many queues it has.
    pub queues: Presence,
    pub max_queues: u64,
    /// Whether it may say of how many stations it is the group.
    pub mq: Presence,
    pub max_mq: u64,
    /// Whether the stopped queues may be opened by the capture's time, and how many microseconds apart.
    pub irq_us: Presence,
    pub max_irq_us: u64,
    /// Whether a plan may say by what packets are spread.
    pub spread: Presence,
    /// Whether they may be split and spread by flow.
    pub flow: bool,
    /// Whether a station may have a card on a wire, and the plan say how packets get their priority.
    pub link: Presence,
    /// How many thousand bits a second the wire may carry.
    pub max_rate: u64,
    /// Whether packets may keep priority 0.
    pub never: bool,
}

const VERSION_1: Version = Version {
    number: 1,
    max_senders: 8,
    max_len: 4096,
    queues: Presence::Unknown,
    max_queues: 1,
    mq: Presence::Unknown,
    max_mq: 1,
    irq_us: Presence::Unknown,
    max_irq_us: 0,
    spread: Presence::Unknown,
    flow: false,
    link: Presence::Unknown,
    max_rate: 0,
    never: false,
};

const VERSION_2: Version = Version {
    number: 2,
    max_senders: 64,
    max_len: 65536,
    queues: Presence::Optional,
    max_queues: 8,
    ..VERSION_1
};

const VERSION_3: Version = Version {
    number: 3,
    mq: Presence::Optional,
    max_mq: 8,
    ..VERSION_2
};

const VERSION_4: Version = Version {
    number: 4,
    irq_us: Presence::Optional,
    max_irq_us: 1_000_000,
    spread: Presence::Optional,
    flow: true,
    ..VERSION_3
};

const VERSION_5: Version = Version {
    number: 5,
    link: Presence::Optional,
    max_rate: 1_000_000_000,
    never: true,
    ..VERSION_4
};

/// The number of the version that the document at this root says.
pub fn version_number(root: &Table) -> u64
    ensures { result ≡ version_in (table_view root.now) }
{
    number_value(root, "version", 1)
}

/// Its version: 5, 4, 3 or 2 where it says so, else 1.
pub fn version_of(root: &Table) -> Version
    ensures { result ≡ version_of (table_view root.now) }
{
    match version_number(root) {
        5 => VERSION_5,
        4 => VERSION_4,
        3 => VERSION_3,
        2 => VERSION_2,
        _ => VERSION_1,
    }
}

/// The keys of a document's root.
#[tactic(auto, unfolding(crate::specs::Keys::root_keys))]
pub fn root_keys(version: Version) -> [Key; 9]
    ensures { keys_view result ≡ root_keys version }
{
    [
        optional("version", number(1, version.number)),
        optional("senders", number(1, version.max_senders)),
        optional("split", Rule::SplitText { flow: version.flow }),
        key_of(
            "spread",
            version.spread,
            Rule::SpreadText { flow: version.flow },
        ),
        key_of(
            "classify",
            version.link,
            Rule::ClassifyText {
                never: version.never,
            },
        ),
        optional("irq_every", number(1, 1000)),
        key_of("irq_us", version.irq_us, number(1, version.max_irq_us)),
        required("station", Rule::Tables { low: 1, high: 8 }),
        optional("event", Rule::Tables { low: 0, high: 64 }),
    ]
}

/// The length of a station's rings, and the one to which a resize may bring them.
pub fn len_of(station: &Table) -> u64
    ensures { result ≡ len_in (table_view station.now) }
{
    number_value(station, "len", 1000)
}

pub fn max_len_of(station: &Table) -> u64
    ensures { result ≡ max_len_in (table_view station.now) }
{
    number_value(station, "max_len", len_of(station))
}

/// How many queues share a station's rings.
pub fn queues_of(station: &Table) -> u64
    ensures { result ≡ number_value (codes "queues") 1 (table_view station.now) }
{
    number_value(station, "queues", 1)
}

/// Of how many stations it is the group.
pub fn mq_of(station: &Table) -> u64
    ensures { result ≡ mq_in (table_view station.now) }
{
    number_value(station, "mq", 1)
}

// Each station of a group of several has one queue.
fn max_queues_of(version: Version, station: &Table) -> u64
    ensures { result ≡ (if nat_lt 1 (mq_in (table_view station.now)) then 1 else version.max_queues) }
{
    if mq_of(station) > 1 {
        1
    } else {
        version.max_queues
    }
}

/// The station of the text to which an event is done.
pub fn group_of(event: &Table) -> u64
    ensures { result ≡ group_in (table_view event.now) }
{
    number_value(event, "station", 0)
}

/// Whether a card on a wire opens a station's queue.
pub fn has_card(station: &Table) -> bool
    ensures { result ≡ has_card (table_view station.now) }
{
    value_at(station, "rate_kbit").is_some()
}

// A number of a card, without which it may not be there.
fn card_number(station: &Table, low: u64, high: u64) -> Rule
    ensures { result ≡ card_number (table_view station.now) low high }
{
    if has_card(station) {
        number(low, high)
    } else {
        number(1, 0)
    }
}

/// How many bytes come with each frame on the wire: where it isn't said, those of Ethernet, which are 8 of preamble, 4 of FCS and 12 of the gap.
pub fn overhead_of(station: &Table) -> u64
    ensures { result ≡ overhead_in (table_view station.now) }
{
    number_value(station, "overhead", 24)
}

/// The least `burst`, which is its default: the device of a card stops its queue at each packet.
pub fn least_burst(station: &Table) -> u64
    ensures { result ≡ least_burst (table_view station.now) }
{
    u64::from(has_card(station))
}

// The greatest number of a rule by which a device answers; with a card it is this.
fn most_with(number: u64, station: &Table) -> u64
    ensures { result ≡ most_with number (table_view station.now) }
{
    if has_card(station) { number } else { 1_000_000 }
}

/// The keys of a station.
#[tactic(auto, unfolding(crate::specs::Keys::station_keys))]
pub fn station_keys(version: Version, station: &Table) -> [Key; 15]
    ensures { keys_view result ≡ station_keys version (table_view station.now) }
{
    let link = version.link;
    let least_bytes = 1_u64.saturating_sub(overhead_of(station));
    let burst = number(least_burst(station), most_with(1, station));
    let turned_off = number(0, most_with(0, station));
    [
        optional("len", number(1, version.max_len)),
        optional("max_len", number(len_of(station), version.max_len)),
        optional("bypass", Rule::Flag),
        key_of(
            "queues",
            version.queues,
            number(1, max_queues_of(version, station)),
        ),
        key_of("mq", version.mq, number(1, version.max_mq)),
        key_of("rate_kbit", link, number(1, version.max_rate)),
        key_of("ring", link, card_number(station, 1, 65_536)),
        key_of("bql", link, card_number(station, 0, 1_000_000_000)),
        key_of("coalesce_us", link, card_number(station, 0, 1_000_000)),
        key_of("overhead", link, card_number(station, 0, 1000)),
        key_of("mpu", link, card_number(station, least_bytes, 1000)),
        optional("burst", burst),
        optional("busy_every", turned_off),
        optional("busy_limit", number(0, 1_000_000)),
        optional("hang_after", turned_off),
    ]
}

/// What an event does; None where its `kind` isn't one of the five texts.
pub fn event_word(event: &Table) -> Option<EventWord>
    ensures { result ≡ event_word_in (table_view event.now) }
{
    match text_at(event, "kind") {
        Some(text) => event_word_of(text),
        None => None,
    }
}

fn len_presence(word: Option<EventWord>) -> Presence
    ensures { result ≡ len_presence word }
{
    match word {
        None => Presence::Optional,
        Some(EventWord::Resize | EventWord::TxQueueLen) => Presence::Required,
        Some(EventWord::Down | EventWord::Up | EventWord::Swap) => Presence::Unknown,
    }
}

fn params_presence(word: Option<EventWord>) -> Presence
    ensures { result ≡ params_presence word }
{
    match word {
        None | Some(EventWord::Swap) => Presence::Optional,
        Some(_) => Presence::Unknown,
    }
}

// The greatest length of an event's station, or 0 where there is no such station.
fn max_len_for(stations: &[&Table], event: &Table) -> u64
    ensures { result ≡ max_len_for (tables_view stations.now) (table_view event.now) }
{
    match stations.get(group_of(event) as usize) {
        Some(station) => max_len_of(station),
        None => 0,
    }
}

/// The keys of an event, beside these stations.
#[tactic(auto, unfolding(crate::specs::Keys::event_keys))]
pub fn event_keys(stations: &[&Table], event: &Table) -> [Key; 8]
    ensures { keys_view result ≡ event_keys (tables_view stations.now) (table_view event.now) }
{
    let word = event_word(event);
    let last_station = (stations.len() as u64).saturating_sub(1);
    let presence = params_presence(word);
    [
        required("before", number(0, 1_000_000)),
        required("kind", Rule::EventText),
        required("station", number(0, last_station)),
        key_of(
            "len",
            len_presence(word),
            number(1, max_len_for(stations, event)),
        ),
        param("burst", presence),
        param("busy_every", presence),
        param("busy_limit", presence),
        param("hang_after", presence),
    ]
}

fn number(low: u64, high: u64) -> Rule
    ensures { result ≡ Rule.Number low high }
{
    Rule::Number { low, high }
}

fn key_of(name: &'static str, presence: Presence, rule: Rule) -> Key
    ensures { key_view result ≡ key name.now presence rule }
{
    Key {
        name,
        presence,
        rule,
    }
}

fn optional(name: &'static str, rule: Rule) -> Key
    ensures { key_view result ≡ key name.now Presence.Optional rule }
{
    key_of(name, Presence::Optional, rule)
}

fn required(name: &'static str, rule: Rule) -> Key
    ensures { key_view result ≡ key name.now Presence.Required rule }
{
    key_of(name, Presence::Required, rule)
}

// One of the numbers by which a device answers.
fn param(name: &'static str, presence: Presence) -> Key
    ensures { key_view result ≡ key name.now presence (Rule.Number 0 1000000) }
{
    key_of(name, presence, number(0, 1_000_000))
}
