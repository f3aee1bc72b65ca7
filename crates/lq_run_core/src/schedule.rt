//! The lines of a schedule.
ghost use Rattle.std.specs.Prelude.{◌≡◌, ◌<◌, ◌≤◌, IfSome, IfNone, length, true, ◌==◌, [], ◌∷◌, MatchOption, option_map, position};
ghost use Rattle.std.specs.List.{slice_split, list_all};
ghost use Rattle.std.specs.Char.{is_ascii_digit};
ghost use Rattle.std.specs.Str.Parse.{digits_value};
ghost use Rattle.lq_model.specs.Machine.{Machine as State};
ghost use Rattle.lq_run_core.specs.Schedule.{IsActionInRange, pieces_left, is_number, number_of, number_between, bare_action, answer_named, numbered_action, action_of, labelled, set_up, setup_line_of, words, command_of, capped, capped_seat};

use crate::start::Start;
use lq_model::Answer;

/// What the first line of a schedule says of the machine.
#[derive(Clone, Copy)]
pub struct Setup {
    pub seats: u32,
    pub len: u32,
    pub bypass: bool,
}

/// What a line of a schedule has a seat do.
#[derive(Clone, Copy)]
pub enum Action {
    /// Begins a call.
    Begins(Start),
    /// Does so many steps, each with this answer.
    Steps { answer: Answer, count: u32 },
}

/// A line of a schedule: a seat, and what it does.
#[derive(Clone, Copy)]
pub struct Command {
    pub seat: u32,
    pub action: Action,
}

/// What is left of a line or a text to be cut into pieces; nothing behind the last piece.
pub(crate) type Rest<'a> = Option<&'a [u8]>;

/// The index of the first byte that ends a piece.
fn end_of_piece(bytes: &[u8], end: u8) -> Option<usize>
    ensures { result ≡ position (λ b. b == end) bytes.now }
{
    bytes.iter().position(|b| *b == end)
}

/// The first piece, and what is left behind the byte that ends it.
pub(crate) fn cut(bytes: &[u8], end: u8) -> (&[u8], Rest<'_>)
    ensures pieces { slice_split (λ b. b == end) bytes.now ≡ result.0.now ∷ pieces_left end result.1 }
    ensures whole { IfNone result.1 (result.0.now ≡ bytes.now) }
    ensures shorter { IfSome result.1 (λ rest. length rest.now < length bytes.now) }
{
    match end_of_piece(bytes, end) {
        None => (bytes, None),
        Some(at) => (&bytes[..at], Some(&bytes[at + 1..])),
    }
}

/// The next piece of what is left, and what is left behind it.
fn next_word(rest: Rest<'_>) -> Option<(&[u8], Rest<'_>)>
    ensures { MatchOption result (pieces_left 32 rest.entry ≡ []) (λ p. pieces_left 32 rest.entry ≡ p.0.now ∷ pieces_left 32 p.1) }
{
    Some(cut(rest?, b' '))
}

fn are_digits(word: &[u8]) -> bool
    ensures { result ≡ list_all is_ascii_digit word.now }
{
    word.iter().all(|b| b.is_ascii_digit())
}

/// Whether a word is decimal digits, with no leading zero unless it is `0`.
pub fn is_number(word: &[u8]) -> bool
    ensures { result ≡ is_number word.now }
{
    !word.is_empty() && are_digits(word) && !(word.len() > 1 && word[0] == b'0')
}

/// The number that digits write, or the greatest `u32` in place of a greater one.
fn value(digits: &[u8]) -> u32
    requires { list_all is_ascii_digit digits.now ≡ true }
    ensures { result ≡ capped (digits_value 10 digits.now) }
{
    let mut value = 0u32;
    for digit in digits {
        value = value
            .saturating_mul(10)
            .saturating_add((*digit - b'0') as u32);
    }
    value
}

/// The number that a word is, or the greatest `u32` in place of a greater one.
fn number(word: &[u8]) -> Option<u32>
    ensures { result ≡ option_map capped (number_of word.now) }
{
    if is_number(word) {
        Some(value(word))
    } else {
        None
    }
}

/// The number that a word is, where it is from `low` to `high`.
fn number_within(word: &[u8], low: u32, high: u32) -> Option<u32>
    requires { high < 4294967295 }
    ensures number { result ≡ number_between low high word.now }
    ensures bounds { IfSome result (λ n. (low ≤ n) × (n ≤ high)) }
{
    let found = number(word)?;
    if low <= found && found <= high {
        Some(found)
    } else {
        None
    }
}

/// The answer that a step may have beside the plain one.
fn answer_named(verb: &[u8]) -> Option<Answer>
    ensures { result ≡ answer_named verb.now }
{
    if verb == b"full".as_slice() {
        return Some(Answer::FullSlot);
    }
    if verb == b"stop".as_slice() {
        return Some(Answer::Stop);
    }
    if verb == b"hang".as_slice() {
        return Some(Answer::Hang);
    }
    if verb == b"busy".as_slice() {
        return Some(Answer::Busy);
    }
    None
}

/// The action of a word that stands alone behind the seat.
fn bare_action(verb: &[u8]) -> Option<Action>
    ensures action { result ≡ bare_action verb.now }
    ensures range { IfSome result (λ a. (m : State) → IsActionInRange a m) }
{
    if verb == b"softirq".as_slice() {
        return Some(Action::Begins(Start::SoftIrq));
    }
    if verb == b"wake".as_slice() {
        return Some(Action::Begins(Start::Wake));
    }
    let answer = answer_named(verb)?;
    Some(Action::Steps { answer, count: 1 })
}

/// The action of a word and a number behind it.
fn numbered_action(verb: &[u8], number: &[u8]) -> Option<Action>
    ensures action { result ≡ numbered_action verb.now number.now }
    ensures range { IfSome result (λ a. (m : State) → IsActionInRange a m) }
{
    if verb == b"send".as_slice() {
        let band = number_within(number, 0, 2)?;
        return Some(Action::Begins(Start::Send { band }));
    }
    if verb == b"step".as_slice() {
        let count = number_within(number, 1, 1000)?;
        return Some(Action::Steps {
            answer: Answer::Plain,
            count,
        });
    }
    None
}

fn read_action(rest: Rest<'_>) -> Option<Action>
    ensures action { result ≡ action_of (pieces_left 32 rest.entry) }
    ensures range { IfSome result (λ a. (m : State) → IsActionInRange a m) }
{
    let (verb, rest) = next_word(rest)?;
    match next_word(rest) {
        None => bare_action(verb),
        Some((number, None)) => numbered_action(verb, number),
        Some((_, Some(_))) => None,
    }
}

/// What a line tells a seat to do; `None` where the line isn't of any form. A seat's number that 32 bits don't hold
/// is given as the greatest of them.
pub(crate) fn read_command(line: &[u8]) -> Option<Command>
    ensures command { result ≡ option_map capped_seat (command_of (words line.now)) }
    ensures range { IfSome result (λ c. (m : State) → IsActionInRange c.action m) }
{
    let (seat, rest) = cut(line, b' ');
    let seat = number(seat)?;
    let action = read_action(rest)?;
    Some(Command { seat, action })
}

/// A label and a number from `low` to `high` behind it, and what is left behind them.
fn labelled<'a>(rest: Rest<'a>, label: &[u8], low: u32, high: u32) -> Option<(u32, Rest<'a>)>
    requires { high < 4294967295 }
    ensures number { option_map (λ p. (p.0, pieces_left 32 p.1)) result ≡ labelled label.now low high (pieces_left 32 rest.entry) }
    ensures bounds { IfSome result (λ p. (low ≤ p.0) × (p.0 ≤ high)) }
{
    let (first, rest) = next_word(rest)?;
    let (second, rest) = next_word(rest)?;
    if first != label {
        return None;
    }
    let number = number_within(second, low, high)?;
    Some((number, rest))
}

/// What the first line of a schedule says; `None` where it isn't of that form.
pub(crate) fn read_setup(line: &[u8]) -> Option<Setup>
    ensures setup { option_map (λ s. set_up s.seats s.len s.bypass) result ≡ setup_line_of (words line.now) }
    ensures seats { IfSome result (λ s. (1 ≤ s.seats) × (s.seats ≤ 8)) }
    ensures len { IfSome result (λ s. (1 ≤ s.len) × (s.len ≤ 4096)) }
{
    let (seats, rest) = labelled(Some(line), b"seats", 1, 8)?;
    let (len, rest) = labelled(rest, b"len", 1, 4096)?;
    let (bypass, rest) = labelled(rest, b"bypass", 0, 1)?;
    if rest.is_some() {
        return None;
    }
    Some(Setup {
        seats,
        len,
        bypass: bypass == 1,
    })
}
