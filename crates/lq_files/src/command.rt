//! The command line, read with `clap`.
//!
//! No word of the command table is empty or begins with a dash. `clap` would take some that do: `--` in front of the
//! operands, a lone `-`, and an empty word. So a command line with such a word is refused before `clap` sees it. `clap`
//! decides all else: which form the words are of, whether they have its operands, and which word is which operand. Its
//! own help and version are switched off, so that `help` and `version` are names like any other. The numbers of `gen` and
//! of `tap` are read here from their texts.
ghost use Rattle.std.specs.Prelude.{◌≡◌, ◌≤◌, [], ◌∷◌, true, false, IfOk, IfSome, IsOkAnd, Some, None, option_map, option_and_then};
ghost use Rattle.std.specs.List.{list_all};
ghost use Rattle.clap.specs.Words.{app_of, found_of, with_rule, with_subcommand, rows_of, rule_of, subcommand_rows_of};
ghost use Rattle.clap.specs.declared.builder.command.Command.TheViews.{out-Command as fields_of};
ghost use Rattle.lq_run_core.specs.Schedule.{number_between};
ghost use Rattle.lq_files.specs.Command.{command_of_words, command_with, command_words, gen_of, bytes_of_words, is_operand, tap_of};
ghost use Rattle.lq_files.specs.Forms.{bare_app, command_in, five_in, form_of_five, form_of_one, form_of_three, one_in, operand_rule, table_app, three_in};

use clap::error::ErrorKind;
use clap::{Arg, ArgMatches};
use lq_model::NoMemory;
use lq_run_core::is_number;
use std::alloc::{AllocError, Global};

/// The operands of `run PLAN CAPTURE OUT`.
#[derive(Clone, Copy)]
pub struct RunOperands<'a> {
    pub plan: &'a str,
    pub capture: &'a str,
    pub out: &'a str,
}

/// The operands of `gen NUMBER COUNT OUT`.
#[derive(Clone, Copy)]
pub struct GenOperands<'a> {
    pub number: u32,
    pub count: u32,
    pub out: &'a str,
}

/// The operands of `tap SENDERS LEN BATCH CAPTURE OUT`.
#[derive(Clone, Copy)]
pub struct TapOperands<'a> {
    pub senders: u32,
    /// The slots of the ring.
    pub len: u32,
    /// The packets that the reader asks for at once.
    pub batch: u32,
    pub capture: &'a str,
    pub out: &'a str,
}

/// A command, with its operands.
#[derive(Clone, Copy)]
pub enum Command<'a> {
    Run(RunOperands<'a>),
    Gen(GenOperands<'a>),
    /// `trace FILE`
    Trace(&'a str),
    Tap(TapOperands<'a>),
}

/// A generated capture has at most so many records.
const MAX_COUNT: u32 = 1_000_000;

/// A tap has at most so many senders, slots and packets in a batch.
const MAX_SENDERS: u32 = 8;

const MAX_LEN: u32 = 4_096;

const MAX_BATCH: u32 = 64;

/// Whether a word isn't empty and has no dash in front.
fn is_plain(word: &str) -> bool
    ensures { result ≡ is_operand word.now }
{
    match word.as_bytes() {
        [] => false,
        [first, ..] => *first != b'-',
    }
}

/// Whether no word is empty or has a dash in front.
fn are_plain(words: &[&str]) -> bool
    ensures { result ≡ list_all (λ word. is_operand word.now) words.now }
{
    words.iter().all(|word| is_plain(word))
}

/// An operand that a form can't do without. Its name is its place, since no text of clap's is printed.
fn operand<'a>(alloc: Global, name: &'a str) -> Arg<'a>
    ensures rule { rule_of result ≡ operand_rule name.entry.now }
    ensures local { result.global ≡ false }
{
    Arg::new(alloc, name).required(true)
}

/// A form with one more operand that it can't do without.
fn with_operand<'a>(
    alloc: Global,
    form: clap::Command<'a>,
    name: &'a str,
) -> Result<clap::Command<'a>, AllocError>
    requires local { (fields_of form).has_globals ≡ false }
    ensures app { IfOk result (λ whole. app_of whole ≡ with_rule (app_of form.entry) (operand_rule name.entry.now)) }
    ensures local { IfOk result (λ whole. (fields_of whole).has_globals ≡ false) }
{
    form.arg(operand(alloc, name))
}

/// The form of a verb with one operand.
fn form_of_one<'a>(alloc: Global, verb: &'a str) -> Result<clap::Command<'a>, AllocError>
    ensures app { IfOk result (λ form. app_of form ≡ form_of_one verb.entry.now) }
    ensures local { IfOk result (λ form. (fields_of form).has_globals ≡ false) }
{
    with_operand(alloc, clap::Command::new(alloc, verb), "FIRST")
}

/// The form of a verb with three operands.
fn form_of_three<'a>(alloc: Global, verb: &'a str) -> Result<clap::Command<'a>, AllocError>
    ensures app { IfOk result (λ form. app_of form ≡ form_of_three verb.entry.now) }
    ensures local { IfOk result (λ form. (fields_of form).has_globals ≡ false) }
{
    let form = with_operand(alloc, form_of_one(alloc, verb)?, "SECOND")?;
    with_operand(alloc, form, "THIRD")
}

/// The form of a verb with five operands.
fn form_of_five<'a>(alloc: Global, verb: &'a str) -> Result<clap::Command<'a>, AllocError>
    ensures app { IfOk result (λ form. app_of form ≡ form_of_five verb.entry.now) }
    ensures local { IfOk result (λ form. (fields_of form).has_globals ≡ false) }
{
    let form = with_operand(alloc, form_of_three(alloc, verb)?, "FOURTH")?;
    with_operand(alloc, form, "FIFTH")
}

/// A table with one more form, if there was memory for the form.
fn with_form<'a>(
    table: clap::Command<'a>,
    form: Result<clap::Command<'a>, AllocError>,
) -> Result<clap::Command<'a>, AllocError>
    requires local { IfOk form (λ form. (fields_of form).has_globals ≡ false) }
    ensures { IfOk result (λ whole. IsOkAnd form.entry (λ form. app_of whole ≡ with_subcommand (app_of table.entry) (app_of form).top)) }
{
    table.subcommand(form?)
}

/// A table without forms, and without help or version of clap's own.
fn bare_table<'a>(alloc: Global) -> clap::Command<'a>
    ensures { app_of result ≡ bare_app }
{
    clap::Command::new(alloc, "lqtx")
        .no_binary_name(true)
        .disable_help_flag(true)
        .disable_help_subcommand(true)
        .disable_version_flag(true)
        .subcommand_required(true)
}

/// The command table: one of the forms.
fn table<'a>(alloc: Global) -> Result<clap::Command<'a>, AllocError>
    ensures app { IfOk result (λ table. app_of table ≡ table_app) }
{
    let table = with_form(bare_table(alloc), form_of_three(alloc, "run"))?;
    let table = with_form(table, form_of_three(alloc, "gen"))?;
    let table = with_form(table, form_of_one(alloc, "trace"))?;
    with_form(table, form_of_five(alloc, "tap"))
}

/// The number that a word writes in decimal digits, with no leading zero unless it is 0, between two limits.
fn number_within(word: &str, least: u32, most: u32) -> Option<u32>
    ensures number { result ≡ number_between least most word.now }
    ensures within { IfSome result (λ n. (least ≤ n) × (n ≤ most)) }
{
    if !is_number(word.as_bytes()) {
        return None;
    }
    let Ok(n) = word.parse::<u32>() else {
        return None;
    };
    if n < least {
        return None;
    }
    if most < n {
        return None;
    }
    Some(n)
}

/// The command `gen` with these operands, if its numbers are numbers within their limits.
fn read_gen<'a>(number: &'a str, count: &'a str, out: &'a str) -> Option<Command<'a>>
    ensures { option_map command_words result ≡ gen_of number.now count.now out.now }
{
    let number = number_within(number, 0, u32::MAX)?;
    let count = number_within(count, 0, MAX_COUNT)?;
    Some(Command::Gen(GenOperands { number, count, out }))
}

/// The command `tap` with these operands, if its numbers are numbers within their limits.
fn read_tap<'a>(
    senders: &'a str,
    len: &'a str,
    batch: &'a str,
    capture: &'a str,
    out: &'a str,
) -> Option<Command<'a>>
    ensures { option_map command_words result ≡ tap_of senders.now len.now batch.now capture.now out.now }
{
    let senders = number_within(senders, 1, MAX_SENDERS)?;
    let len = number_within(len, 1, MAX_LEN)?;
    let batch = number_within(batch, 1, MAX_BATCH)?;
    Some(Command::Tap(TapOperands {
        senders,
        len,
        batch,
        capture,
        out,
    }))
}

/// The command of a verb with one operand.
fn command_of_one<'a>(verb: &str, file: &'a str) -> Option<Command<'a>>
    ensures { option_map command_words result ≡ command_with verb.now (file.now ∷ []) }
{
    if verb == "trace" {
        Some(Command::Trace(file))
    } else {
        None
    }
}

/// The command of a verb with three operands.
fn command_of_three<'a>(
    verb: &str,
    first: &'a str,
    second: &'a str,
    third: &'a str,
) -> Option<Command<'a>>
    ensures { option_map command_words result ≡ command_with verb.now (first.now ∷ second.now ∷ third.now ∷ []) }
{
    if verb == "run" {
        Some(Command::Run(RunOperands {
            plan: first,
            capture: second,
            out: third,
        }))
    } else if verb == "gen" {
        read_gen(first, second, third)
    } else {
        None
    }
}

/// The command of a verb and the operand that its form was matched with.
fn one_in<'a>(verb: &str, form: &ArgMatches<'a>) -> Option<Command<'a>>
    ensures { option_map command_words result ≡ one_in verb.now (rows_of (found_of form.now)) }
{
    match form.get_str("FIRST") {
        Some(file) => command_of_one(verb, file),
        None => None,
    }
}

/// The command of a verb and the three operands that its form was matched with.
fn three_in<'a>(verb: &str, form: &ArgMatches<'a>) -> Option<Command<'a>>
    ensures { option_map command_words result ≡ three_in verb.now (rows_of (found_of form.now)) }
{
    let first = form.get_str("FIRST");
    let second = form.get_str("SECOND");
    let third = form.get_str("THIRD");
    match (first, second, third) {
        (Some(first), Some(second), Some(third)) => command_of_three(verb, first, second, third),
        _ => None,
    }
}

/// The command of a verb and the five operands that its form was matched with.
fn five_in<'a>(verb: &str, form: &ArgMatches<'a>) -> Option<Command<'a>>
    ensures { option_map command_words result ≡ five_in verb.now (rows_of (found_of form.now)) }
{
    let first = form.get_str("FIRST")?;
    let second = form.get_str("SECOND")?;
    let third = form.get_str("THIRD")?;
    let fourth = form.get_str("FOURTH")?;
    let fifth = form.get_str("FIFTH")?;
    if verb == "tap" {
        read_tap(first, second, third, fourth, fifth)
    } else {
        None
    }
}

/// The command in what was matched, by the name of its form.
fn command_matched<'a>(matches: &ArgMatches<'a>) -> Option<Command<'a>>
    ensures { option_map command_words result ≡ option_and_then command_in (subcommand_rows_of matches.now) }
{
    match matches.subcommand() {
        Some((verb, form)) => {
            if verb == "trace" {
                one_in(verb, form)
            } else if verb == "tap" {
                five_in(verb, form)
            } else {
                three_in(verb, form)
            }
        }
        None => None,
    }
}

/// The command that clap makes of words with no dash in front, if it takes them.
fn parse<'a>(alloc: Global, words: &'a [&'a str]) -> Result<Option<Command<'a>>, NoMemory>
    requires plain { list_all (λ word. is_operand word.now) words.now ≡ true }
    ensures { IfOk result (λ command. option_map command_words command ≡ command_of_words (bytes_of_words words.now)) }
{
    let Ok(table) = table(alloc) else {
        return Err(NoMemory);
    };
    match table.try_get_matches_from(words) {
        Ok(matches) => Ok(command_matched(&matches)),
        Err(error) => match error.kind() {
            ErrorKind::OutOfMemory => Err(NoMemory),
            _ => Ok(None),
        },
    }
}

/// The command that the words after the program's own name are, if they are one of the table: Usage is the answer
/// exactly where they aren't. The operands are those of clap's matches, and are lent from the words.
///
/// # Errors
///
/// Want of memory: `clap` builds its command, its matches and the text of a refusal.
pub fn read_words<'a>(alloc: Global, words: &'a [&'a str]) -> Result<Option<Command<'a>>, NoMemory>
    ensures { IfOk result (λ command. option_map command_words command ≡ command_of_words (bytes_of_words words.now)) }
{
    if are_plain(words) {
        parse(alloc, words)
    } else {
        Ok(None)
    }
}
