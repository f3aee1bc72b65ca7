//! A line of the fates, written from its end to its start, so that it goes into the text in one copy.
ghost use Rattle.std.specs.Prelude.{◌≡◌, ◌++◌, ◌+◌, ◌≤◌, length, drop};
ghost use Rattle.std.specs.Fmt.{decimal};
ghost use Rattle.lq_model.specs.Texts.{fate_words};

use itoa::write_digits;
use lq_model::{Cause, Fate};

/// Room for the longest line: `N sent U S` with numbers of 20, 10 and 10 digits.
pub(crate) const LINE: usize = 64;

// Writes the words so that they end where `end` is, and gives where they start. It is inlined so that words of a known length are stored and not copied by a call.
#[inline(always)]
fn lay_words(line: &mut [u8], words: &[u8], end: usize) -> usize
    requires { (length words.now ≤ end) × (end ≤ length line.old) }
    ensures start { result + length words.now ≡ end }
    ensures written { drop result line.new ≡ words.now ++ drop end line.old }
    ensures len { length line.new ≡ length line.old }
{
    let start = end - words.len();
    line[start..end].copy_from_slice(words);
    start
}

// The same with a number of 32 bits: ten digits at most.
fn lay_number(line: &mut [u8], n: u32, end: usize) -> usize
    requires { (10 ≤ end) × (end ≤ length line.old) }
    ensures start { end ≤ result + 10 }
    ensures below { result ≤ end }
    ensures written { drop result line.new ≡ decimal n ++ drop end line.old }
    ensures len { length line.new ≡ length line.old }
{
    write_digits(n as u64, line, end)
}

// Words, and a number behind them.
#[inline(always)]
fn lay_counted(line: &mut [u8], words: &[u8], n: u32, end: usize) -> usize
    requires { (10 + length words.now ≤ end) × (end ≤ length line.old) }
    ensures start { end ≤ result + 10 + length words.now }
    ensures below { result ≤ end }
    ensures written { drop result line.new ≡ words.now ++ (decimal n ++ drop end line.old) }
    ensures len { length line.new ≡ length line.old }
{
    let at = lay_number(line, n, end);
    lay_words(line, words, at)
}

// What the line of a fate says behind the packet's number.
fn lay_fate(line: &mut [u8], fate: Fate) -> usize
    requires { length line.old ≡ 64 }
    ensures start { (20 ≤ result) × (result ≤ 64) }
    ensures written { drop result line.new ≡ fate_words fate }
    ensures len { length line.new ≡ 64 }
{
    let end = lay_words(line, b"\n", LINE);
    match fate {
        Fate::Sent { unit, serial } => {
            let at = lay_counted(line, b" ", serial, end);
            lay_counted(line, b" sent ", unit, at)
        }
        Fate::Full { seen } => lay_counted(line, b" full ", seen, end),
        Fate::Shrunk { event } => lay_counted(line, b" shrunk ", event, end),
        Fate::Purged { cause } => match cause {
            Cause::Event(event) => lay_counted(line, b" purged ", event, end),
            Cause::Hung(_) => lay_words(line, b" purged hung", end),
        },
        Fate::Refused { event } => lay_counted(line, b" refused ", event, end),
    }
}

/// Writes the line that tells packet n's fate, and gives where it starts: it ends at the end of `line`.
pub(crate) fn lay_line(line: &mut [u8], n: usize, fate: Fate) -> usize
    requires { length line.old ≡ 64 }
    ensures start { result ≤ 64 }
    ensures written { drop result line.new ≡ decimal n ++ fate_words fate }
    ensures len { length line.new ≡ 64 }
{
    let at = lay_fate(line, fate);
    write_digits(n as u64, line, at)
}
