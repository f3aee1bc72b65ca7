//! A line of three numbers. One of 64 bits is written from its end to its start, so that it goes into the text in one copy.
ghost use Rattle.std.specs.Prelude.{◌≡◌, ◌++◌, ◌+◌, ◌<◌, ◌≤◌, ◌^◌, ◌∷◌, [], OnOk, codes, drop, length};
ghost use Rattle.std.specs.Fmt.{decimal};
ghost use Rattle.lq_wire.specs.Lines.{numbers_line};
ghost use Rattle.lq_wire.specs.Page.{page_text};

use crate::page::Page;
use crate::stamp::Stamps;
use itoa::{Buffer, write_digits};
use std::alloc::AllocError;

/// Room for the longest line that is laid: numbers of 10, 20 and 20 digits.
const LINE: usize = 64;

/// The greatest number of 64 bits.
const WORD: u128 = 0xffff_ffff_ffff_ffff;

/// The line of three numbers.
pub(crate) fn push_numbers(
    text: &mut Page,
    stamps: &mut Stamps,
    first: u32,
    second: u128,
    third: u128,
) -> Result<(), AllocError>
    ensures { OnOk result (page_text text.new ≡ page_text text.old ++ numbers_line first second third) }
{
    if second > WORD || third > WORD {
        return push_long(text, first, second, third);
    }
    let mut line = [0; LINE];
    let line: &mut [u8] = &mut line;
    let start = lay_line(line, stamps, first, second as u64, third as u64);
    text.push(&line[start..])
}

// The same, number by number.
fn push_long(text: &mut Page, first: u32, second: u128, third: u128) -> Result<(), AllocError>
    ensures { OnOk result (page_text text.new ≡ page_text text.old ++ numbers_line first second third) }
{
    push_number(text, u128::from(first))?;
    text.push(b" ")?;
    push_number(text, second)?;
    text.push(b" ")?;
    push_number(text, third)?;
    text.push(b"\n")
}

fn push_number(text: &mut Page, number: u128) -> Result<(), AllocError>
    ensures { OnOk result (page_text text.new ≡ page_text text.old ++ decimal number) }
{
    text.push(Buffer::new().format(number).as_bytes())
}

// Writes the line so that it ends at the end of `line`, and gives where it starts.
fn lay_line(line: &mut [u8], stamps: &mut Stamps, first: u32, second: u64, third: u64) -> usize
    requires { length line.old ≡ 64 }
    ensures start { result ≤ 64 }
    ensures written { drop result line.new ≡ numbers_line first second third }
    ensures len { length line.new ≡ 64 }
{
    let end = lay_byte(line, b'\n', LINE);
    let at = stamps.ended.lay(line, third, end);
    let end = lay_byte(line, b' ', at);
    let at = stamps.accepted.lay(line, second, end);
    let end = lay_byte(line, b' ', at);
    lay_number(line, first as u64, end)
}

// Writes a byte before a place, and gives where it is.
#[inline(always)]
fn lay_byte(line: &mut [u8], byte: u8, end: usize) -> usize
    requires { (0 < end) × (end ≤ length line.old) }
    ensures start { result + 1 ≡ end }
    ensures written { drop result line.new ≡ byte ∷ drop end line.old }
    ensures len { length line.new ≡ length line.old }
{
    line[end - 1] = byte;
    end - 1
}

// Writes a number so that it ends before a place, and gives where it starts.
fn lay_number(line: &mut [u8], number: u64, end: usize) -> usize
    requires { (20 ≤ end) × (end ≤ length line.old) }
    ensures start { end ≤ result + 20 }
    ensures below { result ≤ end }
    ensures written { drop result line.new ≡ decimal number ++ drop end line.old }
    ensures len { length line.new ≡ length line.old }
{
    write_digits(number, line, end)
}
