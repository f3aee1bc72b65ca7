//! The lines that tell the fates of a tap's packets.
ghost use Rattle.std.specs.Prelude.{◌≡◌, ◌++◌, IfOk, OnOk, count_by};
ghost use Rattle.std.specs.Fmt.{decimal};
ghost use Rattle.lq_fates.specs.Tap.{is_full_tap, is_lost, is_read};
ghost use Rattle.lq_fates.specs.TapTexts.{tap_fate_words, tap_counts_line};

use crate::tap_fate::TapFate;
use crate::text::{push_bytes, push_counted, push_number};
use lq_model::NoMemory;
use std::alloc::Global;

// What the line of a fate says behind the packet's number.
fn push_fate(text: &mut Vec<u8>, fate: TapFate) -> Result<(), NoMemory>
    ensures { OnOk result (text.new.items ≡ text.old.items ++ tap_fate_words fate) }
{
    match fate {
        TapFate::Read { place } => push_counted(text, b" read ", place as u64)?,
        TapFate::Full { seen } => push_counted(text, b" full ", seen as u64)?,
        TapFate::Lost => push_bytes(text, b" lost")?,
    }
    push_bytes(text, b"\n")
}

/// Writes the line that tells packet n's fate to the end of a text.
///
/// # NoMemory
///
/// There was no room for it, and the text may have the first of its bytes at its end.
pub fn push_tap_fate_line(text: &mut Vec<u8>, n: usize, fate: TapFate) -> Result<(), NoMemory>
    ensures { OnOk result (text.new.items ≡ text.old.items ++ (decimal n ++ tap_fate_words fate)) }
{
    push_number(text, n as u64)?;
    push_fate(text, fate)
}

fn count_of_read(fates: &[TapFate]) -> usize
    ensures { result ≡ count_by is_read fates.now }
{
    fates.iter().filter(|fate| fate.is_read()).count()
}

fn count_of_full(fates: &[TapFate]) -> usize
    ensures { result ≡ count_by is_full_tap fates.now }
{
    fates.iter().filter(|fate| fate.is_full()).count()
}

fn count_of_lost(fates: &[TapFate]) -> usize
    ensures { result ≡ count_by is_lost fates.now }
{
    fates.iter().filter(|fate| fate.is_lost()).count()
}

/// The line that counts the fates of all packets.
///
/// # NoMemory
///
/// There was no room for it.
pub fn tap_total_line(alloc: Global, fates: &[TapFate]) -> Result<Vec<u8>, NoMemory>
    ensures { IfOk result (λ text. text.items ≡ tap_counts_line fates.now) }
{
    let mut text = Vec::new(alloc);
    push_counted(&mut text, b"total ", fates.len() as u64)?;
    push_counted(&mut text, b" read ", count_of_read(fates) as u64)?;
    push_counted(&mut text, b" full ", count_of_full(fates) as u64)?;
    push_counted(&mut text, b" lost ", count_of_lost(fates) as u64)?;
    push_bytes(&mut text, b"\n")?;
    Ok(text)
}
