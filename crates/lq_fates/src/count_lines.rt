//! The text of the counts.
ghost use Rattle.std.specs.Prelude.{◌≡◌, ◌++◌, ℕ, IfOk, List, OnOk, length};
ghost use Rattle.lq_model.specs.Texts.{counts_text};
ghost use Rattle.lq_model.specs.declared.fate.Fate.{Fate};
ghost use Rattle.lq_model.specs.declared.fate.Info.{Info};
ghost use Rattle.lq_fates.specs.Counts.{AreCounts, station_lines, station_text, total_text, unit_lines, unit_text, unsent_text};

use crate::counts::{Counts, Unsent};
use crate::text::{push_bytes, push_counted};
use lq_model::NoMemory;
use std::alloc::Global;

// The four counts at the end of a line.
fn push_unsent(text: &mut Vec<u8>, unsent: &Unsent) -> Result<(), NoMemory>
    ensures { OnOk result (text.new.items ≡ text.old.items ++ unsent_text unsent.now) }
{
    push_counted(text, b" full ", unsent.full)?;
    push_counted(text, b" shrunk ", unsent.shrunk)?;
    push_counted(text, b" purged ", unsent.purged)?;
    push_counted(text, b" refused ", unsent.refused)?;
    push_bytes(text, b"\n")
}

fn push_unit(text: &mut Vec<u8>, unit: usize, sent: u64) -> Result<(), NoMemory>
    ensures { OnOk result (text.new.items ≡ text.old.items ++ unit_text unit sent) }
{
    push_counted(text, b"unit ", unit as u64)?;
    push_counted(text, b" sent ", sent)?;
    push_bytes(text, b"\n")
}

fn push_station(text: &mut Vec<u8>, station: usize, unsent: &Unsent) -> Result<(), NoMemory>
    ensures { OnOk result (text.new.items ≡ text.old.items ++ station_text station unsent.now) }
{
    push_counted(text, b"station ", station as u64)?;
    push_unsent(text, unsent)
}

fn push_total(text: &mut Vec<u8>, total: usize, sent: u64, unsent: &Unsent) -> Result<(), NoMemory>
    ensures { OnOk result (text.new.items ≡ text.old.items ++ total_text total sent unsent.now) }
{
    push_counted(text, b"total ", total as u64)?;
    push_counted(text, b" sent ", sent)?;
    push_unsent(text, unsent)
}

#[tactic(auto, using(crate::proofs::TextLemmas::lines_more))]
fn push_units(text: &mut Vec<u8>, counts: &[u64]) -> Result<(), NoMemory>
    ensures { OnOk result (text.new.items ≡ text.old.items ++ unit_lines counts.now) }
{
    for (unit, sent) in counts.iter().enumerate() {
        push_unit(text, unit, *sent)?;
    }
    Ok(())
}

#[tactic(auto, using(crate::proofs::TextLemmas::lines_more))]
fn push_stations(text: &mut Vec<u8>, counts: &[Unsent]) -> Result<(), NoMemory>
    ensures { OnOk result (text.new.items ≡ text.old.items ++ station_lines counts.now) }
{
    for (station, unsent) in counts.iter().enumerate() {
        push_station(text, station, unsent)?;
    }
    Ok(())
}

/// The lines that tell these counts: what each unit sent, what each station didn't send, and the counts of all packets, of which there
/// are `total`.
///
/// # NoMemory
///
/// There was no room for the text.
pub fn counts_text(alloc: Global, counts: &Counts, total: usize) -> Result<Vec<u8>, NoMemory>
    ensures { (fates : List Fate) (infos : List Info) (stations units : ℕ) → AreCounts fates infos stations units counts.now → total ≡ length fates
        → IfOk result (λ text. text.items ≡ counts_text fates infos stations units) }
{
    let mut text = Vec::new(alloc);
    push_units(&mut text, &counts.by_unit)?;
    push_stations(&mut text, &counts.by_station)?;
    push_total(&mut text, total, counts.sent, &counts.unsent)?;
    Ok(text)
}
