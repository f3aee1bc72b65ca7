//! The packets that each unit sent.
ghost use Rattle.std.specs.Prelude.{◌≡◌, ◌<◌, ◌≤◌, ◌^◌, ℕ, IfOk, OnErr, OnOk, ◌++◌, ◌∷◌, [], count_by, length, map, replicate, slice_set, vec_len};
ghost use Rattle.lq_model.specs.Numbers.{first_numbers};
ghost use Rattle.lq_model.specs.Settled.{AreSerials};
ghost use Rattle.lq_model.specs.Texts.{is_sent_by};
ghost use Rattle.lq_fates.specs.Sent.{HasPlace, laid, sent_by_units};

use crate::fates::Fates;
use lq_model::{Fate, NoMemory};
use std::alloc::Global;

// So many places.
fn places(alloc: Global, count: u64) -> Result<Vec<u32>, NoMemory>
    ensures { IfOk result (λ places. places.items ≡ replicate count 0) }
{
    vec![in alloc; 0u32; count as usize].map_err(|_| NoMemory)
}

fn push_list(lists: &mut Vec<Vec<u32>>, list: Vec<u32>) -> Result<(), NoMemory>
    ensures { OnOk result (lists.new.items ≡ lists.old.items ++ list ∷ []) }
{
    lists.push(list).map_err(|_| NoMemory)
}

// A list for each count, with so many places.
fn lists_of_places(alloc: Global, counts: &[u64]) -> Result<Vec<Vec<u32>>, NoMemory>
    ensures { IfOk result (λ lists. map (λ list. length list.items) lists.items ≡ counts.now) }
{
    let mut lists = Vec::new(alloc);
    for unit in 0..counts.len() {
        let list = places(alloc, counts[unit])?;
        push_list(&mut lists, list)?;
    }
    Ok(lists)
}

// A packet's number in 32 bits.
fn number_of(n: usize) -> Result<u32, NoMemory>
    ensures ok { IfOk result (λ number. number ≡ n) }
    ensures beyond { OnErr result (2 ^ 32 ≤ n) }
{
    u32::try_from(n).map_err(|_| NoMemory)
}

fn lay_at(places: &mut Vec<u32>, serial: u32, n: u32)
    requires { serial < vec_len places.old }
    ensures { places.new.items ≡ slice_set places.old.items serial n }
{
    places[serial as usize] = n;
}

// Lays packet `n` at its serial in the list of the unit that sent it, if it was sent, and by a unit that has a list.
fn lay(lists: &mut Vec<Vec<u32>>, n: u32, fate: Fate)
    requires { HasPlace fate (map (λ list. list.items) lists.old.items) }
    ensures { map (λ list. list.items) lists.new.items ≡ laid fate n (map (λ list. list.items) lists.old.items) }
{
    if let Fate::Sent { unit, serial } = fate {
        let unit = unit as usize;
        if unit < lists.len() {
            lay_at(&mut lists[unit], serial, n);
        }
    }
}

/// The packets that each unit sent, in order of serial: list u has those of unit u. They are counted before: unit u sent as many as
/// its count says. One pass over the packets serves all units, since a fate may cost more than a look into a list.
///
/// # NoMemory
///
/// There was no room for the lists, or a packet's number has more than 32 bits.
pub fn sent_by_units<F: Fates>(
    alloc: Global,
    fates: &F,
    counts: &[u64],
) -> Result<Vec<Vec<u32>>, NoMemory>
    requires serials { (unit : ℕ) → AreSerials (F.fates fates.now) unit }
    requires counted { counts.now ≡ map (λ unit. count_by (is_sent_by unit) (F.fates fates.now)) (first_numbers (length counts.now)) }
    ensures { IfOk result (λ lists. map (λ list. list.items) lists.items ≡ sent_by_units (F.fates fates.now) (length counts.now)) }
{
    let mut lists = lists_of_places(alloc, counts)?;
    for n in 0..fates.len() {
        let number = number_of(n)?;
        lay(&mut lists, number, fates.fate(n));
    }
    Ok(lists)
}
