//! The packets of several senders of one root, merged.
ghost use Rattle.std.specs.Prelude.{◌≡◌, ◌++◌, ◌∷◌, [], IfOk, OnOk, length, map, slice_get};
ghost use Rattle.std.specs.List.{filter_map};
ghost use Rattle.lq_model.specs.Numbers.{greatest};
ghost use Rattle.lq_mq.specs.Joint.{joint};

use lq_model::NoMemory;
use std::alloc::Global;

/// How long the longest list is.
fn longest(lists: &[Vec<u32>]) -> usize
    ensures { result ≡ greatest (map length (map (λ list. list.items) lists.now)) }
{
    let mut longest = 0;
    for list in lists {
        longest = list.len().max(longest);
    }
    longest
}

fn push_packet(all: &mut Vec<u32>, n: u32) -> Result<(), NoMemory>
    ensures { OnOk result (all.new.items ≡ all.old.items ++ n ∷ []) }
{
    all.push(n).map_err(|_| NoMemory)
}

/// The packets with this serial, child by child.
fn push_serial(all: &mut Vec<u32>, lists: &[Vec<u32>], serial: usize) -> Result<(), NoMemory>
    ensures { OnOk result (all.new.items ≡ all.old.items ++ filter_map (λ list. slice_get list.items serial) lists.now) }
{
    for list in lists {
        if let Some(n) = list.get(serial) {
            push_packet(all, *n)?;
        }
    }
    Ok(())
}

/// The packets that the children of a multi-queue root sent, by serial, and at one serial by child. List i has those that child i
/// sent, in order of serial. Takes one number for each packet, which is reserved at once.
///
/// # NoMemory
///
/// There was no room for the list.
pub fn joint(alloc: Global, lists: &[Vec<u32>]) -> Result<Vec<u32>, NoMemory>
    ensures { IfOk result (λ all. all.items ≡ joint (map (λ list. list.items) lists.now)) }
{
    let mut total: usize = 0;
    for sent in lists {
        total = total.saturating_add(sent.len());
    }
    let mut all = Vec::with_capacity(alloc, total).map_err(|_| NoMemory)?;
    for serial in 0..longest(lists) {
        push_serial(&mut all, lists, serial)?;
    }
    Ok(all)
}
