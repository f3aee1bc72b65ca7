//! The memory of a run but that of its units, which is all taken before a device leaves the bench.
ghost use Rattle.std.specs.Prelude.{IfOk};
ghost use Rattle.lq_senders.specs.Setup.{HasRoomForRun};

use crate::sender::Sender;
use crate::setup::{list_with_room, other_senders};
use lq_device::TxDevice;
use lq_model::NoMemory;
use lq_plan::Plan;
use lq_table::{Closed, Ended};
use std::alloc::Global;

/// Empty lists, with room for what a run lays into them.
#[derive(Drop)]
pub struct Room<D: TxDevice> {
    /// The senders but the first, each with room for its seats.
    pub others: Vec<Sender<D>>,
    /// The stations' closed tables.
    pub closed: Vec<Closed<D>>,
    /// The devices that come out of them.
    pub homes: Vec<D>,
    /// What stays of each station.
    pub ended: Vec<Ended<D>>,
}

/// Takes the memory of a run.
pub fn room_for_run<D: TxDevice>(alloc: Global, plan: &Plan) -> Result<Room<D>, NoMemory>
    ensures { IfOk result (λ room. HasRoomForRun plan.now room) }
{
    let count = plan.stations() as usize;
    let others = other_senders(alloc, plan)?;
    let closed = list_with_room(alloc, count)?;
    let ended = list_with_room(alloc, count)?;
    let homes = list_with_room(alloc, count)?;
    Ok(Room {
        others,
        closed,
        homes,
        ended,
    })
}
