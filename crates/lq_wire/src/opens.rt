//! How often the stopped queues are opened after each packet of a run.
ghost use Rattle.std.specs.Prelude.{◌≡◌, ◌≤◌, All, IfOk, length};
ghost use Rattle.lq_model.specs.Openings.{openings};
ghost use Rattle.lq_model.specs.Plan.{infos_of};
ghost use Rattle.lq_plan.specs.Openings.{IsOpenings};
ghost use Rattle.lq_plan.specs.Packets.{IsInfoWithin};

use crate::pass::times_of_wire;
use lq_model::{Info, NoMemory};
use lq_pcap::Frames;
use lq_plan::{Openings, Plan};
use std::alloc::Global;

/// How often the stopped queues are opened after each packet of a capture: as the plan's card opens its station's queue, or, without a card, as
/// the plan's `irq` says.
///
/// # NoMemory
///
/// There was no room for four bytes a packet and for the packets that wait or are in the driver's ring; without a card, for two bytes a packet
/// where queues are opened by time.
pub fn openings_of_plan<F: Frames>(
    alloc: Global,
    plan: &Plan,
    infos: &[Info],
    frames: &F,
) -> Result<Openings, NoMemory>
    requires infos { infos.now ≡ infos_of plan.now (F.packets frames.now) }
    requires few { length infos.now ≤ 1000000 }
    requires within { All (IsInfoWithin plan.now) infos.now }
    ensures { IfOk result (IsOpenings plan.now (F.packets frames.now) (openings plan.now (F.packets frames.now))) }
{
    plan.stays_within_limits();
    match plan.station(0).card {
        None => Openings::new(alloc, plan, frames),
        Some(card) => match times_of_wire(alloc, plan, card, infos, frames) {
            Ok(times) => Ok(Openings::Wired { times }),
            Err(_) => Err(NoMemory),
        },
    }
}
