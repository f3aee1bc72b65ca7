//! All devices that a run takes leave the bench.
ghost use Rattle.std.specs.Prelude.{◌≡◌, ◌≤◌, ◌+◌, IfOk, OnOk, OnErr, drop, map, vec_len, vec_capacity};
ghost use Rattle.lq_senders.specs.Fates.{identities_of};
ghost use Rattle.lq_senders.specs.Senders.{IsSendable};
ghost use Rattle.lq_senders.specs.Setup.{AreUnitsReady, HasRoomForUnits};
ghost use Rattle.lq_model.specs.Plan.{unit_count};

use crate::setup::{Stations, configure_units, list_apart, list_with_room, open_all};
use crate::spares::{configure_spares, take_spares};
use lq_device::TxDevice;
use lq_model::{Info, NoMemory};
use lq_plan::Plan;
use std::alloc::Global;

/// The devices of a plan's units: those of the stations in tables of their own, and those that swaps bring to spare.
#[derive(Drop)]
pub struct Units<'a, D: TxDevice> {
    pub stations: Stations<'a, D>,
    pub spares: Vec<D>,
}

/// No unit's device, with room for all of them.
pub fn room_for_units<'a, D: TxDevice>(alloc: Global, plan: &Plan) -> Result<Units<'a, D>, NoMemory>
    ensures { IfOk result (λ units. HasRoomForUnits plan.now units) }
{
    let count = plan.stations() as usize;
    let tables = list_apart(alloc, count)?;
    let seats = list_apart(alloc, count)?;
    let spares = list_with_room(alloc, plan.units() as usize - count)?;
    Ok(Units {
        stations: Stations { tables, seats },
        spares,
    })
}

/// Configures the device of each unit and takes it out of the bench: those of the stations into tables of their own, and those
/// that swaps bring to spare.
///
/// # NoMemory
///
/// There was no room for a device's packets or for a table. All devices are in the bench again.
pub fn make_ready<'a, D: TxDevice>(
    alloc: Global,
    plan: &Plan,
    infos: &'a [Info],
    bench: &mut Vec<D>,
    units: Units<'a, D>,
) -> Result<Units<'a, D>, NoMemory>
    requires sendable { IsSendable plan.now infos.now }
    requires devices { unit_count plan.now ≤ vec_len bench.old }
    requires room { HasRoomForUnits plan.now units }
    ensures ready { IfOk result (λ u. AreUnitsReady D.state plan.now infos.now (map D.state bench.old.items) u) }
    ensures rest { OnOk result (bench.new.items ≡ drop (unit_count plan.now) bench.old.items) }
    ensures less { OnOk result (unit_count plan.now + vec_len bench.new ≡ vec_len bench.old) }
    ensures back_room { OnOk result (vec_len bench.new + unit_count plan.now ≤ vec_capacity bench.new) }
    ensures others { OnErr result (drop (unit_count plan.now) bench.new.items ≡ drop (unit_count plan.now) bench.old.items) }
    ensures len { OnErr result (vec_len bench.new ≡ vec_len bench.old) }
    ensures boxes { OnErr result (identities_of (map D.state bench.new.items) ≡ identities_of (map D.state bench.old.items)) }
{
    configure_units(plan, infos, bench)?;
    configure_spares(plan, infos, bench)?;
    let Units {
        stations,
        mut spares,
    } = units;
    let stations = open_all(alloc, plan, infos, bench, stations)?;
    let swaps = (plan.units() - plan.stations()) as usize;
    take_spares(bench, &mut spares, swaps);
    Ok(Units { stations, spares })
}
