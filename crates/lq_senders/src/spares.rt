//! The devices that a plan's swaps bring: they are configured where they stand in the bench, behind those of the stations,
//! and leave it together.
ghost use Rattle.std.specs.Prelude.{◌≡◌, ◌≤◌, ◌<◌, ◌+◌, ◌++◌, [], OnOk, drop, take, length, map, vec_len, vec_capacity};
ghost use Rattle.lq_senders.specs.Fates.{identities_of};
ghost use Rattle.lq_senders.specs.Setup.{AreSparesConfigured, ConfiguresSpare};
ghost use Rattle.lq_model.specs.Plan.{unit_count};

use crate::setup::packets_of;
use crate::swaps::brought_unit;
use lq_device::TxDevice;
use lq_model::{EventKind, EventPlan, Info, NoMemory};
use lq_plan::Plan;

/// Configures the device that the plan's event `e` brings, if it brings one.
fn configure_spare<D: TxDevice>(
    plan: &Plan,
    infos: &[Info],
    bench: &mut Vec<D>,
    e: u32,
) -> Result<(), NoMemory>
    requires event { e < length plan.now.events }
    requires units { unit_count plan.now ≤ vec_len bench.old }
    ensures ok { OnOk result (ConfiguresSpare plan.now infos.now e (map D.state bench.old.items) (map D.state bench.new.items)) }
    ensures others { drop (unit_count plan.now) bench.new.items ≡ drop (unit_count plan.now) bench.old.items }
    ensures len { vec_len bench.new ≡ vec_len bench.old }
    ensures boxes { identities_of (map D.state bench.new.items) ≡ identities_of (map D.state bench.old.items) }
{
    let EventPlan {
        before: _,
        station,
        mq: _,
        kind,
    } = plan.event(e);
    match kind {
        EventKind::Swap { params } => {
            let room = packets_of(infos, station);
            let unit = brought_unit(plan, e) as usize;
            let device = &mut bench[unit];
            device.configure(&params, room)?;
            Ok(())
        }
        _ => Ok(()),
    }
}

/// Configures the devices that the plan's swaps bring.
pub fn configure_spares<D: TxDevice>(
    plan: &Plan,
    infos: &[Info],
    bench: &mut Vec<D>,
) -> Result<(), NoMemory>
    requires units { unit_count plan.now ≤ vec_len bench.old }
    ensures ok { OnOk result (AreSparesConfigured plan.now infos.now (length plan.now.events)
        (map D.state bench.old.items) (map D.state bench.new.items)) }
    ensures others { drop (unit_count plan.now) bench.new.items ≡ drop (unit_count plan.now) bench.old.items }
    ensures len { vec_len bench.new ≡ vec_len bench.old }
    ensures boxes { identities_of (map D.state bench.new.items) ≡ identities_of (map D.state bench.old.items) }
{
    for e in 0..plan.events() {
        configure_spare(plan, infos, bench, e)?;
    }
    Ok(())
}

/// Takes so many devices out of the bench, the first ones. Takes no memory.
pub fn take_spares<D: TxDevice>(bench: &mut Vec<D>, spares: &mut Vec<D>, count: usize)
    requires many { count ≤ vec_len bench.old }
    requires none_yet { spares.old.items ≡ [] }
    requires room { count ≤ vec_capacity spares.old }
    ensures spares { spares.new.items ≡ take count bench.old.items }
    ensures rest { bench.new.items ≡ drop count bench.old.items }
    ensures len { count + vec_len bench.new ≡ vec_len bench.old }
    ensures capacity { vec_capacity bench.new ≡ vec_capacity bench.old }
{
    for _place in 0..count {
        spares.push_reserved(bench.remove(0));
    }
}

/// Lays devices into the bench, in their order before those that stand there. Takes no memory.
pub fn lay_back<D: TxDevice>(mut devices: Vec<D>, bench: &mut Vec<D>)
    requires room { vec_len bench.old + vec_len devices ≤ vec_capacity bench.old }
    ensures laid { bench.new.items ≡ devices.items ++ bench.old.items }
    ensures capacity { vec_capacity bench.new ≡ vec_capacity bench.old }
{
    while let Some(device) = devices.pop() {
        let _laid_back = bench.insert(0, device);
    }
}
