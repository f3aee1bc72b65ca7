//! The packets that are sent, and a table of them.
ghost use Rattle.std.specs.Prelude.{⊤, ◌≡◌, ℕ, ◌<◌, true, length, MatchOption};
ghost use Rattle.lq_bench.specs.Senders.{IsActive, AreFourOwners};

use crate::senders::OWNERS;
use lq_device::{BenchDevice, Station, StationPlan, TxDevice};
use lq_model::{Info, NoMemory};
use lq_table::{Cpu, Shared};
use std::alloc::Global;

/// So many packets of the four owners in turn, all in band 1.
pub fn packets(alloc: Global, count: u32) -> Result<Vec<Info>, NoMemory> {
    let mut infos = Vec::new(alloc);
    for n in 0..count {
        let info = Info {
            owner: (n % OWNERS) as u8,
            station: 0,
            band: 1,
            queue: 0,
            rank: n / OWNERS,
        };
        if infos.push(info).is_err() {
            return Err(NoMemory);
        }
    }
    Ok(infos)
}

/// Whether they are the four owners' in turn, all in a band of the station.
fn are_theirs(infos: &[Info]) -> bool
    ensures { result ≡ true → (k : ℕ) → k < length infos.now → AreFourOwners infos.now k }
{
    for k in 0..infos.len() {
        if infos[k].owner as usize != k % 4 {
            return false;
        }
        if infos[k].station != 0 {
            return false;
        }
        if infos[k].band >= 3 {
            return false;
        }
        if infos[k].queue != 0 {
            return false;
        }
        if infos[k].rank as usize != k / 4 {
            return false;
        }
    }
    true
}

/// The table of these packets, and its one seat, which has each owner. None where there is no memory for it, or where the
/// packets or the plan are others than this program's.
pub fn table<'a>(
    alloc: Global,
    infos: &'a [Info],
    plan: StationPlan,
) -> Option<(Shared<'a, BenchDevice>, Cpu<BenchDevice>)>
    ensures { MatchOption result ⊤ (λ t. IsActive t.0 t.1) }
{
    if infos.len() > 1000000 || plan.len == 0 {
        return None;
    }
    if plan.max_len < plan.len || plan.max_len > 65536 {
        return None;
    }
    if plan.queues != 1 {
        return None;
    }
    if !are_theirs(infos) {
        return None;
    }
    let mut device = BenchDevice::new(alloc);
    if device.configure(&plan.params, infos.len()).is_err() {
        return None;
    }
    let Ok(station) = Station::new(alloc, 0, device) else {
        return None;
    };
    match Shared::make(alloc, infos, 0, plan, OWNERS, station) {
        Ok(made) => Some(made),
        Err(_) => None,
    }
}
