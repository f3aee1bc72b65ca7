// The plan of a generated run.
ghost use Rattle.std.specs.Prelude.{◌≡◌, IfOk};
ghost use Rattle.lq_plan.specs.Generated.{generated_plan};

use crate::plan::Plan;
use lq_model::{Classify, Irq, NoMemory, Params, Split, Spread, StationPlan};
use std::alloc::Global;

/// The one station of a generated run.
const STATION: StationPlan = StationPlan {
    len: 32,
    max_len: 32,
    bypass: true,
    params: Params {
        burst: 48,
        busy_every: 0,
        busy_limit: 0,
        hang_after: 0,
    },
    queues: 1,
    card: None,
};

/// The plan of a generated run, that of the text
///
/// ```text
/// irq_every = 64
/// [[station]]
/// len = 32
/// burst = 48
/// ```
pub fn generated_plan(alloc: Global) -> Result<Plan, NoMemory>
    ensures { IfOk result (λ plan. plan ≡ generated_plan) }
{
    let mut stations = Vec::new(alloc);
    let mut groups = Vec::new(alloc);
    if stations.push(STATION).is_err() || groups.push(1).is_err() {
        return Err(NoMemory);
    }
    Ok(Plan {
        version: 1,
        senders: 1,
        split: Split::Round,
        spread: Spread::Bytes,
        classify: Classify::Tos,
        irq: Irq::Every { packets: 64 },
        stations,
        groups,
        events: Vec::new(alloc),
    })
}
