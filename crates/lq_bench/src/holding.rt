//! Rounds of control that holds the run lock.
ghost use Rattle.std.specs.Prelude.{◌≡◌, [], ◌∷◌};
ghost use Rattle.lq_bench.specs.Ready.{IsFirstReady};
ghost use Rattle.lq_table.specs.Sees.{view, slot, IsElseSame, IsSeatOf};

use crate::kind::Holding;
use lq_device::TxDevice;
use lq_run::end_resize;
use lq_table::{Cpu, Shared};

/// Control takes the run lock with the station, and gives both back: two loads, an exchange of the lock's word, two of the
/// slot, and a store.
fn hold_run_lock<'a, D: TxDevice>(shared: &Shared<'a, D>, cpu: &mut Cpu<D>)
    requires ready { IsFirstReady shared.now cpu.old }
    ensures ready { IsFirstReady shared.now cpu.new }
{
    shared.begin_control(cpu);
    if shared.try_lock(cpu) {
        shared.move_station(cpu);
        end_resize(shared, cpu);
    } else {
        shared.end_control(cpu);
    }
}

/// So many times.
fn run_locks<'a, D: TxDevice>(shared: &Shared<'a, D>, cpu: &mut Cpu<D>, count: u32)
    requires ready { IsFirstReady shared.now cpu.old }
    ensures ready { IsFirstReady shared.now cpu.new }
{
    for _ in 0..count {
        hold_run_lock(shared, cpu);
    }
}

/// The station comes out of its slot and goes back in: two exchanges.
fn move_station<'a, D: TxDevice>(shared: &Shared<'a, D>, cpu: &mut Cpu<D>)
    requires seat { IsSeatOf shared.now cpu.old }
    requires holder { (st : _) × (slot cpu.old ≡ (0, st) ∷ []) }
    ensures same { IsElseSame cpu.old cpu.new × (view cpu.new ≡ view cpu.old) }
{
    shared.move_station(cpu);
    shared.move_station(cpu);
}

/// So many times.
fn move_stations<'a, D: TxDevice>(shared: &Shared<'a, D>, cpu: &mut Cpu<D>, count: u32)
    requires seat { IsSeatOf shared.now cpu.old }
    requires holder { (st : _) × (slot cpu.old ≡ (0, st) ∷ []) }
    ensures same { IsElseSame cpu.old cpu.new × (view cpu.new ≡ view cpu.old) }
{
    for _ in 0..count {
        move_station(shared, cpu);
    }
}

/// The same under the run lock, which is taken before and given back.
fn hold_station<'a, D: TxDevice>(shared: &Shared<'a, D>, cpu: &mut Cpu<D>, count: u32)
    requires ready { IsFirstReady shared.now cpu.old }
    ensures ready { IsFirstReady shared.now cpu.new }
{
    shared.begin_control(cpu);
    if shared.try_lock(cpu) {
        move_stations(shared, cpu, count);
        shared.move_station(cpu);
        end_resize(shared, cpu);
    } else {
        shared.end_control(cpu);
    }
}

/// So many rounds of this kind.
pub fn hold<'a, D: TxDevice>(kind: Holding, shared: &Shared<'a, D>, cpu: &mut Cpu<D>, count: u32)
    requires ready { IsFirstReady shared.now cpu.old }
    ensures ready { IsFirstReady shared.now cpu.new }
{
    match kind {
        Holding::Lock => run_locks(shared, cpu, count),
        Holding::Station => hold_station(shared, cpu, count),
    }
}
