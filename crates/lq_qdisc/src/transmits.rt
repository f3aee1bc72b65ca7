//! The transmit of a packet by its sender.
ghost use Rattle.lq_table.specs.Sees.{IsSeatOf, view, setup, position, known, steps};
ghost use Rattle.std.specs.Prelude.{◌≡◌, ◌<◌, ℕ, true, false, Some, ◌≢◌, ◌*◌, ◌↔◌};
ghost use Rattle.lq_table.specs.Moves.{IsPacketOf};
ghost use Rattle.lq_qdisc.specs.Calls.{KeepsFates};
ghost use Rattle.lq_qdisc.specs.declared.answers.Sending.TheVariants as sending;
ghost use Rattle.lq_model.specs.declared.machine.Position.TheVariants.{Idle};
ghost use Rattle.lq_qdisc.specs.Seats.{IsTurnOf, turn_word, BringsStation};
ghost use Rattle.lq_qdisc.specs.Sends.{IsCallKept, IsReadyToSend};
ghost use Rattle.lq_qdisc.specs.Steps.{TransmitsBy};
ghost use Rattle.lq_qdisc.specs.StepLists.{QueueXmit};
ghost use Rattle.lq_ring.specs.StepLists.{MakesStepsFrom};
ghost use Rattle.lq_model.specs.Plan.{band_in, station_in, owner_in, rank_in};
ghost use Rattle.lq_table.specs.Rule.{times};
ghost use Rattle.lq_model.specs.Alone.{brought_in};
ghost use Rattle.lq_account_laws.specs.Trail.{down_of};
ghost use Rattle.lq_table.specs.Made.{◌⊳◌};
ghost use Rattle.lq_table.specs.Turns.{take_turn_log};

use crate::answers::Sending;
use crate::sends::xmit_skb;
use lq_device::TxDevice;
use lq_table::{Cpu, Shared};
use std::sync::Wait;

/// Sends packet `n`, as `__dev_queue_xmit` of net/core/dev.c does for one whose qdisc has `TCQ_F_NOLOCK`. The seat is in no
/// call, before and after, and has nothing in hand; it has the owner of the packet, which is one of the station. It waits for the
/// producer lock of the packet's band, and for nothing else.
///
/// OutOfTurn comes exactly where the turn word of the packet's owner isn't twice the packet's rank, and then nothing was
/// done. After every other answer the turn of `n` is given back. Refused comes only where the state was loaded with
/// DEACTIVATED and that event, and for the first seat's packets just where its trail has the station deactivated by it;
/// FullSeen only where the slot that the packet needed had that other one. Direct comes only where packets may go past the
/// bands and the state was loaded under the run lock in this call with MISSED and DRAINING clear; where they may, Queued
/// and FullSeen come only where this call loaded the state with one of them set, or didn't get the run lock. A seat that
/// has the table alone and isn't raised brings the packet to its station as the run of one sender does.
pub fn transmit<'a, D: TxDevice, R: Wait>(
    rt: &R,
    shared: &Shared<'a, D>,
    cpu: &mut Cpu<D>,
    n: u32,
) -> Sending
    requires seat { IsSeatOf shared.now cpu.old }
    requires at { position cpu.old ≡ Idle }
    requires ready { IsReadyToSend cpu.old }
    requires packet { IsPacketOf (setup shared.now) n × (station_in shared.now.infos.now n ≡ shared.now.station)
        × (band_in shared.now.infos.now n < 3) }
    requires owner { (0 < times (owner_in shared.now.infos.now n) (view cpu.old).share.owners)
        × (owner_in shared.now.infos.now n < shared.now.senders) }
    ensures kept { IsCallKept cpu.old cpu.new }
    ensures fates { KeepsFates (view cpu.old) (view cpu.new) }
    ensures at { position cpu.new ≡ Idle }
    ensures ready { IsReadyToSend cpu.new }
    ensures makes { IsTurnOf shared.now n cpu.old → MakesStepsFrom (QueueXmit (setup shared.now) n result) cpu.old cpu.new }
    ensures in_turn { IsTurnOf shared.now n cpu.old → TransmitsBy (setup shared.now) n result (known cpu.old) (known cpu.new) }
    ensures first { IsTurnOf shared.now n cpu.old → (view cpu.old).control.first ≡ true → (event : ℕ)
        → (result ≡ sending.Refused event) ↔ (down_of (view cpu.old).trail ≡ Some event) }
    ensures alone { IsTurnOf shared.now n cpu.old → (view cpu.old).place.raised ≡ false
        → BringsStation shared.now (brought_in shared.now.infos.now shared.now.bypass n) cpu.old cpu.new }
    ensures out_of_turn { turn_word shared.now n cpu.old ≢ 2 * rank_in shared.now.infos.now n
        → (result ≡ sending.OutOfTurn (turn_word shared.now n cpu.old)) × (view cpu.new ≡ view cpu.old)
        × (steps cpu.new ≡ steps cpu.old ⊳ take_turn_log (owner_in shared.now.infos.now n) (rank_in shared.now.infos.now n) false) }
{
    if let Err(found) = shared.take_turn(cpu, n) {
        return Sending::OutOfTurn { found };
    }
    shared.enter(cpu);
    let sending = xmit_skb(rt, shared, cpu, n);
    shared.leave(cpu);
    shared.give_turn(cpu, n);
    sending
}
