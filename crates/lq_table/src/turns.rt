//! The steps on the turn words, by which the packets of one owner are sent in order.
ghost use Rattle.std.specs.Prelude.{◌≡◌, ◌≢◌, ◌+◌, ◌*◌, ◌<◌, true, Some, None, length, MatchResult, ◌∷◌, ◌==◌, [], ℕ};
ghost use Rattle.lq_model.specs.Plan.{station_in};
ghost use Rattle.lq_band_laws.specs.Ring.{unlocked};
ghost use Rattle.lq_band_laws.specs.Three.{all_three};
ghost use Rattle.lq_table.specs.Rule.{times};
ghost use Rattle.lq_table.specs.Sees.{view, position, IsSeatOf, packet_owner};
ghost use Rattle.lq_table.specs.Moves.{at_rest};
ghost use Rattle.lq_table.specs.Step.{GiveTurn, LoadTurn, MakesSteps, TakeTurn, due_word};

use crate::marked::Marked;
use crate::places::turn_word;
use crate::shared::{Cpu, Shared};
use lq_device::TxDevice;
use std::marker::Brand;

impl<'a, D: TxDevice> Shared<'a, D> {
    /// Takes the turn of packet `n`, which the seat then brings. Only a seat that has the packet's owner, and brings no
    /// packet, may ask. It is refused, with the turn word as it is, where that isn't twice the packet's rank: then it isn't
    /// the next of its owner's packets at this station.
    pub fn take_turn(&self, cpu: &mut Cpu<D>, n: u32) -> Result<(), u64>
        requires seat { IsSeatOf self.now cpu.old }
        requires packet { (n < length self.now.infos.now) × (station_in self.now.infos.now n ≡ self.now.station) }
        requires owner { (0 < times (packet_owner self.now n) (view cpu.old).share.owners) × (packet_owner self.now n < self.now.senders) }
        requires idle { (view cpu.old).packets.busy ≡ None }
        ensures makes { (found : ℕ)
            × MatchResult result (λ _. found ≡ due_word (view cpu.old) n) (λ word. (word ≡ found) × (found ≢ due_word (view cpu.old) n))
            × MakesSteps (TakeTurn n found ∷ []) cpu.old cpu.new }
    {
        let owner = self.infos[n as usize].owner as u32;
        let rank = self.infos[n as usize].rank;
        let free = 2 * rank as u64;
        let word = turn_word(owner);
        let Marked { seat, marks } = &mut cpu.known;
        let about = (n, owner, rank);
        let found = self.compare_exchange_word::<Brand, _>(seat, word, free, free + 1, &about);
        marks.busy = found == free;
        if found == free { Ok(()) } else { Err(found) }
    }

    /// Gives back the turn of packet `n`, which has left the seat's hand. It is the last step of a transmit: the seat is in no call and has
    /// neither the run lock nor a producer lock.
    pub fn give_turn(&self, cpu: &mut Cpu<D>, n: u32)
        requires seat { IsSeatOf self.now cpu.old }
        requires packet { (n < length self.now.infos.now) × (packet_owner self.now n < self.now.senders) }
        requires busy { ((view cpu.old).packets.busy ≡ Some n) × ((view cpu.old).packets.fresh ≡ None) }
        requires left { (at_rest (position cpu.old) ≡ true) × ((view cpu.old).locks ≡ all_three unlocked) }
        ensures makes { MakesSteps (GiveTurn n ∷ []) cpu.old cpu.new }
    {
        let owner = self.infos[n as usize].owner as u32;
        let rank = self.infos[n as usize].rank;
        let word = turn_word(owner);
        let Marked { seat, marks } = &mut cpu.known;
        self.store_word::<Brand, _>(seat, word, 2 * rank as u64 + 2, &(owner, rank));
        marks.busy = false;
    }

    /// Loads the turn word of `owner`: twice the rank of its next packet, and one more while that packet's turn is taken.
    pub fn load_turn(&self, cpu: &mut Cpu<D>, owner: u32) -> u64
        requires seat { IsSeatOf self.now cpu.old }
        requires owner { owner < self.now.senders }
        ensures makes { MakesSteps (LoadTurn owner result ∷ []) cpu.old cpu.new }
    {
        let word = turn_word(owner);
        self.load_word::<Brand, _>(&mut cpu.known.seat, word, &owner)
    }
}
