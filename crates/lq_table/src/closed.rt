//! A closed table: its words, its packets' fates, and its station's device.
ghost use Rattle.std.specs.Prelude.{◌≡◌, ◌<◌, Some, IfSome, IfNone, slice_index};
ghost use Rattle.lq_device.specs.Station.{StationState};
ghost use Rattle.lq_model.specs.Words.{IsWordOf};
ghost use Rattle.lq_model.specs.Numbers.{greatest};
ghost use Rattle.lq_table.specs.Places.{state_place, lock_place, inside_place, size_place};
ghost use Rattle.lq_table.specs.Sees.{closed_words, closed_stops, closed_fates, closed_home};
ghost use Rattle.lq_table.specs.Ended.{ended_fates, lent_fates};

use crate::ended::{Closed, Ended, FateWords};
use crate::places::{INSIDE, LOCK, SIZE, STATE, XOFF};
use lq_device::{StationPlan, TxDevice};
use lq_model::{Fate, word_fate};

/// The words of a closed table that are no producer's, turn's, slot's or fate's, the stop words as one.
#[derive(Clone, Copy, Debug, PartialEq, Eq)]
pub struct Words {
    /// The bits of the state, and above them one more than the event by which the station is deactivated.
    pub state: u64,
    /// 1 while the run lock is held.
    pub lock: u64,
    /// The greatest stop word of the queues: 0 where each is open, 1 where one is stopped and none hung, 2 where one is hung.
    pub xoff: u64,
    /// How many calls are inside.
    pub inside: u64,
    /// The rings' length.
    pub size: u64,
}

impl<D: TxDevice> Ended<D> {
    /// The number of the station.
    pub fn number(&self) -> u32
        ensures { result ≡ self.now.number }
    {
        self.number
    }

    /// The plan that the table was made with.
    pub fn plan(&self) -> StationPlan
        ensures { result ≡ self.now.plan }
    {
        self.plan
    }

    /// The words in which the fates of its packets stand.
    pub fn fate_words(&self) -> FateWords<'_>
        ensures fates { lent_fates result ≡ ended_fates self.now }
        ensures packets { result.packets ≡ self.now.packets }
    {
        FateWords {
            words: &self.table.words,
            from: self.fates_from,
            packets: self.packets,
        }
    }
}

impl FateWords<'_> {
    /// The fate of packet `n`: None exactly where its fate word is 0.
    pub fn fate(&self, n: u32) -> Option<Fate>
        requires packet { n < self.now.packets }
        ensures some { IfSome result (λ fate. IsWordOf fate (slice_index (lent_fates self.now) n)) }
        ensures none { IfNone result (slice_index (lent_fates self.now) n ≡ 0) }
    {
        word_fate(*self.words.get(self.from + n as usize))
    }
}

impl<D: TxDevice> Closed<D> {
    /// The words in which the fates of its packets stand.
    pub fn fate_words(&self) -> FateWords<'_>
        ensures fates { lent_fates result ≡ closed_fates self.now }
        ensures packets { result.packets ≡ self.now.ended.packets }
    {
        self.ended.fate_words()
    }

    fn greatest_stop(&self) -> u64
        ensures { result ≡ greatest (closed_stops self.now) }
    {
        let others = self.ended.fates_from + self.ended.packets;
        let mut most = self.ended.table.word(XOFF);
        for queue in 0..self.queues - 1 {
            most = most.max(self.ended.table.word(others + queue));
        }
        most
    }

    /// The words as they are, and the greatest of the stop words.
    pub fn words(&self) -> Words
        ensures state { result.state ≡ slice_index (closed_words self.now) state_place }
        ensures lock { result.lock ≡ slice_index (closed_words self.now) lock_place }
        ensures xoff { result.xoff ≡ greatest (closed_stops self.now) }
        ensures inside { result.inside ≡ slice_index (closed_words self.now) inside_place }
        ensures size { result.size ≡ slice_index (closed_words self.now) size_place }
    {
        Words {
            state: self.ended.table.word(STATE),
            lock: self.ended.table.word(LOCK),
            xoff: self.greatest_stop(),
            inside: self.ended.table.word(INSIDE),
            size: self.ended.table.word(SIZE),
        }
    }

    /// The unit that the station's device is. The station must be at home, as it is where the closed seat was sole.
    pub fn unit(&self) -> u32
        requires home { (st : StationState) × (closed_home self.now ≡ Some st) }
        ensures { (st : StationState) → closed_home self.now ≡ Some st → result ≡ st.unit }
    {
        let Some(station) = &self.station else {
            unreachable!()
        };
        station.unit()
    }

    /// Hands out the station's device, beside what stays. Where the closed seat was sole the station is at home, as it must
    /// be, and its device accepted what the account's unit sent (`close`: `device`).
    pub fn into_device(self) -> (Ended<D>, D)
        requires home { (st : StationState) × (closed_home self ≡ Some st) }
        ensures ended { result.0 ≡ self.ended }
        ensures device { (st : StationState) → closed_home self ≡ Some st → D.state result.1 ≡ st.device }
    {
        let Closed {
            ended,
            station,
            queues: _,
        } = self;
        let Some(station) = station else {
            unreachable!()
        };
        (ended, station.into_device())
    }
}
