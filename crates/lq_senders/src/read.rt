//! The fates of a run are read off the words of its stations.
ghost use Rattle.std.specs.Prelude.{◌≡◌, ◌≢◌, ◌<◌, ◌≤◌, ℕ, length, map};
ghost use Rattle.lq_model.specs.Words.{IsWordOf};
ghost use Rattle.lq_table.specs.Ended.{ended_state};
ghost use Rattle.lq_senders.specs.Told.{AreLent, TellEach, fates_told, word_in, words_lent};

use lq_device::TxDevice;
use lq_fates::Fates;
use lq_model::{Fate, Info};
use lq_plan::MAX_STATIONS;
use lq_table::{Ended, FateWords};

/// The fate words of each station, at its number.
type Lent<'a> = [Option<FateWords<'a>>; MAX_STATIONS as usize];

/// The fates of a run's packets. Each is read off the words of its station whenever it is asked for, so that no list of them is made.
///
/// Threads share the words that the ended stations lend, and not the stations.
#[derive(Clone, Copy)]
pub struct RunFates<'a> {
    /// What each packet is to the rules.
    infos: &'a [Info],
    words: Lent<'a>,
    pub ghost few: { length infos.now ≤ 1000000 },
    pub ghost told: { (n : ℕ) → n < length infos.now → word_in infos.now (words_lent words) n ≢ 0 },
}

impl<'a> RunFates<'a> {
    ghost use Rattle.lq_senders.specs.RunFates.{fates_of};

    /// The fates that these stations tell.
    pub fn new<D: TxDevice>(infos: &'a [Info], ended: &'a [Ended<D>]) -> Self
        requires { TellEach infos.now (map ended_state ended.now) }
        ensures { fates_of result ≡ fates_told infos.now (map ended_state ended.now) }
    {
        RunFates {
            infos,
            words: lent_words(ended),
        }
    }
}

impl<'a> Fates for RunFates<'a> {
    ghost use Rattle.lq_senders.specs.RunFates.{fates_of};

    ghost fates = { fates_of };

    fn len(&self) -> usize {
        self.infos.len()
    }

    fn fate(&self, n: usize) -> Fate {
        read(&self.words, self.infos, n as u32)
    }
}

// The fate words of the stations.
fn lent_words<D: TxDevice>(ended: &[Ended<D>]) -> Lent<'_>
    requires stations { length ended.now ≤ 8 }
    ensures { AreLent (map ended_state ended.now) (length ended.now) result }
{
    let mut lent = [None; MAX_STATIONS as usize];
    for station in 0..ended.len() {
        lent[station] = Some(ended[station].fate_words());
    }
    lent
}

// The fate of packet `n`.
fn read(lent: &Lent<'_>, infos: &[Info], n: u32) -> Fate
    requires packet { n < length infos.now }
    requires told { word_in infos.now (words_lent lent.now) n ≢ 0 }
    ensures { IsWordOf result (word_in infos.now (words_lent lent.now) n) }
{
    let station = infos[n as usize].station;
    let Some(words) = lent[station as usize] else {
        unreachable!()
    };
    let Some(fate) = words.fate(n) else {
        unreachable!()
    };
    fate
}
