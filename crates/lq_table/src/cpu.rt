//! What a seat tells at run time, and the station that it carries.
ghost use Rattle.std.specs.Prelude.{◌≡◌, Some, IsSome};
ghost use Rattle.std.specs.Borrow.{sem};
ghost use Rattle.lq_table.specs.Carried.{LendsStation};
ghost use Rattle.lq_table.specs.Sees.{view};

use crate::shared::Cpu;
use lq_device::{Station, TxDevice};

impl<D: TxDevice> Cpu<D> {
    /// Whether it is the first seat, which alone does control.
    pub fn first(&self) -> bool
        ensures { result ≡ (view self.now).control.first }
    {
        self.known.marks.first
    }

    /// How many of the table's 1024 shares it has.
    pub fn shares(&self) -> u32
        ensures { result ≡ (view self.now).share.shares }
    {
        self.known.marks.shares
    }

    /// Whether it is raised: it set SCHED and owes a soft interrupt, as a CPU owes one for each qdisc on its
    /// `output_queue` (`__netif_reschedule` and `net_tx_action` of net/core/dev.c).
    pub fn raised(&self) -> bool
        ensures { result ≡ (view self.now).place.raised }
    {
        self.known.marks.raised
    }

    /// The station that it carries.
    pub fn station(&self) -> &Station<D>
        requires carries { IsSome self.now.station }
        ensures { self.now.station ≡ Some result.now }
    {
        match &self.station {
            Some(station) => station,
            None => unreachable!(),
        }
    }

    /// The station that it carries, to change. Afterwards the seat has the station as it was left, and is else as it was.
    pub fn station_mut(&mut self) -> &mut Station<D>
        requires carries { IsSome self.old.station }
        ensures* writes_back { sem 𝓛 (LendsStation D.row D.TxDevice self.entry result) }
        ensures value { self.old.station ≡ Some result.now }
    {
        match &mut self.station {
            Some(station) => station,
            None => unreachable!(),
        }
    }
}
