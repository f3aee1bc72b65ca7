//! When each packet was accepted and when its frame ended, told line by line.
ghost use Rattle.std.specs.Prelude.{◌≡◌, ◌++◌, ◌+◌, ◌/◌, ◌<◌, ◌≤◌, OnOk, length};
ghost use Rattle.std.specs.Fmt.{decimal};
ghost use Rattle.lq_model.specs.Texts.{time_line, times_text};
ghost use Rattle.lq_model.specs.declared.plan.StationPlan.{StationPlan as Station};
ghost use Rattle.lq_card_laws.specs.Laws.{FitsCard};
ghost use Rattle.lq_wire.specs.Page.{page_text};
ghost use Rattle.lq_wire.specs.Times.{HasGone, IsBeforePacket, lines_left};

use crate::line::push_numbers;
use crate::page::Page;
use crate::pass::{finish, first_time, turn};
use crate::stamp::Stamps;
use crate::wired::Wired;
use lq_model::{Card, Flight, Info};
use lq_pcap::Frames;
use lq_plan::Plan;
use std::alloc::{AllocError, Global};

/// The greatest number of 64 bits.
const WORD: u128 = 0xffff_ffff_ffff_ffff;

/// The greatest number of 32 bits.
const HALF: u64 = 0xffff_ffff;

/// A pass over the packets of a plan with a card that tells the packets which the card accepted, in that order.
#[derive(Drop)]
pub struct Times {
    pub wired: Wired,
    /// The time of the next packet.
    pub time: u128,
    pub stamps: Stamps,
}

impl Times {
    /// Before the first packet.
    pub fn new<F: Frames>(
        alloc: Global,
        plan: &Plan,
        card: Card,
        infos: &[Info],
        frames: &F,
    ) -> Times
        requires fits { (station : Station) × FitsCard plan.now infos.now station }
        ensures { (station : Station) → FitsCard plan.now infos.now station → IsBeforePacket result card plan.now (F.packets frames.now) infos.now station 0 }
    {
        Times {
            wired: Wired::new(alloc, card, plan.station(0)),
            time: first_time(frames),
            stamps: Stamps::new(),
        }
    }

    // Packet `n` and what follows it up to the next one; all that follows the last one.
    fn go_on<F: Frames>(
        &mut self,
        plan: &Plan,
        infos: &[Info],
        frames: &F,
        n: usize,
    ) -> Result<(), AllocError>
        requires at { (station : Station) × FitsCard plan.now infos.now station × IsBeforePacket self.old self.old.wired.wire.card plan.now (F.packets frames.now) infos.now station n }
        requires count { length infos.now ≡ (F.packets frames.now).count }
        requires few { length infos.now ≤ 1000000 }
        requires there { n < length infos.now }
        ensures { OnOk result ((station : Station) → FitsCard plan.now infos.now station → IsBeforePacket self.old self.old.wired.wire.card plan.now (F.packets frames.now) infos.now station n
            → HasGone self.new self.old.wired.wire.card plan.now (F.packets frames.now) infos.now station n) }
    {
        if n + 1 < infos.len() {
            turn(&mut self.wired, plan, infos, frames, n, &mut self.time)?;
            return Ok(());
        }
        finish(&mut self.wired, plan, infos, frames, n, self.time)
    }

    /// Writes the lines of the packets that are accepted from packet `n` on, up to the next one, to the end of a text; from the last packet on, of all that are left.
    ///
    /// # AllocError
    ///
    /// There was no room for the lines, or for the packets that wait or are in the driver's ring.
    pub fn push_turn<F: Frames>(
        &mut self,
        text: &mut Page,
        plan: &Plan,
        card: Card,
        infos: &[Info],
        frames: &F,
        n: usize,
    ) -> Result<(), AllocError>
        requires at { (station : Station) × FitsCard plan.now infos.now station × IsBeforePacket self.old card plan.now (F.packets frames.now) infos.now station n }
        requires count { length infos.now ≡ (F.packets frames.now).count }
        requires few { length infos.now ≤ 1000000 }
        requires there { n < length infos.now }
        ensures at { OnOk result ((station : Station) → FitsCard plan.now infos.now station → IsBeforePacket self.old card plan.now (F.packets frames.now) infos.now station n
            → IsBeforePacket self.new card plan.now (F.packets frames.now) infos.now station (n + 1)) }
        ensures tells { OnOk result ((station : Station) → FitsCard plan.now infos.now station → IsBeforePacket self.old card plan.now (F.packets frames.now) infos.now station n
            → page_text text.new ++ lines_left card plan.now (F.packets frames.now) infos.now station (n + 1) ≡ page_text text.old ++ lines_left card plan.now (F.packets frames.now) infos.now station n) }
    {
        let from = self.time.min(WORD) as u64;
        self.go_on(plan, infos, frames, n)?;
        push_lines(text, &mut self.stamps, card, from, &self.wired.wire.untold)?;
        self.wired.tell_all();
        Ok(())
    }
}

// A line for each of these packets, none of which was accepted long after a time, nor ended long after another one.
fn push_lines(
    text: &mut Page,
    stamps: &mut Stamps,
    card: Card,
    from: u64,
    flights: &[Flight],
) -> Result<(), AllocError>
    ensures { OnOk result (page_text text.new ≡ page_text text.old ++ times_text card flights.now) }
{
    for flight in flights {
        push_line(text, stamps, card, from, flight)?;
    }
    Ok(())
}

// The line of a packet.
fn push_line(
    text: &mut Page,
    stamps: &mut Stamps,
    card: Card,
    from: u64,
    flight: &Flight,
) -> Result<(), AllocError>
    ensures { OnOk result (page_text text.new ≡ page_text text.old ++ time_line card flight.now) }
{
    let accepted = nanoseconds(card, from, flight.accepted);
    let ends = nanoseconds(card, stamps.last, flight.ends);
    stamps.last = ends.min(WORD) as u64;
    push_numbers(text, stamps, flight.number, accepted, ends)
}

// A moment in nanoseconds, rounded down. What lies behind a time that isn't long before it is divided in 32 or 64 bits.
fn nanoseconds(card: Card, from: u64, moment: u128) -> u128
    ensures { result ≡ moment / card.rate_kbit }
{
    let rate = card.rate_kbit as u64;
    let start = from as u128 * rate as u128;
    if rate > 0 && start <= moment && moment - start <= WORD {
        return from as u128 + divided((moment - start) as u64, card.rate_kbit) as u128;
    }
    moment.checked_div(rate as u128).unwrap_or(0)
}

// A number divided, rounded down: in 32 bits where it has no more, which takes a processor less time.
fn divided(number: u64, rate: u32) -> u64
    requires { 0 < rate }
    ensures { result ≡ number / rate }
{
    if number <= HALF {
        (number as u32 / rate) as u64
    } else {
        number / rate as u64
    }
}
