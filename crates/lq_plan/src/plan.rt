//! A plan that was read.
ghost use Rattle.std.specs.Prelude.{◌≡◌, ◌<◌, ◌≤◌, ◌+◌, Some, length, slice_get, sum};
ghost use Rattle.lq_model.specs.Plan.{first_at, is_swap, mq_at, reads_times, unit_count};
ghost use Rattle.lq_plan.specs.Openings.{opens_while_stopped};
ghost use Rattle.lq_plan.specs.Limits.{IsWithinLimits, IsIrqWithin, IsStationWithin, IsEventWithin};

use crate::openings::is_by_time;
use lq_model::{Classify, EventKind, EventPlan, Irq, Split, Spread, StationPlan};
use std::marker::Model;

/// A plan has no more stations than this.
pub const MAX_STATIONS: u32 = 8;

/// A plan that was read. Contracts see the record `Plan` of `lq_model`.
#[derive(Drop)]
pub struct Plan {
    /// The version of its text, 1 to 5.
    pub(crate) version: u32,
    /// How many threads send, 1 to 64.
    pub(crate) senders: u32,
    /// How the packets are split among them.
    pub(crate) split: Split,
    /// By what each packet's station, queue and child are chosen.
    pub(crate) spread: Spread,
    /// How each packet gets its priority.
    pub(crate) classify: Classify,
    /// When the stopped queues are opened: after so many packets, or at each multiple of so many microseconds.
    pub(crate) irq: Irq,
    /// The stations, 1 to 8, group by group.
    pub(crate) stations: Vec<StationPlan>,
    /// How many stations each group has, 1 to 8.
    pub(crate) groups: Vec<u32>,
    /// What is done to stations on the way, in the order of the document; at most 64.
    pub(crate) events: Vec<EventPlan>,
}

impl Model for Plan {
    ghost use Rattle.lq_model.specs.Plan.{Plan};
    ghost use Rattle.lq_plan.specs.View.{plan_view, plan_invariant};

    ghost Value = { Plan };

    ghost view = { plan_view };

    ghost invariant = { plan_invariant };
}

impl Plan {
    /// The version of its text.
    pub fn version(&self) -> u32
        ensures version { result ≡ self.now.version }
        ensures some { 0 < result }
        ensures few { result ≤ 5 }
    {
        self.version
    }

    /// Whether the times of a capture are read.
    pub fn reads_times(&self) -> bool
        ensures { result ≡ reads_times self.now }
    {
        self.version >= 4
    }

    /// Whether the stopped queues are opened only while one is stopped: by the times of the capture, from version 5 on.
    pub fn opens_while_stopped(&self) -> bool
        ensures { result ≡ opens_while_stopped self.now }
    {
        self.version >= 5 && is_by_time(self.irq)
    }

    /// How many threads send.
    pub fn senders(&self) -> u32
        ensures senders { result ≡ self.now.senders }
        ensures some { 0 < result }
        ensures few { result ≤ 64 }
    {
        self.senders
    }

    /// How the packets are split among them.
    pub fn split(&self) -> Split
        ensures { result ≡ self.now.split }
    {
        self.split
    }

    /// By what each packet's station, queue and child are chosen.
    pub fn spread(&self) -> Spread
        ensures { result ≡ self.now.spread }
    {
        self.spread
    }

    /// How each packet gets its priority.
    pub fn classify(&self) -> Classify
        ensures { result ≡ self.now.classify }
    {
        self.classify
    }

    /// When the stopped queues are opened: after each so many packets of a sender, 1 to 1000, or at each multiple of so many microseconds
    /// of the capture's time, 1 to 1,000,000.
    pub fn irq(&self) -> Irq
        ensures irq { result ≡ self.now.irq }
        ensures within { IsIrqWithin result }
    {
        self.irq
    }

    /// How many stations there are: the children of all groups.
    pub fn stations(&self) -> u32
        ensures stations { result ≡ length self.now.stations }
        ensures some { 0 < result }
        ensures few { result ≤ 8 }
    {
        self.stations.len() as u32
    }

    /// Station `j`.
    pub fn station(&self, j: u32) -> StationPlan
        requires { j < length self.now.stations }
        ensures station { slice_get self.now.stations j ≡ Some result }
        ensures within { IsStationWithin result }
    {
        self.stations[j as usize]
    }

    /// How many stations the text has: each is a group, the children of a multi-queue root or one station alone.
    pub fn groups(&self) -> u32
        ensures groups { result ≡ length self.now.groups }
        ensures some { 0 < result }
        ensures few { result ≤ 8 }
    {
        self.groups.len() as u32
    }

    /// How many children group `j` has.
    pub fn mq(&self, j: u32) -> u32
        requires { j < length self.now.groups }
        ensures mq { result ≡ mq_at self.now.groups j }
        ensures some { 0 < result }
        ensures few { result ≤ 8 }
    {
        self.groups[j as usize]
    }

    /// The number of the first child of group `j`. The others follow it.
    pub fn first(&self, j: u32) -> u32
        requires { j < length self.now.groups }
        ensures first { result ≡ first_at self.now.groups j }
        ensures children { first_at self.now.groups j + mq_at self.now.groups j ≤ length self.now.stations }
        ensures few { result + mq_at self.now.groups j ≤ 8 }
    {
        first_child(&self.groups, j)
    }

    /// How many children all groups have, which is how many stations there are.
    pub fn children(&self) -> u32
        ensures children { result ≡ sum self.now.groups }
        ensures stations { result ≡ length self.now.stations }
    {
        self.stations.len() as u32
    }

    /// How many events there are.
    pub fn events(&self) -> u32
        ensures events { result ≡ length self.now.events }
        ensures few { result ≤ 64 }
    {
        self.events.len() as u32
    }

    /// Event `e`, in the order of the document.
    pub fn event(&self, e: u32) -> EventPlan
        requires { e < length self.now.events }
        ensures event { slice_get self.now.events e ≡ Some result }
        ensures within { IsEventWithin self.now.stations result }
    {
        self.events[e as usize]
    }

    /// How many devices the plan needs: one for each station, and one more for each swap.
    pub fn units(&self) -> u32
        ensures units { result ≡ unit_count self.now }
        ensures some { 0 < result }
        ensures few { result ≤ 72 }
        ensures stations { length self.now.stations ≤ result }
        ensures no_swap { length self.now.events ≡ 0 → result ≡ length self.now.stations }
    {
        let swaps = self.events.iter().filter(|event| is_swap(event)).count();
        (self.stations.len() + swaps) as u32
    }

    /// Every number of a plan is within its limits, and its events come in an order that its stations allow.
    pub fn stays_within_limits(&self)
        ensures { IsWithinLimits self.now }
    {
        let _ = &self.senders;
    }
}

// Whether an event swaps a device.
fn is_swap(event: &EventPlan) -> bool
    ensures { result ≡ is_swap event.now }
{
    matches!(event.kind, EventKind::Swap { .. })
}

/// The number of the first child of group `j` among groups that have so many children.
pub(crate) fn first_child(groups: &[u32], j: u32) -> u32
    requires group { j < length groups.now }
    requires few { sum groups.now ≤ 8 }
    ensures first { result ≡ first_at groups.now j }
    ensures within { result + mq_at groups.now j ≤ sum groups.now }
{
    let mut first = 0;
    for k in 0..j {
        first += groups[k as usize];
    }
    first
}
