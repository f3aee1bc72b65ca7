//! What one atomic step does at each position.
ghost use Rattle.std.specs.Prelude.{◌≡◌, ◌<◌, ◌-◌, true, nat_le, length, IsTrue, if◌then◌else◌};
ghost use Rattle.lq_model.specs.Band.{batch};
ghost use Rattle.lq_model.specs.declared.machine.Attempt.TheVariants.{Interrupt};
ghost use Rattle.lq_model.specs.declared.machine.Blocked.TheVariants.{InHand};
ghost use Rattle.lq_model.specs.declared.machine.Position.TheVariants.{Put, Gate, Xmit, Unlock, ClearMissed, BlockedClear, BlockedMiss, BlockedDrain, Sched, Try1};
ghost use Rattle.lq_model.specs.Machine.{band_at, is_non_empty, is_queue_open};
ghost use Rattle.lq_model.specs.Steps.{goes_to, step_at, counted, gives_up, after_band, queue_of_blocked, queue_of_slot, call_ends, enter, dequeue_begins, run_begins, after_sent, try_lock, miss, check, may_answer, after_put, put_answered, xmit, store_xoff, deq, scan, requeues, schedule, wake};

use crate::qdisc::{Qdisc, at};
use lq_model::state::QUOTA;
use lq_model::{Answer, Attempt, Blocked, Call, Packet, Position, Seat, batch};

/// How many packets the run has sent with one more.
fn counted(seat: Seat) -> Seat
    ensures { result ≡ counted seat }
{
    Seat {
        position: seat.position,
        raised: seat.raised,
        run: if seat.run < QUOTA - 1 {
            seat.run + 1
        } else {
            QUOTA
        },
    }
}

/// A packet that would go past the bands is put into its band where the lock isn't got.
fn gives_up(attempt: Attempt) -> Position
    ensures { result ≡ gives_up attempt }
{
    match attempt {
        Attempt::Direct(packet) => Position::Put {
            packet,
            holds: false,
        },
        Attempt::Queued(_) => Position::Leave,
        Attempt::Interrupt => Position::Leave,
    }
}

/// After the last band the state is looked at, or the second time the run ends.
fn after_band(band: u32, second: bool) -> Position
    ensures { result ≡ after_band band second }
{
    if band < 2 {
        Position::Scan {
            band: band + 1,
            second,
        }
    } else if second {
        Position::Unlock
    } else {
        Position::Test
    }
}

/// The queue that was found stopped.
fn queue_of_blocked(blocked: Blocked) -> u32
    ensures { result ≡ queue_of_blocked blocked }
{
    match blocked {
        Blocked::InHand { packet, direct: _ } => packet.queue,
        Blocked::NoneTaken { queue } => queue,
    }
}

/// The queue of the packet in the requeue slot; with an empty slot a dequeue looks at queue 0, the only one.
fn queue_of_slot(slot: Option<Packet>) -> u32
    ensures { result ≡ queue_of_slot slot }
{
    match slot {
        Some(packet) => packet.queue,
        None => 0,
    }
}

/// After a transmit or a soft interrupt, or outside.
fn call_ends(inside: bool) -> Position
    ensures { result ≡ call_ends inside }
{
    if inside {
        Position::Leave
    } else {
        Position::Idle
    }
}

/// After the count of the calls inside.
fn enter(call: Call) -> Position
    ensures { result ≡ enter call }
{
    match call {
        Call::Transmit(packet) => Position::Check(packet),
        Call::SoftInterrupt => Position::Soft,
    }
}

impl Qdisc {
    /// With one queue a dequeue begins at its stop word, with several at the requeue slot.
    fn dequeue_begins(&self) -> Position
        ensures { result ≡ dequeue_begins self.now }
    {
        if self.has_several_queues() && self.slot.is_none() {
            Position::Scan {
                band: 0,
                second: false,
            }
        } else {
            Position::Deq
        }
    }

    /// A run begins, with nothing sent (`__qdisc_run` of net/sched/sch_generic.c).
    fn run_begins(&self, seat: Seat) -> Seat
        ensures { result ≡ (run_begins self.now seat).seat }
    {
        Seat {
            position: self.dequeue_begins(),
            raised: seat.raised,
            run: 0,
        }
    }

    /// After a packet that was sent: past the bands, at the end of its quota, or at the next dequeue.
    fn after_sent(&self, direct: bool, seat: Seat) -> Position
        ensures { result ≡ after_sent direct self.now seat }
    {
        if direct {
            Position::Post
        } else if seat.run == QUOTA {
            Position::Quota
        } else {
            self.dequeue_begins()
        }
    }

    /// Tries the run lock (`qdisc_run_begin` of include/net/sch_generic.h); where it is held, the seat goes to the
    /// other position.
    fn try_lock(&mut self, seat: Seat, attempt: Attempt, otherwise: Position) -> Seat
        ensures qdisc { self.new ≡ (try_lock attempt otherwise self.old seat).qdisc }
        ensures seat { result ≡ (try_lock attempt otherwise self.old seat).seat }
    {
        if self.locked {
            return at(seat, otherwise);
        }
        self.locked = true;
        match attempt {
            Attempt::Direct(packet) => at(seat, Position::Recheck(packet)),
            Attempt::Queued(_) => self.run_begins(seat),
            Attempt::Interrupt => self.run_begins(seat),
        }
    }

    /// Sets MISSED by test-and-set.
    fn miss(&mut self, seat: Seat, attempt: Attempt) -> Seat
        ensures qdisc { self.new ≡ (miss attempt self.old seat).qdisc }
        ensures seat { result ≡ (miss attempt self.old seat).seat }
    {
        if self.missed {
            return at(seat, gives_up(attempt));
        }
        self.missed = true;
        at(seat, Position::Try2(attempt))
    }

    /// The first load of a transmit (`__dev_xmit_skb` of net/core/dev.c).
    fn check(&self, packet: Packet) -> Position
        ensures { result ≡ check packet self.now }
    {
        if self.deactivated {
            Position::Leave
        } else if self.bypass && !self.is_non_empty() {
            Position::Try1(Attempt::Direct(packet))
        } else {
            Position::Put {
                packet,
                holds: false,
            }
        }
    }

    /// Puts a packet into its band, or counts it as refused (`pfifo_fast_enqueue` of net/sched/sch_generic.c).
    fn put(&mut self, seat: Seat, packet: Packet, holds: bool, answer: Answer) -> Seat
        requires { IsTrue (may_answer (Put packet holds) answer self.old) }
        ensures qdisc { self.new ≡ (after_put holds packet (put_answered answer packet self.old) seat).qdisc }
        ensures seat { result ≡ (after_put holds packet (put_answered answer packet self.old) seat).seat }
    {
        match answer {
            Answer::Plain => self.join(packet),
            Answer::FullSlot => self.count_full(),
            Answer::Stop | Answer::Hang | Answer::Busy => {}
        }
        if holds {
            self.run_begins(seat)
        } else {
            at(seat, Position::Try1(Attempt::Queued(packet)))
        }
    }

    /// Hands the packet to the device (`sch_direct_xmit` of net/sched/sch_generic.c).
    fn xmit(&mut self, seat: Seat, packet: Packet, direct: bool, answer: Answer) -> Seat
        ensures qdisc { self.new ≡ (xmit answer packet direct self.old seat).qdisc }
        ensures seat { result ≡ (xmit answer packet direct self.old seat).seat }
    {
        match answer {
            Answer::Plain => {
                self.count_sent();
                let seat = counted(seat);
                at(seat, self.after_sent(direct, seat))
            }
            Answer::FullSlot => at(seat, Position::Xmit { packet, direct }),
            Answer::Stop => {
                self.count_sent();
                at(
                    counted(seat),
                    Position::StoreXoff {
                        queue: packet.queue,
                        hung: false,
                        direct,
                    },
                )
            }
            Answer::Hang => {
                self.count_sent();
                at(
                    counted(seat),
                    Position::StoreXoff {
                        queue: 0,
                        hung: true,
                        direct,
                    },
                )
            }
            Answer::Busy => {
                self.slot = Some(packet);
                at(seat, Position::Again)
            }
        }
    }

    /// A hang stops every queue, one after another.
    fn stop(&mut self, seat: Seat, queue: u32, hung: bool, direct: bool) -> Seat
        ensures qdisc { self.new ≡ (store_xoff queue hung direct self.old seat).qdisc }
        ensures seat { result ≡ (store_xoff queue hung direct self.old seat).seat }
    {
        self.store_xoff(queue, if hung { 2 } else { 1 });
        if hung && self.has_next_queue(queue) {
            at(
                seat,
                Position::StoreXoff {
                    queue: queue + 1,
                    hung,
                    direct,
                },
            )
        } else {
            at(seat, self.after_sent(direct, seat))
        }
    }

    /// Loads the stop word, and takes the packet in the requeue slot (`dequeue_skb` of net/sched/sch_generic.c).
    fn deq(&mut self, seat: Seat) -> Seat
        ensures qdisc { self.new ≡ (deq self.old seat).qdisc }
        ensures seat { result ≡ (deq self.old seat).seat }
    {
        let queue = queue_of_slot(self.slot);
        if !self.is_queue_open(queue) {
            return at(seat, Position::BlockedClear(Blocked::NoneTaken { queue }));
        }
        match self.slot {
            Some(packet) => {
                self.slot = None;
                at(
                    seat,
                    Position::Gate {
                        packet,
                        direct: false,
                    },
                )
            }
            None => at(
                seat,
                Position::Scan {
                    band: 0,
                    second: false,
                },
            ),
        }
    }

    /// Looks at a band (`pfifo_fast_dequeue` of net/sched/sch_generic.c).
    fn scan(&mut self, seat: Seat, band: u32, second: bool) -> Seat
        ensures qdisc { self.new ≡ (scan (band_at self.old band) band second self.old seat).qdisc }
        ensures seat { result ≡ (scan (band_at self.old band) band second self.old seat).seat }
    {
        match self.take_first(band) {
            Some(packet) => at(
                seat,
                Position::Gate {
                    packet,
                    direct: false,
                },
            ),
            None => at(seat, after_band(band, second)),
        }
    }

    /// A packet in hand goes to the requeue slot.
    fn requeue(&mut self, seat: Seat, blocked: Blocked) -> Seat
        ensures qdisc { self.new ≡ (requeues blocked self.old seat).qdisc }
        ensures seat { result ≡ (requeues blocked self.old seat).seat }
    {
        match blocked {
            Blocked::InHand { packet, direct: _ } => {
                self.slot = Some(packet);
                at(seat, Position::Again)
            }
            Blocked::NoneTaken { queue: _ } => at(seat, Position::Unlock),
        }
    }

    /// Sets SCHED by test-and-set (`__netif_schedule` of net/core/dev.c).
    fn schedule(&mut self, seat: Seat, inside: bool) -> Seat
        ensures qdisc { self.new ≡ (schedule inside self.old seat).qdisc }
        ensures seat { result ≡ (schedule inside self.old seat).seat }
    {
        if self.sched {
            return at(seat, call_ends(inside));
        }
        self.sched = true;
        Seat {
            position: call_ends(inside),
            raised: true,
            run: seat.run,
        }
    }

    /// Opens a stopped queue (`netif_tx_wake_queue` of net/core/dev.c).
    fn wake(&mut self, seat: Seat, queue: u32) -> Seat
        ensures qdisc { self.new ≡ (wake queue self.old seat).qdisc }
        ensures seat { result ≡ (wake queue self.old seat).seat }
    {
        if self.stop_word(queue) != 1 {
            return at(seat, Position::Idle);
        }
        self.store_xoff(queue, 0);
        at(seat, Position::Sched { inside: false })
    }

    /// Whether a seat at this position can do its step with this answer.
    pub(crate) fn may_answer(&self, position: Position, answer: Answer) -> bool
        ensures { result ≡ may_answer position answer self.now }
    {
        match (position, answer) {
            (Position::Idle | Position::Control { .. }, _) => false,
            (Position::Put { packet, .. }, Answer::Plain) => self.band_len(packet.band)
                < self.len as usize,
            (Position::Put { packet, .. }, Answer::FullSlot) => self.may_be_full(packet.band),
            (Position::Xmit { .. }, Answer::Stop | Answer::Hang | Answer::Busy) => true,
            (_, Answer::Plain) => true,
            _ => false,
        }
    }

    /// Whether all slots of a band's ring may hold packets, with those of them that were taken.
    fn may_be_full(&self, band: u32) -> bool
        ensures { result ≡ nat_le (self.now.len - batch self.now.len) (length (band_at self.now band)) }
    {
        self.len.saturating_sub(batch(self.len)) as usize <= self.band_len(band)
    }

    /// Under the run lock: nothing may have been missed when a packet goes past the bands.
    fn recheck(&self, packet: Packet) -> Position
        ensures { result ≡ (if is_non_empty self.now then Put packet true else Gate packet true) }
    {
        if self.is_non_empty() {
            Position::Put {
                packet,
                holds: true,
            }
        } else {
            Position::Gate {
                packet,
                direct: true,
            }
        }
    }

    /// Looks at the stop word of the packet in hand.
    fn gate(&self, packet: Packet, direct: bool) -> Position
        ensures { result ≡ (if is_queue_open self.now packet.queue then Xmit packet direct else BlockedClear (InHand packet direct)) }
    {
        if self.is_queue_open(packet.queue) {
            Position::Xmit { packet, direct }
        } else {
            Position::BlockedClear(Blocked::InHand { packet, direct })
        }
    }

    /// After a packet that went past the bands.
    fn post(&self, seat: Seat) -> Seat
        ensures { result ≡ (if is_non_empty self.now then run_begins self.now seat else goes_to self.now seat Unlock).seat }
    {
        if self.is_non_empty() {
            self.run_begins(seat)
        } else {
            at(seat, Position::Unlock)
        }
    }

    /// Where all bands were found empty.
    fn test(&self) -> Position
        ensures { result ≡ (if is_non_empty self.now then ClearMissed else Unlock) }
    {
        if self.is_non_empty() {
            Position::ClearMissed
        } else {
            Position::Unlock
        }
    }

    /// The second look at a stopped queue (`qdisc_maybe_clear_missed` of net/sched/sch_generic.c).
    fn blocked_load(&self, blocked: Blocked) -> Position
        ensures { result ≡ (if is_queue_open self.now (queue_of_blocked blocked) then BlockedMiss blocked else BlockedDrain blocked) }
    {
        if self.is_queue_open(queue_of_blocked(blocked)) {
            Position::BlockedMiss(blocked)
        } else {
            Position::BlockedDrain(blocked)
        }
    }

    /// After the release (`qdisc_run_end` of include/net/sch_generic.h).
    fn tail(&self, inside: bool) -> Position
        ensures { result ≡ (if self.now.missed then Sched inside else call_ends inside) }
    {
        if self.missed {
            Position::Sched { inside }
        } else {
            call_ends(inside)
        }
    }

    /// Where a soft interrupt goes that found DEACTIVATED set or clear.
    fn late(deactivated: bool, otherwise: Position) -> Position
        ensures { result ≡ (if deactivated then otherwise else Try1 Interrupt) }
    {
        if deactivated {
            otherwise
        } else {
            Position::Try1(Attempt::Interrupt)
        }
    }

    /// The step of a seat at its position. Each arm restates a definition of lq_model's `Steps`: where that gives a
    /// position, the arm gives it; where it gives what is left of the words and of the seat, the arm returns the seat.
    pub(crate) fn step(&mut self, seat: Seat, answer: Answer) -> Seat
        requires may { IsTrue (may_answer seat.position answer self.old) }
        requires few { self.old.inside < 18446744073709551615 }
        ensures qdisc { self.new ≡ (step_at seat.position answer self.old seat).qdisc }
        ensures seat { result ≡ (step_at seat.position answer self.old seat).seat }
    {
        let next = match seat.position {
            Position::Idle => Position::Idle,
            Position::Control { holds } => Position::Control { holds },
            Position::Enter(call) => {
                self.inside += 1;
                enter(call)
            }
            Position::Check(packet) => self.check(packet),
            Position::Put { packet, holds } => return self.put(seat, packet, holds, answer),
            Position::Try1(attempt) => return self.try_lock(seat, attempt, Position::Miss(attempt)),
            Position::Miss(attempt) => return self.miss(seat, attempt),
            Position::Try2(attempt) => return self.try_lock(seat, attempt, gives_up(attempt)),
            Position::Recheck(packet) => self.recheck(packet),
            Position::Gate { packet, direct } => self.gate(packet, direct),
            Position::Xmit { packet, direct } => return self.xmit(seat, packet, direct, answer),
            Position::StoreXoff {
                queue,
                hung,
                direct,
            } => return self.stop(seat, queue, hung, direct),
            Position::Post => return self.post(seat),
            Position::Deq => return self.deq(seat),
            Position::Scan { band, second } => return self.scan(seat, band, second),
            Position::Test => self.test(),
            Position::ClearMissed => {
                self.missed = false;
                Position::ClearDraining
            }
            Position::ClearDraining => {
                self.draining = false;
                Position::Scan {
                    band: 0,
                    second: true,
                }
            }
            Position::BlockedClear(blocked) => {
                self.missed = false;
                Position::BlockedLoad(blocked)
            }
            Position::BlockedLoad(blocked) => self.blocked_load(blocked),
            Position::BlockedMiss(blocked) => {
                self.missed = true;
                return self.requeue(seat, blocked);
            }
            Position::BlockedDrain(blocked) => {
                self.draining = true;
                return self.requeue(seat, blocked);
            }
            Position::Again | Position::Quota => {
                self.missed = true;
                Position::Unlock
            }
            Position::Unlock => {
                self.locked = false;
                Position::Tail { inside: true }
            }
            Position::Tail { inside } => self.tail(inside),
            Position::Sched { inside } => return self.schedule(seat, inside),
            Position::Leave => {
                self.inside = self.inside.saturating_sub(1);
                Position::Idle
            }
            Position::Soft => Position::SoftClear {
                deactivated: self.deactivated,
            },
            Position::SoftClear { deactivated } => {
                self.sched = false;
                Qdisc::late(deactivated, Position::Late)
            }
            Position::Late => Qdisc::late(self.deactivated, Position::Leave),
            Position::Wake { queue } => return self.wake(seat, queue),
        };
        at(seat, next)
    }
}
