//! Mistakes that leave a packet behind. For each a machine of two seats that keeps the invariant, the one step with the
//! mistake that breaks the invariant's sentence, and the steps after it to a quiet machine that still holds the packet.
ghost use Rattle.lq_model.specs.Kept.{BlockedDraining, LockFreeMissed, LookedClear};
ghost use Rattle.lq_model.specs.Quiet.{Reaches};
ghost use Rattle.lq_model.specs.declared.machine.Attempt.{Attempt};
ghost use Rattle.lq_model.specs.declared.machine.Attempt.TheVariants.{Queued};
ghost use Rattle.lq_model.specs.declared.machine.Blocked.{Blocked};
ghost use Rattle.lq_model.specs.declared.machine.Blocked.TheVariants.{NoneTaken};
ghost use Rattle.lq_model.specs.declared.machine.Position.TheVariants.{BlockedLoad, Miss, SoftClear, Unlock};
ghost use Rattle.std.specs.Prelude.{Bool, true};
ghost use Rattle.lq_run_core.specs.Mistakes.{LeavesBehind, after_step, about_to_look, clears_and_leaves, clears_after_its_look, drains_without_a_look, found_deactivated, left_clear, left_draining, left_in_slot, left_missed, missed_meanwhile, looked_again, about_to_release, misses_for_good, about_to_miss, numbered_packet, releases_after_its_look};
ghost use Rattle.lq_run_core.specs.Stays.{ComesNearer, NobodyComes};

/// Run end looks at MISSED before it releases the run lock. Between the two another seat puts a packet, sets MISSED and
/// finds the lock held; the holder has seen MISSED clear and doesn't schedule. The other seat's packet stays in its band,
/// with MISSED set and nobody to look at it.
pub fn end_looks_before_it_releases()
    ensures between { Reaches about_to_release missed_meanwhile }
    ensures left { LeavesBehind missed_meanwhile (after_step missed_meanwhile 0 (releases_after_its_look about_to_release.qdisc.missed))
        LockFreeMissed left_missed (numbered_packet 1 1) }
{}

/// Run begin finds the run lock held, and sets MISSED when its holder has already left; it doesn't try again. Its packet
/// stays in its band, with MISSED set at a free lock.
pub fn begin_gives_up_after_one_try()
    ensures { LeavesBehind about_to_miss (after_step about_to_miss 1 (misses_for_good (Queued (numbered_packet 1 1))))
        LockFreeMissed left_missed (numbered_packet 1 1) }
{}

/// MISSED is cleared after the second look at the bands. A packet that was put after that look, and whose seat set MISSED
/// for it, stays in its band with no bit set.
pub fn missed_cleared_after_the_second_look()
    ensures { LeavesBehind looked_again (after_step looked_again 0 clears_after_its_look)
        LookedClear left_clear (numbered_packet 2 1) }
{}

/// A holder that found the queue stopped clears MISSED, and sets DRAINING without loading the stop word again. The queue
/// was opened in between, and MISSED told of a packet of then: it stays in its band, with DRAINING set and no stopped queue
/// whose wake would look at it.
pub fn draining_set_without_looking_again()
    ensures { LeavesBehind about_to_look (after_step about_to_look 0 (drains_without_a_look (NoneTaken 0)))
        BlockedDraining left_draining (numbered_packet 1 1) }
{}

/// A soft interrupt that found DEACTIVATED clears SCHED and leaves at once. The station was activated since, and a transmit
/// laid its packet back and found SCHED set, so it didn't schedule: the packet stays in the requeue slot.
pub fn soft_interrupt_gives_up_when_deactivated()
    ensures { LeavesBehind found_deactivated (after_step found_deactivated 1 clears_and_leaves)
        LockFreeMissed left_in_slot (numbered_packet 1 0) }
{}

/// Of the laws of progress each of the five breaks the one that somebody comes: in the machine that it leaves (`end_looks_before_it_releases`
/// and `begin_gives_up_after_one_try` leave the same one) the packet waits, and nobody may move.
pub fn nobody_comes_after_a_mistake()
    ensures missed { NobodyComes left_missed (numbered_packet 1 1) }
    ensures clear { NobodyComes left_clear (numbered_packet 2 1) }
    ensures draining { NobodyComes left_draining (numbered_packet 1 1) }
    ensures in_slot { NobodyComes left_in_slot (numbered_packet 1 0) }
{}

/// None breaks the bound: the step with the mistake makes the number less too, in every machine; MISSED cleared once more, which leaves the
/// seat where it is, adds nothing to it. So no order goes on for ever by them.
pub fn mistakes_come_nearer_too()
    ensures end_looks { (found : Bool) → ComesNearer Unlock (releases_after_its_look found) 0 }
    ensures one_try { (attempt : Attempt) → ComesNearer (Miss attempt) (misses_for_good attempt) 0 }
    ensures cleared { ComesNearer Unlock clears_after_its_look 1 }
    ensures draining { (b : Blocked) → ComesNearer (BlockedLoad b) (drains_without_a_look b) 0 }
    ensures interrupt { ComesNearer (SoftClear true) clears_and_leaves 0 }
{}
