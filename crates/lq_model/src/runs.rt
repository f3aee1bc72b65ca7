//! Small runs of one sender, worked out: each clause is computed from the definition of the run.
ghost use Rattle.std.specs.Prelude.{[], ◌∷◌, ◌++◌, codes, true, false};
ghost use Rattle.lq_model.specs.Runs.{packets_in_bands, packets_on, packets_to, station, plan_of_stations, group_of_two, group_event_at, one_station, no_rules, with_burst, event_at, HaveFates, HaveFatesBy, HasOpenings, HaveEnds, HaveTimesText, Pass, card_at, card_with, carded};
ghost use Rattle.lq_model.specs.declared.plan.Irq.TheVariants.{Period};
ghost use Rattle.lq_model.specs.declared.plan.Limit.TheVariants.{Ring, Bql};
ghost use Rattle.lq_model.specs.declared.fate.Fate.TheVariants.{Sent, Full, Shrunk, Purged, Refused};
ghost use Rattle.lq_model.specs.declared.fate.Cause.TheVariants.{Event, Hung};
ghost use Rattle.lq_model.specs.declared.plan.EventKind.TheVariants as kind;

/// A queue that stops at each packet and is woken after each fourth. Packet 0 is sent and stops it; packet 1 goes past
/// the bands into the requeue slot; packets 2 and 3 go to bands 1 and 0. Where packets may not go past the bands, 1 waits
/// in band 2. The second of two queues does as one that is alone.
#[tactic(auto, unfolding(crate::specs::Alone::run_fates))]
pub fn stopped_queue_requeues()
    ensures with_bypass { HaveFates (one_station 4 1000 true (with_burst 1) []) (packets_in_bands (1 ∷ 2 ∷ 1 ∷ 0 ∷ []))
        (Sent 0 0 ∷ Sent 0 1 ∷ Sent 0 3 ∷ Sent 0 2 ∷ []) }
    ensures without_bypass { HaveFates (one_station 4 1000 false (with_burst 1) []) (packets_in_bands (1 ∷ 2 ∷ 1 ∷ 0 ∷ []))
        (Sent 0 0 ∷ Sent 0 3 ∷ Sent 0 2 ∷ Sent 0 1 ∷ []) }
    ensures on_the_second_queue { HaveFates (plan_of_stations 4 (record (station 1000 true (with_burst 1)) { queues = 2 } ∷ []) [])
        (packets_on ((1, 1) ∷ (1, 2) ∷ (1, 1) ∷ (1, 0) ∷ []))
        (Sent 0 0 ∷ Sent 0 1 ∷ Sent 0 3 ∷ Sent 0 2 ∷ []) }
{}

/// The device answers each second call Busy, three times at most. The packet is laid into the requeue slot, and sent by
/// the next call.
#[tactic(auto, unfolding(crate::specs::Alone::run_fates))]
pub fn busy_device_is_called_again()
    ensures { HaveFates (one_station 1 1000 true (record { burst = 0; busy_every = 2; busy_limit = 3; hang_after = 0 }) [])
        (packets_in_bands (1 ∷ 1 ∷ 1 ∷ 1 ∷ 1 ∷ []))
        (Sent 0 0 ∷ Sent 0 1 ∷ Sent 0 2 ∷ Sent 0 3 ∷ Sent 0 4 ∷ []) }
{}

/// The device hangs at its second packet. What the station then holds is purged at the end.
#[tactic(auto, unfolding(crate::specs::Alone::run_fates))]
pub fn hung_device_purges()
    ensures { HaveFates (one_station 1 1000 true (record { burst = 0; busy_every = 0; busy_limit = 0; hang_after = 2 }) [])
        (packets_in_bands (1 ∷ 1 ∷ 1 ∷ 1 ∷ 1 ∷ []))
        (Sent 0 0 ∷ Sent 0 1 ∷ Purged (Hung 0) ∷ Purged (Hung 0) ∷ Purged (Hung 0) ∷ []) }
{}

/// Bands of one slot. Packet 2 joins its band while packet 1 is in the requeue slot, and packet 3 finds it there.
#[tactic(auto, unfolding(crate::specs::Alone::run_fates))]
pub fn full_band_drops()
    ensures { HaveFates (one_station 1000 1 true (with_burst 1) []) (packets_in_bands (1 ∷ 1 ∷ 1 ∷ 1 ∷ []))
        (Sent 0 0 ∷ Sent 0 1 ∷ Sent 0 2 ∷ Full 2 ∷ []) }
{}

/// Two stations, each with a unit of its own.
#[tactic(auto, unfolding(crate::specs::Alone::run_fates))]
pub fn each_station_has_its_unit()
    ensures { HaveFates (plan_of_stations 1 (station 1000 true no_rules ∷ station 1000 true no_rules ∷ []) [])
        (packets_to (0 ∷ 1 ∷ 0 ∷ [])) (Sent 0 0 ∷ Sent 1 0 ∷ Sent 0 1 ∷ []) }
{}

/// Packet 0 is sent and stops the queue, packet 1 is in the requeue slot and packets 2 to 6 in band 1 when its ring
/// shrinks to three slots.
#[tactic(auto, unfolding(crate::specs::Alone::run_fates))]
pub fn resize_drops_the_last()
    ensures { HaveFates (one_station 1000 8 true (with_burst 1) (event_at 7 (kind.Resize 3) ∷ []))
        (packets_in_bands (1 ∷ 1 ∷ 1 ∷ 1 ∷ 1 ∷ 1 ∷ 1 ∷ 1 ∷ []))
        (Sent 0 0 ∷ Sent 0 1 ∷ Sent 0 2 ∷ Sent 0 3 ∷ Sent 0 4 ∷ Shrunk 0 ∷ Shrunk 0 ∷ Full 2 ∷ []) }
{}

/// Packets 1 and 2 are purged by the change of the queue length. The queue stays stopped, so that packet 3 goes into the
/// requeue slot, and 4 and 5 into their band, whose two slots packet 6 finds full.
#[tactic(auto, unfolding(crate::specs::Alone::run_fates))]
pub fn queue_length_change_purges()
    ensures { HaveFates (one_station 1000 8 true (with_burst 1) (event_at 3 (kind.TxQueueLen 2) ∷ []))
        (packets_in_bands (1 ∷ 1 ∷ 1 ∷ 1 ∷ 1 ∷ 1 ∷ 1 ∷ []))
        (Sent 0 0 ∷ Purged (Event 0) ∷ Purged (Event 0) ∷ Sent 0 1 ∷ Sent 0 2 ∷ Sent 0 3 ∷ Full 4 ∷ []) }
{}

/// A station that is deactivated refuses packets, and one that is deactivated on the way purges what it holds.
#[tactic(auto, unfolding(crate::specs::Alone::run_fates))]
pub fn deactivated_station_refuses()
    ensures at_first { HaveFates (one_station 1 1000 true no_rules (event_at 0 kind.Down ∷ event_at 2 kind.Up ∷ []))
        (packets_in_bands (1 ∷ 1 ∷ 1 ∷ 1 ∷ []))
        (Refused 0 ∷ Refused 0 ∷ Sent 0 0 ∷ Sent 0 1 ∷ []) }
    ensures on_the_way { HaveFates (one_station 1000 1000 true (with_burst 1) (event_at 3 kind.Down ∷ []))
        (packets_in_bands (1 ∷ 1 ∷ 1 ∷ 1 ∷ []))
        (Sent 0 0 ∷ Purged (Event 0) ∷ Purged (Event 0) ∷ Refused 0 ∷ []) }
{}

/// The new device is the next unit. What was held for the old one is purged.
#[tactic(auto, unfolding(crate::specs::Alone::run_fates))]
pub fn swapped_device_begins_anew()
    ensures { HaveFates (one_station 1000 1000 true (with_burst 1) (event_at 2 (kind.Swap no_rules) ∷ []))
        (packets_in_bands (1 ∷ 1 ∷ 1 ∷ 1 ∷ []))
        (Sent 0 0 ∷ Purged (Event 0) ∷ Sent 1 0 ∷ Sent 1 1 ∷ []) }
{}

/// Two queues share the bands, and the device stops the queue of each second packet. Packet 3 waits in the requeue slot for
/// queue 0. After the first wake it is sent and stops queue 0 again, so that packet 5 is laid back; after the second, 5
/// and 6 are sent, 6 stops queue 1, and 7 is laid back; after the third, 7 and 4 are sent.
#[tactic(auto, unfolding(crate::specs::Alone::run_fates))]
pub fn stopped_queue_blocks_the_shared_bands()
    ensures { HaveFates (plan_of_stations 1000 (record (station 1000 true (with_burst 2)) { queues = 2 } ∷ []) [])
        (packets_on ((0, 1) ∷ (0, 1) ∷ (1, 1) ∷ (0, 1) ∷ (1, 2) ∷ (0, 0) ∷ (1, 0) ∷ (1, 1) ∷ []))
        (Sent 0 0 ∷ Sent 0 1 ∷ Sent 0 2 ∷ Sent 0 3 ∷ Sent 0 7 ∷ Sent 0 4 ∷ Sent 0 5 ∷ Sent 0 6 ∷ []) }
{}

/// Two stations are the children of one multi-queue root. An event is done to each of them: deactivated before packet 2, both
/// refuse.
#[tactic(auto, unfolding(crate::specs::Alone::run_fates))]
pub fn each_child_is_a_station()
    ensures without_events { HaveFates (group_of_two (station 1000 true no_rules) []) (packets_to (1 ∷ 0 ∷ 1 ∷ []))
        (Sent 1 0 ∷ Sent 0 0 ∷ Sent 1 1 ∷ []) }
    ensures deactivated { HaveFates (group_of_two (station 1000 true no_rules) (group_event_at 2 kind.Down ∷ []))
        (packets_to (1 ∷ 0 ∷ 1 ∷ 0 ∷ [])) (Sent 1 0 ∷ Sent 0 0 ∷ Refused 0 ∷ Refused 0 ∷ []) }
{}

/// Queues are opened at each multiple of 10 microseconds of the capture's time: none lies between packets 0 and 1 or where time stands
/// or goes back, one between 1 and 2, at which packet 2 has the multiple's own time, and four after packet 4. In a day there are more than are
/// asked for. By the number of packets they are opened after each second one, whatever the times are.
pub fn queues_open_by_time()
    ensures by_time { HasOpenings (record (one_station 1 1000 true no_rules []) { irq = Period 10 })
        (0 ∷ 5000 ∷ 10000 ∷ 10000 ∷ 9999 ∷ 40000 ∷ 86400000040000 ∷ []) (0 ∷ 1 ∷ 0 ∷ 0 ∷ 4 ∷ 65535 ∷ 0 ∷ []) }
    ensures by_packets { HasOpenings (one_station 2 1000 true no_rules []) (0 ∷ 9 ∷ 5 ∷ 5 ∷ 8 ∷ []) (0 ∷ 1 ∷ 0 ∷ 1 ∷ 0 ∷ []) }
{}

/// Three multiples lie between packets 3 and 4. At the first packet 1 leaves the requeue slot, at the second packet 2 its ring of one slot, and at the
/// third the queue stays open, so that packet 4 goes past the bands. Packet 3 found packet 2 in its slot.
#[tactic(auto, unfolding(crate::specs::Alone::run_fates))]
pub fn each_multiple_opens_once()
    ensures { HaveFatesBy (0 ∷ 1000 ∷ 2000 ∷ 3000 ∷ 33000 ∷ 34000 ∷ []) (record (one_station 1 1 true (with_burst 1) []) { irq = Period 10 })
        (packets_in_bands (1 ∷ 1 ∷ 1 ∷ 1 ∷ 1 ∷ 1 ∷ []))
        (Sent 0 0 ∷ Sent 0 1 ∷ Sent 0 2 ∷ Full 2 ∷ Sent 0 3 ∷ Sent 0 4 ∷ []) }
{}

/// A card on a wire on which a frame of 76 bytes takes 100 microseconds, and one of 1,476 bytes 1,500. With one descriptor it sends a frame at a
/// time: the interrupt at 100 comes before the packet of that moment, and packet 4 finds the queue open. A long frame keeps the short ones waiting.
/// With three descriptors three packets are taken at once, and the wire takes one after the other. A frame of 14 bytes takes what 84 bytes take.
#[tactic(auto, unfolding(crate::specs::Wire::openings_of_card, crate::specs::Wire::flights_of_card))]
pub fn frames_take_the_time_of_their_bytes()
    ensures one_descriptor { Pass (card_with (Ring 1) 0) (carded 1000 true []) (1 ∷ 1 ∷ 1 ∷ 1 ∷ 1 ∷ [])
        (0 ∷ 50 ∷ 100 ∷ 150 ∷ 900 ∷ []) (76 ∷ 76 ∷ 76 ∷ 76 ∷ 76 ∷ [])
        ((0, (0, 100)) ∷ (1, (100, 200)) ∷ (2, (200, 300)) ∷ (3, (300, 400)) ∷ (4, (900, 1000)) ∷ []) (0 ∷ 1 ∷ 0 ∷ 3 ∷ 0 ∷ []) }
    ensures long_frame { Pass (card_with (Ring 1) 0) (carded 1000 true []) (1 ∷ 1 ∷ 1 ∷ [])
        (0 ∷ 10 ∷ 20 ∷ []) (1476 ∷ 76 ∷ 76 ∷ [])
        ((0, (0, 1500)) ∷ (1, (1500, 1600)) ∷ (2, (1600, 1700)) ∷ []) (0 ∷ 0 ∷ 0 ∷ []) }
    ensures three_descriptors { Pass (card_with (Ring 3) 0) (carded 1000 true []) (1 ∷ 1 ∷ 1 ∷ 1 ∷ [])
        (0 ∷ 0 ∷ 0 ∷ 0 ∷ []) (76 ∷ 76 ∷ 76 ∷ 76 ∷ [])
        ((0, (0, 100)) ∷ (1, (0, 200)) ∷ (2, (0, 300)) ∷ (3, (100, 400)) ∷ []) (1 ∷ 1 ∷ 0 ∷ 0 ∷ []) }
    ensures least { Pass (card_with (Ring 1) 0) (carded 1000 true []) (1 ∷ 1 ∷ [])
        (0 ∷ 0 ∷ []) (14 ∷ 14 ∷ [])
        ((0, (0, 84)) ∷ (1, (84, 168)) ∷ []) (0 ∷ 0 ∷ []) }
{}

/// With 100 bytes at most, 76 that are out leave room and 152 don't; 152 are within 152; with 150, two frames are out until 100, and then one more is
/// taken at each end of a frame. An interrupt that leaves 1,476 bytes out opens nothing.
#[tactic(auto, unfolding(crate::specs::Wire::openings_of_card, crate::specs::Wire::flights_of_card))]
pub fn bytes_that_are_out_are_limited()
    ensures one_more { Pass (card_with (Bql 100) 0) (carded 1000 true []) (1 ∷ 1 ∷ 1 ∷ [])
        (0 ∷ 0 ∷ 0 ∷ []) (76 ∷ 76 ∷ 76 ∷ [])
        ((0, (0, 100)) ∷ (1, (0, 200)) ∷ (2, (100, 300)) ∷ []) (1 ∷ 0 ∷ 0 ∷ []) }
    ensures just_within { Pass (card_with (Bql 152) 0) (carded 1000 true []) (1 ∷ 1 ∷ 1 ∷ 1 ∷ [])
        (0 ∷ 0 ∷ 0 ∷ 0 ∷ []) (76 ∷ 76 ∷ 76 ∷ 76 ∷ [])
        ((0, (0, 100)) ∷ (1, (0, 200)) ∷ (2, (0, 300)) ∷ (3, (100, 400)) ∷ []) (1 ∷ 1 ∷ 0 ∷ 0 ∷ []) }
    ensures at_each_end { Pass (card_with (Bql 150) 0) (carded 1000 true []) (1 ∷ 1 ∷ 1 ∷ 1 ∷ [])
        (0 ∷ 0 ∷ 0 ∷ 0 ∷ []) (76 ∷ 76 ∷ 76 ∷ 76 ∷ [])
        ((0, (0, 100)) ∷ (1, (0, 200)) ∷ (2, (100, 300)) ∷ (3, (200, 400)) ∷ []) (1 ∷ 0 ∷ 0 ∷ 0 ∷ []) }
    ensures still_too_many { Pass (card_with (Bql 100) 0) (carded 1000 true []) (1 ∷ 1 ∷ 1 ∷ 1 ∷ [])
        (0 ∷ 0 ∷ 0 ∷ 2000 ∷ []) (76 ∷ 1476 ∷ 76 ∷ 76 ∷ [])
        ((0, (0, 100)) ∷ (1, (0, 1600)) ∷ (2, (1600, 1700)) ∷ (3, (2000, 2100)) ∷ []) (1 ∷ 0 ∷ 2 ∷ 0 ∷ []) }
{}

/// The interrupt comes 250 microseconds after the first frame of the ring has left, and takes two frames back. The wire idles from 200 to 350.
#[tactic(auto, unfolding(crate::specs::Wire::openings_of_card, crate::specs::Wire::flights_of_card))]
pub fn late_interrupt_takes_back_what_has_left()
    ensures six { Pass (card_with (Ring 2) 250) (carded 1000 true []) (1 ∷ 1 ∷ 1 ∷ 1 ∷ 1 ∷ 1 ∷ [])
        (0 ∷ 0 ∷ 0 ∷ 0 ∷ 0 ∷ 0 ∷ []) (76 ∷ 76 ∷ 76 ∷ 76 ∷ 76 ∷ 76 ∷ [])
        ((0, (0, 100)) ∷ (1, (0, 200)) ∷ (2, (350, 450)) ∷ (3, (350, 550)) ∷ (4, (700, 800)) ∷ (5, (700, 900)) ∷ []) (1 ∷ 0 ∷ 0 ∷ 0 ∷ 0 ∷ 0 ∷ []) }
{}

/// Bytes decide what is dropped. Of four packets of one moment 1 is in the requeue slot and 2 in the ring of one slot, which 3 finds full. Where 3 comes at
/// 250, two short frames have gone, and it finds the ring empty; behind a long first frame it finds 2 there. What went past the bands goes first, then band 0, then band 1; without
/// a bypass packet 1 waits in band 2.
#[tactic(auto, unfolding(crate::specs::Wire::openings_of_card, crate::specs::Wire::flights_of_card))]
pub fn card_serves_the_bands()
    ensures at_once { Pass (card_with (Ring 1) 0) (carded 1 true []) (1 ∷ 1 ∷ 1 ∷ 1 ∷ [])
        (0 ∷ 0 ∷ 0 ∷ 0 ∷ []) (76 ∷ 76 ∷ 76 ∷ 76 ∷ [])
        ((0, (0, 100)) ∷ (1, (100, 200)) ∷ (2, (200, 300)) ∷ []) (0 ∷ 0 ∷ 0 ∷ 0 ∷ []) }
    ensures short_first { Pass (card_with (Ring 1) 0) (carded 1 true []) (1 ∷ 1 ∷ 1 ∷ 1 ∷ [])
        (0 ∷ 0 ∷ 0 ∷ 250 ∷ []) (76 ∷ 76 ∷ 76 ∷ 76 ∷ [])
        ((0, (0, 100)) ∷ (1, (100, 200)) ∷ (2, (200, 300)) ∷ (3, (300, 400)) ∷ []) (0 ∷ 0 ∷ 2 ∷ 0 ∷ []) }
    ensures long_first { Pass (card_with (Ring 1) 0) (carded 1 true []) (1 ∷ 1 ∷ 1 ∷ 1 ∷ [])
        (0 ∷ 0 ∷ 0 ∷ 250 ∷ []) (1476 ∷ 76 ∷ 76 ∷ 76 ∷ [])
        ((0, (0, 1500)) ∷ (1, (1500, 1600)) ∷ (2, (1600, 1700)) ∷ []) (0 ∷ 0 ∷ 0 ∷ 0 ∷ []) }
    ensures past_the_bands { Pass (card_with (Ring 1) 0) (carded 1000 true []) (1 ∷ 2 ∷ 1 ∷ 0 ∷ 1 ∷ [])
        (0 ∷ 0 ∷ 0 ∷ 0 ∷ 0 ∷ []) (76 ∷ 76 ∷ 76 ∷ 76 ∷ 76 ∷ [])
        ((0, (0, 100)) ∷ (1, (100, 200)) ∷ (3, (200, 300)) ∷ (2, (300, 400)) ∷ (4, (400, 500)) ∷ []) (0 ∷ 0 ∷ 0 ∷ 0 ∷ 0 ∷ []) }
    ensures without_bypass { Pass (card_with (Ring 1) 0) (carded 1000 false []) (1 ∷ 2 ∷ 1 ∷ 0 ∷ 1 ∷ [])
        (0 ∷ 0 ∷ 0 ∷ 0 ∷ 0 ∷ []) (76 ∷ 76 ∷ 76 ∷ 76 ∷ 76 ∷ [])
        ((0, (0, 100)) ∷ (3, (100, 200)) ∷ (2, (200, 300)) ∷ (4, (300, 400)) ∷ (1, (400, 500)) ∷ []) (0 ∷ 0 ∷ 0 ∷ 0 ∷ 0 ∷ []) }
{}

/// Deactivated before packet 2 and activated before packet 3: the frame on the wire goes on, packet 1 is purged, packet 2 refused, and packet 3 waits for the end
/// of the frame. Where the station is deactivated after the last packet, what waits then is not sent.
#[tactic(auto, unfolding(crate::specs::Wire::openings_of_card, crate::specs::Wire::flights_of_card))]
pub fn frame_on_the_wire_goes_on()
    ensures up_again { Pass (card_with (Ring 1) 0) (carded 1000 true (event_at 2 kind.Down ∷ event_at 3 kind.Up ∷ [])) (1 ∷ 1 ∷ 1 ∷ 1 ∷ [])
        (0 ∷ 0 ∷ 10 ∷ 20 ∷ []) (76 ∷ 76 ∷ 76 ∷ 76 ∷ [])
        ((0, (0, 100)) ∷ (3, (100, 200)) ∷ []) (0 ∷ 0 ∷ 0 ∷ 0 ∷ []) }
    ensures down_at_the_end { Pass (card_with (Ring 1) 0) (carded 1000 true (event_at 3 kind.Down ∷ [])) (1 ∷ 1 ∷ 1 ∷ [])
        (0 ∷ 0 ∷ 10 ∷ []) (76 ∷ 76 ∷ 76 ∷ [])
        ((0, (0, 100)) ∷ []) (0 ∷ 0 ∷ 0 ∷ []) }
{}

/// At 33,333 kbit/s a frame of 60 bytes takes 20,160 nanoseconds and a fifth. Five times 20,160 are 100,800, and the fifth frame ends at 100,801.
#[tactic(auto, unfolding(crate::specs::Wire::flights_of_card))]
pub fn nothing_is_rounded_on_the_way()
    ensures { HaveEnds (card_at 33333 (Ring 1) 0) (carded 1000 true []) (0 ∷ 0 ∷ 0 ∷ 0 ∷ 0 ∷ []) (60 ∷ 60 ∷ 60 ∷ 60 ∷ 60 ∷ [])
        (20160 ∷ 40320 ∷ 60480 ∷ 80640 ∷ 100801 ∷ []) }
{}

/// A line for each packet: its number, when it was accepted, and when its frame ended.
#[tactic(auto, unfolding(crate::specs::Texts::times_text))]
pub fn times_are_lines()
    ensures { HaveTimesText (0, 84) (20, 168) (codes "0 0 84" ++ (10 ∷ (codes "1 20 168" ++ 10 ∷ []))) }
{}
