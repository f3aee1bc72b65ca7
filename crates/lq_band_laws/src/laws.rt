//! What the words of a band stand for, and that each step keeps it.
ghost use Rattle.lq_band_laws.specs.Laws.{BandsMayBeFullAtPacketsFound, EmptySlotAtHeadMeansNoneHeld, PacketAtHeadIsFirstHeld, IndexIsPlaceOfLineEnd, HeadIsPlaceOfNextTake, HeldPacketsStandAtTheirPlaces, SlotAtLineEndTellsWhetherOccupied, LockingKeepsRings, LoadingSizeKeepsRings, FindingRoomKeepsRings, StoringKeepsRingsAndHadRoom, UnlockingKeepsRings, TakingKeepsRings, EmptyingKeepsRings, RingsHoldBands, EmptyingKeepsBands, FindingRoomBeforeHeadKeepsBands, PacketBeforeHeadMeansFullBand, PuttingBackKeepsBands, BeginningHalfResizesRings, EmptyingKeepsHalfResized, FillingKeepsHalfResized, StoringFateKeepsHalfResized, SettingWordKeepsHalfResized, RefilledSlotsAreRings, StoredWordsAreOfFates, DecidingFatesKeepsWords, StoringDecidedFateKeepsWords, DecidingAndStoringFateKeepsWords};

/// The slot at the index under the producer lock, where it isn't empty, has a packet that the band may be full at; the
/// slot at the head, where no batch is being emptied, has the first held packet, or none where none is held.
pub fn slots_tell()
    ensures full { BandsMayBeFullAtPacketsFound }
    ensures none { EmptySlotAtHeadMeansNoneHeld }
    ensures first { PacketAtHeadIsFirstHeld }
{}

/// A band's words round the ring: the index is the place of the line's end (between a store and the index given back, it is
/// the one before), the head that of what is taken next; each held packet stands in the slot of its place; and where no
/// batch is being emptied the slot at the line's end is occupied exactly where the band says so.
pub fn words_stand_for_bands()
    ensures index { IndexIsPlaceOfLineEnd }
    ensures head { HeadIsPlaceOfNextTake }
    ensures held { HeldPacketsStandAtTheirPlaces }
    ensures occupied { SlotAtLineEndTellsWhetherOccupied }
{}

/// Each step of a sender on the band's words keeps them: it takes the producer lock, loads the size, finds room in the slot
/// at the index, stores a packet there, which joins the band and for which there was room, and gives the lock back with the
/// index for the next.
pub fn producers_keep_rings()
    ensures locked { LockingKeepsRings }
    ensures sized { LoadingSizeKeepsRings }
    ensures room { FindingRoomKeepsRings }
    ensures joined { StoringKeepsRingsAndHadRoom }
    ensures given { UnlockingKeepsRings }
{}

/// Each step of the consumer keeps them: it takes the first held packet from the slot at the head, and empties the slots
/// after a batch from the entry just taken down to the tail.
pub fn consumer_keeps_rings()
    ensures taken { TakingKeepsRings }
    ensures emptied { EmptyingKeepsRings }
{}

/// The words hold a band wherever its consumer stands, so also where it gives packets back (`ptr_ring_unconsume` of
/// include/linux/ptr_ring.h): a ring whose consumer only takes is one of these. The slots below the head are emptied one after the
/// other, down to the tail. Then the slot before the head is empty, and the packet that was taken last is put back there, or the
/// band holds as many packets as there are slots.
pub fn giving_back_keeps_bands()
    ensures ring { RingsHoldBands }
    ensures emptied { EmptyingKeepsBands }
    ensures room { FindingRoomBeforeHeadKeepsBands }
    ensures full { PacketBeforeHeadMeansFullBand }
    ensures put_back { PuttingBackKeepsBands }
{}

/// Each step of a resize keeps what is known of a band half done: it begins, where no take is under way and control has
/// the producer lock, with the packets that the band keeps in its line and the others waiting; slots are emptied into
/// control's hand and filled from it; the fate of the first packet that waits is stored; the producer word is set. Where
/// the slots have the kept packets from slot 0 on, it is a ring of the new length again.
pub fn resize_keeps_bands()
    ensures begun { BeginningHalfResizesRings }
    ensures cleared { EmptyingKeepsHalfResized }
    ensures filled { FillingKeepsHalfResized }
    ensures settled { StoringFateKeepsHalfResized }
    ensures set { SettingWordKeepsHalfResized }
    ensures restarted { RefilledSlotsAreRings }
{}

/// The fate words stand for the fates as these are decided and stored. Where nobody has yet to store a packet's fate its word
/// is that of its fate, or 0 where it has none; the fates of some packets may be decided before their words are stored; and
/// a word is stored for a fate that was decided before, or at once.
pub fn fate_words_stand()
    ensures stored { StoredWordsAreOfFates }
    ensures decided { DecidingFatesKeepsWords }
    ensures settled { StoringDecidedFateKeepsWords }
    ensures given { DecidingAndStoringFateKeepsWords }
{}
