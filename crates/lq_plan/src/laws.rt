//! Laws of the definition, as the contracts of functions that do nothing.

ghost use Rattle.lq_plan.specs.Laws.{AcceptsWithinLimits, KeepsVersion1, KeepsVersion2, KeepsVersion3, KeepsVersion4, ReadsVersion1, ReadsVersion2, ReadsVersion3, ReadsVersion4};

/// Whatever text is a plan, its numbers are within their limits, and its events come in an order that its stations
/// allow.
pub fn accepts_within_limits()
    ensures { AcceptsWithinLimits }
{}

/// A text that says none of the versions 2 to 5 is read by the keys and the limits of version 1 alone, so that it has the plan that it had before there was another version; each station of that plan has one queue.
pub fn version_1_stays()
    ensures reads { ReadsVersion1 }
    ensures keeps { KeepsVersion1 }
{}

/// A text that says none of the versions 3 to 5 is read by the keys and the limits of version 2, or of version 1, alone, so
/// that it has the plan that it had before stations could be groups: a packet's station is its route byte modulo the stations,
/// and each event is one of its own station.
pub fn version_2_stays()
    ensures reads { ReadsVersion2 }
    ensures keeps { KeepsVersion2 }
{}

/// A text that says neither `version = 4` nor `version = 5` is read by the keys and the limits of version 3, 2 or 1 alone, so that it has the plan that it
/// had before flows and times counted: a packet's station and queue are chosen by its source byte and its route byte, its owner
/// by its number or its source byte, and the stopped queues are opened after each so many packets of a sender.
pub fn version_3_stays()
    ensures reads { ReadsVersion3 }
    ensures keeps { KeepsVersion3 }
{}

/// A text that doesn't say `version = 5` is read by the keys and the limits of version 4, 3, 2 or 1 alone, so that it has the plan that it
/// had before stations could have cards: the queues are opened as the plan says, and each packet has the priority of its type of
/// service.
pub fn version_4_stays()
    ensures reads { ReadsVersion4 }
    ensures keeps { KeepsVersion4 }
{}
