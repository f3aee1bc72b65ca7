//! What the words of the page come to, each the contract of a function that does nothing.
ghost use Rattle.std.specs.Prelude.{◌≡◌, ◌<◌, ◌++◌, ◌∷◌, [], ℕ, Some, codes, length, slice_get};
ghost use Rattle.lq_model.specs.declared.fate.Fate.TheVariants.{Full};
ghost use Rattle.lq_headline.specs.SmallReplays.{InOrder, IsNotEnough, OneFateEach, SentByUnits, SentPackets, four};
ghost use Rattle.lq_headline.specs.Page.{Headline, Replay, count_lines, fate_lines, unit_capture};

/// Four packets: the third was sent first and the first second, the second was dropped and the fourth purged.
pub fn texts_of_four_packets()
    ensures capture { unit_capture four 0 ≡ 9 ∷ 3 ∷ 1 ∷ [] }
    ensures fates { fate_lines four.fates ≡ codes "0 sent 0 1\n1 full 0\n2 sent 0 0\n3 purged hung\n" }
    ensures counts { count_lines four ≡ codes "unit 0 sent 2\nstation 0 full 1 shrunk 0 purged 1 refused 0\ntotal 4 sent 2 full 1 shrunk 0 purged 1 refused 0\n" }
{}

/// Of a headline no packet is lost and no fate made up; no packet is sent twice, or by two units, or dropped as full and sent.
pub fn what_no_headline_has()
    ensures lost { (run : Replay) → Headline run → length run.fates < length run.records → ⊥ }
    ensures made_up { (run : Replay) → Headline run → length run.records < length run.fates → ⊥ }
    ensures twice { (run : Replay) → Headline run → (unit n j k : ℕ) → slice_get (run.sent unit) j ≡ Some n → slice_get (run.sent unit) k ≡ Some n → j ≡ k }
    ensures by_two { (run : Replay) → Headline run → (u v n j k : ℕ) → slice_get (run.sent u) j ≡ Some n → slice_get (run.sent v) k ≡ Some n → u ≡ v }
    ensures dropped { (run : Replay) → Headline run → (unit n k seen : ℕ) → slice_get run.fates n ≡ Some (Full seen) → slice_get (run.sent unit) k ≡ Some n → ⊥ }
{}

/// None of the four facts of a headline follows from the other three.
pub fn none_of_the_four_follows()
    ensures first { IsNotEnough (λ run. SentPackets run × SentByUnits run × InOrder run) }
    ensures second { IsNotEnough (λ run. OneFateEach run × SentByUnits run × InOrder run) }
    ensures third { IsNotEnough (λ run. OneFateEach run × SentPackets run × InOrder run) }
    ensures fourth { IsNotEnough (λ run. OneFateEach run × SentPackets run × SentByUnits run) }
{}
