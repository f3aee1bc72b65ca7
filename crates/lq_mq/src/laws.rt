//! Laws of the definitions, each the contract of a function that does nothing.
ghost use Rattle.lq_mq.specs.Laws.{EachListIsSubsequence, HasAsManyAsTheLists, HasNothingElse, IsAsLongAsTheLists, IsBySerial};

/// The joint list has each of the lists as a subsequence, each number as often as the lists together, and nothing else. It is in order of
/// serial, and at one serial in that of the lists.
pub fn joint_has_each_list()
    ensures subsequences { EachListIsSubsequence }
    ensures counts { HasAsManyAsTheLists }
    ensures len { IsAsLongAsTheLists }
    ensures no_other { HasNothingElse }
    ensures order { IsBySerial }
{}
