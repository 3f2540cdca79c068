//! What holds of interleavings, and of every world that events make, as laws of the definitions.
ghost use Rattle.world_core.specs.InterleavingLaws.{PrefixesInterleave, CountsInterleave, ListsAreDetermined, AmountsInterleave, TablesInterleave};
ghost use Rattle.world_core.specs.WorldLaws.{EveryWorldKeepsOrder, EveryLookIsFresh, PublishIsAlwaysPossible, NoPushWithoutRoom};

/// A prefix of an interleaving is an interleaving of prefixes. There are as many entries as the lists
/// have points together. The entries determine the lists. An amount of the entries' points is the sum of
/// the lists' amounts, so a table over them is the table over the lists one after the other. It does
/// nothing when run.
pub fn interleaving_laws()
    ensures prefix { PrefixesInterleave }
    ensures length { CountsInterleave }
    ensures lists { ListsAreDetermined }
    ensures amount { AmountsInterleave }
    ensures table { TablesInterleave }
{}

/// Whatever the events: what was pushed is in each feeder's order, each feed is what it pushed and then
/// its rest, and no session saw or was told more than the journal. Each look shows a prefix of the last
/// journal, no shorter than what was shown or told before. A publication is always possible, and a push
/// never where the queue has no room. It does nothing when run.
pub fn world_laws()
    ensures order { EveryWorldKeepsOrder }
    ensures looks { EveryLookIsFresh }
    ensures publish { PublishIsAlwaysPossible }
    ensures push { NoPushWithoutRoom }
{}
