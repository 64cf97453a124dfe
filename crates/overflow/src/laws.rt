//! Laws of overflow places, proved: a body that does nothing, and a contract that is the law.
ghost use Rattle.overflow.specs.Laws.{SpotsAreCleanOnes, FirstSpotsAreAdded, FoundSpotsAreAdded, DropsMove, EmptyListsAreFirst};

/// What the calls come to in the words of the tables: the spot that is offered is the first clean
/// sector of the lowest place that has one, to add it is a log sector written there, and to drop a
/// unit's spots is what the unit's move to a new place makes of the table.
pub fn overflow_laws()
    ensures spots { SpotsAreCleanOnes }
    ensures adds { FirstSpotsAreAdded }
    ensures finds { FoundSpotsAreAdded }
    ensures drops { DropsMove }
    ensures first { EmptyListsAreFirst }
{}
