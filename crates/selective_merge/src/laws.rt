//! The laws of merges, proved: a body that does nothing, and a contract that is the law.
ghost use Rattle.selective_merge.specs.Laws.{FilledPlacesAreReady, StandsAfterFilling, TablesFollowFilling, MergesKeepTheLast, PacksAreTold, MergesReadOnce};
ghost use Rattle.selective_merge.specs.FaultLaws.{MergeableUnitsHaveNoFault, FaultsAreOfThePlace, SaidUnitsAreMergeable, MergeFaultsAreOfTheUnit};
ghost use Rattle.selective_merge.specs.KnownLaws.{KnownPlacesAreReady, KnownPlacesMayBeAside, KnownPlacesMove, KnownPlacesTakeOverflows};

/// A place that was filled by a merge is ready for its header; with it the chip stands for the same
/// map and the tables mirror it. Of each name the last record of an active number is in its log. Where
/// the tables mirror the chip, no sector is read twice for it.
pub fn merge_laws()
    ensures ready { FilledPlacesAreReady }
    ensures stands { StandsAfterFilling }
    ensures tables { TablesFollowFilling }
    ensures last { MergesKeepTheLast }
    ensures told { PacksAreTold }
    ensures once { MergesReadOnce }
{}

/// Where tables know each place, one may be taken, however many are worn; and they know each place once
/// some are set aside, a unit has moved or there is a new overflow place.
pub fn known_laws()
    ensures ready { KnownPlacesAreReady }
    ensures aside { KnownPlacesMayBeAside }
    ensures moves { KnownPlacesMove }
    ensures overflows { KnownPlacesTakeOverflows }
{}

/// What is wrong with a unit that is to be merged: nothing, where its pages show values and few log
/// sectors would be carried, as they do where the pages say a map; it is so by the bytes of its place
/// alone, and where few log sectors would be carried, by its layout alone.
pub fn fault_laws()
    ensures none { MergeableUnitsHaveNoFault }
    ensures place { FaultsAreOfThePlace }
    ensures said { SaidUnitsAreMergeable }
    ensures unit { MergeFaultsAreOfTheUnit }
{}
