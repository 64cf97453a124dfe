//! Laws of the directory, proved: a body that does nothing, and a contract that is the law.
ghost use Rattle.unit_directory.specs.Laws.{FreePlacesCount, OneIsNext, AllAreFreeAtFirst, UsesTake, DisusesGiveBack, AdoptsTake, ReplacesGiveBack, ReadyPlacesLeaveOne, ReadyPlacesStay, NextPlacesAreAside, NextPlacesLeaveReady};

/// Which places are free after each call, and how many: a place that is taken or adopted isn't free
/// any more, one that is given back or that a unit leaves is, and each other is as it was. One place
/// alone is the next to be taken.
pub fn directory_laws()
    ensures counted { FreePlacesCount }
    ensures next { OneIsNext }
    ensures first { AllAreFreeAtFirst }
    ensures takes { UsesTake }
    ensures gives_back { DisusesGiveBack }
    ensures adopts { AdoptsTake }
    ensures replaces { ReplacesGiveBack }
{}

/// Places that are found worn and set aside, each the next free one in its turn: they are free no more
/// but retired. Where one more place is free or retired than are spare, one is free, and it stays so.
pub fn aside_laws()
    ensures one { ReadyPlacesLeaveOne }
    ensures stay { ReadyPlacesStay }
    ensures aside { NextPlacesAreAside }
    ensures ready { NextPlacesLeaveReady }
{}
