//! The laws of kept numbers, proved: a body that does nothing, and a contract that is the law.
ghost use Rattle.restart.specs.Keeps.{NoneAreKept, UnitsJoin, JoinedNumbersJoin, MergedUnitsAddNothing, KeptNumbersKeep, KeptNumbersAreExact};

/// How the committed numbers of live records are kept, unit by unit, and what that comes to once
/// all units are passed.
pub fn keeping_laws()
    ensures first { NoneAreKept }
    ensures joins { UnitsJoin }
    ensures numbers { JoinedNumbersJoin }
    ensures merges { MergedUnitsAddNothing }
    ensures keeps { KeptNumbersKeep }
    ensures exact { KeptNumbersAreExact }
{}
