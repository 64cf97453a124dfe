//! The laws of what calls leave of worn places, proved: a body that does nothing, and a contract that is
//! the law.
ghost use Rattle.place_taking.specs.CountLaws.{EachTriedIsNext, ErasesCount, OthersCountAsBefore, UntriedPlacesStayFree};
ghost use Rattle.place_taking.specs.Laws.{
  NothingWears,
  ReadsWearNothing,
  ProgramsWearNothing,
  SparedPlacesWear,
  WearsAreJoined,
  FailuresWear,
};

/// Calls that do nothing, read, program places in use behind their first sector, or write free places;
/// one call after another; and one that failed.
pub fn wear_laws()
    ensures none { NothingWears }
    ensures reads { ReadsWearNothing }
    ensures programs { ProgramsWearNothing }
    ensures spared { SparedPlacesWear }
    ensures both { WearsAreJoined }
    ensures failed { FailuresWear }
{}

/// What it comes to that erases are counted (`Counted`): a place that wasn't erased counts as it did, and
/// one that was counts more, or is free; a free place that wasn't tried is free still; and each that was
/// tried was the next free one, after what came before.
pub fn count_laws()
    ensures others { OthersCountAsBefore }
    ensures erased { ErasesCount }
    ensures free { UntriedPlacesStayFree }
    ensures next { EachTriedIsNext }
{}
