//! The laws of the rules.
ghost use Rattle.ipl_model.specs.FillLaws.{OperationsKeepPagesFit, PutsMakePagesFit, RecordsHaveRoom, OperationsKeepUnitsFit, SmallerPeaksAreLess};
ghost use Rattle.ipl_model.specs.RuleLaws.{RefusalsLookAtSessions, PutsRefuseInTwoParts, SeesItsOwnWrites, CommitsWhatIsSeen, BatchesNameOnce, BatchesWrite, BatchesKeep};

/// Refusals don't depend on the map but where a page is full, and what a session sees is its own
/// last write, or else the map.
pub fn rule_laws()
    ensures refusals { RefusalsLookAtSessions }
    ensures parts { PutsRefuseInTwoParts }
    ensures sees { SeesItsOwnWrites }
    ensures commits { CommitsWhatIsSeen }

    // commits of several sessions
    ensures once { BatchesNameOnce }
    ensures batches { BatchesWrite }
    ensures keeps { BatchesKeep }
{}

/// No page comes to be too full, and no unit's pending names too heavy, but by a write that is
/// refused for it; so the records of each page have room in it.
pub fn fill_laws()
    ensures stays { OperationsKeepPagesFit }
    ensures puts { PutsMakePagesFit }
    ensures room { RecordsHaveRoom }
    ensures units { OperationsKeepUnitsFit }
    ensures less { SmallerPeaksAreLess }
{}
