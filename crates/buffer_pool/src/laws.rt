//! Laws of the pool, proved: a body that does nothing, and a contract that is the law.
ghost use Rattle.buffer_pool.specs.Laws.{BuffersAreTold, PinnedStay, BringsAddABuffer, EvictsTakeABuffer, PinsChangeABuffer, LoansChangeABuffer};
ghost use Rattle.buffer_pool.specs.HoldingLaws.{NothingKeepsPins, BothKeepPins, KeptPinsAreAsMany, KeptPinsRest, PinsGivenBackAreKept, PagesBroughtKeepPins, EvictionsKeepPins, ChangesKeepPins, LoansKeepPins, EmptyPoolsRest, PagesAtRestMayBePinned, ARestingPoolHasRoom};
ghost use Rattle.buffer_pool.specs.Uses.{ChangesKeepUses, LoansKeepUses, BringsCountNoOther, ChangesCountNoOther, EvictionsCountNoUse, KeptUsesAreLast, VictimsAreUsedFirst};

/// A page has one buffer at most, so the buffers are a function of unit and page, and each call changes
/// it at one page. And a pinned page stays in its frame.
pub fn pool_laws()
    ensures told { BuffersAreTold }
    ensures pinned { PinnedStay }
    ensures brings { BringsAddABuffer }
    ensures evicts { EvictsTakeABuffer }
    ensures pins { PinsChangeABuffer }
    ensures loans { LoansChangeABuffer }
{}

/// Calls that give back the pins that they take keep all that were, and a pool at rest, between calls,
/// stays so then.
pub fn holding_laws()
    ensures nothing { NothingKeepsPins }
    ensures both { BothKeepPins }
    ensures as_many { KeptPinsAreAsMany }
    ensures rest { KeptPinsRest }
    ensures pins { PinsGivenBackAreKept }
    ensures brings { PagesBroughtKeepPins }
    ensures evicts { EvictionsKeepPins }
    ensures changes { ChangesKeepPins }
    ensures loans { LoansKeepPins }
{}

/// An empty pool is at rest, and one at rest has a frame whose page isn't held.
pub fn resting_laws()
    ensures empty { EmptyPoolsRest }
    ensures may_pin { PagesAtRestMayBePinned }
    ensures room { ARestingPoolHasRoom }
{}

/// A pin given back and what is written through a loan count no use, so the page that was used last is
/// still; a page that is brought in, pinned or touched, or that leaves, is no use of another. The page
/// that is offered to leave is the one used longest ago of those that aren't held.
pub fn use_laws()
    ensures changes { ChangesKeepUses }
    ensures loans { LoansKeepUses }
    ensures brings { BringsCountNoOther }
    ensures touches { ChangesCountNoOther }
    ensures evicts { EvictionsCountNoUse }
    ensures last { KeptUsesAreLast }
    ensures victims { VictimsAreUsedFirst }
{}
