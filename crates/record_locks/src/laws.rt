//! Laws of locks, proved: a body that does nothing, and a contract that is the law.
ghost use Rattle.record_locks.specs.Names.{LocksLookAtNames, PeaksAreTheStates, SessionsRefuseAsStates, CallsKeepNames, CallsKeepPeaks, BatchesRefuseAsStates, BatchesKeepNames, BatchesKeepPeaks, CallsKeepSlots};

/// The tests of locks look at names alone, and not at what was put; that of a unit's pending names
/// looks at the peaks. So sessions that have the names and peaks of a state refuse as that state
/// does, and after each call they have the names and peaks of the state then. No call changes how
/// many sessions there are.
pub fn lock_laws()
    ensures names { LocksLookAtNames }
    ensures refusals { SessionsRefuseAsStates }
    ensures calls { CallsKeepNames }
    ensures peaks { PeaksAreTheStates }
    ensures keeps { CallsKeepPeaks }

    // commits of several sessions
    ensures batches { BatchesRefuseAsStates }
    ensures closes { BatchesKeepNames }
    ensures leaves { BatchesKeepPeaks }

    // the number of sessions
    ensures slots { CallsKeepSlots }
{}
