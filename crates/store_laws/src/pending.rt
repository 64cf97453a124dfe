//! The laws of pending writes.
ghost use Rattle.store_laws.specs.PendingLaws.{BeginsKeepPending, SharesKeepPending, WritesKeepPending, LogSectorsKeepPending, MergesKeepPending, SameLogsKeepPending, RenewalsKeepPending, CommitsKeepPending, CommitsSayWrites, BatchesKeepPending, BatchesSayWrites, AbortsKeepPending, RestartsLeaveNone, RecordsStayPending, RecordsAreWrites, ChangedPagesSuffice, RecordsWeighNoMore};
ghost use Rattle.store_laws.specs.FrameLaws.{FramesTell, LoadsMakeFrames, BeginsKeepFrames, WritesKeepFrames, OtherWritesKeepFrames, LogSectorsKeepFrames, MergesKeepFrames, OtherStepsKeepFrames, CommitsKeepFrames, AbortsKeepFrames};
ghost use Rattle.store_laws.specs.FittingLaws.{SparesAreFreeOrRetired, APlaceIsFree, FitsWhateverTheMap, SessionsAreSound, WrittenPagesFit, LoadedPagesFit, FramesKeepPeaks, PeaksTellFullPages, PutsThatPassHaveRoom, SameValuesHaveRoom, MergesAreSmall, RestingPagesSay, RestingPagesKeep, FittingFramesTell, FittingContentsTell, EmptySlotsAreAtRest, FirstStoresFit};
ghost use Rattle.store_laws.specs.StepLaws.{BeginsFit, SharesFit, WritesFit, AbortsFit, SessionNumbersFit, LoadsFit, EvictionsFit, OpeningsFit, LogSectorsFit, MergesFit, OtherStepsFit, RenewalsFit, BatchesFit};

/// After each step of a store but a commit, the records on the chip and in memory say what its open
/// sessions wrote.
pub fn pending_laws()
    ensures begins { BeginsKeepPending }
    ensures shares { SharesKeepPending }
    ensures writes { WritesKeepPending }
    ensures log_sectors { LogSectorsKeepPending }
    ensures merges { MergesKeepPending }
    ensures same_logs { SameLogsKeepPending }
    ensures renewals { RenewalsKeepPending }
    ensures aborts { AbortsKeepPending }
    ensures restarts { RestartsLeaveNone }

    // of the records in memory alone
    ensures in_memory { RecordsStayPending }
{}

/// A commit makes of the map what the writes of its session do, and one of several sessions what theirs
/// do one after the other; the records say what the other sessions wrote then. A record of an open
/// session is one of its writes, and weighs no more than its name.
pub fn saying_laws()
    ensures commits { CommitsKeepPending }
    ensures says { CommitsSayWrites }
    ensures batches { BatchesKeepPending }
    ensures batches_say { BatchesSayWrites }

    // what follows
    ensures written { RecordsAreWrites }
    ensures changed { ChangedPagesSuffice }
    ensures weighed { RecordsWeighNoMore }
{}

/// A frame tells what each session sees of its page, and each step keeps it so.
pub fn frame_laws()
    ensures tells { FramesTell }
    ensures loads { LoadsMakeFrames }
    ensures begins { BeginsKeepFrames }
    ensures writes { WritesKeepFrames }
    ensures other_writes { OtherWritesKeepFrames }
    ensures log_sectors { LogSectorsKeepFrames }
    ensures merges { MergesKeepFrames }
    ensures other_steps { OtherStepsKeepFrames }
    ensures commits { CommitsKeepFrames }
    ensures aborts { AbortsKeepFrames }
{}

/// What a store gives whose memory and chip stand for a state: a free place, as long as no more are
/// retired than are spare, one writer of each name, and merges that have room. And that there is one.
pub fn fitting_laws()
    ensures spares { SparesAreFreeOrRetired }
    ensures free { APlaceIsFree }
    ensures any_map { FitsWhateverTheMap }
    ensures sound { SessionsAreSound }
    ensures small { MergesAreSmall }

    // that it can be met
    ensures at_rest { EmptySlotsAreAtRest }
    ensures first { FirstStoresFit }
{}

/// Its pages say the map, and its frames tell it.
pub fn telling_laws()
    ensures says { RestingPagesSay }
    ensures keeps { RestingPagesKeep }
    ensures tells { FittingFramesTell }
    ensures contents_tell { FittingContentsTell }
{}

/// Its pages have room for what sessions wrote, also with what is pending there; and whether a put finds
/// its page full.
pub fn fill_laws()
    ensures written { WrittenPagesFit }
    ensures loaded { LoadedPagesFit }
    ensures peaks { FramesKeepPeaks }
    ensures full { PeaksTellFullPages }
    ensures room { PutsThatPassHaveRoom }
    ensures same_room { SameValuesHaveRoom }
{}

/// Memory and chip stand for the state after each step in memory.
pub fn memory_laws()
    ensures begins { BeginsFit }
    ensures shares { SharesFit }
    ensures writes { WritesFit }
    ensures aborts { AbortsFit }
    ensures numbers { SessionNumbersFit }
    ensures loads { LoadsFit }
    ensures evictions { EvictionsFit }
    ensures openings { OpeningsFit }
{}

/// Memory and chip stand for the state after each step on the chip.
pub fn chip_laws()
    ensures log_sectors { LogSectorsFit }
    ensures merges { MergesFit }
    ensures others { OtherStepsFit }
    ensures renewals { RenewalsFit }
    ensures batches { BatchesFit }
{}
