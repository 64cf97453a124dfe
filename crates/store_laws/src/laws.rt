//! The laws of what calls of a store leave, proved: a body that does nothing, and a contract that
//! is the law.
ghost use Rattle.store_laws.specs.Laws.{
  NothingKeepsStates,
  KeepersAreJoined,
  FailedKeepersKeep,
  LookUpsAreAlike,
  ReadsKeepStates,
  LoadsKeepStates,
  EvictionsKeepStates,
  LogSectorsKeepStates,
  TableCallsKeepStates,
  KeepersLead,
  MemoryLeads,
  KeepersThenLead,
  FailedKeepersLead,
  NextStatesAreAlike,
  AnswersAreAlike,
  RestartsLead,
  FramesTellState,
  FramesTellFull,
  NamesOutSuffice,
  NumbersLead,
  FailedNumbersLead,
};
ghost use Rattle.store_laws.specs.SessionLaws.{
  BeginsLead,
  SharesLead,
  WritesLead,
  AbortsLead,
  EmptyCommitsLead,
  OpenSessionsMayEnd,
};
ghost use Rattle.store_laws.specs.NamedFrames.{NamedAbortsSuffice};
ghost use Rattle.store_laws.specs.Views.{
  AppliedFramesAreCommitted,
  DroppedFramesAreAborted,
  ChangedFramesAreWritten,
};
ghost use Rattle.store_laws.specs.Keeps.{
  LeadsAreWork,
  KeepersLookUp,
  KeptFramesTell,
  OpenedStoresKeep,
  IdleFaultsAreWork,
  IdleFaultsLookUp,
  FaultsThatLeaveDown,
};
ghost use Rattle.store_laws.specs.Refusals.{
  RefusedInTwoParts,
  SessionsRefuse,
  RefusalsAnswer,
  AcceptedAreDone,
  PutsAnswer,
  FullPutsAreWork,
  WrittenPutsAreWork,
  FailedPutsLeaveTheMap,
  RefusalsLead,
  PassedBegins,
  PassedGets,
  PassedShares,
  PassedPuts,
  PassedDels,
  PassedEnds,
  PassedBatches,
  PassedLists,
  PassedMerges,
};

/// Calls that keep each state: none, one after another, one that failed, one with another answer,
/// reads, a page read into a frame, a page that left its frame or was written to a log sector, and
/// calls that turn the tables alone.
pub fn keeper_laws()
    ensures none { NothingKeepsStates }
    ensures joined { KeepersAreJoined }
    ensures failed { FailedKeepersKeep }
    ensures answers { LookUpsAreAlike }
    ensures reads { ReadsKeepStates }
    ensures loads { LoadsKeepStates }
    ensures evictions { EvictionsKeepStates }
    ensures log_sectors { LogSectorsKeepStates }
    ensures tables { TableCallsKeepStates }
{}

/// Calls that lead to a next state: one that keeps each state, calls in memory, one that keeps each
/// state and then one that leads on, a restart, and the end of a commit.
pub fn leading_laws()
    ensures keepers { KeepersLead }
    ensures memory { MemoryLeads }
    ensures joined { KeepersThenLead }
    ensures failed { FailedKeepersLead }
    ensures alike { NextStatesAreAlike }
    ensures answers { AnswersAreAlike }
    ensures restarts { RestartsLead }

    // a commit
    ensures out { NamesOutSuffice }
    ensures numbers { NumbersLead }
    ensures failed_numbers { FailedNumbersLead }
{}

/// Commands in memory alone lead to the model's next state: begin, share, a write, an abort, and a
/// commit of sessions that wrote nothing. An open session may be closed.
pub fn session_laws()
    ensures begins { BeginsLead }
    ensures shares { SharesLead }
    ensures writes { WritesLead }
    ensures aborts { AbortsLead }
    ensures empty_commits { EmptyCommitsLead }
    ensures may_end { OpenSessionsMayEnd }
{}

/// Sessions refuse what the state does that they are of, but for a put whose page is full, which
/// the frame of its page tells. What is refused changes nothing, and what isn't is done.
pub fn refusal_laws()
    ensures parts { RefusedInTwoParts }
    ensures refuse { SessionsRefuse }
    ensures answer { RefusalsAnswer }
    ensures done { AcceptedAreDone }
    ensures refused_lead { RefusalsLead }

    // puts that brought their page
    ensures puts { PutsAnswer }
    ensures full_puts { FullPutsAreWork }
    ensures written_puts { WrittenPutsAreWork }
    ensures failed_puts { FailedPutsLeaveTheMap }
{}

/// What is known of an operation that isn't refused: its session is open, or may be opened; its
/// names and its unit are the chip's; and the locks don't refuse it.
pub fn passing_laws()
    ensures begins { PassedBegins }
    ensures gets { PassedGets }
    ensures shares { PassedShares }
    ensures puts { PassedPuts }
    ensures dels { PassedDels }
    ensures ends { PassedEnds }
    ensures batches { PassedBatches }
    ensures lists { PassedLists }
    ensures merges { PassedMerges }
{}

/// What calls on a frame make of it is what the condition of a store asks.
pub fn frame_call_laws()
    ensures commits { AppliedFramesAreCommitted }
    ensures aborts { DroppedFramesAreAborted }
    ensures writes { ChangedFramesAreWritten }
    ensures tells { FramesTellState }
    ensures full { FramesTellFull }

    // of the names that a session wrote
    ensures named_aborts { NamedAbortsSuffice }
{}

/// What calls of a store leave is the work of a command, and looks a record up, as a run over a
/// script asks for it; so are faults that come before anything was done, and those that leave the
/// store down. A store whose chip was opened keeps a state.
pub fn keeping_laws()
    ensures work { LeadsAreWork }
    ensures looks_up { KeepersLookUp }
    ensures tells { KeptFramesTell }
    ensures opened { OpenedStoresKeep }

    // faults
    ensures idle { IdleFaultsAreWork }
    ensures idle_looks { IdleFaultsLookUp }
    ensures down { FaultsThatLeaveDown }
{}
