//! The laws of openings.
ghost use Rattle.ipl_meaning.specs.FirstLaws.{FirstIsFirst, FirstIsFound, NoneIsFound, NoneIsThere};
ghost use Rattle.ipl_meaning.specs.PayloadLaws.{DataPayloadsAreSpelled, SpelledDataPasses, StatusPayloadsAreSpelled, SpelledStatusPasses, CommitPayloadsAreSpelled, SpelledCommitsPass, LogPayloadsAreSpelled, SpelledLogsPass};
ghost use Rattle.ipl_meaning.specs.LiveLaws.{SectorsAre256, FoundCommitsCount, CommitsAreFound, FoundNotesCount, NotesAreFound, NotedCommitsCount, FoundLogsAreLive, LiveLogsAreFound};
ghost use Rattle.ipl_meaning.specs.MarkedLaws.{MarkedUnitsAreTold, LastMarksAreTold};
ghost use Rattle.ipl_meaning.specs.OpeningLaws.{WholeSectorsMakeByteCharts, NoFaultIsLaid, NoFaultIsFresh, LaidHasNoFault, LaidIsFineOrSpent, LaidSaysItsUnits, FormattedChipsHaveNoFault, NoShapeFaultIsLaid, LaidHasNoShapeFault, GreatestIsAbove, GreatestIsFound};
ghost use Rattle.ipl_meaning.specs.CauseLaws.{FaultsAreCaused};
ghost use Rattle.ipl_meaning.specs.FaultLaws.{NotFormattedIsExact, MissingIsLeast, BadLogsAreFirst};
ghost use Rattle.ipl_meaning.specs.ChosenLaws.{CurrentsAreChosen, ChosenAreCurrent, NoneIsCurrent, StatusesAreChosen, ChosenAreStatus, NoneIsStatus};
ghost use Rattle.ipl_meaning.specs.Opened.{OpenedTablesMirror};

/// The first fault of several is the one with the least number.
pub fn first_laws()
    ensures first { FirstIsFirst }
    ensures found { FirstIsFound }
    ensures none { NoneIsFound }
    ensures none_there { NoneIsThere }
{}

/// The tests of payloads are their grammars.
pub fn payload_laws()
    ensures data_headers { DataPayloadsAreSpelled }
    ensures data_headers_pass { SpelledDataPasses }
    ensures status_headers { StatusPayloadsAreSpelled }
    ensures status_headers_pass { SpelledStatusPasses }
    ensures commits { CommitPayloadsAreSpelled }
    ensures commits_pass { SpelledCommitsPass }
    ensures logs { LogPayloadsAreSpelled }
    ensures logs_pass { SpelledLogsPass }
{}

/// The headers that are chosen are those that count.
pub fn choosing_laws()
    ensures current { CurrentsAreChosen }
    ensures only { ChosenAreCurrent }
    ensures none { NoneIsCurrent }
    ensures status { StatusesAreChosen }
    ensures only_status { ChosenAreStatus }
    ensures no_status { NoneIsStatus }
{}

/// The commit sectors, close marks and live log sectors that are found are those that count.
pub fn live_laws()
    ensures sectors { SectorsAre256 }
    ensures commits { FoundCommitsCount }
    ensures all_commits { CommitsAreFound }
    ensures notes { FoundNotesCount }
    ensures all_notes { NotesAreFound }
    ensures noted_commits { NotedCommitsCount }
    ensures logs { FoundLogsAreLive }
    ensures all_logs { LiveLogsAreFound }
{}

/// No fault is exactly: laid out rightly, with numbers that are not used up.
pub fn opening_laws()
    ensures contents { WholeSectorsMakeByteCharts }
    ensures laid { NoFaultIsLaid }
    ensures fresh { NoFaultIsFresh }
    ensures no_fault { LaidHasNoFault }
    ensures fine_or_spent { LaidIsFineOrSpent }
    ensures units { LaidSaysItsUnits }
    ensures formatted { FormattedChipsHaveNoFault }
    ensures shape { NoShapeFaultIsLaid }
    ensures no_shape_fault { LaidHasNoShapeFault }
{}

/// The greatest number found.
pub fn number_laws()
    ensures above { GreatestIsAbove }
    ensures found { GreatestIsFound }
{}

/// The close mark that counts, and the units that it says, are those that are found.
pub fn marked_laws()
    ensures last { LastMarksAreTold }
    ensures units { MarkedUnitsAreTold }
{}

/// Each fault comes where its cause is; what is missing, and which log sector is named.
pub fn fault_laws()
    ensures causes { FaultsAreCaused }
    ensures not_formatted { NotFormattedIsExact }
    ensures missing { MissingIsLeast }
    ensures logs { BadLogsAreFirst }
{}

/// The tables that an opening makes mirror each chart that is laid out, with whatever log.
pub fn opened_laws()
    ensures { OpenedTablesMirror }
{}
