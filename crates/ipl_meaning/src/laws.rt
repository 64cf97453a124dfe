//! The laws of what the sectors of a chip mean.
ghost use Rattle.ipl_meaning.specs.Laws.{StandsOnce, ChartsAgree, FewerPagesStand, WholeIsEvery, RotCostsAPage, RotTellsApart, EveryIsToldApart, LaidOnce, AllowedSectorsSuffice, KeptPagesKeepTheMap, IdlePlacesDoNotCount, LossesDoNotCount, OutsideDoesNotCount, LogSectorsWait, CommitSectorsAdd, MarksWait, HeadersSwitch, MergesKeepPages, SameUnitsKeepPages, StatusHeadersSwitch, KeptNumbersKeepPages, OverflowHeadersWait, FormattedChipsAreEmpty};
ghost use Rattle.ipl_meaning.specs.StandingLaws.{StandsAfterIdle, StandsAfterLogs, StandsAfterCommits, StandsAfterMarks, StandsAfterHeaders, StandsAfterMerges, StandsAfterRenewals, StandsAfterOverflows};
ghost use Rattle.ipl_meaning.specs.StoryLaws.{QuietImagesAreParts, HeldStands, RestsOnce, StoriesAgree, FewerPagesRest, ChipsRestOnce, ClosedRests, BarriersRest, BarriersKeepEither, ReadsKeep, SaysKeep, WornsKeep, ErasesKeep, LogSectorsKeep, AsidesKeep, ProgramsLead, OneIsEither, EitherIsKept, MomentsKeepUnits, WornByLayout, IdleAfterCommits, IdleAfterMarks, IdleAfterHeaders, IdleAfterRenewals, IdleAfterOverflows};
ghost use Rattle.ipl_meaning.specs.RecordLaws.{TheLastGivesTheValue, MergesCarryTheLast, CommitsApplyTheLast, PacksAreTheList, PacksFit, FewAreCarried, TextsHaveSizes, ShortValuesHaveRoom};
ghost use Rattle.ipl_meaning.specs.CounterLaws.{NewGenerationsWakeNothing, NewSerialsAreGreatest, NewNumbersWait, NewSerialsPassTheStatus, LogSectorsKeepTheCounter, CommitSectorsKeepTheCounter, HeadersKeepTheCounter, BarePlacesKeepTheCounter};
ghost use Rattle.ipl_meaning.specs.TableLaws.{FreePlacesAreIdle, LogSectorsMayGoHome, LogSectorsMayGoElsewhere, CommitSectorsMayGo, MarksMayGo, HeadersMayGo, StatusHeadersMayGo, OverflowHeadersMayGo, FirstTablesMirror};
ghost use Rattle.ipl_meaning.specs.FollowingLaws.{TablesFollowHomeLogs, TablesFollowOverflowLogs, TablesFollowCommits, CountedFollow};
ghost use Rattle.ipl_meaning.specs.MovingLaws.{TablesFollowIdlePlaces, PlacesMayBeTaken, CountsAreFree, RetiredAreFree, PlacesMayBeRetired, TablesFollowMerges, TablesFollowRenewals, TablesFollowOverflows, TablesFollowEndsOfMarks, CountedFollowMerges, CountedFollowRenewals, CountedFollowOverflows, CountedFollowEndsOfMarks};
ghost use Rattle.ipl_meaning.specs.MarkLaws.{IdleEventsKeepMarks, ErasesKeepMarks, WornsKeepMarks, AsidesKeepMarks, LogSectorsKeepMarks, ProgramsKeepMarks, CommitsMarkNoMore, HeadersMarkNoMore, RenewalsMarkNoMore, OverflowsMarkNoMore, ClosesKeepMarks, ClosesMarkWhatIsClean};
ghost use Rattle.ipl_meaning.specs.AgreeingLaws.{TidyAfterPrograms, TidyAfterMoves, TidyAfterBarriers, TidyAfterErases, TidyAfterWorns, TidyIsCarried, UnusedIsCarried, ProgramsAgree, BarriersAgree, ReadsAgree, SaysAgree, ErasesAgree, WornsAgree};

/// A chart is laid out in one way and stands for one map at most; what keeps its pages keeps the map; a page is rebuilt from
/// the allowed sectors alone.
pub fn meaning_laws()
    ensures once { StandsOnce }
    ensures laid_once { LaidOnce }
    ensures kept { KeptPagesKeepTheMap }
    ensures allowed { AllowedSectorsSuffice }
{}

/// What is said of some pages of a chart is one thing, and is said of fewer; of every page it is what a map says; and rot of
/// one page takes nothing from the others.
pub fn legible_laws()
    ensures agree { ChartsAgree }
    ensures fewer { FewerPagesStand }
    ensures whole { WholeIsEvery }
    ensures every_apart { EveryIsToldApart }
    ensures rot { RotCostsAPage }
    ensures rot_apart { RotTellsApart }
{}

/// When a story rests on a map, and on one alone.
pub fn resting_laws()
    ensures parts { QuietImagesAreParts }
    ensures held { HeldStands }
    ensures once { RestsOnce }
    ensures agree { StoriesAgree }
    ensures fewer { FewerPagesRest }
    ensures chips_once { ChipsRestOnce }
    ensures closed { ClosedRests }
    ensures barriers { BarriersRest }
{}

/// What each call makes of all that a power cut may leave: it keeps what the story rests on, or leads from one map to one
/// other.
pub fn story_laws()
    ensures barriers { BarriersKeepEither }
    ensures reads { ReadsKeep }
    ensures says { SaysKeep }
    ensures worns { WornsKeep }
    ensures erases { ErasesKeep }
    ensures log_sectors { LogSectorsKeep }
    ensures asides { AsidesKeep }
    ensures leads { ProgramsLead }
    ensures one { OneIsEither }
    ensures either { EitherIsKept }
{}

/// A power cut leaves as many units as there were, at each moment of what keeps a map or leads to another.
pub fn unit_laws()
    ensures { MomentsKeepUnits }
{}

/// An idle place stays so, as units and the status move, so that worn places are idle.
pub fn worn_laws()
    ensures layout { WornByLayout }
    ensures commits { IdleAfterCommits }
    ensures marks { IdleAfterMarks }
    ensures headers { IdleAfterHeaders }
    ensures renewals { IdleAfterRenewals }
    ensures overflows { IdleAfterOverflows }
{}

/// What does not count may change.
pub fn idle_laws()
    ensures idle { IdlePlacesDoNotCount }
    ensures losses { LossesDoNotCount }
    ensures outside { OutsideDoesNotCount }
{}

/// Log sectors wait, and commit sectors make them count; marks change nothing.
pub fn log_laws()
    ensures waits { LogSectorsWait }
    ensures commits { CommitSectorsAdd }
    ensures marks { MarksWait }
{}

/// Headers switch a unit, or the status, to a new place at once.
pub fn header_laws()
    ensures switches { HeadersSwitch }
    ensures merges { MergesKeepPages }
    ensures same_units { SameUnitsKeepPages }
    ensures renews { StatusHeadersSwitch }
    ensures kept_numbers { KeptNumbersKeepPages }
    ensures overflows { OverflowHeadersWait }
{}

/// What a chart stands for after each step.
pub fn standing_laws()
    ensures idle { StandsAfterIdle }
    ensures logs { StandsAfterLogs }
    ensures commits { StandsAfterCommits }
    ensures marks { StandsAfterMarks }
    ensures headers { StandsAfterHeaders }
    ensures merges { StandsAfterMerges }
    ensures renewals { StandsAfterRenewals }
    ensures overflows { StandsAfterOverflows }
{}

/// The last record that counts gives a name's value; a merge carries it, a commit applies it. Packed,
/// records stay what they are, and each sector fits. A page's text has the bytes that its values take.
pub fn record_laws()
    ensures value { TheLastGivesTheValue }
    ensures carries { MergesCarryTheLast }
    ensures applies { CommitsApplyTheLast }
    ensures packs { PacksAreTheList }
    ensures fits { PacksFit }
    ensures few { FewAreCarried }
    ensures sizes { TextsHaveSizes }
    ensures room { ShortValuesHaveRoom }
{}

/// What the counter draws is new, and the counter stays above all numbers found.
pub fn counter_laws()
    ensures wakes_nothing { NewGenerationsWakeNothing }
    ensures greatest { NewSerialsAreGreatest }
    ensures waits { NewNumbersWait }
    ensures passes { NewSerialsPassTheStatus }
    ensures log_sectors { LogSectorsKeepTheCounter }
    ensures commit_sectors { CommitSectorsKeepTheCounter }
    ensures headers { HeadersKeepTheCounter }
    ensures bare_places { BarePlacesKeepTheCounter }
{}

/// A formatted chip stands for the empty map, and its first tables mirror it, whatever its size.
pub fn format_laws()
    ensures empty { FormattedChipsAreEmpty }
    ensures tables { FirstTablesMirror }
{}

/// What the tables give: where they mirror the chart, the conditions of each step.
pub fn table_laws()
    ensures free_places { FreePlacesAreIdle }
    ensures home_logs { LogSectorsMayGoHome }
    ensures overflow_logs { LogSectorsMayGoElsewhere }
    ensures commits { CommitSectorsMayGo }
    ensures marks { MarksMayGo }
    ensures headers { HeadersMayGo }
    ensures status_headers { StatusHeadersMayGo }
    ensures overflow_headers { OverflowHeadersMayGo }
{}

/// The tables follow each log sector and each commit sector.
pub fn following_laws()
    ensures home_logs { TablesFollowHomeLogs }
    ensures overflow_logs { TablesFollowOverflowLogs }
    ensures commits { TablesFollowCommits }
    ensures counted_clean { CountedFollow }
{}

/// The tables follow places that are taken, units and the status that move, new overflow places and
/// the end of marks.
pub fn moving_laws()
    ensures idle_places { TablesFollowIdlePlaces }
    ensures taken { PlacesMayBeTaken }
    ensures counts { CountsAreFree }
    ensures retired { RetiredAreFree }
    ensures worn { PlacesMayBeRetired }
    ensures merges { TablesFollowMerges }
    ensures renewals { TablesFollowRenewals }
    ensures overflows { TablesFollowOverflows }
    ensures ends_of_marks { TablesFollowEndsOfMarks }
{}

/// What the tables count as clean follows units and the status that move, new overflow places and the
/// end of marks.
pub fn counting_laws()
    ensures merge_counted { CountedFollowMerges }
    ensures renewal_counted { CountedFollowRenewals }
    ensures overflow_counted { CountedFollowOverflows }
    ensures end_counted { CountedFollowEndsOfMarks }
{}

/// What the tables count as clean stays clean until it is programmed.
pub fn clean_laws()
    ensures programs { TidyAfterPrograms }
    ensures moves { TidyAfterMoves }
    ensures barriers { TidyAfterBarriers }
    ensures erases { TidyAfterErases }
    ensures worns { TidyAfterWorns }
    ensures carried { TidyIsCarried }
    ensures unused { UnusedIsCarried }
{}

/// The tables agree with the chip after each call, where they mirror its chart.
pub fn agreeing_laws()
    ensures programs { ProgramsAgree }
    ensures barriers { BarriersAgree }
    ensures reads { ReadsAgree }
    ensures says { SaysAgree }
    ensures erases { ErasesAgree }
    ensures worns { WornsAgree }
{}

/// Each call keeps the marked sectors unused; a clean close marks what is counted as clean, and that alone.
pub fn mark_laws()
    ensures idle_events { IdleEventsKeepMarks }
    ensures erases { ErasesKeepMarks }
    ensures worns { WornsKeepMarks }
    ensures asides { AsidesKeepMarks }
    ensures log_sectors { LogSectorsKeepMarks }
    ensures programs { ProgramsKeepMarks }

    // a close
    ensures closes { ClosesKeepMarks }
    ensures marks_clean { ClosesMarkWhatIsClean }
{}

/// After a commit sector and after each header no more is marked than before.
pub fn marking_laws()
    ensures commits { CommitsMarkNoMore }
    ensures headers { HeadersMarkNoMore }
    ensures renewals { RenewalsMarkNoMore }
    ensures overflows { OverflowsMarkNoMore }
{}
