//! Laws of the model, proved: a body that does nothing, and a contract that is the law.
ghost use Rattle.ipl_model.specs.Laws.{AnsweredIsGreatest, RefusalsChangeNothing, OnlyCommitsChangeRecords, RecordsChangeByCommits};

/// How many commands were answered is the greatest number whose replies were said; a refusal changes nothing, and only
/// a commit changes the records.
pub fn run_laws()
    ensures greatest { AnsweredIsGreatest }
    ensures refusals { RefusalsChangeNothing }
    ensures commits { OnlyCommitsChangeRecords }
    ensures records { RecordsChangeByCommits }
{}
