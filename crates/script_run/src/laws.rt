//! What is known of the commands of a trial, proved: a body that does nothing, and a contract that is
//! the law.
ghost use Rattle.script_run.specs.TrialLaws.{CountsAreSaid, RecordsAreListed};

/// The first line of a summary says the count that the trial was given, since each of its commands has
/// one line as its reply; and the last two are of the records that a list of all names says.
pub fn trial_laws()
    ensures counts { CountsAreSaid }
    ensures records { RecordsAreListed }
{}
