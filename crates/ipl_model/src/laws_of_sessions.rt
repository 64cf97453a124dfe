//! Laws of sessions, proved: a body that does nothing, and a contract that is the law.
ghost use Rattle.ipl_model.specs.SessionLaws.{RestartClosesAll, RestartKeepsRecords, CommitShowsWhatWasSeen};

/// A restart leaves no session open and each record as it was; a commit shows to all what its
/// session saw.
pub fn session_laws()
    ensures restart { RestartClosesAll }
    ensures records { RestartKeepsRecords }
    ensures commit { CommitShowsWhatWasSeen }
{}
