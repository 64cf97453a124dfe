//! The law of writing out, proved: a body that does nothing, and a contract that is the law.
ghost use Rattle.page_frames.specs.RecordLaws.{WritingsKeepStates};

/// A store whose frame of a page has these records keeps each state as they are written out, with
/// the frame's log empty once it is done, and with its frames as they were where it failed.
pub fn writing_laws()
    ensures { WritingsKeepStates }
{}
