//! The laws of a page that is loaded.
ghost use Rattle.page_rebuild.specs.Loaded.{SoundPagesShowValues, WholeUnitsAreKnown};

/// A page may be loaded exactly where it shows values for which, with what is pending, a page has
/// room. Of a unit whose header and log were read whole, all is known that a page is made anew by.
pub fn load_laws()
    ensures sound { SoundPagesShowValues }
    ensures known { WholeUnitsAreKnown }
{}
