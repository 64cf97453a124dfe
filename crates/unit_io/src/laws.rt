//! Laws of reading pages, proved: a body that does nothing, and a contract that is the law.
ghost use Rattle.unit_io.specs.Laws.{SoundPagesAreHeld, HeldPagesReadWell, PageReadsAreOfThePage};

/// Nothing is wrong with a page exactly where it reads well, and its reads are of its base sectors alone.
pub fn page_laws()
    ensures sound { SoundPagesAreHeld }
    ensures well { HeldPagesReadWell }
    ensures reads { PageReadsAreOfThePage }
{}
