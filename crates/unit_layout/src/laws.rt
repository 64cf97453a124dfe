//! What is known of the layout, proved: a body that does nothing, and a contract that is the law.
ghost use Rattle.unit_layout.specs.Laws.{HeadersReadBack, StatusHeadersReadBack, MarksAreTold, PiecesStandApart};

/// A data header and a status header that were written are read back, and no two pieces stand in
/// one sector.
pub fn layout_laws()
    ensures headers { HeadersReadBack }
    ensures status_headers { StatusHeadersReadBack }
    ensures pieces { PiecesStandApart }
{}

/// A payload is tested to be a mark exactly where it spells one.
pub fn mark_laws()
    ensures { MarksAreTold }
{}
