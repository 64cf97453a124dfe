//! What was written is read, proved: a body that does nothing, and a contract that is the law.
ghost use Rattle.sector_format.specs.Laws.{ReadsBack};

/// What `encode` writes is decoded to the same head and payload.
pub fn decode_laws()
    ensures { ReadsBack }
{}
