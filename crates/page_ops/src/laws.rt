//! The law of what a page's text says.
ghost use Rattle.page_ops.specs.Rebuilt.{TextsSayValues};

/// A text says of each slot what the page holds there, record by record.
pub fn text_laws()
    ensures { TextsSayValues }
{}
