//! The laws of stories and images, proved: a body that does nothing, and a contract that is the law.
ghost use Rattle.chip_trait.specs.Laws.{HeldIsAnImage, ClosedIsHeld, BarriersSettle, ClosedIsQuiet, QuietKeepsOrBlanks, QuietKeepsHeaders, CleanIsBlank, LawfulJoins, LawfulParts, SaidJoins};

/// What a power cut may leave.
pub fn image_laws()
    ensures held { HeldIsAnImage }
    ensures closed { ClosedIsHeld }
    ensures barrier { BarriersSettle }
    ensures closed_quiet { ClosedIsQuiet }
    ensures quiet { QuietKeepsOrBlanks }
    ensures headers { QuietKeepsHeaders }
{}

/// What no sector is programmed twice means, over one part of a story after another.
pub fn lawful_laws()
    ensures clean { CleanIsBlank }
    ensures joins { LawfulJoins }
    ensures parts { LawfulParts }
{}

/// What is said, over one part of a story after another.
pub fn said_laws()
    ensures { SaidJoins }
{}
