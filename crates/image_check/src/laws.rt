//! The laws of a checker, proved: a body that does nothing, and a contract that is the law.
ghost use Rattle.image_check.specs.Laws.{CheckedChipsStand, StandingChipsHaveNoFault, RecordsAreCounted};

/// A chip without a fault stands for records, and one that stands for records has no fault; and then
/// the records of its pages are counted.
pub fn check_laws()
    ensures stand { CheckedChipsStand }
    ensures fine { StandingChipsHaveNoFault }
    ensures counted { RecordsAreCounted }
{}
