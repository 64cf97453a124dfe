//! Laws of the status of transactions, proved: a body that does nothing, and a contract that is the
//! law.
ghost use Rattle.txn_status.specs.Laws.{CleanSectorsAreRoom, MirrorsLooksAtTheSet};

/// Tables mirror a chart by which numbers they have, in whatever order; and where all numbers of a
/// status place have room, what is known clean there is what it takes.
pub fn status_laws()
    ensures set { MirrorsLooksAtTheSet }
    ensures room { CleanSectorsAreRoom }
{}
