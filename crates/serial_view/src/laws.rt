//! Laws of the serial view, proved: bodies that do nothing, and contracts that are the laws.
ghost use Rattle.serial_view.specs.Laws.{CommitsTransactions, BatchesCommitTransactions, UnlockedGets};

/// What a commit brings into the view is a whole transaction: it begins with an accepted begin, no end
/// stands between, and all accepted commands of its session from there on are in it.
pub fn transaction_law()
    ensures commits { CommitsTransactions }
    ensures batches { BatchesCommitTransactions }
{}

/// A get is unlocked exactly where no command of its transaction before it wrote or shared its name.
pub fn unlocked_law()
    ensures { UnlockedGets }
{}
