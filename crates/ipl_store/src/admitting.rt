//! Whether a call may begin, and what its end leaves.
ghost use Rattle.std.specs.Prelude.{◌≡◌, ◌<◌, ◌↔◌, IsTrue};
ghost use Rattle.std.specs.Result.{result_err};
ghost use Rattle.store_trait.specs.Keeping.{LAST_NUMBER};
ghost use Rattle.ipl_store.specs.Calls.{
  counter_of,
  down_fault,
  early_fault,
  entry_fault,
  puts_down,
  EndsAs,
};

use crate::Store;
use ipl_base::{ChipFault, LAST_NUMBER, Refusal, StoreFault};

impl Store {
    /// Whether no number may be drawn any more.
    fn is_spent(&self) -> bool
        ensures { IsTrue result ↔ (LAST_NUMBER < counter_of self.now) }
    {
        self.transactions.pages.parts.counter.next() > LAST_NUMBER
    }

    /// Lets a call begin that isn't refused so: the store isn't down, and numbers are left.
    pub(crate) fn admit(&self, refusal: Option<Refusal>) -> Result<(), StoreFault>
        ensures { result_err result ≡ early_fault (entry_fault self.now) refusal }
    {
        if self.down {
            return Err(StoreFault::Down);
        }
        if self.is_spent() {
            return Err(StoreFault::Spent);
        }
        match refusal {
            Some(refusal) => Err(StoreFault::Refused(refusal)),
            None => Ok(()),
        }
    }

    /// Lets a call begin that draws no number, and isn't refused so: the store isn't down.
    pub(crate) fn admit_end(&self, refusal: Option<Refusal>) -> Result<(), StoreFault>
        ensures { result_err result ≡ early_fault (down_fault self.now) refusal }
    {
        if self.down {
            return Err(StoreFault::Down);
        }
        match refusal {
            Some(refusal) => Err(StoreFault::Refused(refusal)),
            None => Ok(()),
        }
    }

    /// The answer of work on the chip. Where a write failed, or too many places are worn, the store is
    /// down from then on.
    pub(crate) fn end(&mut self, done: Result<(), ChipFault>) -> Result<(), StoreFault>
        ensures rest { self.new ≡ record self.old { down = self.new.down } }
        ensures ends { EndsAs done self.old.down result self.new.down }
    {
        match done {
            Ok(()) => Ok(()),
            Err(fault) => {
                if puts_down(&fault) {
                    self.down = true;
                }
                Err(StoreFault::Chip(fault))
            }
        }
    }
}

/// Whether a store is down after such a fault: a write failed, or too many places are worn.
fn puts_down(fault: &ChipFault) -> bool
    ensures { result ≡ puts_down fault.now }
{
    match fault {
        ChipFault::Stopped | ChipFault::WornOut(_) => true,
        ChipFault::ReadFault | ChipFault::Damaged { .. } | ChipFault::Malformed { .. } => false,
    }
}
