//! A clean close.
ghost use Rattle.record_locks.specs.Locks.{refuses_close};
ghost use Rattle.ipl_store.specs.Calls.{IsSound, early_fault, entry_fault};
ghost use Rattle.ipl_store.specs.Closing.{ClosesStore};
ghost use Rattle.ipl_keys.specs.Calls.{HandsOn};
ghost use Rattle.ipl_keys.specs.Closing.{ClosesKeys};

use crate::changing::handed;
use crate::{KeyFault, Keys};
use chip_trait::Chip;

impl Keys {
    /// Closes the store in order, where no session is open: what is known of its log sectors is
    /// written down on the chip, so that after the next opening the first commits need no merge. At
    /// each moment a power cut leaves the keys. The store is down from then on, until the chip is
    /// opened again. That is also so where a write failed.
    ///
    /// It is refused where a session is open, and the least is named.
    pub fn close<C: Chip>(&mut self, chip: &mut C) -> Result<(), KeyFault>
        requires sound { IsSound (C.told chip.old).places self.old.store }
        ensures closes { HandsOn (λ answer. ClosesStore (early_fault (entry_fault self.old.store)
            (refuses_close self.old.store.transactions.sessions))
            self.old.store (C.told chip.old) answer self.new.store (C.told chip.new)) result }
        ensures serves { ClosesKeys self.old.store (C.told chip.old) result self.new.store
            (C.told chip.new) }
    {
        handed(self.store.close(chip))
    }
}
