//! A clean close.
ghost use Rattle.std.specs.Prelude.{◌≡◌, ◌<◌, ◌≤◌, ◌+◌, ◌^◌, true};
ghost use Rattle.record_locks.specs.Locks.{refuses_close};
ghost use Rattle.selective_merge.specs.Known.{KnowsPlaces};
ghost use Rattle.txn_status.specs.Status.{room_of};
ghost use Rattle.page_frames.specs.Pages.{tables_in};
ghost use Rattle.ipl_store.specs.Calls.{IsMade, IsSound, counter_of, early_fault, entry_fault};
ghost use Rattle.ipl_store.specs.Closing.{ClosesStore, MarksStore};

use crate::Store;
use chip_trait::Chip;
use ipl_base::StoreFault;
use restart::close;
use store_laws::passing_laws;

impl Store {
    /// Writes down of which units the log sectors are known. The store is down then: a mark stands
    /// on its chip, or nobody knows whether one does.
    fn write_mark<C: Chip>(&mut self, chip: &mut C) -> Result<(), StoreFault>
        requires made { IsMade (C.told chip.old).places self.old }
        requires known { KnowsPlaces (C.told chip.old).places (tables_in self.old.transactions.pages) }
        requires room { 0 < room_of self.old.transactions.pages.parts.status }
        requires left { counter_of self.old + 1 < 2 ^ 64 }
        ensures marks { MarksStore self.old (C.told chip.old) result self.new (C.told chip.new) }
        ensures made { IsMade (C.told chip.old).places self.new }
    {
        let written = close(chip, &mut self.transactions.pages.parts);
        self.down = true;
        // Also where a write failed: a mark may stand then, and an opening finds out.
        self.closed = true;
        written?;
        Ok(())
    }

    /// Closes the store in order, where no session is open: of which units the log sectors are
    /// known is written down on the chip, so that the next opening counts what is clean of them,
    /// and the first commits need no merge. The store is down from then on, until it is opened
    /// again. That is also so where a write failed.
    ///
    /// It is refused where a session is open, and the least is named. A bad page ends it as it does
    /// a `commit`.
    pub fn close<C: Chip>(&mut self, chip: &mut C) -> Result<(), StoreFault>
        requires sound { IsSound (C.told chip.old).places self.old }
        ensures closes { ClosesStore (early_fault (entry_fault self.old)
            (refuses_close self.old.transactions.sessions))
            self.old (C.told chip.old) result self.new (C.told chip.new) }
    {
        self.admit(self.transactions.sessions.refuses_close())?;
        passing_laws();
        let ready = self.transactions.pages.ready_status(chip, &mut self.kept);
        self.end(ready)?;
        self.write_mark(chip)
    }

    /// Puts the store down: nothing is done by it from then on, until its chip is opened again.
    pub fn shut(&mut self)
        ensures { self.new ≡ record self.old { down = true } }
    {
        self.down = true;
    }
}
