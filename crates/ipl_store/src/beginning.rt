//! Sessions begin, and are aborted: in memory alone.
ghost use Rattle.std.specs.Prelude.{◌≡◌, ◌+◌, Some, IfErr, OnOk};
ghost use Rattle.ipl_model.specs.Operations.{after_begin, after_abort};
ghost use Rattle.ipl_model.specs.Refusals.{refuses_begin, refuses_end};
ghost use Rattle.record_locks.specs.Held.{after_end};
ghost use Rattle.record_locks.specs.Standing.{state_of};
ghost use Rattle.ipl_store.specs.Calls.{
  IsSound,
  Calls,
  early_fault,
  entry_fault,
  down_fault,
  counter_of,
  limits_of_store,
};
ghost use Rattle.ipl_store.specs.Shown.{WorksInMemory};

use crate::Store;
use chip_trait::Chip;
use ipl_base::StoreFault;
use store_laws::passing_laws;

impl Store {
    /// Opens a session, one of those below `session_count`: it begins a transaction. The chip isn't asked.
    pub fn begin<C: Chip>(&mut self, _chip: &mut C, s: u32) -> Result<(), StoreFault>
        requires sound { IsSound (C.told _chip.old).places self.old }
        ensures calls { Calls (early_fault (entry_fault self.old)
            (refuses_begin (limits_of_store self.old) (state_of self.old.transactions.sessions) s))
            (λ state. after_begin state s) 1
            self.old (C.told _chip.old) result self.new (C.told _chip.new) }
        ensures memory { WorksInMemory self.old (C.told _chip.old) self.new (C.told _chip.new) }
        // Done, one number is drawn.
        ensures drawn { OnOk result (counter_of self.new ≡ counter_of self.old + 1) }
    {
        self.admit(self.refuses_begin(s))?;
        passing_laws();
        self.transactions.begin(s);
        Ok(())
    }

    /// Aborts a session: its writes are dropped, and it is closed. The chip isn't asked.
    pub fn abort<C: Chip>(&mut self, _chip: &mut C, s: u32) -> Result<(), StoreFault>
        requires sound { IsSound (C.told _chip.old).places self.old }
        ensures calls { Calls (early_fault (down_fault self.old)
            (refuses_end (limits_of_store self.old) (state_of self.old.transactions.sessions) s))
            (λ state. after_abort state s) 0
            self.old (C.told _chip.old) result self.new (C.told _chip.new) }
        ensures memory { WorksInMemory self.old (C.told _chip.old) self.new (C.told _chip.new) }
        // It fails only early; done, the session is closed, and no other is touched.
        ensures early { IfErr result (λ fault. early_fault (down_fault self.old)
            (refuses_end (limits_of_store self.old) (state_of self.old.transactions.sessions) s)
            ≡ Some fault) }
        ensures ended { OnOk result (self.new.transactions.sessions
            ≡ after_end self.old.transactions.sessions s) }
    {
        self.admit_end(self.refuses_end(s))?;
        passing_laws();
        self.transactions.abort(s);
        Ok(())
    }
}
