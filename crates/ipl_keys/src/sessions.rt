//! Sessions begin, and end.
ghost use Rattle.std.specs.Prelude.{◌^◌, ◌≤◌, length};
ghost use Rattle.ipl_base.specs.declared.limits.TheConstants.{SESSIONS};
ghost use Rattle.ipl_model.specs.Operations.{after_begin, after_commit, after_batch, after_abort};
ghost use Rattle.ipl_model.specs.Refusals.{refuses_begin, refuses_batch, refuses_end};
ghost use Rattle.record_locks.specs.Standing.{state_of};
ghost use Rattle.ipl_store.specs.Calls.{Calls, IsSound, down_fault, early_fault, entry_fault, limits_of_store};
ghost use Rattle.ipl_keys.specs.KeyState.{after_key_begin, after_key_commit, after_key_batch, after_key_abort};
ghost use Rattle.ipl_keys.specs.Calls.{HandsOn, AnswersNothing, ServesKeys};

use crate::changing::handed;
use crate::{KeyFault, Keys};
use chip_trait::Chip;

impl Keys {
    /// Opens a session, one of those below the number that it was opened with: it begins a transaction. The chip isn't asked.
    pub fn begin<C: Chip>(&mut self, chip: &mut C, s: u32) -> Result<(), KeyFault>
        requires sound { IsSound (C.told chip.old).places self.old.store }
        ensures calls { HandsOn (λ answer. Calls (early_fault (entry_fault self.old.store)
            (refuses_begin (limits_of_store self.old.store)
            (state_of self.old.store.transactions.sessions) s)) (λ state. after_begin state s) 1
            self.old.store (C.told chip.old) answer self.new.store (C.told chip.new)) result }
        ensures serves { ServesKeys (λ k. after_key_begin k s) AnswersNothing
            self.old.store (C.told chip.old) result self.new.store (C.told chip.new) }
    {
        handed(self.store.begin(chip, s))
    }

    /// Commits a session: once it answers, its writes last, all of them, and it is closed. A power
    /// cut before leaves all of them or none.
    pub fn commit<C: Chip>(&mut self, chip: &mut C, s: u32) -> Result<(), KeyFault>
        requires sound { IsSound (C.told chip.old).places self.old.store }
        ensures calls { HandsOn (λ answer. Calls (early_fault (entry_fault self.old.store)
            (refuses_end (limits_of_store self.old.store)
            (state_of self.old.store.transactions.sessions) s)) (λ state. after_commit state s)
            (2 ^ 15)
            self.old.store (C.told chip.old) answer self.new.store (C.told chip.new)) result }
        ensures serves { ServesKeys (λ k. after_key_commit k s) AnswersNothing
            self.old.store (C.told chip.old) result self.new.store (C.told chip.new) }
    {
        handed(self.store.commit(chip, s))
    }

    /// Commits several sessions (2 to 32, each named once) together: once it answers, all their writes
    /// last, and all are closed. A power cut before leaves the writes of all of them or of none.
    pub fn commit_all<C: Chip>(&mut self, chip: &mut C, sessions: &[u32]) -> Result<(), KeyFault>
        requires sound { IsSound (C.told chip.old).places self.old.store }
        requires few { length sessions.now ≤ SESSIONS }
        ensures calls { HandsOn (λ answer. Calls (early_fault (entry_fault self.old.store)
            (refuses_batch (limits_of_store self.old.store)
            (state_of self.old.store.transactions.sessions) sessions.now))
            (λ state. after_batch state sessions.now) (2 ^ 15)
            self.old.store (C.told chip.old) answer self.new.store (C.told chip.new)) result }
        ensures serves { ServesKeys (λ k. after_key_batch k sessions.now) AnswersNothing
            self.old.store (C.told chip.old) result self.new.store (C.told chip.new) }
    {
        handed(self.store.commit_all(chip, sessions))
    }

    /// Aborts a session: its writes are dropped, and it is closed. The chip isn't asked.
    pub fn abort<C: Chip>(&mut self, chip: &mut C, s: u32) -> Result<(), KeyFault>
        requires sound { IsSound (C.told chip.old).places self.old.store }
        ensures calls { HandsOn (λ answer. Calls (early_fault (down_fault self.old.store)
            (refuses_end (limits_of_store self.old.store)
            (state_of self.old.store.transactions.sessions) s)) (λ state. after_abort state s) 0
            self.old.store (C.told chip.old) answer self.new.store (C.told chip.new)) result }
        ensures serves { ServesKeys (λ k. after_key_abort k s) AnswersNothing
            self.old.store (C.told chip.old) result self.new.store (C.told chip.new) }
    {
        handed(self.store.abort(chip, s))
    }
}
