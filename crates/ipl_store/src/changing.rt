//! Sessions change names, and are committed.
ghost use Rattle.std.specs.Prelude.{◌≡◌, ◌≤◌, ◌^◌, [], ◌∷◌, Some, None, length, OnOk};
ghost use Rattle.ipl_base.specs.declared.limits.TheConstants.{SESSIONS};
ghost use Rattle.ipl_base.specs.Places.{home_of};
ghost use Rattle.ipl_model.specs.Operations.{after_write, after_commit, after_batch};
ghost use Rattle.ipl_model.specs.Refusals.{refuses_end, refuses_batch};
ghost use Rattle.record_locks.specs.Standing.{state_of};
ghost use Rattle.store_laws.specs.Refusals.{sessions_refuse_del};
ghost use Rattle.page_frames.specs.Pages.{IsFramed, KeepsFramed, KeepsFramedFor};
ghost use Rattle.ipl_store.specs.Costs.{AsksToWrite, CommitAsks};
ghost use Rattle.ipl_store.specs.Calls.{
  BlamesPagesSurely,
  IsSound,
  KeepsHolds,
  Calls,
  early_fault,
  ends_worn_out,
  entry_fault,
  limits_of_store,
};
ghost use Rattle.ipl_store.specs.Puts.{found_room, put_fault, put_next, PutsBy, TellsRoom};
ghost use Rattle.ipl_store.specs.Shown.{IsUsedLastIn};

use crate::Store;
use chip_trait::Chip;
use ipl_base::{Name, Refusal, StoreFault, Value};
use log_records::Change;
use page_frames::overfills;
use store_laws::passing_laws;

impl Store {
    /// Puts a value of at most 464 bytes at a name, for a session. It counts once that is
    /// committed. The page of the name is brought into a frame before it is refused as full: where
    /// it might come to take more than it has, whichever open sessions commit. A bad page ends it
    /// as it does a `get`.
    pub fn put<C: Chip>(
        &mut self,
        chip: &mut C,
        s: u32,
        n: u32,
        value: &[u8],
    ) -> Result<(), StoreFault>
        requires sound { IsSound (C.told chip.old).places self.old }
        ensures calls { Calls (put_fault self.old s n value.now)
            (put_next s n value.now (found_room result)) 14
            self.old (C.told chip.old) (found_room result) self.new (C.told chip.new) }
        ensures steps { put_fault self.old s n value.now ≡ None → PutsBy s n value.now
            self.old (C.told chip.old) (found_room result) self.new (C.told chip.new) }
        // It is refused as full exactly where the states that the store and the chip's contents
        // show have no room for it.
        ensures full { put_fault self.old s n value.now ≡ None → TellsRoom n value.now
            self.old (C.told chip.old) (found_room result) }
        ensures holds { KeepsHolds self.old self.new }
        ensures framed { OnOk (found_room result)
            (IsFramed self.new.transactions.pages (home_of n).unit (home_of n).page) }
        ensures used { OnOk (found_room result)
            (IsUsedLastIn self.new (home_of n).unit (home_of n).page) }
        ensures stays { KeepsFramedFor (home_of n).unit (home_of n).page
            self.old.transactions.pages self.new.transactions.pages }
        ensures asks { AsksToWrite n (Some value.now) (ends_worn_out (found_room result))
            self.old.transactions.pages self.new.transactions.pages
            (C.told chip.old) (C.told chip.new) }
    {
        self.admit(self.refuses_put(s, n, value))?;
        passing_laws();
        let Some(copy) = Value::of(value) else {
            unreachable!("it has at most 464 bytes");
        };
        self.bring(chip, n)?;
        let held = &self.transactions;
        if overfills(&held.pages.pool, &held.sessions, Name(n), value) {
            return Err(StoreFault::Refused(Refusal::PageFull));
        }
        let done = self.transactions.write(chip, s, Name(n), Change::Put(copy));
        self.end(done)
    }

    /// Deletes the record of a name, where it has one, for a session. A bad page ends it as it does
    /// a `get`.
    pub fn del<C: Chip>(&mut self, chip: &mut C, s: u32, n: u32) -> Result<(), StoreFault>
        requires sound { IsSound (C.told chip.old).places self.old }
        ensures calls { Calls (early_fault (entry_fault self.old)
            (sessions_refuse_del (limits_of_store self.old) self.old.transactions.sessions s n))
            (λ state. after_write state s (n, None)) 14
            self.old (C.told chip.old) result self.new (C.told chip.new) }
        ensures surely { early_fault (entry_fault self.old)
            (sessions_refuse_del (limits_of_store self.old) self.old.transactions.sessions s n) ≡ None
            → BlamesPagesSurely self.old (C.told chip.old) result self.new (C.told chip.new) }
        ensures holds { KeepsHolds self.old self.new }
        ensures framed { OnOk result
            (IsFramed self.new.transactions.pages (home_of n).unit (home_of n).page) }
        ensures used { OnOk result (IsUsedLastIn self.new (home_of n).unit (home_of n).page) }
        ensures stays { KeepsFramedFor (home_of n).unit (home_of n).page
            self.old.transactions.pages self.new.transactions.pages }
        ensures asks { AsksToWrite n None (ends_worn_out result) self.old.transactions.pages
            self.new.transactions.pages (C.told chip.old) (C.told chip.new) }
    {
        self.admit(self.refuses_del(s, n))?;
        passing_laws();
        let done = self.transactions.write(chip, s, Name(n), Change::Delete);
        self.end(done)
    }

    /// Commits a session: once it answers, its writes last, all of them, and it is closed. A power
    /// cut before leaves all of them or none. A bad page of a unit that had to be merged for it
    /// ends it, with exactly what is wrong with that page.
    pub fn commit<C: Chip>(&mut self, chip: &mut C, s: u32) -> Result<(), StoreFault>
        requires sound { IsSound (C.told chip.old).places self.old }
        ensures calls { Calls (early_fault (entry_fault self.old)
            (refuses_end (limits_of_store self.old) (state_of self.old.transactions.sessions) s))
            (λ state. after_commit state s) (2 ^ 15)
            self.old (C.told chip.old) result self.new (C.told chip.new) }
        ensures holds { KeepsHolds self.old self.new }
        ensures framed { KeepsFramed self.old.transactions.pages self.new.transactions.pages }
        ensures asks { CommitAsks self.old.transactions (s ∷ []) (ends_worn_out result)
            self.new.transactions.pages (C.told chip.old) (C.told chip.new) }
    {
        self.admit(self.refuses_end(s))?;
        passing_laws();
        let done = self.transactions.commit(chip, &mut self.kept, &[s]);
        self.end(done)
    }

    /// Commits several sessions (2 to 32, each named once) together, by one commit sector: once it
    /// answers, all their writes last, and all are closed. A power cut before leaves the writes of
    /// all of them or of none. A bad page ends it as it does a `commit`.
    pub fn commit_all<C: Chip>(&mut self, chip: &mut C, sessions: &[u32]) -> Result<(), StoreFault>
        requires sound { IsSound (C.told chip.old).places self.old }
        requires few { length sessions.now ≤ SESSIONS }
        ensures calls { Calls (early_fault (entry_fault self.old)
            (refuses_batch (limits_of_store self.old) (state_of self.old.transactions.sessions)
            sessions.now)) (λ state. after_batch state sessions.now) (2 ^ 15)
            self.old (C.told chip.old) result self.new (C.told chip.new) }
        ensures holds { KeepsHolds self.old self.new }
        ensures framed { KeepsFramed self.old.transactions.pages self.new.transactions.pages }
        ensures asks { CommitAsks self.old.transactions sessions.now (ends_worn_out result)
            self.new.transactions.pages (C.told chip.old) (C.told chip.new) }
    {
        self.admit(self.refuses_batch(sessions))?;
        passing_laws();
        let done = self.transactions.commit(chip, &mut self.kept, sessions);
        self.end(done)
    }
}
