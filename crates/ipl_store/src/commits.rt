//! Sessions are committed, one or several together.
ghost use Rattle.std.specs.Prelude.{◌≡◌, ◌<◌, ◌≤◌, ◌+◌, ◌*◌, ◌^◌, length, OnOk};
ghost use Rattle.ipl_base.specs.declared.limits.TheConstants.{SESSIONS};
ghost use Rattle.place_taking.specs.Spending.{is_worn_out};
ghost use Rattle.txn_status.specs.Status.{room_of};
ghost use Rattle.ipl_model.specs.Operations.{after_batch};
ghost use Rattle.record_locks.specs.Held.{written_by, writer_numbers};
ghost use Rattle.selective_merge.specs.Faults.{FailsByChipAlone};
ghost use Rattle.buffer_pool.specs.Holding.{KeepsPins};
ghost use Rattle.store_laws.specs.NamedFrames.{ApplyInTurn};
ghost use Rattle.store_laws.specs.Refusals.{AreOpenSessions};
ghost use Rattle.page_frames.specs.Asks.{AsksToWriteNamesOut};
ghost use Rattle.page_frames.specs.Complete.{FailsByChip};
ghost use Rattle.page_frames.specs.Faulty.{TellsFaults};
ghost use Rattle.page_frames.specs.Pages.{frames_in, KeepsFramed, Upholds};
ghost use Rattle.ipl_store.specs.Turns.{IsInOrder, MayAddNumbers, Turns};
ghost use Rattle.ipl_store.specs.Costs.{AsksToCommit, CommitAsks};

use crate::adding::add_numbers;
use crate::numbers::writer_numbers;
use crate::transactions::Transactions;
use chip_trait::Chip;
use ipl_base::ChipFault;
use page_frames::apply_names;
use restart::KeptNumbers;
use selective_merge::Active;

impl Transactions {
    /// Writes the records of these sessions out, with a clean sector for their numbers made sure of
    /// before.
    fn write_sessions_out<C: Chip>(
        &mut self,
        chip: &mut C,
        kept: &mut KeptNumbers,
        numbers: &[u32],
    ) -> Result<(), ChipFault>
        requires order { IsInOrder (C.told chip.old).places self.old }
        requires open { AreOpenSessions self.old.sessions numbers.now }
        requires left { self.old.pages.parts.counter + 2 ^ 14 + 14 * 64 < 2 ^ 64 }
        requires numbers { kept.old.room ≡ self.old.pages.parts.status.most }
        ensures numbers { kept.new.room ≡ kept.old.room }
        ensures upholds { Upholds (2 ^ 14 + 14 * 64) self.old.pages (C.told chip.old)
            result self.new.pages (C.told chip.new) }
        ensures complete { FailsByChip self.old.pages result (C.told chip.old) }
        ensures faults { TellsFaults self.old.pages result (C.told chip.old) self.new.pages
            (C.told chip.new) }
        ensures may_add { OnOk result (MayAddNumbers self.new numbers.now) }
        ensures sessions { self.new.sessions ≡ self.old.sessions }
        ensures framed { KeepsFramed self.old.pages self.new.pages }
        ensures asks { 0 < room_of self.old.pages.parts.status
            → AsksToWriteNamesOut (written_by self.old.sessions numbers.now) (is_worn_out result)
            self.old.pages self.new.pages (C.told chip.old) (C.told chip.new) }
    {
        self.pages.ready_status(chip, kept)?;
        self.pages.write_sessions_out(chip, &self.sessions, numbers)
    }

    /// What these sessions changed becomes values of their frames, one session after the other.
    fn apply_all(&mut self, numbers: &[u32])
        requires { AreOpenSessions self.old.sessions numbers.now }
        ensures applied { ApplyInTurn self.old.sessions numbers.now
            (frames_in self.old.pages) (frames_in self.new.pages) }
        ensures pins { KeepsPins self.old.pages.pool self.new.pages.pool }
        ensures parts { self.new.pages.parts ≡ self.old.pages.parts }
        ensures sessions { self.new.sessions ≡ self.old.sessions }
    {
        for s in numbers {
            if let Some(tid) = self.sessions.number(*s) {
                apply_names(&mut self.pages.pool, self.sessions.written(*s), tid);
            }
        }
    }

    /// Commits the numbers of these sessions, whose records are written out, by one commit sector.
    /// What they changed are values then, and they are closed.
    fn commit_numbers<C: Chip>(
        &mut self,
        chip: &mut C,
        numbers: &[u32],
        tids: &Active,
    ) -> Result<(), ChipFault>
        requires order { IsInOrder (C.told chip.old).places self.old }
        requires open { AreOpenSessions self.old.sessions numbers.now }
        requires tids { tids.now ≡ writer_numbers self.old.sessions numbers.now }
        requires some { 1 ≤ length tids.now }
        requires may_add { MayAddNumbers self.old numbers.now }
        requires left { self.old.pages.parts.counter + 1 < 2 ^ 64 }
        ensures turns { Turns (λ state. after_batch state numbers.now) 1
            self.old (C.told chip.old) result self.new (C.told chip.new) }
        ensures complete { FailsByChipAlone result }
        ensures framed { KeepsFramed self.old.pages self.new.pages }
        ensures asks { AsksToCommit self.old.pages.parts.status.place result
            self.old.pages self.new.pages (C.told chip.old) (C.told chip.new) }
    {
        let parts = &mut self.pages.parts;
        add_numbers(chip, &mut parts.status, &mut parts.counter, tids.as_slice())?;
        self.apply_all(numbers);
        self.end_all(numbers);
        Ok(())
    }

    /// Commits sessions (at most 32) together: where they wrote names, their records
    /// are written out, those of a page by one log sector whichever sessions have them, and then,
    /// by one commit sector, the numbers of those that wrote some. Where none did, all are closed,
    /// and the chip isn't asked.
    pub fn commit<C: Chip>(
        &mut self,
        chip: &mut C,
        kept: &mut KeptNumbers,
        numbers: &[u32],
    ) -> Result<(), ChipFault>
        requires order { IsInOrder (C.told chip.old).places self.old }
        requires open { AreOpenSessions self.old.sessions numbers.now }
        requires few { length numbers.now ≤ SESSIONS }
        requires left { self.old.pages.parts.counter + 2 ^ 15 < 2 ^ 64 }
        requires numbers { kept.old.room ≡ self.old.pages.parts.status.most }
        ensures numbers { kept.new.room ≡ kept.old.room }
        ensures turns { Turns (λ state. after_batch state numbers.now) (2 ^ 15)
            self.old (C.told chip.old) result self.new (C.told chip.new) }
        ensures complete { FailsByChip self.old.pages result (C.told chip.old) }
        ensures faults { TellsFaults self.old.pages result (C.told chip.old) self.new.pages
            (C.told chip.new) }
        ensures framed { KeepsFramed self.old.pages self.new.pages }
        ensures asks { CommitAsks self.old numbers.now (is_worn_out result) self.new.pages
            (C.told chip.old) (C.told chip.new) }
    {
        let tids = writer_numbers(&self.sessions, numbers);
        if tids.as_slice().is_empty() {
            self.end_all(numbers);
            return Ok(());
        }
        self.write_sessions_out(chip, kept, numbers)?;
        self.commit_numbers(chip, numbers, &tids)
    }
}
