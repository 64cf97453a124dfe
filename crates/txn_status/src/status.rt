//! The status of transactions.
ghost use Rattle.std.specs.Prelude.{◌≡◌, ◌≤◌, ◌<◌, ◌+◌, ◌^◌, ◌↔◌, ℕ, length, slice_index, Contains, IfOk, IfErr, IfSome, IsTrue, OnOk};
ghost use Rattle.std.specs.Option.{is_some};
ghost use Rattle.ipl_base.specs.declared.limits.TheConstants.{LEAST_NUMBERS, MOST_UNITS, STATUS_NUMBERS, VERSION};
ghost use Rattle.ipl_format.specs.Header.{AreRetired};
ghost use Rattle.ipl_format.specs.Sector.{Sector};
ghost use Rattle.ipl_meaning.specs.Chart.{chart_of};
ghost use Rattle.unit_io.specs.Costs.{Spends};
ghost use Rattle.unit_io.specs.Charts.{Charts, Gains};
ghost use Rattle.unit_io.specs.Spots.{AddsSector};
ghost use Rattle.unit_io.specs.Reads.{OfContents};
ghost use Rattle.unit_io.specs.ReadsAt.{ReadsAt, IsCauseAt};
ghost use Rattle.ipl_format.specs.Whole.{IsWhole};
ghost use Rattle.number_set.specs.Numbers.{among};
ghost use Rattle.number_set.specs.Flags.{flagged};
ghost use Rattle.txn_status.specs.ReadingIn.{of_image, OnFull, IsReadIn, IsCommitSpot, IsOfPlace, IsStatusAt, LooksOnceAt};
ghost use Rattle.txn_status.specs.Marks.{marks_in};
ghost use Rattle.txn_status.specs.Marking.{mark_sector, MarksInSteps};
ghost use Rattle.txn_status.specs.Status.{after_mark, empty_status, room_of, after_add, parts_of, AdvancesTo, FitStatusPlace, IsSoundStatus, SwitchesTo};
ghost use Rattle.txn_status.specs.Adding.{Adds, AddsInSteps, KeepsFirstAt};
ghost use Rattle.place_taking.specs.Fills.{FillsAt};
ghost use Rattle.txn_status.specs.Switching.{IsStatusSpot, ListsAt, Switches, SwitchesInSteps};
ghost use Rattle.unit_io.specs.Writing.{OnlyPrograms};
ghost use Rattle.txn_status.specs.Writing.{WritesOneSector};

use crate::commits::{CommitSector, write_mark};
use crate::last_mark::LastMark;
use crate::noted::StatusPlace;
use crate::parts::{part_count, seal_status, write_parts};
use crate::reading::{read_commits, read_generation};
use chip_trait::Chip;
use ipl_base::{COMMIT_NUMBERS, ChipFault, Counter, Geometry, OutOfMemory, SECTORS, Spot};
use number_set::{Flags, NumberSet};
use std::alloc::Global;
use std::marker::Model;
use unit_io::add_commit;
use unit_layout::StatusHeader;

/// The committed numbers, the status place with its generation, and the first of its sectors that
/// is known clean (1 to 255, or 256 where none is). A contract sees the numbers as a list in rising
/// order. Memory is taken by `new` alone.
#[derive(Drop)]
pub struct Status {
    place: u32,
    generation: u64,
    numbers: NumberSet,
    first: u32,
}

impl Model for Status {
    ghost use Rattle.std.specs.Prelude.{◌≡◌};
    ghost use Rattle.ipl_meaning.specs.Tables.{StatusTable};
    ghost use Rattle.txn_status.specs.Status.{status_table, IsSoundStatus};

    ghost Value = { StatusTable };

    ghost view = { λ s. status_table s.place s.generation s.numbers.list s.numbers.most s.first };

    ghost invariant = { λ s.
        IsSoundStatus (status_table s.place s.generation s.numbers.list s.numbers.most s.first) };
}

impl Status {
    /// No number is committed. Until a place is read in or switched to, the status place is place
    /// 0, with no clean sector. However many places the chip has, `most` numbers have room, 120 to
    /// 15,300: at the least those of a kept commit sector and of one commit, and at most all of a place.
    pub fn new(alloc: Global, _geometry: Geometry, most: usize) -> Result<Status, OutOfMemory>
        requires least { LEAST_NUMBERS ≤ most }
        requires most { most ≤ STATUS_NUMBERS }
        ensures { IfOk result (λ status. status ≡ empty_status most) }
    {
        let numbers = NumberSet::new(alloc, most)?;
        Ok(Status {
            place: 0,
            generation: 0,
            numbers,
            first: SECTORS,
        })
    }

    /// Makes it as `new` does. It takes no memory.
    pub fn reset(&mut self)
        ensures { self.new ≡ empty_status self.old.most }
    {
        self.place = 0;
        self.generation = 0;
        self.numbers.clear();
        self.first = SECTORS;
    }

    /// What always holds: the numbers rise, and are at most 60 for each sector of the place, 1 to
    /// 255, before the first clean one; and they have room.
    pub fn facts(&self)
        ensures { IsSoundStatus self.now }
    {
        let _ = &self.place;
    }

    /// Whether a number is committed.
    pub fn is_committed(&self, tid: u64) -> bool
        ensures { IsTrue result ↔ Contains self.now.numbers tid }
    {
        let numbers = &self.numbers;
        numbers.has(tid)
    }

    /// The rank of a number among those that are committed, from 0, where it is one of them.
    pub fn rank(&self, tid: u64) -> Option<usize>
        ensures among { is_some result ≡ among self.now.numbers tid }
        ensures there { IfSome result (λ at. (at < length self.now.numbers)
            × (slice_index self.now.numbers at ≡ tid)) }
        ensures room { IfSome result (λ at. at < self.now.most) }
    {
        self.numbers.rank(tid)
    }

    /// The status place.
    pub fn place(&self) -> u32
        ensures { result ≡ self.now.place }
    {
        self.place
    }

    /// How many more commit sectors it takes, 0 to 255: so many of its sectors are known clean; and
    /// none where the numbers of one more, at most 60, might have no room.
    pub fn room(&self) -> u32
        ensures { result ≡ room_of self.now }
    {
        if self.numbers.most() < self.numbers.len() + COMMIT_NUMBERS {
            return 0;
        }
        SECTORS - self.first
    }

    /// How many numbers have room.
    pub fn most(&self) -> usize
        ensures { result ≡ self.now.most }
    {
        self.numbers.most()
    }

    // The first of its sectors that is known clean, where there is one.
    fn first_clean(&self) -> Spot
        ensures place { result.place ≡ self.now.place }
        ensures sector { result.sector ≡ self.now.first }
    {
        Spot {
            place: self.place,
            sector: self.first,
        }
    }

    /// Takes in the numbers of the commit sectors of this generation at a place (below the number
    /// of places), which is the status place then; none of its sectors is known clean. The close
    /// mark that counts there, where there are so many units (at most 1,024), is this mark then.
    /// Answers the greatest number found in commit sectors and close marks, generation and serial
    /// among these, and 0 for none. Answers nothing, as soon as it finds it, where the numbers have no
    /// room. After that, and after a fault, it has any numbers, and the mark is any.
    ///
    /// Fails with the first of them that is malformed, or where a read failed.
    pub fn read_under<C: Chip>(
        &mut self,
        chip: &mut C,
        place: u32,
        generation: u64,
        units: u32,
        mark: &mut LastMark,
    ) -> Result<Option<u64>, ChipFault>
        requires place { place < (C.told chip.old).places }
        requires units { units ≤ MOST_UNITS }
        ensures exact { OfContents (C.told chip.old) (λ x.
            IsReadIn units self.old.most (chart_of x) place generation result self.new) }
        // For all numbers of a place there is room always, where there is room for so many.
        ensures never { OnFull result (self.old.most < STATUS_NUMBERS) }
        ensures most { self.new.most ≡ self.old.most }
        ensures marks { OnOk (of_image result) (OfContents (C.told chip.old) (λ x.
            mark.new ≡ marks_in (chart_of x) place generation)) }
        ensures whole { OnOk (of_image result) (OfContents (C.told chip.old) (λ x.
            (s : ℕ) → 1 ≤ s → s < 256 → IsWhole (x place s))) }
        ensures placed { OnOk (of_image result) ((self.new.place ≡ place)
            × (self.new.generation ≡ generation) × (self.new.first ≡ 256)) }

        // What it does to the chip, and why it fails.
        ensures looks { LooksOnceAt (IsCommitSpot place) result (C.told chip.old) (C.told chip.new) }
    {
        // With any numbers there is room only where no sector is known clean.
        self.first = SECTORS;
        let from = StatusPlace {
            place,
            generation,
            units,
        };
        let answer = read_commits(chip, from, &mut self.numbers, mark);
        self.numbers.rises();
        match answer {
            Ok(Some(greatest)) => {
                self.place = place;
                self.generation = generation;
                Ok(Some(greatest))
            }
            Ok(None) => Ok(None),
            Err(fault) => Err(fault),
        }
    }

    /// Reads the status header of a place (below the number of places), and takes in the numbers of
    /// its generation, and the mark, as `read_under` does. Where no status header stands there,
    /// sector 0 is malformed.
    pub fn read_in<C: Chip>(
        &mut self,
        chip: &mut C,
        place: u32,
        units: u32,
        mark: &mut LastMark,
    ) -> Result<Option<u64>, ChipFault>
        requires place { place < (C.told chip.old).places }
        requires units { units ≤ MOST_UNITS }
        ensures exact { OfContents (C.told chip.old) (λ x. (head : Sector)
            → IsStatusAt (chart_of x) place head
            → IsReadIn units self.old.most (chart_of x) place head.generation result self.new) }
        ensures never { OnFull result (self.old.most < STATUS_NUMBERS) }
        ensures most { self.new.most ≡ self.old.most }
        ensures marks { OnOk (of_image result) (OfContents (C.told chip.old) (λ x. (head : Sector)
            → IsStatusAt (chart_of x) place head
            → mark.new ≡ marks_in (chart_of x) place head.generation)) }
        ensures there { OnOk (of_image result) (OfContents (C.told chip.old) (λ x.
            (head : Sector) × IsStatusAt (chart_of x) place head)) }
        ensures placed { OnOk (of_image result)
            ((self.new.place ≡ place) × (self.new.first ≡ 256)) }

        // What it does to the chip, and why it fails.
        ensures reads { ReadsAt (IsOfPlace place) (C.told chip.old) (C.told chip.new) }
        ensures cause { IfErr result (λ e.
            IsCauseAt (IsOfPlace place) e (C.told chip.old) (C.told chip.new)) }
    {
        let generation = read_generation(chip, place)?;
        self.read_under(chip, place, generation, units, mark)
    }

    /// Commits 1 to 60 numbers: one commit sector, with a serial that is drawn for it, and then a
    /// barrier. That there is room, and a number left to draw, are conditions.
    ///
    /// Where nothing was open, a power cut leaves what stood before or what stands with the
    /// numbers; done, the chip stands for what stands with them. It fails only where a write
    /// failed, and the status is as it was then.
    pub fn add<C: Chip>(
        &mut self,
        chip: &mut C,
        counter: &mut Counter,
        tids: &[u64],
    ) -> Result<(), ChipFault>
        requires place { self.old.place < (C.told chip.old).places }
        requires room { 0 < room_of self.old }
        requires some { 1 ≤ length tids.now }
        requires few { length tids.now ≤ 60 }
        requires left { counter.old + 1 < 2 ^ 64 }
        ensures added { AdvancesTo (after_add self.old tids.now) result self.old self.new
            counter.old counter.new }

        // What the chip holds then, and what a power cut leaves.
        ensures adds { OnOk result (Charts
            (Adds (C.told chip.old).places self.old counter.old tids.now)
            (C.told chip.old) (C.told chip.new)) }
        // Whatever it held before, the header of the place is as it was.
        ensures header { OnOk result (Charts (KeepsFirstAt self.old.place)
            (C.told chip.old) (C.told chip.new)) }
        ensures steps { AddsInSteps (C.told chip.old).places self.old counter.old tids.now
            result (C.told chip.old) (C.told chip.new) }
        // One program and a barrier. Whatever the chip holds, only the first sector that is known
        // clean is programmed.
        ensures writes { WritesOneSector self.old.place self.old.first 6 result
            (C.told chip.old) (C.told chip.new) }
    {
        let serial = counter.draw();
        let spot = self.first_clean();
        let commit = CommitSector::of(self.generation, serial, tids);
        add_commit(chip, spot, &commit.noted())?;
        // Only now: where the write failed nobody knows which numbers are committed.
        self.numbers.add_all(tids);
        self.first += 1;
        Ok(())
    }

    /// Marks the log sectors of units as clean: one close mark, with this payload and a serial that
    /// is drawn for it, and then a barrier. That there is room, and a number left to draw, are
    /// conditions.
    ///
    /// Where nothing was open, and the payload has exactly the units of which something is known,
    /// whatever a power cut leaves stands for the map on which the story rested, and marks no
    /// sector that was used. It fails only where a write failed, and the status is as it was then.
    pub fn mark<C: Chip>(
        &mut self,
        chip: &mut C,
        counter: &mut Counter,
        payload: &[u8],
    ) -> Result<(), ChipFault>
        requires place { self.old.place < (C.told chip.old).places }
        requires room { 0 < room_of self.old }
        requires fits { length payload.now ≤ 132 }
        requires left { counter.old + 1 < 2 ^ 64 }
        ensures marked { AdvancesTo (after_mark self.old) result self.old self.new
            counter.old counter.new }

        // What the chip holds then, and what a power cut leaves.
        // Done, that mark was programmed, and then a barrier waited for.
        ensures adds { OnOk result (Spends (AddsSector self.old.place self.old.first
            (mark_sector self.old.generation counter.old payload.now))
            (C.told chip.old) (C.told chip.new)) }
        ensures tells { OnOk result (Charts (Gains self.old.place self.old.first
            (mark_sector self.old.generation counter.old payload.now))
            (C.told chip.old) (C.told chip.new)) }
        ensures steps { MarksInSteps (C.told chip.old).places self.old counter.old payload.now
            result (C.told chip.old) (C.told chip.new) }
        // One program and a barrier. Whatever the chip holds, only the first sector that is known
        // clean is programmed.
        ensures writes { WritesOneSector self.old.place self.old.first 7 result
            (C.told chip.old) (C.told chip.new) }
    {
        let serial = counter.draw();
        let spot = self.first_clean();
        write_mark(chip, spot, self.generation, serial, payload)?;
        self.first += 1;
        Ok(())
    }

    /// Writes a new status place with exactly those of its numbers that have a flag, at most 3,840,
    /// and so few that those of one commit more have room:
    /// they are programmed, 60 to a commit sector and with a serial drawn for each sector, and the
    /// status header of this generation makes them count. It lists exactly these places as retired. That
    /// a chip of so many units may have retired them, that the generation is the number that was drawn
    /// last, that 64 are left to draw, and that the place was taken and erased for this, are conditions.
    ///
    /// Where of the numbers in live log sectors exactly the committed ones are kept, whatever a
    /// power cut leaves at any moment stands for the map on which the story rested. It fails only
    /// where a write failed, and the status is as it was then.
    pub fn switch<C: Chip>(
        &mut self,
        chip: &mut C,
        counter: &mut Counter,
        header: &StatusHeader,
        retired: &[u32],
        place: u32,
        generation: u64,
        kept: &Flags,
    ) -> Result<(), ChipFault>
        requires place { place < (C.told chip.old).places }
        requires listed { AreRetired VERSION (C.told chip.old).places header.now.units retired.now }
        requires fits { FitStatusPlace self.old.most (flagged kept.now self.old.numbers) }
        requires last { counter.old ≡ generation + 1 }
        requires left { counter.old + 64 < 2 ^ 64 }
        ensures moved { SwitchesTo place generation (flagged kept.now self.old.numbers) result
            self.old self.new counter.old counter.new }

        // What the chip holds then, and what a power cut leaves.
        ensures switches { OnOk result (Charts
            (Switches (C.told chip.old).places header.now.units header.now.erases retired.now self.old
            generation place (flagged kept.now self.old.numbers))
            (C.told chip.old) (C.told chip.new)) }
        // Whatever it held before, the new header lists exactly these places.
        ensures lists { OnOk result (Charts (λ c y. ListsAt place retired.now y)
            (C.told chip.old) (C.told chip.new)) }
        ensures steps { SwitchesInSteps (C.told chip.old).places header.now.units header.now.erases
            retired.now self.old generation place (flagged kept.now self.old.numbers) result
            (C.told chip.old) (C.told chip.new) }
        // Programs of the place alone, and two barriers. Whatever the chip holds, each sector is
        // programmed once, and none of those behind.
        ensures writes { OnlyPrograms (FillsAt place 2) place
            (IsStatusSpot (parts_of (flagged kept.now self.old.numbers))) result
            (C.told chip.old) (C.told chip.new) }
    {
        let parts = part_count(&self.numbers, kept);
        self.numbers.fit();
        write_parts(chip, counter, place, generation, &self.numbers, kept)?;
        seal_status(chip, place, generation, header, retired)?;
        // Only now: until the header is made sure of, the old place counts.
        self.place = place;
        self.generation = generation;
        self.numbers.keep(kept);
        self.first = 1 + parts;
        Ok(())
    }
}
