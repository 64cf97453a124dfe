//! A page is brought into a frame.
ghost use Rattle.std.specs.Prelude.{◌≡◌, ◌<◌, ◌≤◌, ◌+◌, ◌^◌, ◌⊎◌, [], ℕ, false, None, OnOk};
ghost use Rattle.unit_io.specs.Costs.{Costs, Spends};
ghost use Rattle.place_taking.specs.Spending.{is_worn_out};
ghost use Rattle.buffer_pool.specs.Pools.{PoolView};
ghost use Rattle.buffer_pool.specs.Holding.{IsAtRest};
ghost use Rattle.buffer_pool.specs.Uses.{used_of};
ghost use Rattle.log_records.specs.View.{record_of};
ghost use Rattle.page_frames.specs.Views.{frames_of};
ghost use Rattle.page_frames.specs.Asks.{AsksToBring, AsksToEmpty, AsksToFetch, AsksToLoad, AsksToPrepare};
ghost use Rattle.page_frames.specs.Frames.{IsVictimFor, KeepsUnheld, MayGive, TakesFrame};
ghost use Rattle.page_frames.specs.Complete.{CompletesLoad};
ghost use Rattle.page_frames.specs.Faulty.{FailsAsPage};
ghost use Rattle.page_frames.specs.Filling.{Fills, MayLoad, with_pool};
ghost use Rattle.page_frames.specs.Pages.{
  tables_in,
  frames_in,
  IsFramed,
  IsPageOf,
  HasFreeFrame,
  KeepsFramed,
  KeepsFramedFor,
  ArePagesReady,
  LoadsFrame,
};
ghost use Rattle.page_frames.specs.Works.{ComesFresh, ComesToFrame, PreparesPage, WorksOn};

use crate::Pages;
use crate::frames::{free_frame, give_frame, is_framed, short, use_page};
use crate::puts::has_room;
use buffer_pool::Room;
use chip_trait::Chip;
use ipl_base::ChipFault;
use log_records::Record;
use page_rebuild::load;

impl Pages {
    /// The page (unit and number) that gives its frame to another: none, where a frame is free; or that
    /// which was used longest ago, of those that aren't held.
    fn choose_victim(&self) -> Option<(u32, u32)>
        requires { IsAtRest self.now.pool }
        ensures { IsVictimFor self.now.pool result }
    {
        self.pool.facts();
        match self.pool.room() {
            Room::Free => None,
            Room::Victim(unit, page) => Some((unit, page)),
            Room::AllPinned => unreachable!("fewer pages are held than there are frames"),
        }
    }

    /// Writes the records of such a page out, where there is one, so that it may leave its frame.
    fn empty_victim<C: Chip>(
        &mut self,
        chip: &mut C,
        victim: Option<(u32, u32)>,
    ) -> Result<(), ChipFault>
        requires ready { ArePagesReady (C.told chip.old).places self.old }
        requires chosen { IsVictimFor self.old.pool victim }
        requires left { self.old.parts.counter + 14 < 2 ^ 64 }
        ensures works { WorksOn 14 self.old (C.told chip.old) result self.new (C.told chip.new) }
        ensures may { OnOk result (MayGive self.new.pool victim) }
        ensures absent { (u q : ℕ) → frames_in self.old u q ≡ None → frames_in self.new u q ≡ None }
        ensures framed { KeepsFramed self.old self.new }
        ensures uses { used_of self.new.pool ≡ used_of self.old.pool }
        ensures status { self.new.parts.status ≡ self.old.parts.status }
        ensures asks { AsksToEmpty victim result self.old self.new (C.told chip.old) (C.told chip.new) }
    {
        let Some((unit, page)) = victim else {
            return Ok(());
        };
        self.pool.facts();
        self.write_out(chip, unit, page)?;
        self.pool.facts();
        Ok(())
    }

    /// Loads a page into its frame, where it has no records in memory.
    fn load_frame<C: Chip>(&mut self, chip: &mut C, unit: u32, page: u32) -> Result<(), ChipFault>
        requires { MayLoad (C.told chip.old).places self.old unit page }
        ensures loads { LoadsFrame result (C.told chip.old) (tables_in self.old) unit page
            (frames_in self.old) (frames_in self.new) }
        ensures complete { CompletesLoad (tables_in self.old) unit page result
            (C.told chip.old) }
        ensures exact { FailsAsPage (tables_in self.old) unit page result (C.told chip.old) }
        ensures tables { tables_in self.new ≡ tables_in self.old }
        ensures pool { KeepsUnheld unit page self.old.pool self.new.pool }
        ensures asks { AsksToLoad result self.new.parts.directory (C.told chip.old) (C.told chip.new) }
    {
        self.pool.facts();
        let Some(key) = self.pool.find(unit, page) else {
            unreachable!("the page is in a frame");
        };
        let parts = &mut self.parts;
        load(
            chip,
            &parts.directory,
            &parts.overflow,
            &parts.status,
            parts.active.as_slice(),
            unit,
            page,
            &mut parts.scratch.sectors,
            self.pool.frame_under(key),
        )
    }

    /// Loads a page into the frame that it was given. Where it fails, that is free again.
    fn fill<C: Chip>(&mut self, chip: &mut C, unit: u32, page: u32) -> Result<(), ChipFault>
        requires { MayLoad (C.told chip.old).places self.old unit page }
        ensures fills { (pool : PoolView) → ArePagesReady (C.told chip.old).places (with_pool self.old pool)
            → frames_of pool unit page ≡ None → TakesFrame pool self.old.pool unit page
            → Fills unit page (with_pool self.old pool) (C.told chip.old) result self.new
            (C.told chip.new) }
        ensures tables { tables_in self.new ≡ tables_in self.old }
        ensures status { self.new.parts.status ≡ self.old.parts.status }
        ensures costs { Spends (Costs 0 0 0 []) (C.told chip.old) (C.told chip.new) }
        ensures unworn { is_worn_out result ≡ false }
    {
        match self.load_frame(chip, unit, page) {
            Ok(()) => Ok(()),
            Err(fault) => {
                free_frame(&mut self.pool, unit, page);
                Err(fault)
            }
        }
    }

    /// Loads a page that is in no frame, for which another page may have to leave its frame.
    fn fetch<C: Chip>(&mut self, chip: &mut C, unit: u32, page: u32) -> Result<(), ChipFault>
        requires ready { ArePagesReady (C.told chip.old).places self.old }
        requires page { IsPageOf self.old unit page }
        requires absent { frames_in self.old unit page ≡ None }
        requires left { self.old.parts.counter + 14 < 2 ^ 64 }
        ensures works { WorksOn 14 self.old (C.told chip.old) result self.new (C.told chip.new) }
        ensures exact { HasFreeFrame self.old
            → FailsAsPage (tables_in self.old) unit page result (C.told chip.old) }
        ensures comes { ComesFresh unit page result self.new }
        ensures framed { KeepsFramedFor unit page self.old self.new }
        ensures status { self.new.parts.status ≡ self.old.parts.status }
        ensures asks { AsksToFetch (is_worn_out result) self.old self.new
            (C.told chip.old) (C.told chip.new) }
    {
        let victim = self.choose_victim();
        self.empty_victim(chip, victim)?;
        self.pool.facts();
        give_frame(&mut self.pool, victim, unit, page);
        self.fill(chip, unit, page)
    }

    /// Brings a page into a frame, where it is in none; another page may have to leave its frame then.
    /// It is the page used last then, and has no records in memory where it was in no frame.
    pub fn bring<C: Chip>(&mut self, chip: &mut C, unit: u32, page: u32) -> Result<(), ChipFault>
        requires ready { ArePagesReady (C.told chip.old).places self.old }
        requires page { IsPageOf self.old unit page }
        requires left { self.old.parts.counter + 14 < 2 ^ 64 }
        ensures works { WorksOn 14 self.old (C.told chip.old) result self.new (C.told chip.new) }
        ensures exact { (IsFramed self.old unit page ⊎ HasFreeFrame self.old)
            → FailsAsPage (tables_in self.old) unit page result (C.told chip.old) }
        ensures comes { ComesToFrame unit page result self.old self.new }
        ensures framed { KeepsFramedFor unit page self.old self.new }
        ensures status { self.new.parts.status ≡ self.old.parts.status }
        ensures asks { AsksToBring unit page (is_worn_out result) self.old self.new
            (C.told chip.old) (C.told chip.new) }
    {
        if is_framed(&self.pool, unit, page) {
            use_page(&mut self.pool, unit, page);
            return Ok(());
        }
        self.fetch(chip, unit, page)
    }

    /// Brings the page of a record into a frame, where the record fits behind the page's records in
    /// memory then. Where the page is in a frame with no room for it, these are written out first. Its
    /// values stay, and it is the page used last then.
    pub fn prepare<C: Chip>(
        &mut self,
        chip: &mut C,
        unit: u32,
        logged: &Record,
    ) -> Result<(), ChipFault>
        requires ready { ArePagesReady (C.told chip.old).places self.old }
        requires page { IsPageOf self.old unit logged.now.page }
        requires left { self.old.parts.counter + 14 < 2 ^ 64 }
        ensures works { WorksOn 14 self.old (C.told chip.old) result self.new (C.told chip.new) }
        ensures exact { frames_in self.old unit logged.now.page ≡ None → HasFreeFrame self.old
            → FailsAsPage (tables_in self.old) unit logged.now.page result (C.told chip.old) }
        ensures prepares { PreparesPage unit (record_of logged.now) result self.old self.new }
        ensures framed { KeepsFramedFor unit logged.now.page self.old self.new }
        ensures status { self.new.parts.status ≡ self.old.parts.status }
        ensures asks { AsksToPrepare unit (record_of logged.now) (is_worn_out result) self.old self.new
            (C.told chip.old) (C.told chip.new) }
    {
        short(logged);
        if !is_framed(&self.pool, unit, logged.page) {
            return self.fetch(chip, unit, logged.page);
        }
        use_page(&mut self.pool, unit, logged.page);
        if has_room(&self.pool, unit, logged) {
            return Ok(());
        }
        self.write_out(chip, unit, logged.page)
    }
}
