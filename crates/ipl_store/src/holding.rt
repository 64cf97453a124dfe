//! Pages that stay in their frames.
ghost use Rattle.std.specs.Prelude.{◌≡◌, ◌<◌, ◌≤◌, ◌+◌, true, false, None, OnOk, OnErr};
ghost use Rattle.buffer_pool.specs.Holding.{pinned_count, IsHeld, IsAtRest};
ghost use Rattle.buffer_pool.specs.Uses.{CountsNoOther, UsesPage};
ghost use Rattle.store_trait.specs.Keeping.{LAST_NUMBER};
ghost use Rattle.page_frames.specs.Pages.{FramesPage, IsFramed, KeepsFramed};
ghost use Rattle.ipl_store.specs.Calls.{
  counter_of,
  IsSound,
  KeepsHolds,
  Calls,
  early_fault,
  ends_worn_out,
  entry_fault,
  down_fault,
  is_held,
  refuses_hold,
  refuses_release,
};
ghost use Rattle.ipl_store.specs.Shown.{AsksLittle, CostsOnePage, HoldsAgain, HoldsAlso, HoldsBut, IsRepooled, IsUsedLastIn};

use crate::Store;
use crate::refusals::is_held;
use buffer_pool::{holding_laws, pool_laws, use_laws};
use chip_trait::Chip;
use ipl_base::StoreFault;
use page_frames::buffer_laws;

impl Store {
    /// Holds a page of a unit in a frame: a `get` of a name there makes no chip call until it is
    /// released. A second hold counts as a use of the page, and changes nothing else. A bad page
    /// ends it as it does a `get`.
    pub fn hold<C: Chip>(&mut self, chip: &mut C, unit: u32, page: u32) -> Result<(), StoreFault>
        requires sound { IsSound (C.told chip.old).places self.old }
        ensures calls { Calls (early_fault (entry_fault self.old)
            (refuses_hold self.old.units self.old.transactions.pages.pool unit page))
            (λ state. state) 14 self.old (C.told chip.old) result self.new (C.told chip.new) }
        ensures holds { OnOk result (HoldsAlso self.old unit page self.new) }
        ensures brings { FramesPage unit page result self.old.transactions.pages
            self.new.transactions.pages }
        ensures same { OnErr result (KeepsHolds self.old self.new) }
        ensures again { is_held self.old.transactions.pages.pool unit page ≡ true
            → HoldsAgain result unit page self.old self.new × (C.told chip.new ≡ C.told chip.old) }
        // Nothing where the page is in a frame, and only reads where a frame is free.
        ensures asks { AsksLittle unit page self.old (C.told chip.old) (C.told chip.new) }
        // And at most what writes one page out.
        ensures costs { CostsOnePage (ends_worn_out result) self.old self.new (C.told chip.old)
            (C.told chip.new) }
    {
        self.admit(self.refuses_hold(unit, page))?;
        if is_held(&self.transactions.pages.pool, unit, page) {
            self.use_held(unit, page);
            return Ok(());
        }
        self.bring_page(chip, unit, page)?;
        self.keep(unit, page);
        Ok(())
    }

    /// Releases a page that is held. The chip isn't asked.
    pub fn release<C: Chip>(
        &mut self,
        _chip: &mut C,
        unit: u32,
        page: u32,
    ) -> Result<(), StoreFault>
        requires sound { IsSound (C.told _chip.old).places self.old }
        ensures calls { Calls (early_fault (down_fault self.old)
            (refuses_release self.old.units self.old.transactions.pages.pool unit page))
            (λ state. state) 0 self.old (C.told _chip.old) result self.new (C.told _chip.new) }
        ensures holds { OnOk result (HoldsBut self.old unit page self.new) }
        ensures framed { KeepsFramed self.old.transactions.pages self.new.transactions.pages }
        ensures idle { C.told _chip.new ≡ C.told _chip.old }
    {
        self.admit_end(self.refuses_release(unit, page))?;
        self.let_go(unit, page);
        Ok(())
    }

    /// Brings a page (0 to 14 of a unit) of the chip into a frame. The store isn't down, and has
    /// numbers left.
    fn bring_page<C: Chip>(&mut self, chip: &mut C, unit: u32, page: u32) -> Result<(), StoreFault>
        requires sound { IsSound (C.told chip.old).places self.old }
        requires up { self.old.down ≡ false }
        requires unit { unit < self.old.units }
        requires page { page < 15 }
        requires left { counter_of self.old ≤ LAST_NUMBER }
        ensures calls { Calls None (λ state. state) 14
            self.old (C.told chip.old) result self.new (C.told chip.new) }
        ensures holds { KeepsHolds self.old self.new }
        ensures brings { FramesPage unit page result self.old.transactions.pages
            self.new.transactions.pages }
        // Nothing where the page is in a frame, and only reads where a frame is free.
        ensures asks { AsksLittle unit page self.old (C.told chip.old) (C.told chip.new) }
        // And at most what writes one page out.
        ensures costs { CostsOnePage (ends_worn_out result) self.old self.new (C.told chip.old)
            (C.told chip.new) }
    {
        let done = self.transactions.pages.bring(chip, unit, page);
        self.end(done)
    }

    /// Counts a use of a page (0 to 14 of a unit) that is held.
    fn use_held(&mut self, unit: u32, page: u32)
        requires page { page < 15 }
        requires held { IsHeld self.old.transactions.pages.pool.buffers unit page }
        requires rest { IsAtRest self.old.transactions.pages.pool }
        ensures uses { UsesPage self.old.transactions.pages.pool self.new.transactions.pages.pool
            unit page }
        ensures others { CountsNoOther unit page self.old.transactions.pages.pool
            self.new.transactions.pages.pool }
        ensures used { IsUsedLastIn self.new unit page }
        ensures holds { KeepsHolds self.old self.new }
        ensures pool { IsRepooled self.old self.new }
    {
        self.transactions.pages.pool.facts();
        buffer_laws();
        holding_laws();
        use_laws();
        self.transactions.pages.pool.touch(unit, page);
    }

    /// Holds a page (0 to 14 of a unit) that is in a frame, and isn't held, where one more may be
    /// held.
    fn keep(&mut self, unit: u32, page: u32)
        requires page { page < 15 }
        requires there { IsFramed self.old.transactions.pages unit page }
        requires free { ¬ IsHeld self.old.transactions.pages.pool.buffers unit page }
        requires few { pinned_count self.old.transactions.pages.pool.buffers + 1
            < self.old.transactions.pages.pool.limit }
        requires rest { IsAtRest self.old.transactions.pages.pool }
        ensures holds { HoldsAlso self.old unit page self.new }
        ensures others { CountsNoOther unit page self.old.transactions.pages.pool
            self.new.transactions.pages.pool }
        ensures used { IsUsedLastIn self.new unit page }
        ensures pool { IsRepooled self.old self.new }
    {
        self.transactions.pages.pool.facts();
        pool_laws();
        buffer_laws();
        use_laws();
        self.transactions.pages.pool.hold(unit, page);
    }

    /// Ends the hold of a page (0 to 14 of a unit).
    fn let_go(&mut self, unit: u32, page: u32)
        requires page { page < 15 }
        requires held { IsHeld self.old.transactions.pages.pool.buffers unit page }
        requires rest { IsAtRest self.old.transactions.pages.pool }
        ensures holds { HoldsBut self.old unit page self.new }
        ensures pool { IsRepooled self.old self.new }
    {
        self.transactions.pages.pool.facts();
        buffer_laws();
        self.transactions.pages.pool.release(unit, page);
    }
}
