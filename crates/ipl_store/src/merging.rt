//! A merge that is asked for.
ghost use Rattle.std.specs.Prelude.{◌≡◌, None, ◌≤◌, slice_index, is_ok, OnOk};
ghost use Rattle.ipl_base.specs.declared.limits.TheConstants.{CARRIED_SECTORS};
ghost use Rattle.unit_io.specs.Charts.{Charts};
ghost use Rattle.unit_io.specs.Costs.{Spends};
ghost use Rattle.ipl_model.specs.Refusals.{refuses_merge};
ghost use Rattle.selective_merge.specs.Merging.{Merges};
ghost use Rattle.place_taking.specs.Spending.{ErasesFor};
ghost use Rattle.page_frames.specs.Pages.{tables_in, KeepsFramed};
ghost use Rattle.ipl_store.specs.Calls.{
  BlamesPagesSurely,
  IsSound,
  KeepsHolds,
  Calls,
  early_fault,
  ends_worn_out,
  entry_fault,
  limits_of_store,
};

use crate::Store;
use chip_trait::Chip;
use ipl_base::StoreFault;
use store_laws::passing_laws;

impl Store {
    /// Merges a unit at once, whatever is carried. A bad page of it ends that, with exactly what is
    /// wrong with the page.
    pub fn merge<C: Chip>(&mut self, chip: &mut C, unit: u32) -> Result<(), StoreFault>
        requires sound { IsSound (C.told chip.old).places self.old }
        ensures calls { Calls (early_fault (entry_fault self.old)
            (refuses_merge (limits_of_store self.old) unit)) (λ state. state) 13
            self.old (C.told chip.old) result self.new (C.told chip.new) }
        ensures surely { early_fault (entry_fault self.old) (refuses_merge (limits_of_store self.old) unit)
            ≡ None → BlamesPagesSurely self.old (C.told chip.old) result self.new (C.told chip.new) }
        ensures holds { KeepsHolds self.old self.new }
        ensures framed { KeepsFramed self.old.transactions.pages self.new.transactions.pages }
        // Done, the unit stands at a new place, its pages show the same, and its log is what open
        // sessions wrote last.
        ensures merges { OnOk result (Charts (Merges (C.told chip.old).places unit
            (tables_in self.old.transactions.pages) (tables_in self.new.transactions.pages))
            (C.told chip.old) (C.told chip.new)) }
        // Three log sectors of that place at least are clean.
        ensures room { OnOk result
            (slice_index self.new.transactions.pages.parts.directory.written unit ≤ CARRIED_SECTORS) }
        ensures costs { Spends (ErasesFor self.old.transactions.pages.parts.directory
            self.new.transactions.pages.parts.directory 3
            (slice_index self.new.transactions.pages.parts.directory.current unit) (is_ok result)
            (ends_worn_out result)) (C.told chip.old) (C.told chip.new) }
    {
        self.admit(self.refuses_merge(unit))?;
        passing_laws();
        let done = self.transactions.pages.merge(chip, unit);
        self.end(done)
    }
}
