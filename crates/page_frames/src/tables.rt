//! Work on the tables that leaves the frames as they are: a clean sector for the next commit, and a
//! merge.
ghost use Rattle.std.specs.Prelude.{◌≡◌, ◌<◌, ◌≤◌, ◌+◌, ◌^◌, length, slice_index, is_ok, IsOk, OnOk};
ghost use Rattle.ipl_base.specs.declared.limits.TheConstants.{CARRIED_SECTORS};
ghost use Rattle.unit_io.specs.Costs.{Spends};
ghost use Rattle.place_taking.specs.Spending.{ErasesFor, is_worn_out};
ghost use Rattle.txn_status.specs.Status.{room_of};
ghost use Rattle.selective_merge.specs.Merging.{Merges, StaysMirrored, FailsAsMerge};
ghost use Rattle.selective_merge.specs.Throughout.{ChartsThroughout};
ghost use Rattle.restart.specs.Passes.{ErasesAtMost};
ghost use Rattle.page_frames.specs.Complete.{FailsByChip};
ghost use Rattle.page_frames.specs.Faulty.{TellsFaults};
ghost use Rattle.page_frames.specs.Pages.{tables_in, KeepsFramed, ArePagesReady, Upholds};
ghost use Rattle.page_frames.specs.Works.{WorksOn};

use crate::Pages;
use chip_trait::Chip;
use ipl_base::ChipFault;
use restart::{KeptNumbers, renew};
use selective_merge::merge;

impl Pages {
    /// Makes sure of a clean sector for a commit: where the status place has none, it is renewed.
    pub fn ready_status<C: Chip>(
        &mut self,
        chip: &mut C,
        kept: &mut KeptNumbers,
    ) -> Result<(), ChipFault>
        requires ready { ArePagesReady (C.told chip.old).places self.old }
        requires left { self.old.parts.counter + 2 ^ 14 < 2 ^ 64 }
        requires numbers { kept.old.room ≡ self.old.parts.status.most }
        ensures numbers { kept.new.room ≡ kept.old.room }
        ensures upholds { Upholds (2 ^ 14) self.old (C.told chip.old) result self.new (C.told chip.new) }
        ensures complete { FailsByChip self.old result (C.told chip.old) }
        ensures faults { TellsFaults self.old result (C.told chip.old) self.new (C.told chip.new) }
        ensures room { OnOk result (0 < room_of self.new.parts.status) }
        ensures frames { self.new.pool ≡ self.old.pool }
        ensures framed { KeepsFramed self.old self.new }
        ensures idle { 0 < room_of self.old.parts.status
            → IsOk result × (self.new ≡ self.old) × (C.told chip.new ≡ C.told chip.old) }
        ensures costs { Spends (ErasesAtMost self.old.parts.directory self.new.parts.directory
            (length self.old.parts.directory.current + 1) (is_worn_out result))
            (C.told chip.old) (C.told chip.new) }
    {
        if self.parts.status.room() > 0 {
            return Ok(());
        }
        renew(chip, &mut self.parts, kept)
    }

    /// Merges a unit, whatever is carried.
    pub fn merge<C: Chip>(&mut self, chip: &mut C, unit: u32) -> Result<(), ChipFault>
        requires ready { ArePagesReady (C.told chip.old).places self.old }
        requires unit { unit < length self.old.parts.directory.current }
        requires left { self.old.parts.counter + 13 < 2 ^ 64 }
        ensures works { WorksOn 13 self.old (C.told chip.old) result self.new (C.told chip.new) }
        ensures exact { FailsAsMerge (C.told chip.old).places (tables_in self.old) unit result
            (C.told chip.old) }
        ensures tells { ChartsThroughout
            (λ done. Merges (C.told chip.old).places unit (tables_in self.old) (tables_in self.new))
            (StaysMirrored (C.told chip.old).places (tables_in self.old) (tables_in self.new))
            result (C.told chip.old) (C.told chip.new) }
        ensures room { OnOk result (slice_index self.new.parts.directory.written unit ≤ CARRIED_SECTORS) }
        ensures frames { self.new.pool ≡ self.old.pool }
        ensures framed { KeepsFramed self.old self.new }
        ensures costs { Spends (ErasesFor self.old.parts.directory self.new.parts.directory 3
            (slice_index self.new.parts.directory.current unit) (is_ok result) (is_worn_out result))
            (C.told chip.old) (C.told chip.new) }
    {
        merge(chip, &mut self.parts, unit)
    }
}
