//! The records of a page, written out from its frame.
ghost use Rattle.std.specs.Prelude.{◌≡◌, ◌<◌, ◌≤◌, ◌+◌, ◌^◌};
ghost use Rattle.selective_merge.specs.Merging.{FailsAsMerge};
ghost use Rattle.page_frames.specs.Asks.{AsksToWriteOut};
ghost use Rattle.page_frames.specs.Frames.{KeepsOrder};
ghost use Rattle.page_frames.specs.Pages.{tables_in, frames_in, IsPageOf, KeepsFramed, ArePagesReady, frames_after};
ghost use Rattle.page_frames.specs.Works.{WorksOn};

use crate::Pages;
use crate::frames::has_records;
use crate::puts::{clear_log, log_payload};
use crate::records::write_records;
use chip_trait::Chip;
use ipl_base::ChipFault;

impl Pages {
    /// Writes the records out that a page has in memory, where it is in a frame and has some. It stays
    /// in its frame. Where it fails the frames are as they were. Where a log sector is clean at the
    /// unit's home, one program does.
    pub fn write_out<C: Chip>(
        &mut self,
        chip: &mut C,
        unit: u32,
        page: u32,
    ) -> Result<(), ChipFault>
        requires ready { ArePagesReady (C.told chip.old).places self.old }
        requires page { IsPageOf self.old unit page }
        requires left { self.old.parts.counter + 14 < 2 ^ 64 }
        ensures works { WorksOn 14 self.old (C.told chip.old) result self.new (C.told chip.new) }
        ensures exact { FailsAsMerge (C.told chip.old).places (tables_in self.old) unit result
            (C.told chip.old) }
        ensures frames { frames_in self.new ≡ frames_after result (frames_in self.old) unit page }
        ensures framed { KeepsFramed self.old self.new }
        ensures pool { KeepsOrder self.old.pool self.new.pool }
        ensures status { self.new.parts.status ≡ self.old.parts.status }
        ensures asks { AsksToWriteOut unit page result self.old self.new
            (C.told chip.old) (C.told chip.new) }
    {
        if !has_records(&self.pool, unit, page) {
            return Ok(());
        }
        let mut payload = log_payload(&self.pool, unit, page);
        write_records(chip, &mut self.parts, unit, &mut payload)?;
        clear_log(&mut self.pool, unit, page);
        Ok(())
    }
}
