//! The merge.
ghost use Rattle.std.specs.Prelude.{◌≡◌, ◌≤◌, length};
ghost use Rattle.ipl_base.specs.declared.limits.TheConstants.{CARRIED_SECTORS};
ghost use Rattle.unit_io.specs.Reads.{OfContents};
ghost use Rattle.unit_log.specs.Kept.{records_kept};
ghost use Rattle.selective_merge.specs.Faults.{pages_fault, TellsTheFault};
ghost use Rattle.selective_merge.specs.Packs.{packs_of, payloads_of};
ghost use Rattle.selective_merge.specs.Homes.{IsHomeBy, IsLearnt};
ghost use Rattle.selective_merge.specs.Leaving.{MovesUnit};
ghost use Rattle.selective_merge.specs.Moving.{source_read, tables_of};
ghost use Rattle.selective_merge.specs.Merging.{IsReadyToMerge, MergesFrom, MergesFromInSteps, MergesUnit, StaysMirrored};
ghost use Rattle.selective_merge.specs.Often.{all_of, base_of};
ghost use Rattle.selective_merge.specs.Throughout.{ChartsThroughout};

use crate::Parts;
use crate::carry::pack_carried;
use crate::laws::known_laws;
use crate::learning::learn;
use crate::log::Log;
use crate::parts::move_unit;
use crate::places::write_unit;
use chip_trait::Chip;
use ipl_base::ChipFault;
use place_taking::take_place;
use unit_directory::directory_laws;

/// Merges a unit that was read, and of which what is carried was packed.
fn merge_packed<C: Chip>(chip: &mut C, parts: &mut Parts, unit: u32) -> Result<(), ChipFault>
    requires ready { IsReadyToMerge (C.told chip.old).places (tables_of parts.old) unit }
    requires stands { IsHomeBy (tables_of parts.old) unit parts.old.scratch.home }
    requires packed { parts.old.scratch.packs.closed.items
        ≡ payloads_of (packs_of parts.old.active (records_kept parts.old.scratch.sectors)) }
    ensures steps { MergesFromInSteps (C.told chip.old).places unit (source_read parts.old)
        (tables_of parts.old) (tables_of parts.new) (C.told chip.old) result (C.told chip.new) }
    ensures tells { ChartsThroughout
        (λ done. MergesFrom (C.told chip.old).places unit (source_read parts.old)
        (tables_of parts.old) (tables_of parts.new))
        (StaysMirrored (C.told chip.old).places (tables_of parts.old) (tables_of parts.new))
        result (C.told chip.old) (C.told chip.new) }
    ensures fault { OfContents (C.told chip.old) (λ x.
        TellsTheFault (pages_fault x (source_read parts.old)) result) }
    ensures few { length (packs_of parts.old.active (records_kept parts.old.scratch.sectors))
        ≤ CARRIED_SECTORS }
    ensures moves { MovesUnit (base_of (tables_of parts.old) unit) unit (tables_of parts.old) (tables_of parts.new) result
        (C.told chip.old) (C.told chip.new) }
{
    known_laws();
    directory_laws();
    parts.directory.facts();
    let generation = parts.counter.draw();
    let place = take_place(chip, &mut parts.directory)?;
    match write_unit(chip, parts, place, generation) {
        Ok(()) => {
            move_unit(parts, unit, place, generation);
            Ok(())
        }
        Err(fault) => {
            // Nothing on it counts, so that the tables are right again.
            parts.directory.give_back(place);
            Err(fault)
        }
    }
}

/// Merges a unit that `learn` read into the scratch memory, and of which nothing changed since: it
/// leaves what `merge` leaves, and reads its pages alone. Malformed at sector 0 of its place, where more
/// than 12 log sectors would be carried.
pub(crate) fn merge_learnt<C: Chip>(
    chip: &mut C,
    parts: &mut Parts,
    unit: u32,
) -> Result<(), ChipFault>
    requires ready { IsReadyToMerge (C.told chip.old).places (tables_of parts.old) unit }
    requires learnt { IsLearnt (tables_of parts.old) unit (C.told chip.old)
        parts.old.scratch.home (records_kept parts.old.scratch.sectors) }
    ensures { MergesUnit (base_of (tables_of parts.old) unit) unit (tables_of parts.old) (tables_of parts.new)
        result (C.told chip.old) (C.told chip.new) }
{
    let scratch = &mut parts.scratch;
    let log = Log::of(scratch.sectors.sectors(), &mut scratch.offsets);
    if !pack_carried(&log, &parts.active, &mut scratch.packs) {
        return Err(ChipFault::Malformed {
            place: scratch.home.place,
            sector: 0,
        });
    }
    merge_packed(chip, parts, unit)
}

/// Merges a unit: it is written to a place that was free, with the records of committed numbers
/// applied to its pages and, of each name, the last record of an active number carried, packed in
/// order; records of other numbers are dropped. Then the tables have it there, with at least three
/// clean log sectors, its old place is free, and so is an overflow place that no list names any more.
///
/// Whatever a power cut leaves at any moment stands for the map on which the story rested, and done,
/// it rests on that map. Where it failed and no write did, it rests on it too, and the tables have
/// all as before but for the numbers that were drawn, at most 13, for one erase more of the place that
/// was taken, where it was erased, and for places that were found worn, which are retired. It tries one
/// erase more than places are retired, each of the least worn place that was free then, and programs
/// nothing elsewhere. Of the unit's place it reads each sector once at most, and elsewhere its log
/// sectors, as often as the overflow lists name them.
///
/// Done, it drew a generation and a serial for each log sector that it wrote.
///
/// It fails where a read or a write failed, where more places are worn than are spare, where a base
/// sector of a page is damaged or malformed, where a page has no room for its committed records, or
/// where the log isn't what it must be. Over contents that the tables mirror it tells exactly what is
/// wrong with the unit: that more than 12 log sectors would be carried, which is Malformed at sector 0
/// of its place, or the fault of its first page that doesn't read well, or has no room, which is that
/// one too; and where neither is so, it fails only where a read or a write failed, or where too many
/// places are worn.
pub fn merge<C: Chip>(chip: &mut C, parts: &mut Parts, unit: u32) -> Result<(), ChipFault>
    requires { IsReadyToMerge (C.told chip.old).places (tables_of parts.old) unit }
    ensures { MergesUnit (all_of (tables_of parts.old) unit) unit (tables_of parts.old) (tables_of parts.new)
        result (C.told chip.old) (C.told chip.new) }
{
    learn(chip, parts, unit)?;
    merge_learnt(chip, parts, unit)
}
