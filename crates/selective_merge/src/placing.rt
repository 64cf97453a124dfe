//! Where a log sector of a unit goes: the rules.
ghost use Rattle.std.specs.Prelude.{◌≡◌, IfOk};
ghost use Rattle.unit_io.specs.ReadsAt.{ReadsAt};
ghost use Rattle.unit_log.specs.Kept.{records_kept};
ghost use Rattle.selective_merge.specs.Homes.{IsLearnt};
ghost use Rattle.selective_merge.specs.Merging.{CompletesMerge, IsReadyToMerge};
ghost use Rattle.selective_merge.specs.Moving.{tables_of};
ghost use Rattle.selective_merge.specs.Often.{all_of, base_of};
ghost use Rattle.selective_merge.specs.Placing.{IsElsewhere, IsMergedSpot, IsPlaced, PlacesLog};
ghost use Rattle.selective_merge.specs.Spotting.{HasHomeSpot};

use crate::Parts;
use crate::learning::learn;
use crate::merging::merge_learnt;
use crate::overflowing::open_overflow;
use crate::spots::{OverflowChoice, home_spot, overflow_choice, packed_count};
use chip_trait::Chip;
use ipl_base::{ChipFault, MERGE_THRESHOLD, Spot};

/// Merges the unit that was read, and answers its first clean log sector.
fn merged_spot<C: Chip>(chip: &mut C, parts: &mut Parts, unit: u32) -> Result<Spot, ChipFault>
    requires ready { IsReadyToMerge (C.told chip.old).places (tables_of parts.old) unit }
    requires learnt { IsLearnt (tables_of parts.old) unit (C.told chip.old)
        parts.old.scratch.home (records_kept parts.old.scratch.sectors) }
    ensures { PlacesLog IsMergedSpot (base_of (tables_of parts.old) unit) unit (tables_of parts.old)
        (tables_of parts.new) result (C.told chip.old) (C.told chip.new) }
{
    merge_learnt(chip, parts, unit)?;
    match home_spot(parts, unit) {
        Some(spot) => Ok(spot),
        None => unreachable!("a merge leaves three log sectors clean"),
    }
}

/// An overflow sector where one is to be had, else the first clean one of the merged unit, which was
/// read.
fn elsewhere<C: Chip>(chip: &mut C, parts: &mut Parts, unit: u32) -> Result<Spot, ChipFault>
    requires ready { IsReadyToMerge (C.told chip.old).places (tables_of parts.old) unit }
    requires learnt { IsLearnt (tables_of parts.old) unit (C.told chip.old)
        parts.old.scratch.home (records_kept parts.old.scratch.sectors) }
    ensures { PlacesLog IsElsewhere (base_of (tables_of parts.old) unit) unit (tables_of parts.old)
        (tables_of parts.new) result (C.told chip.old) (C.told chip.new) }
{
    match overflow_choice(parts, unit) {
        OverflowChoice::Clean(spot) => Ok(spot),
        OverflowChoice::NewPlace => open_overflow(chip, parts),
        OverflowChoice::Nothing => merged_spot(chip, parts, unit),
    }
}

/// A clean sector for the next log sector of a unit, by the first rule that applies: the lowest clean
/// log sector at home; where at most 7 sectors would be carried, that of the merged unit; one of an
/// overflow place, where one is to be had; that of the merged unit all the same.
///
/// Whatever a power cut leaves at any moment stands for the map on which the story rested, and where
/// no write failed, it rests on that map at the end; at most 13 numbers are drawn. It fails as `merge`
/// does. Where a log sector is clean at home nothing is asked of the chip; else the unit's header and
/// log are read once, also where it is merged then, at most one erase is tried and one more for each
/// place that is retired, each of a free place, and nothing is programmed elsewhere.
pub fn log_place<C: Chip>(chip: &mut C, parts: &mut Parts, unit: u32) -> Result<Spot, ChipFault>
    requires { IsReadyToMerge (C.told chip.old).places (tables_of parts.old) unit }

    // What the chip holds then, what a power cut leaves, why it fails, and what the tables have.
    ensures room { PlacesLog IsPlaced (all_of (tables_of parts.old) unit) unit (tables_of parts.old)
        (tables_of parts.new) result (C.told chip.old) (C.told chip.new) }

    // Where the unit's pages show values and few log sectors would be carried, it fails only where a
    // call of the chip failed.
    ensures complete { CompletesMerge (C.told chip.old).places (tables_of parts.old) unit result
        (C.told chip.old) }
    ensures home { HasHomeSpot (tables_of parts.old) unit
        → (tables_of parts.new ≡ tables_of parts.old)
        × ReadsAt (λ p s. ⊥) (C.told chip.old) (C.told chip.new) }
{
    if let Some(spot) = home_spot(parts, unit) {
        return Ok(spot);
    }
    learn(chip, parts, unit)?;
    let carried = packed_count(&mut parts.scratch, &parts.active);
    if carried <= MERGE_THRESHOLD {
        return merged_spot(chip, parts, unit);
    }
    elsewhere(chip, parts, unit)
}
