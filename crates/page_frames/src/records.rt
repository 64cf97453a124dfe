//! The records of a page, written as one log sector of its unit.
ghost use Rattle.ipl_base.specs.declared.limits.TheConstants.{VERSION};
ghost use Rattle.std.specs.Prelude.{◌≡◌, ◌<◌, ◌+◌, ◌^◌, length, false, OnOk, IsTrue};
ghost use Rattle.unit_io.specs.Charts.{Charts};
ghost use Rattle.unit_io.specs.Leads.{IsStopped};
ghost use Rattle.selective_merge.specs.Known.{KnowsPlaces};
ghost use Rattle.selective_merge.specs.Moving.{tables_of};
ghost use Rattle.selective_merge.specs.Spotting.{IsHomeSpot};
ghost use Rattle.page_frames.specs.Causes.{WritingCause};
ghost use Rattle.page_frames.specs.Leaving.{
  EmptiesPayload,
  FailsByUnit,
  LeavesWritten,
  MayUseSpot,
  UsesOneSector,
};
ghost use Rattle.page_frames.specs.Spending.{WritingCosts};
ghost use Rattle.page_frames.specs.Writing.{
  IsAfterLog,
  WritesLog,
  WritesLogInSteps,
  WritesOut,
  WritesOutInSteps,
};

use chip_trait::Chip;
use ipl_base::{ChipFault, Spot};
use log_records::Payload;
use overflow::overflow_laws;
use sector_format::Head;
use selective_merge::{Parts, log_place};
use unit_io::program_log;
use unit_log::mask_of;

/// Whether a spot is the first clean log sector at the unit's home.
fn is_home(parts: &Parts, unit: u32, spot: Spot) -> bool
    requires { unit < length parts.now.directory.current }
    ensures home { IsTrue result
        → IsHomeSpot (tables_of parts.now) unit spot.place spot.sector }
    ensures other { result ≡ false
        → ¬ IsHomeSpot (tables_of parts.now) unit spot.place spot.sector }
{
    match parts.directory.next_log(unit) {
        Some(sector) => parts.directory.current(unit) == spot.place && sector == spot.sector,
        None => false,
    }
}

/// Counts a spot as written that was one for a log sector of the unit, which names these pages.
fn use_spot(parts: &mut Parts, unit: u32, spot: Spot, mask: u16, places: u32)
    requires { MayUseSpot places (tables_of parts.old) unit spot.place spot.sector }
    ensures { IsAfterLog (tables_of parts.old) (tables_of parts.new) unit spot.place spot.sector
        mask parts.old.counter }
{
    overflow_laws();
    parts.overflow.facts();
    if is_home(parts, unit, spot) {
        parts.directory.used_log(unit);
        parts.directory.set_mask(unit, spot.sector, mask);
    } else {
        parts.overflow.add(unit, spot, mask);
    }
}

/// Writes records to a spot for a log sector of their unit. It fails only where a write failed.
fn write_log<C: Chip>(
    chip: &mut C,
    parts: &mut Parts,
    unit: u32,
    at: Spot,
    payload: &Payload,
) -> Result<(), ChipFault>
    requires may { MayUseSpot (C.told chip.old).places (tables_of parts.old) unit at.place at.sector }
    requires left { parts.old.counter + 1 < 2 ^ 64 }
    requires version { payload.now.version ≡ VERSION }
    ensures tells { OnOk result (Charts (WritesLog (C.told chip.old).places unit at payload.now
        (tables_of parts.old) (tables_of parts.new)) (C.told chip.old) (C.told chip.new)) }
    ensures steps { WritesLogInSteps (C.told chip.old).places unit at payload.now
        (tables_of parts.old) (tables_of parts.new) (C.told chip.old) result (C.told chip.new) }
    ensures uses { UsesOneSector unit at.place (tables_of parts.old) (tables_of parts.new) result
        (C.told chip.old) (C.told chip.new) }
    ensures leaves { LeavesWritten 1 IsStopped (tables_of parts.old) (tables_of parts.new) result
        (C.told chip.old) (C.told chip.new) }
{
    parts.directory.facts();
    parts.overflow.facts();
    let places = chip.units();
    let mask = mask_of(payload);
    let generation = parts.directory.generation(unit);
    let head = Head::written(Head::LOG, unit, generation, parts.counter.draw());
    program_log(chip, at, &head, payload)?;
    use_spot(parts, unit, at, mask, places);
    Ok(())
}

/// Writes the records of a page that are in memory only to the chip, as one log sector of its unit,
/// and empties the list. They are in the version that is written. Where a log sector is clean at the
/// unit's home, that is one program, with no erase and no barrier. Where none is, a merge of the unit
/// or a new overflow place may come first, by the rules of `log_place`.
///
/// Whatever a power cut leaves at any moment stands for the map on which the story rested, and where
/// no write failed, it rests on that map at the end: nothing makes sure of the sector, which is for
/// the next barrier. Where it failed, the list is as it was; at most 14 numbers are drawn.
///
/// It fails as `log_place` does, also where more places are worn than are spare, or where a write
/// failed.
pub(crate) fn write_records<C: Chip>(
    chip: &mut C,
    parts: &mut Parts,
    unit: u32,
    payload: &mut Payload,
) -> Result<(), ChipFault>
    requires known { KnowsPlaces (C.told chip.old).places (tables_of parts.old) }
    requires unit { unit < length parts.old.directory.current }
    requires left { parts.old.counter + 14 < 2 ^ 64 }
    requires version { payload.old.version ≡ VERSION }

    // What the chip holds then, and what a power cut leaves.
    ensures tells { WritesOut (C.told chip.old).places unit payload.old
        (tables_of parts.old) (tables_of parts.new) (C.told chip.old) result (C.told chip.new) }
    ensures steps { WritesOutInSteps (C.told chip.old).places payload.old
        (tables_of parts.old) (tables_of parts.new) (C.told chip.old) result (C.told chip.new) }

    // Why it fails over what the chip holds: where the unit's pages show values and few log sectors
    // would be carried, only where a call of the chip failed. Else the unit is where it was, with
    // the bytes that it had.
    ensures fails { FailsByUnit (tables_of parts.old) unit (tables_of parts.new) result
        (C.told chip.old) (C.told chip.new) }

    // What is in memory, whatever the chip tells.
    ensures empties { EmptiesPayload result payload.old payload.new }
    ensures leaves { LeavesWritten 14 (WritingCause parts.new.directory (tables_of parts.old) unit)
        (tables_of parts.old) (tables_of parts.new) result (C.told chip.old) (C.told chip.new) }
    ensures costs { WritingCosts result (tables_of parts.old) (tables_of parts.new) unit
        (C.told chip.old) (C.told chip.new) }
{
    let at = log_place(chip, parts, unit)?;
    write_log(chip, parts, unit, at, payload)?;
    *payload = Payload::empty();
    Ok(())
}
