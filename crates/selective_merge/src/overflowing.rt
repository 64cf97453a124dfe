//! A new overflow place.
ghost use Rattle.std.specs.Prelude.{◌≡◌, ◌<◌, ◌+◌, ◌^◌, length, is_ok, IfOk, OnOk};
ghost use Rattle.unit_io.specs.Accounts.{Accounts};
ghost use Rattle.unit_io.specs.Charts.{Charts, Spares};
ghost use Rattle.unit_io.specs.Costs.{ProgramsAt, Spends};
ghost use Rattle.unit_io.specs.Leads.{IsStopped};
ghost use Rattle.unit_io.specs.Unread.{ReadsNothing};
ghost use Rattle.unit_io.specs.Spots.{Programs, IsSpot};
ghost use Rattle.place_taking.specs.Spending.{ErasesFree, is_worn_out};
ghost use Rattle.place_taking.specs.Takes.{IsNotTaken};
ghost use Rattle.selective_merge.specs.Known.{KnowsPlaces};
ghost use Rattle.selective_merge.specs.Leaving.{LeavesTables};
ghost use Rattle.selective_merge.specs.Merging.{StaysMirrored};
ghost use Rattle.selective_merge.specs.Moving.{tables_of};
ghost use Rattle.selective_merge.specs.Placing.{HasOverflowHeader, OpensPlace, OpensOverflow, OpensInSteps};
ghost use Rattle.selective_merge.specs.Spotting.{OpensNext};
ghost use Rattle.selective_merge.specs.Throughout.{ChartsThroughout};

use crate::Parts;
use crate::laws::known_laws;
use chip_trait::Chip;
use ipl_base::{ChipFault, Spot};
use place_taking::take_place;
use sector_format::Head;
use unit_io::seal;
use unit_layout::write_overflow_header;

/// Puts the header of an overflow place on a clean place, for so many units; it says how often the
/// place was erased.
fn write_overflow<C: Chip>(
    chip: &mut C,
    place: u32,
    generation: u64,
    units: u32,
    erases: u32,
) -> Result<(), ChipFault>
    requires { place < (C.told chip.old).places }
    ensures opens { OpensPlace (C.told chip.old).places place units erases generation
        (C.told chip.old) result (C.told chip.new) }
    ensures tells { OnOk result (Charts (HasOverflowHeader place units erases generation)
        (C.told chip.old) (C.told chip.new)) }
    ensures spares { OnOk result (Spares place (C.told chip.old) (C.told chip.new)) }
    ensures costs { Spends (ProgramsAt place 1 2 3) (C.told chip.old) (C.told chip.new) }
    ensures tidy { Spends (Programs place (IsSpot 0) (is_ok result)) (C.told chip.old) (C.told chip.new) }
    ensures unread { Spends ReadsNothing (C.told chip.old) (C.told chip.new) }
    ensures accounts { Accounts IsStopped result (C.told chip.old) (C.told chip.new) }
{
    let mut payload = [0; 8];
    write_overflow_header(units, erases, &mut payload);
    let head = Head::written(Head::OVERFLOW_HEADER, 0, generation, generation);
    seal(chip, place, &head, &payload)
}

/// Takes a free place as an overflow place, and answers its first sector. That fewer than two are in
/// use is a condition.
///
/// Whatever a power cut leaves at any moment stands for the map on which the story rested. It fails
/// only where a write failed, and the place is given back then, with one erase more where it was erased;
/// or where more places are worn than are spare: the story rests on that map still.
pub(crate) fn open_overflow<C: Chip>(chip: &mut C, parts: &mut Parts) -> Result<Spot, ChipFault>
    requires known { KnowsPlaces (C.told chip.old).places (tables_of parts.old) }
    requires two { length parts.old.overflow.in_use < 2 }
    requires left { parts.old.counter + 1 < 2 ^ 64 }

    // What the chip holds then, and what a power cut leaves.
    ensures tells { ChartsThroughout
        (λ spot. OpensOverflow (C.told chip.old).places (tables_of parts.old) (tables_of parts.new)
        spot.place)
        (StaysMirrored (C.told chip.old).places (tables_of parts.old) (tables_of parts.new))
        result (C.told chip.old) (C.told chip.new) }
    ensures steps { OpensInSteps (C.told chip.old).places
        (tables_of parts.old) (tables_of parts.new) (C.told chip.old) result (C.told chip.new) }

    // What the tables have, whatever the chip tells.
    ensures opened { IfOk result (λ spot. (spot.sector ≡ 1)
        × OpensNext (tables_of parts.old) (tables_of parts.new) spot.place (parts.old.counter + 1)) }
    ensures leaves { LeavesTables 1 (IsNotTaken parts.new.directory) (tables_of parts.old)
        (tables_of parts.new) result (C.told chip.old) (C.told chip.new) }
    ensures costs { Spends (ErasesFree parts.old.directory parts.new.directory 3 (is_worn_out result))
        (C.told chip.old) (C.told chip.new) }
    ensures unread { Spends ReadsNothing (C.told chip.old) (C.told chip.new) }
{
    known_laws();
    let units = parts.directory.units();
    let generation = parts.counter.draw();
    let place = take_place(chip, &mut parts.directory)?;
    let erases = parts.directory.erases(place);
    match write_overflow(chip, place, generation, units, erases) {
        Ok(()) => {
            parts.overflow.add_place(place);
            Ok(Spot { place, sector: 1 })
        }
        Err(fault) => {
            parts.directory.give_back(place);
            Err(fault)
        }
    }
}
