//! What is read of a unit before it is merged.
ghost use Rattle.std.specs.Prelude.{◌≡◌, ◌<◌, length, slice_index, OnOk};
ghost use Rattle.overflow.specs.Lists.{spots_in};
ghost use Rattle.unit_io.specs.Costs.{Spends};
ghost use Rattle.unit_log.specs.Often.{ReadsListed};
ghost use Rattle.unit_log.specs.Looks.{IsLogRead, LooksAt};
ghost use Rattle.selective_merge.specs.Known.{Suits};
ghost use Rattle.unit_log.specs.Kept.{records_kept};
ghost use Rattle.selective_merge.specs.Homes.{IsHomeBy, LearnsHome};
ghost use Rattle.selective_merge.specs.Moving.{tables_of};
ghost use Rattle.selective_merge.specs.Often.{log_of};

use crate::Parts;
use crate::home::HomeHeader;
use chip_trait::Chip;
use ipl_base::ChipFault;
use sector_format::Head;
use unit_log::{UnitHead, read_live};

/// Where a unit stands whose header says this.
fn home_at(place: u32, unit: u32, head: UnitHead) -> HomeHeader
    ensures place { result.place ≡ place }
    ensures version { result.head.version ≡ head.version }
    ensures unit { result.head.unit ≡ unit }
    ensures generation { result.head.generation ≡ head.generation }
    ensures pieces { result.pieces ≡ head.pieces }
{
    let pieces = head.pieces;
    HomeHeader {
        place,
        head: Head {
            kind: Head::DATA_HEADER,
            version: head.version,
            unit,
            generation: head.generation,
            serial: head.generation,
        },
        pieces,
    }
}

/// Reads the header of a unit, and the records of its live log sectors, in rising order of their
/// serials, into the scratch memory.
///
/// Where the tables mirror what the chip holds, it fails only where a read failed.
pub(crate) fn learn<C: Chip>(chip: &mut C, parts: &mut Parts, unit: u32) -> Result<(), ChipFault>
    requires suits { Suits (C.told chip.old).places (tables_of parts.old) }
    requires unit { unit < length parts.old.directory.current }
    ensures learns { LearnsHome parts.old.directory parts.old.overflow unit (C.told chip.old)
        result parts.new.scratch.home (records_kept parts.new.scratch.sectors) }
    ensures stands { OnOk result (IsHomeBy (tables_of parts.old) unit parts.new.scratch.home) }
    ensures same { tables_of parts.new ≡ tables_of parts.old }
    ensures looks { LooksAt (IsLogRead (slice_index parts.old.directory.current unit)
        (spots_in parts.old.overflow unit)) result (C.told chip.old) (C.told chip.new) }
    ensures often { Spends (ReadsListed (log_of (tables_of parts.old) unit)) (C.told chip.old) (C.told chip.new) }
{
    let place = parts.directory.current(unit);
    let scratch = &mut parts.scratch;
    let head = read_live(
        chip,
        &parts.directory,
        &parts.overflow,
        unit,
        &mut scratch.sectors,
    )?;
    scratch.home = home_at(place, unit, head);
    Ok(())
}
