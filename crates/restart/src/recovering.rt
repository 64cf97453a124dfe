//! The opening of a chip.
ghost use Rattle.std.specs.Prelude.{◌≡◌, [], length};
ghost use Rattle.selective_merge.specs.Moving.{tables_of};
ghost use Rattle.restart.specs.Recovers.{LeavesOpened, OpeningFails, OpeningSpends, RecoversInSteps, RecoversTold};

use crate::numbers::KeptNumbers;
use crate::recovery::{Scratch, read_tables};
use crate::renewing::renew_with;
use crate::securing::secure_marks;
use chip_trait::Chip;
use ipl_base::ImageFault;
use selective_merge::Parts;

/// Opens a chip, for whose number of places the scratch memory and the tables were made: reads all
/// that counts into the tables, and writes a new status place with the committed numbers that live
/// records still have. No session is open. The tables then are of as many units as the chip keeps; of
/// the places that aren't used those are retired that the status header lists, and those that were
/// found worn.
///
/// Where marks count, the log sectors that a close mark says to be clean are known clean then, of units
/// whose log is whole: all before the first erased one check, and all behind it are erased. Before
/// anything is written one barrier is asked for them, and nothing is written to them before the new
/// status place, in which no mark stands.
///
/// The numbers are found while the log sectors are read. Only where they are more than a new status place
/// is given, at most 3,840, the logs are read again, unit by unit, since a unit whose numbers don't fit is
/// merged.
///
/// Whatever a power cut leaves at any moment stands for the map on which the story rested. It fails
/// with the first fault of the chip, which was only read then; or where it has none, with that of a
/// page of a unit that had to be merged; or where a call of the chip failed, or more places are worn
/// than are spare; or before it writes, with `TooManyNumbers`, where more numbers are committed in the
/// status place than have room. Where no write failed, the story rests on the map still.
pub fn recover<C: Chip>(
    chip: &mut C,
    scratch: &mut Scratch,
    parts: &mut Parts,
    kept: &mut KeptNumbers,
    marks: bool,
) -> Result<(), ImageFault>
    requires scratch { scratch.old ≡ (C.told chip.old).places }
    requires directory { length parts.old.directory.in_use ≡ (C.told chip.old).places }
    requires overflow { parts.old.overflow.places ≡ (C.told chip.old).places }
    requires active { parts.old.active ≡ [] }
    requires room { kept.old.room ≡ parts.old.status.most }

    // What the chip holds then, and what a power cut leaves.
    ensures tells { RecoversTold (C.told chip.old).places (C.told chip.old) result
        (tables_of parts.new) (C.told chip.new) }
    ensures steps { RecoversInSteps marks (C.told chip.old).places (C.told chip.old) result
        (tables_of parts.new) (C.told chip.new) }

    // Why it fails over what the chip holds: where that has no fault and its pages say a map, only
    // where a call of the chip failed or the committed numbers have no room; and then it was only read.
    // What it read is bytes, also where it fails since the numbers are used up.
    ensures fails { OpeningFails parts.old.status.most (C.told chip.old).places result (C.told chip.old) (C.told chip.new) }

    // What the tables have, whatever the chip tells. Whatever the chip holds, what it adds is lawful after
    // any lawful events that leave clean what is marked; and done, what the tables count as clean is clean.
    // Where marks don't count, nothing has to be clean before; where they do, something is known of each
    // unit that is marked and whose log is whole, and all that is marked of it counts where the numbers fit.
    ensures leaves { LeavesOpened marks (tables_of parts.new) result (C.told chip.old) (C.told chip.new) }
    ensures sized { (scratch.new ≡ scratch.old)
        × (length parts.new.directory.in_use ≡ (C.told chip.old).places)
        × (parts.new.overflow.places ≡ (C.told chip.old).places) }
    ensures room { (parts.new.status.most ≡ parts.old.status.most)
        × (kept.new.room ≡ kept.old.room) }
    // At most one erase a unit, and one for the status place, and one more for each place that was found
    // worn and is retired; at most three barriers for each of these, and one for marks; the others that
    // are retired are those that the status header lists and that weren't used; and the tables have as
    // many units as that says. Where the committed numbers that live records have fit a new status place, it
    // reads each sector at most once, from the first header to the seal of the status place. Done, the
    // status place is a new one, which was erased.
    ensures spends { OpeningSpends marks (tables_of parts.new) result (C.told chip.old) (C.told chip.new) }
{
    let found = read_tables(chip, scratch, parts, kept, marks)?;
    secure_marks(chip, &parts.directory)?;
    renew_with(chip, parts, kept, found)?;
    // No mark stands in the new status place.
    parts.directory.end_marks();
    Ok(())
}
