//! The renewal of the status place.
ghost use Rattle.std.specs.Prelude.{◌≡◌, ◌<◌, ◌+◌, ◌^◌, true, OnOk};
ghost use Rattle.std.specs.Bool.{OnTrue};
ghost use Rattle.selective_merge.specs.Known.{KnowsPlaces};
ghost use Rattle.selective_merge.specs.Moving.{tables_of};
ghost use Rattle.unit_io.specs.Costs.{Spends};
ghost use Rattle.unit_io.specs.Unread.{ReadsNothing};
ghost use Rattle.number_set.specs.Flags.{flagged};
ghost use Rattle.restart.specs.Leaving.{LeavesRenewed, RenewalFails, RenewalSpends, RenewsStatus};
ghost use Rattle.restart.specs.Passes.{KeepsAll, RenewsTold, KeepsInSteps};
ghost use Rattle.restart.specs.Renewed.{KeepsLogs};

use crate::numbers::KeptNumbers;
use crate::passing::find_numbers;
use crate::renewal_place::renew_place;
use chip_trait::Chip;
use ipl_base::ChipFault;
use selective_merge::{Parts, known_laws};

/// Writes a new status place as `renew` does, but without a pass where the numbers are found
/// already: then it reads nothing.
pub(crate) fn renew_with<C: Chip>(
    chip: &mut C,
    parts: &mut Parts,
    kept: &mut KeptNumbers,
    found: bool,
) -> Result<(), ChipFault>
    requires known { KnowsPlaces (C.told chip.old).places (tables_of parts.old) }
    requires left { parts.old.counter + 2 ^ 14 < 2 ^ 64 }
    requires exact { found ≡ true → KeepsAll (C.told chip.old).places (tables_of parts.old)
        (flagged kept.old parts.old.status.numbers) (C.told chip.old) }
    requires room { kept.old.room ≡ parts.old.status.most }
    ensures room { kept.new.room ≡ kept.old.room }
    ensures renews { RenewsStatus (tables_of parts.old) (tables_of parts.new) result
        (C.told chip.old) (C.told chip.new) }
    ensures unread { OnTrue found (Spends ReadsNothing (C.told chip.old) (C.told chip.new)) }
    ensures logs { OnOk result (found ≡ true
        → KeepsLogs (tables_of parts.old) (tables_of parts.new)) }
{
    find_numbers(chip, parts, kept, found)?;
    known_laws();
    parts.status.facts();
    renew_place(
        chip,
        &mut parts.directory,
        &mut parts.status,
        &mut parts.counter,
        kept.flags(),
    )
}

/// Writes a new status place with the committed numbers that live records still have, at most 3,840, and
/// so few that those of one commit have room in memory besides.
/// They are found unit by unit; a unit whose numbers don't fit any more is merged, and has no record
/// of a committed number then. One that can't be, for what the chip holds, keeps its numbers before all
/// others. What the list of numbers has then says nothing.
///
/// Whatever a power cut leaves at any moment stands for the map on which the story rested, and where
/// no write failed, it rests on that map. It fails where a read or a write failed, where more places
/// are worn than are spare, or where the units that can't be merged have too many numbers together; the
/// status place is the old one then.
/// Each place that was found worn is retired, and the new header lists exactly those that are.
pub fn renew<C: Chip>(
    chip: &mut C,
    parts: &mut Parts,
    kept: &mut KeptNumbers,
) -> Result<(), ChipFault>
    requires known { KnowsPlaces (C.told chip.old).places (tables_of parts.old) }
    requires left { parts.old.counter + 2 ^ 14 < 2 ^ 64 }
    requires room { kept.old.room ≡ parts.old.status.most }
    ensures room { kept.new.room ≡ kept.old.room }

    // What the chip holds then, and what a power cut leaves.
    ensures tells { RenewsTold (C.told chip.old).places (tables_of parts.old) (tables_of parts.new)
        (C.told chip.old) result (C.told chip.new) }
    ensures steps { KeepsInSteps (C.told chip.old).places (tables_of parts.old)
        (tables_of parts.new) (C.told chip.old) result (C.told chip.new) }

    // Why it fails over what the chip holds: it tells what is wrong with a unit that had to be
    // merged, which is where it was; and where the numbers of the units that can't be merged fit
    // together, only where a call of the chip failed.
    ensures fails { RenewalFails (C.told chip.old).places (tables_of parts.old)
        (tables_of parts.new) result (C.told chip.old) }

    // What the tables have, whatever the chip tells. Whatever the chip holds, what it adds is lawful after
    // any lawful events that leave clean what the tables count so; and where no write failed, what they
    // count so then is clean.
    ensures leaves { LeavesRenewed (tables_of parts.old) (tables_of parts.new) result
        (C.told chip.old) (C.told chip.new) }
    // At most one erase a unit, and one for the status place, and one more for each place that was found
    // worn and is retired; done, the place that the status has was erased. What is retired was so before, or
    // was found worn; done, the new header lists no other place.
    ensures spends { RenewalSpends (tables_of parts.old) (tables_of parts.new) result
        (C.told chip.old) (C.told chip.new) }
{
    renew_with(chip, parts, kept, false)
}
