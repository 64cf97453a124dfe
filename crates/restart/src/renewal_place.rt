//! The status place, renewed in all tables.
ghost use Rattle.std.specs.Prelude.{◌≡◌, ◌<◌, ◌+◌, ◌^◌, length, slice_index, OnOk};
ghost use Rattle.number_set.specs.Flags.{flagged};
ghost use Rattle.selective_merge.specs.Throughout.{ChartsThroughout};
ghost use Rattle.txn_status.specs.Status.{FitStatusPlace};
ghost use Rattle.txn_status.specs.Switching.{ListsAt};
ghost use Rattle.unit_io.specs.Charts.{Charts};
ghost use Rattle.restart.specs.Renewed.{KeepsRenewed, MayMoveStatus, PlacesStatus, Renews, RenewsInSteps, WritesStatus};

use chip_trait::Chip;
use ipl_base::{ChipFault, Counter};
use number_set::Flags;
use place_taking::take_place;
use txn_status::Status;
use unit_directory::{Directory, directory_laws};
use unit_layout::StatusHeader;

/// What the header of a new status place says: how many units have a place, and how often this one was
/// erased.
fn header_of(directory: &Directory, place: u32) -> StatusHeader
    requires { place < length directory.now.in_use }
    ensures units { result.units ≡ length directory.now.current }
    ensures erases { result.erases ≡ slice_index directory.now.erases place }
{
    StatusHeader {
        units: directory.units(),
        erases: directory.erases(place),
    }
}

/// Makes the least worn free place the status place, the lowest on a tie, with exactly those
/// committed numbers that have a flag, no more than it is given: the place is taken, erased and written, and the
/// old status place is free then. A place that is found worn is retired, and the next one is taken. The
/// header says how often the place was erased, and lists exactly the places that are retired then, also
/// those of this call. It
/// fails only where a write failed or more places are worn than are spare, and the place that was tried
/// last is given back then.
///
/// Where of the numbers in live log sectors exactly the committed ones are kept, whatever a power
/// cut leaves at any moment stands for the map on which the story rested; and where too many places
/// are worn, the story rests on that map.
pub(crate) fn renew_place<C: Chip>(
    chip: &mut C,
    directory: &mut Directory,
    status: &mut Status,
    counter: &mut Counter,
    kept: &Flags,
) -> Result<(), ChipFault>
    requires may { MayMoveStatus (C.told chip.old).places directory.old status.old }
    requires fits { FitStatusPlace status.old.most (flagged kept.now status.old.numbers) }
    requires left { counter.old + 65 < 2 ^ 64 }

    // What the tables have, whatever the chip tells.
    ensures moves { PlacesStatus directory.old status.old counter.old
        (flagged kept.now status.old.numbers) result directory.new status.new counter.new }
    ensures tables { KeepsRenewed directory.old status.old counter.old result
        directory.new status.new counter.new (C.told chip.old) (C.told chip.new) }

    // What the chip holds then, and what a power cut leaves.
    ensures tells { ChartsThroughout
        (λ done. Renews (C.told chip.old).places directory.old status.old counter.old
        (flagged kept.now status.old.numbers) directory.new status.new counter.new) (λ c y. y ≡ c)
        result (C.told chip.old) (C.told chip.new) }
    // Whatever it held before, the new header lists exactly the places that are retired then.
    ensures lists { OnOk result (Charts
        (λ c y. ListsAt status.new.place directory.new.retired y)
        (C.told chip.old) (C.told chip.new)) }
    ensures steps { RenewsInSteps (C.told chip.old).places directory.old status.old counter.old
        (flagged kept.now status.old.numbers) directory.new status.new counter.new result
        (C.told chip.old) (C.told chip.new) }
    ensures writes { WritesStatus directory.old directory.new status.new result
        (C.told chip.old) (C.told chip.new) }
{
    directory_laws();
    status.facts();
    let old = status.place();
    let generation = counter.draw();
    let place = take_place(chip, directory)?;
    let header = header_of(directory, place);
    directory.facts();
    let retired = directory.retired();
    match status.switch(chip, counter, &header, retired, place, generation, kept) {
        Ok(()) => {
            directory.give_back(old);
            Ok(())
        }
        Err(fault) => {
            // Nothing on it counts, so that the tables are right again.
            directory.give_back(place);
            Err(fault)
        }
    }
}
