//! The numbers of sessions that are committed.
ghost use Rattle.std.specs.Prelude.{◌<◌, ◌≤◌, ◌+◌, ◌^◌, length, OnOk};
ghost use Rattle.ipl_base.specs.declared.limits.TheConstants.{SESSIONS};
ghost use Rattle.unit_io.specs.Charts.{Charts};
ghost use Rattle.txn_status.specs.Adding.{KeepsFirstAt};
ghost use Rattle.txn_status.specs.Status.{room_of};
ghost use Rattle.store_laws.specs.Numbers.{AddsNumbers, AddsNumbersInSteps};
ghost use Rattle.ipl_store.specs.Adding.{AddsOrStays, WritesCommit};

use chip_trait::Chip;
use ipl_base::{ChipFault, Counter};
use txn_status::Status;
use unit_io::barrier;

/// Commits the numbers (1 to 32) of sessions whose records are all in log sectors: a barrier, one
/// commit sector with the numbers, and a barrier. That there is room, and a number left to draw,
/// are conditions.
///
/// A power cut leaves the map before or the one with the records of all the numbers; done, the chip
/// stands for that one. It fails only where a write failed, and the status is as it was then.
pub(crate) fn add_numbers<C: Chip>(
    chip: &mut C,
    status: &mut Status,
    counter: &mut Counter,
    tids: &[u64],
) -> Result<(), ChipFault>
    requires place { status.old.place < (C.told chip.old).places }
    requires room { 0 < room_of status.old }
    requires some { 1 ≤ length tids.now }
    requires few { length tids.now ≤ SESSIONS }
    requires left { counter.old + 1 < 2 ^ 64 }
    ensures added { AddsOrStays tids.now result status.old status.new counter.old counter.new }

    // What the chip holds then, and what a power cut leaves.
    ensures adds { OnOk result (Charts
        (AddsNumbers (C.told chip.old).places status.old counter.old tids.now)
        (C.told chip.old) (C.told chip.new)) }
    // Whatever it held before, the header of the status place is as it was.
    ensures header { OnOk result (Charts (KeepsFirstAt status.old.place)
        (C.told chip.old) (C.told chip.new)) }
    ensures steps { AddsNumbersInSteps (C.told chip.old).places status.old counter.old tids.now
        result (C.told chip.old) (C.told chip.new) }
    // Whatever the chip holds, only the first sector that is known clean is programmed.
    ensures writes { WritesCommit status.old.place status.old.first result
        (C.told chip.old) (C.told chip.new) }
{
    // The records have to last before the numbers count.
    barrier(chip)?;
    status.add(chip, counter, tids)
}
