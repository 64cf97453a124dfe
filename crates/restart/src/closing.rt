//! The mark is written.
ghost use Rattle.std.specs.Prelude.{◌≡◌, ◌<◌, ◌+◌, ◌^◌, OnOk};
ghost use Rattle.unit_io.specs.Accounts.{Accounts};
ghost use Rattle.unit_io.specs.Costs.{ProgramsAt, Spends};
ghost use Rattle.unit_io.specs.Leads.{IsStopped};
ghost use Rattle.unit_io.specs.Steps.{Tidies};
ghost use Rattle.txn_status.specs.Status.{AdvancesTo, after_mark, room_of};
ghost use Rattle.selective_merge.specs.Known.{KnowsPlaces};
ghost use Rattle.selective_merge.specs.Moving.{tables_of};
ghost use Rattle.restart.specs.Closing.{ClosesClosed, ClosesInSteps, EndsWithMark, MarksOrStays};

use crate::mark_payload::known_units;
use chip_trait::Chip;
use ipl_base::ChipFault;
use selective_merge::Parts;
use unit_io::barrier;

/// Writes the mark where nothing is open, and makes sure of it.
fn write_mark<C: Chip>(chip: &mut C, parts: &mut Parts) -> Result<(), ChipFault>
    requires known { KnowsPlaces (C.told chip.old).places (tables_of parts.old) }
    requires room { 0 < room_of parts.old.status }
    requires left { parts.old.counter + 1 < 2 ^ 64 }
    ensures steps { ClosesClosed (C.told chip.old).places (tables_of parts.old) (tables_of parts.new)
        (C.told chip.old) result (C.told chip.new) }
    ensures marked { AdvancesTo (after_mark parts.old.status) result parts.old.status parts.new.status
        parts.old.counter parts.new.counter }
    ensures rest { parts.new ≡ record parts.old { status = parts.new.status; counter = parts.old.counter + 1 } }
    ensures tidy { Tidies (tables_of parts.old) result (tables_of parts.new) (C.told chip.old) (C.told chip.new) }
    ensures ends { OnOk result (Spends EndsWithMark (C.told chip.old) (C.told chip.new)) }
    ensures costs { Spends (ProgramsAt parts.old.status.place 1 1 7) (C.told chip.old) (C.told chip.new) }
    ensures accounts { Accounts IsStopped result (C.told chip.old) (C.told chip.new) }
{
    parts.status.facts();
    let mut payload = [0; 132];
    let len = known_units(&parts.directory, &mut payload);
    parts.status.mark(chip, &mut parts.counter, &payload[..len])
}

/// Writes down of which units the log sectors are known, so that the next opening counts those that are still erased as clean:
/// a barrier, one mark in the status place, and a barrier. That a sector of that place is known clean, and a number left to draw,
/// are conditions. The tables are of no more use then, since a mark stands on the chip.
///
/// It fails only where a write failed.
pub fn close<C: Chip>(chip: &mut C, parts: &mut Parts) -> Result<(), ChipFault>
    requires known { KnowsPlaces (C.told chip.old).places (tables_of parts.old) }
    requires room { 0 < room_of parts.old.status }
    requires left { parts.old.counter + 1 < 2 ^ 64 }
    // What a power cut leaves, and what is marked then.
    ensures steps { ClosesInSteps (C.told chip.old).places (tables_of parts.old) (tables_of parts.new)
        (C.told chip.old) result (C.told chip.new) }
    // What the tables have, whatever the chip tells.
    ensures leaves { MarksOrStays result parts.old parts.new }
    // Whatever the chip holds, it is lawful; and the last two events are the program of a mark and a barrier.
    ensures tidy { Tidies (tables_of parts.old) result (tables_of parts.new) (C.told chip.old) (C.told chip.new) }
    ensures ends { OnOk result (Spends EndsWithMark (C.told chip.old) (C.told chip.new)) }
    ensures costs { Spends (ProgramsAt parts.old.status.place 1 2 7) (C.told chip.old) (C.told chip.new) }
    ensures accounts { Accounts IsStopped result (C.told chip.old) (C.told chip.new) }
{
    // What was written must last, and what was erased be sure to be clean, before a mark says so.
    barrier(chip)?;
    write_mark(chip, parts)
}
