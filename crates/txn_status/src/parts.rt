//! Numbers and a header, put on a new status place.
ghost use Rattle.std.specs.Prelude.{◌≡◌, ◌≤◌, ◌<◌, ◌+◌, ◌*◌, ◌^◌, length, OnOk};
ghost use Rattle.ipl_base.specs.declared.limits.TheConstants.{KEPT_NUMBERS, VERSION};
ghost use Rattle.ipl_format.specs.Header.{AreRetired};
ghost use Rattle.unit_io.specs.Costs.{ProgramsAt};
ghost use Rattle.unit_io.specs.Charts.{Charts};
ghost use Rattle.unit_io.specs.Spots.{IsSpot};
ghost use Rattle.number_set.specs.Flags.{flagged};
ghost use Rattle.txn_status.specs.Commits.{part_of};
ghost use Rattle.txn_status.specs.Status.{parts_of};
ghost use Rattle.txn_status.specs.Switching.{HasParts, IsPartSpot};
ghost use Rattle.unit_io.specs.Writing.{OnlyPrograms};
ghost use Rattle.txn_status.specs.Writing.{LeadsParts, LeadsHeader, IsHeaded};

use crate::commits::CommitSector;
use arrayvec::ArrayVec;
use chip_trait::Chip;
use ipl_base::{COMMIT_NUMBERS, ChipFault, Counter, Spot};
use number_set::{Flags, NumberSet};
use sector_format::Head;
use unit_io::{prepare_commit, seal};
use unit_layout::{StatusHeader, write_status_header};

/// How many commit sectors the numbers with a flag fill, at most 3,840 of them.
pub(crate) fn part_count(numbers: &NumberSet, kept: &Flags) -> u32
    requires few { length (flagged kept.now numbers.now.list) ≤ KEPT_NUMBERS }
    ensures parts { result ≡ parts_of (flagged kept.now numbers.now.list) }
    ensures few { result ≤ 64 }
{
    numbers.count(kept).div_ceil(COMMIT_NUMBERS) as u32
}

/// The numbers of the i-th of the commit sectors that those with a flag fill.
fn part_of(numbers: &NumberSet, kept: &Flags, i: u32) -> ArrayVec<u64, COMMIT_NUMBERS>
    requires few { i < 64 }
    ensures { result.items ≡ part_of (flagged kept.now numbers.now.list) i }
{
    numbers.part(kept, COMMIT_NUMBERS * i as usize)
}

/// Programs the numbers with a flag, at most 3,840, into a place without a header, 60 to a commit
/// sector, from sector 1 on, with a serial drawn for each.
pub(crate) fn write_parts<C: Chip>(
    chip: &mut C,
    counter: &mut Counter,
    place: u32,
    generation: u64,
    numbers: &NumberSet,
    kept: &Flags,
) -> Result<(), ChipFault>
    requires place { place < (C.told chip.old).places }
    requires few { length (flagged kept.now numbers.now.list) ≤ KEPT_NUMBERS }
    requires left { counter.old + 64 < 2 ^ 64 }
    ensures keeps { LeadsParts (C.told chip.old).places place generation counter.old
        (flagged kept.now numbers.now.list) (C.told chip.old) result (C.told chip.new) }
    ensures tells { OnOk result (Charts
        (HasParts place generation counter.old (flagged kept.now numbers.now.list)
        (parts_of (flagged kept.now numbers.now.list)))
        (C.told chip.old) (C.told chip.new)) }
    ensures drawn { OnOk result (counter.new ≡ counter.old + parts_of (flagged kept.now numbers.now.list)) }
    ensures draws { (counter.old ≤ counter.new) × (counter.new ≤ counter.old + 64) }
    ensures writes { OnlyPrograms (ProgramsAt place 64 0 6) place
        (IsPartSpot (parts_of (flagged kept.now numbers.now.list))) result
        (C.told chip.old) (C.told chip.new) }
{
    let count = part_count(numbers, kept);
    for i in 0..count {
        let serial = counter.draw();
        let own = part_of(numbers, kept, i);
        let part = CommitSector::of(generation, serial, own.as_slice());
        let spot = Spot {
            place,
            sector: 1 + i,
        };
        prepare_commit(chip, spot, &part.noted())?;
    }
    Ok(())
}

/// Puts a status header on a place, once all else is made sure of, and makes sure of it. It lists these
/// places, at most 64, as retired; that such a chip may have retired them is a condition.
pub(crate) fn seal_status<C: Chip>(
    chip: &mut C,
    place: u32,
    generation: u64,
    header: &StatusHeader,
    retired: &[u32],
) -> Result<(), ChipFault>
    requires place { place < (C.told chip.old).places }
    requires listed { AreRetired VERSION (C.told chip.old).places header.now.units retired.now }
    ensures keeps { LeadsHeader (C.told chip.old).places place header.now.units header.now.erases
        retired.now generation (C.told chip.old) result (C.told chip.new) }
    ensures tells { OnOk result (Charts
        (IsHeaded (C.told chip.old).places place header.now.units header.now.erases retired.now
        generation)
        (C.told chip.old) (C.told chip.new)) }
    ensures writes { OnlyPrograms (ProgramsAt place 1 2 2) place (IsSpot 0) result
        (C.told chip.old) (C.told chip.new) }
{
    let mut payload = [0; 265];
    let used = write_status_header(header, retired, &mut payload);
    let head = Head::written(Head::STATUS_HEADER, 0, generation, generation);
    seal(chip, place, &head, &payload[..used])
}
