//! The commit sectors and close marks of a place are read.
ghost use Rattle.std.specs.Prelude.{◌≡◌, ◌<◌, ◌≤◌, ◌+◌, ℕ, length, IfOk, IfErr, OnOk};
ghost use Rattle.ipl_base.specs.declared.limits.TheConstants.{COMMIT_NUMBERS, MOST_UNITS, STATUS_NUMBERS};
ghost use Rattle.ipl_format.specs.Sector.{Sector};
ghost use Rattle.ipl_meaning.specs.Chart.{chart_of};
ghost use Rattle.unit_io.specs.Reads.{OfContents};
ghost use Rattle.unit_io.specs.Spots.{IsOnChip};
ghost use Rattle.unit_io.specs.ReadsAt.{IsAt, ReadsAt, IsCauseAt};
ghost use Rattle.ipl_base.specs.First.{first_below};
ghost use Rattle.ipl_meaning.specs.Live.{sectors, noted_at, commit_at};
ghost use Rattle.ipl_meaning.specs.Faults.{TellsImageFault, noted_fault};
ghost use Rattle.ipl_format.specs.Whole.{IsWhole};
ghost use Rattle.ipl_meaning.specs.LaidOut.{numbers_of};
ghost use Rattle.number_set.specs.Numbers.{with_numbers};
ghost use Rattle.txn_status.specs.ReadingIn.{under, numbers_at, of_image, OnFull, GrowsBy, IsCommitSpot, IsStatusAt, IsHeadRead, LooksOnceAt};
ghost use Rattle.txn_status.specs.TakingIn.{TakesIn, TakesInPlace};

use crate::last_mark::LastMark;
use crate::noted::{StatusPlace, take_found};
use chip_trait::Chip;
use ipl_base::{ChipFault, SECTORS, Spot};
use number_set::NumberSet;
use sector_format::Head;
use unit_io::{read_head, read_noted};

/// The generation of the status header at a place. Where none stands there, sector 0 is malformed.
pub(crate) fn read_generation<C: Chip>(chip: &mut C, place: u32) -> Result<u64, ChipFault>
    requires { place < (C.told chip.old).places }
    ensures exact { OfContents (C.told chip.old) (λ x.
        (head : Sector) → IsStatusAt (chart_of x) place head → IsHeadRead head result) }
    ensures there { OnOk result (OfContents (C.told chip.old) (λ x.
        (head : Sector) × IsStatusAt (chart_of x) place head)) }
    ensures reads { ReadsAt (IsAt place 0) (C.told chip.old) (C.told chip.new) }
    ensures cause { IfErr result (λ e.
        IsCauseAt (IsAt place 0) e (C.told chip.old) (C.told chip.new)) }
{
    let mut bytes = [0; 512];
    let found = read_head(chip, place, &mut bytes)?;
    match found {
        Some((head, _)) if head.kind == Head::STATUS_HEADER => Ok(head.generation),
        _ => Err(ChipFault::Malformed { place, sector: 0 }),
    }
}

/// Reads one sector of a place, 1 to 255, takes in what is found there, and answers the greatest number
/// in it, 0 for none; nothing where its numbers have no room.
fn read_spot<C: Chip>(
    chip: &mut C,
    from: StatusPlace,
    sector: u32,
    numbers: &mut NumberSet,
    mark: &mut LastMark,
) -> Result<Option<u64>, ChipFault>
    requires spot { IsOnChip (C.told chip.old) from.place sector }
    requires first { 1 ≤ sector }
    requires units { from.units ≤ MOST_UNITS }
    ensures takes { IfOk (of_image result) (λ n. OfContents (C.told chip.old) (λ x.
        TakesIn (noted_at (chart_of x) (under from.place from.generation) sector)
        n numbers.old.list numbers.new.list mark.old mark.new)) }
    ensures many { OnFull result (OfContents (C.told chip.old) (λ x.
        numbers.old.most < length (with_numbers (numbers_of
        (commit_at (chart_of x) (under from.place from.generation) sector)) numbers.old.list))) }
    ensures near { OnFull result (numbers.old.most < length numbers.old.list + COMMIT_NUMBERS) }
    ensures grows { GrowsBy 60 numbers.old numbers.new }
    ensures fault { OfContents (C.told chip.old) (λ x. TellsImageFault
        (noted_fault from.units (chart_of x) (under from.place from.generation) sector)
        (of_image result)) }
    ensures whole { OnOk (of_image result) (OfContents (C.told chip.old)
        (λ x. IsWhole (x from.place sector))) }
    ensures looks { LooksOnceAt (IsAt from.place sector) result
        (C.told chip.old) (C.told chip.new) }
{
    let spot = Spot {
        place: from.place,
        sector,
    };
    let mut bytes = [0; 512];
    let found = read_noted(chip, spot, &mut bytes)?;
    let noted = take_found(from, sector, found, &bytes, numbers, mark)?;
    Ok(noted)
}

/// Makes the numbers of the commit sectors of this place and generation these numbers, and the
/// close mark that counts there this mark, and answers the greatest number found, 0 for none. Answers
/// nothing as soon as there is no room for all numbers. After that, and after a fault, they are any
/// numbers, and it is any mark.
pub(crate) fn read_commits<C: Chip>(
    chip: &mut C,
    from: StatusPlace,
    numbers: &mut NumberSet,
    mark: &mut LastMark,
) -> Result<Option<u64>, ChipFault>
    requires place { from.place < (C.told chip.old).places }
    requires units { from.units ≤ MOST_UNITS }
    ensures takes { IfOk (of_image result) (λ n. OfContents (C.told chip.old) (λ x.
        TakesInPlace (chart_of x) from.place from.generation n numbers.new.list mark.new)) }
    ensures few { length numbers.new.list ≤ STATUS_NUMBERS }
    ensures most { numbers.new.most ≡ numbers.old.most }

    // There is no room exactly for more numbers than that, and for all of a place there always is.
    ensures many { OnFull result (OfContents (C.told chip.old) (λ x.
        numbers.old.most < length (numbers_at (chart_of x) (under from.place from.generation)))) }
    ensures never { OnFull result (numbers.old.most < STATUS_NUMBERS) }

    ensures fault { OfContents (C.told chip.old) (λ x. TellsImageFault
        (first_below (noted_fault from.units (chart_of x) (under from.place from.generation)) sectors)
        (of_image result)) }
    ensures whole { OnOk (of_image result) (OfContents (C.told chip.old) (λ x.
        (s : ℕ) → 1 ≤ s → s < 256 → IsWhole (x from.place s))) }
    ensures looks { LooksOnceAt (IsCommitSpot from.place) result (C.told chip.old) (C.told chip.new) }
{
    numbers.clear();
    *mark = LastMark::none();
    let mut greatest: u64 = 0;
    for sector in 1..SECTORS {
        match read_spot(chip, from, sector, numbers, mark) {
            Ok(Some(noted)) => greatest = greatest.max(noted),
            Ok(None) => return Ok(None),
            Err(fault) => return Err(fault),
        }
    }
    Ok(Some(greatest))
}
