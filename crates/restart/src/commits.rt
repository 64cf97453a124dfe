//! The commit sectors and close marks of the status place are read.
ghost use Rattle.std.specs.Prelude.{◌≡◌, ◌<◌, ◌≤◌, ℕ, Some, IfOk, OnOk, false};
ghost use Rattle.ipl_base.specs.declared.limits.TheConstants.{MOST_UNITS};
ghost use Rattle.ipl_meaning.specs.Chart.{chart_of};
ghost use Rattle.unit_io.specs.Reads.{OfContents};
ghost use Rattle.ipl_base.specs.First.{first_below};
ghost use Rattle.ipl_meaning.specs.Chosen.{units_told};
ghost use Rattle.ipl_meaning.specs.Live.{sectors};
ghost use Rattle.ipl_meaning.specs.Faults.{TellsImageFault, noted_fault, greatest_of_notes};
ghost use Rattle.ipl_format.specs.Whole.{IsWhole};
ghost use Rattle.txn_status.specs.ReadingIn.{numbers_at, status_in, IsCommitSpot};
ghost use Rattle.txn_status.specs.Marks.{marks_in};
ghost use Rattle.restart.specs.Looks.{LooksOnce, HasCauseIn};

use crate::kept::Winner;
use chip_trait::Chip;
use ipl_base::{Geometry, ImageFault};
use txn_status::{LastMark, Status};

/// Takes in the commit sectors and close marks of the status place that has this header, and answers
/// the greatest number found, at least this. Where the numbers have no room in memory, it fails so.
pub(crate) fn read_commits<C: Chip>(
    chip: &mut C,
    geometry: Geometry,
    winner: &Winner,
    status: &mut Status,
    mark: &mut LastMark,
    least: u64,
) -> Result<u64, ImageFault>
    requires place { winner.now.place < (C.told chip.old).places }
    requires units { units_told geometry.places (Some winner.now) ≤ MOST_UNITS }
    ensures status { OnOk result (OfContents (C.told chip.old) (λ x.
        status.new ≡ status_in status.old.most (chart_of x) winner.now.place winner.now.head.generation)) }
    ensures most { status.new.most ≡ status.old.most }
    ensures marks { OnOk result (OfContents (C.told chip.old) (λ x.
        mark.new ≡ marks_in (chart_of x) winner.now.place winner.now.head.generation)) }
    ensures placed { OnOk result (status.new.place ≡ winner.now.place) }
    ensures unclean { OnOk result (status.new.first ≡ 256) }
    ensures number { IfOk result (λ n. OfContents (C.told chip.old) (λ x.
        n ≡ greatest_of_notes least (chart_of x) (Some winner.now) sectors)) }
    ensures fault { OfContents (C.told chip.old) (λ x.
        TellsImageFault (first_below (noted_fault (units_told geometry.places (Some winner.now))
        (chart_of x) (Some winner.now)) sectors) result) }
    ensures whole { OnOk result (OfContents (C.told chip.old) (λ x.
        (s : ℕ) → 1 ≤ s → s < 256 → IsWhole (x winner.now.place s))) }
    ensures looks { LooksOnce (IsCommitSpot winner.now.place)
        (HasCauseIn status.old.most (λ c. numbers_at c (Some winner.now)) false) result
        (C.told chip.old) (C.told chip.new) }
{
    let units = winner.units(geometry);
    let generation = winner.header().generation();
    let found = status.read_under(chip, winner.place(), generation, units, mark)?;
    match found {
        Some(greatest) => Ok(least.max(greatest)),
        None => Err(ImageFault::TooManyNumbers),
    }
}
