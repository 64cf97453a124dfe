//! Clean sectors that the tables know, and how many sectors a merge would carry.
ghost use Rattle.std.specs.Prelude.{◌≡◌, ◌<◌, ◌≤◌, ◌+◌, min, ℕ, slice_index, length, IfOk, IfSome, IfNone, MatchResult};
ghost use Rattle.ipl_base.specs.declared.fault.ChipFault.TheVariants.{ReadFault};
ghost use Rattle.ipl_meaning.specs.Chart.{chart_of};
ghost use Rattle.ipl_meaning.specs.Last.{carried_count};
ghost use Rattle.ipl_meaning.specs.Layout.{Layout};
ghost use Rattle.ipl_meaning.specs.Mirrors.{Mirrors};
ghost use Rattle.overflow.specs.Lists.{spots_in};
ghost use Rattle.unit_io.specs.Reads.{OfContents};
ghost use Rattle.unit_log.specs.Looks.{IsLogRead, LooksAt};
ghost use Rattle.unit_log.specs.Kept.{records_kept};
ghost use Rattle.selective_merge.specs.Known.{Suits};
ghost use Rattle.selective_merge.specs.Packs.{among, packs_of};
ghost use Rattle.selective_merge.specs.Moving.{tables_of};
ghost use Rattle.selective_merge.specs.Spotting.{IsHomeSpot, IsChoice};

use crate::carry::pack_carried;
use crate::learning::learn;
use crate::log::Log;
use crate::{Active, MergeScratch, Parts};
use chip_trait::Chip;
use ipl_base::{ChipFault, OVERFLOW_SECTORS, Spot};

/// The first log sector at the unit's home that is known clean and may be written, if there is one.
pub(crate) fn home_spot(parts: &Parts, unit: u32) -> Option<Spot>
    requires { unit < length parts.now.directory.current }
    ensures some { IfSome result (λ spot.
        IsHomeSpot (tables_of parts.now) unit spot.place spot.sector) }
    ensures none { IfNone result (15 ≤ slice_index parts.now.directory.written unit) }
{
    let sector = parts.directory.next_log(unit)?;
    let place = parts.directory.current(unit);
    Some(Spot { place, sector })
}

/// An overflow sector for a unit, where one is to be had: a clean one, or the first of a new overflow
/// place.
#[derive(Clone, Copy)]
pub enum OverflowChoice {
    Clean(Spot),
    NewPlace,
    Nothing,
}

/// Which overflow sector is to be had for the unit.
pub(crate) fn overflow_choice(parts: &Parts, unit: u32) -> OverflowChoice
    requires { unit < length parts.now.overflow.spots }
    ensures { IsChoice (tables_of parts.now) unit result }
{
    if parts.overflow.count(unit) as usize >= OVERFLOW_SECTORS {
        return OverflowChoice::Nothing;
    }
    if let Some(spot) = parts.overflow.spot() {
        return OverflowChoice::Clean(spot);
    }
    if parts.overflow.may_add() {
        return OverflowChoice::NewPlace;
    }
    OverflowChoice::Nothing
}

/// How many log sectors are packed of what is carried; more than 12 are counted as 13.
pub(crate) fn packed_count(scratch: &mut MergeScratch, active: &Active) -> u32
    ensures count { result ≡ min 13 (length (packs_of active.now (records_kept scratch.old.sectors))) }
    ensures log { records_kept scratch.new.sectors ≡ records_kept scratch.old.sectors }
    ensures home { scratch.new.home ≡ scratch.old.home }
{
    let log = Log::of(scratch.sectors.sectors(), &mut scratch.offsets);
    if pack_carried(&log, active, &mut scratch.packs) {
        u32::from(scratch.packs.count())
    } else {
        13
    }
}

/// How many log sectors a merge of the unit would carry; more than 12 are counted as 13.
///
/// It reads the unit's header and its log. Where the tables mirror what the chip holds, it fails only
/// where a read failed.
pub fn carried<C: Chip>(chip: &mut C, parts: &mut Parts, unit: u32) -> Result<u32, ChipFault>
    requires suits { Suits (C.told chip.old).places (tables_of parts.old) }
    requires unit { unit < length parts.old.directory.current }
    ensures exact { OfContents (C.told chip.old) (λ x. (it : Layout)
        → Mirrors (C.told chip.old).places (chart_of x) it (tables_of parts.old)
        → MatchResult result
        (λ n. n ≡ min 13 (carried_count (among parts.old.active) (it.units unit).log))
        (λ fault. fault ≡ ReadFault)) }
    ensures most { IfOk result (λ n. n ≤ 13) }
    ensures same { tables_of parts.new ≡ tables_of parts.old }
    ensures looks { LooksAt (IsLogRead (slice_index parts.old.directory.current unit)
        (spots_in parts.old.overflow unit)) result (C.told chip.old) (C.told chip.new) }
{
    learn(chip, parts, unit)?;
    Ok(packed_count(&mut parts.scratch, &parts.active))
}
