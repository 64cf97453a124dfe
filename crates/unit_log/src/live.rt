//! The live log sectors of a unit.
ghost use Rattle.std.specs.Prelude.{◌≡◌, ◌<◌, ◌≤◌, ◌+◌, [], ◌∷◌, ℕ, List, length, slice_index, Some, IsSomeAnd, IfOk, IfSome, OnOk, MatchResult, All};
ghost use Rattle.ipl_base.specs.declared.limits.TheConstants.{PAGE_SECTORS, PAYLOAD_LEN};
ghost use Rattle.chip_trait.specs.Told.{Told};
ghost use Rattle.ipl_base.specs.declared.fault.ChipFault.TheVariants.{ReadFault};
ghost use Rattle.ipl_format.specs.Header.{SpellsDataHeader};
ghost use Rattle.ipl_format.specs.Sector.{Sector};
ghost use Rattle.ipl_meaning.specs.Chart.{chart_of};
ghost use Rattle.ipl_meaning.specs.Masks.{of_page};
ghost use Rattle.overflow.specs.Lists.{spots_in};
ghost use Rattle.unit_io.specs.Kinds.{sector_named};
ghost use Rattle.unit_io.specs.Reads.{OfContents};
ghost use Rattle.unit_log.specs.Live.{HaveUnit, MatchesLayout, OfMirrored, HasHead, SaysHead, HasUnitHead};
ghost use Rattle.unit_io.specs.Costs.{Spends};
ghost use Rattle.unit_io.specs.ReadsAt.{IsAt};
ghost use Rattle.unit_log.specs.Looks.{IsLogRead, LooksAt};
ghost use Rattle.unit_log.specs.Often.{header_and_log, ReadsListed};
ghost use Rattle.unit_log.specs.Paged.{page_spots, IsLiveOf, IsPageLogRead, AddsAtMost};

use crate::pages::page_spots;
use crate::reading::{Owner, read_listed, read_sectors};
use crate::scratch::Scratch;
use chip_trait::Chip;
use ipl_base::{ChipFault, SECTORS};
use overflow::Overflow;
use sector_format::Head;
use unit_directory::Directory;
use unit_io::read_head;
use unit_layout::read_data_header;

/// What the header of a unit says: its version, which its base sectors have, its generation, and the
/// number of base sectors of each of its 15 pages, 0 to 16.
#[derive(Clone, Copy, Debug, PartialEq, Eq)]
pub struct UnitHead {
    pub version: u8,
    pub generation: u64,
    pub pieces: [u8; 15],
}

/// The header of this unit that was found, or none.
fn header_in(found: Option<(Head, usize)>, bytes: &[u8; 512], unit: u32) -> Option<UnitHead>
    requires { IfSome found (λ it. it.1 ≤ PAYLOAD_LEN) }
    ensures some { (head : Sector) (units : ℕ) → sector_named bytes.now found ≡ Some head
        → head.kind ≡ 1 → head.unit ≡ unit
        → (pieces : List ℕ) → SpellsDataHeader head.version units pieces head.payload
        → IsSomeAnd result (λ r. (r.generation ≡ head.generation) × (r.pieces ≡ pieces)
        × (r.version ≡ head.version)) }
    ensures found { IfSome result (λ r. (head : Sector)
        × (sector_named bytes.now found ≡ Some head) × SaysHead head unit r) }
    ensures few { IfSome result (λ r. All (λ n. n ≤ PAGE_SECTORS) r.pieces) }
{
    let (head, used) = found?;
    if head.kind != Head::DATA_HEADER || head.unit != unit {
        return None;
    }
    let header = read_data_header(&bytes[32..32 + used], head.version)?;
    let pieces = header.pieces;
    Some(UnitHead {
        version: head.version,
        generation: head.generation,
        pieces,
    })
}

/// Reads the header of a unit at its place.
fn read_header<C: Chip>(chip: &mut C, place: u32, unit: u32) -> Result<UnitHead, ChipFault>
    requires { place < (C.told chip.old).places }
    ensures exact { OfContents (C.told chip.old) (λ x. (head : Sector) (pieces : List ℕ)
        → HasHead (chart_of x) place unit head pieces
        → MatchResult result (λ r. (r.generation ≡ head.generation) × (r.pieces ≡ pieces)
        × (r.version ≡ head.version))
        (λ fault. fault ≡ ReadFault)) }
    ensures header { IfOk result (λ r. OfContents (C.told chip.old) (λ x.
        HasUnitHead (chart_of x) place unit r)) }
    ensures few { IfOk result (λ r. All (λ n. n ≤ PAGE_SECTORS) r.pieces) }
    ensures looks { LooksAt (IsAt place 0) result (C.told chip.old) (C.told chip.new) }
    ensures one { AddsAtMost 1 (C.told chip.old) (C.told chip.new) }
    ensures often { Spends (ReadsListed ((place, 0) ∷ [])) (C.told chip.old) (C.told chip.new) }
{
    let mut bytes = [0; 512];
    let found = read_head(chip, place, &mut bytes)?;
    match header_in(found, &bytes, unit) {
        Some(header) => Ok(header),
        None => Err(ChipFault::Malformed { place, sector: 0 }),
    }
}

/// Reads the header of a unit, and its live log sectors: those at its place and those that the
/// overflow lists name. They are in the scratch memory then, in rising order of their serials, at
/// most 31; what was there before is gone, however the call ends.
///
/// Where the tables mirror what the chip holds, these are the log sectors of the unit, and it fails
/// only where a read failed. Else it may find a sector malformed: sector 0 of the unit's place,
/// where that is no header of the unit any more, or a log sector that is no list of records or has
/// a serial that another one has. It reads the header and each log sector once, those elsewhere as
/// often as the overflow lists name them.
pub fn read_live<C: Chip>(
    chip: &mut C,
    directory: &Directory,
    overflow: &Overflow,
    unit: u32,
    scratch: &mut Scratch,
) -> Result<UnitHead, ChipFault>
    requires unit { HaveUnit (C.told chip.old).places directory.now overflow.now unit }
    ensures exact { OfMirrored (C.told chip.old) directory.now overflow.now (λ it.
        MatchResult result (λ head. MatchesLayout it unit head scratch.new) (λ fault. fault ≡ ReadFault)) }
    ensures header { IfOk result (λ head. OfContents (C.told chip.old) (λ x.
        HasUnitHead (chart_of x) (slice_index directory.now.current unit) unit head)) }
    ensures few { IfOk result (λ head. All (λ n. n ≤ PAGE_SECTORS) head.pieces) }
    ensures looks { LooksAt
        (IsLogRead (slice_index directory.now.current unit) (spots_in overflow.now unit))
        result (C.told chip.old) (C.told chip.new) }
    ensures often { Spends (ReadsListed
        (header_and_log (slice_index directory.now.current unit) (spots_in overflow.now unit)))
        (C.told chip.old) (C.told chip.new) }
{
    directory.facts();
    let place = directory.current(unit);
    let end = directory.next_log(unit).unwrap_or(SECTORS);
    scratch.clear();
    let head = read_header(chip, place, unit)?;
    let spots = overflow.list(unit);
    let owner = Owner {
        unit,
        generation: head.generation,
    };
    read_sectors(chip, owner, place, end, spots.as_slice(), scratch)?;
    scratch.facts();
    Ok(head)
}

/// Reads the header of a unit, and those of its live log sectors that have a record of a page (0 to
/// 14), as the masks in the tables tell it. They are in the scratch memory then, in rising order of
/// their serials; what was there before is gone, however the call ends. No other sector is read, and
/// none twice.
///
/// Where the tables mirror what the chip holds, these are all that have one, and it fails only where
/// a read failed. Else it may find a sector malformed, as `read_live` does.
pub fn read_page_log<C: Chip>(
    chip: &mut C,
    directory: &Directory,
    overflow: &Overflow,
    unit: u32,
    page: u32,
    scratch: &mut Scratch,
) -> Result<UnitHead, ChipFault>
    requires unit { HaveUnit (C.told chip.old).places directory.now overflow.now unit }
    requires page { page < 15 }
    ensures exact { OfMirrored (C.told chip.old) directory.now overflow.now (λ it.
        MatchResult result (λ head. IsLiveOf it unit page head scratch.new)
        (λ fault. fault ≡ ReadFault)) }
    ensures as_many { OnOk result (OfMirrored (C.told chip.old) directory.now overflow.now (λ it.
        length (page_spots directory.now overflow.now unit page)
        ≡ length (of_page page (it.units unit).log))) }
    ensures few { IfOk result (λ head. All (λ n. n ≤ PAGE_SECTORS) head.pieces) }
    ensures looks { LooksAt
        (IsPageLogRead (slice_index directory.now.current unit)
        (page_spots directory.now overflow.now unit page))
        result (C.told chip.old) (C.told chip.new) }
    ensures each { AddsAtMost (1 + length (page_spots directory.now overflow.now unit page))
        (C.told chip.old) (C.told chip.new) }
{
    directory.facts();
    let place = directory.current(unit);
    let spots = page_spots(directory, overflow, unit, page);
    scratch.clear();
    let head = read_header(chip, place, unit)?;
    let owner = Owner {
        unit,
        generation: head.generation,
    };
    read_listed(chip, owner, spots.as_slice(), scratch)?;
    scratch.facts();
    Ok(head)
}
