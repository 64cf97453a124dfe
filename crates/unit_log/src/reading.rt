//! Log sectors are read, and those of the unit are kept.
ghost use Rattle.std.specs.Prelude.{◌≡◌, ◌≤◌, ◌<◌, ◌+◌, ◌-◌, [], ◌∷◌, length, map, IfErr, IfSome, OnOk};
ghost use Rattle.ipl_base.specs.declared.limits.TheConstants.{LIVE_SECTORS, OVERFLOW_SECTORS, PAYLOAD_LEN};
ghost use Rattle.chip_trait.specs.Told.{Told};
ghost use Rattle.ipl_base.specs.declared.fault.ChipFault.TheVariants.{Malformed};
ghost use Rattle.overflow.specs.Lists.{pair_of, AreWithin};
ghost use Rattle.unit_io.specs.Kinds.{sector_named};
ghost use Rattle.unit_log.specs.Kept.{kept_if, log_found, with_found, CannotBeKept};
ghost use Rattle.unit_log.specs.Live.{HasLogEnd, spots_from, log_spots, Gathers};
ghost use Rattle.unit_io.specs.Costs.{Spends};
ghost use Rattle.unit_io.specs.ReadsAt.{IsAt};
ghost use Rattle.unit_log.specs.Looks.{IsFrom, IsListed, IsLogRead, LooksAt};
ghost use Rattle.unit_log.specs.Often.{ReadsListed};
ghost use Rattle.unit_log.specs.Paged.{AddsAtMost};

use crate::scratch::Scratch;
use chip_trait::Chip;
use ipl_base::{ChipFault, FIRST_LOG_SECTOR, Spot};
use log_records::{Payload, is_list};
use sector_format::Head;
use unit_io::read_log;

/// Whose log sectors are read: a unit's, in the generation of its header.
#[derive(Clone, Copy)]
pub(crate) struct Owner {
    pub(crate) unit: u32,
    pub(crate) generation: u64,
}

/// Keeps a log sector with this payload, of this version, or tells why it can't be one of the unit's.
fn keep(
    scratch: &mut Scratch,
    spot: Spot,
    serial: u64,
    payload: &[u8],
    version: u8,
) -> Result<(), ChipFault>
    requires room { length scratch.old < LIVE_SECTORS }
    requires fits { length payload.now ≤ PAYLOAD_LEN }
    ensures kept { OnOk result
        (scratch.new ≡ with_found (log_found serial version payload.now) scratch.old) }
    ensures unfit { IfErr result (λ fault.
        CannotBeKept (log_found serial version payload.now) scratch.old) }
    ensures fault { IfErr result (λ fault. fault ≡ Malformed spot.place spot.sector) }
    ensures count { length scratch.new ≤ length scratch.old + 1 }
{
    let malformed = ChipFault::Malformed {
        place: spot.place,
        sector: spot.sector,
    };
    if !is_list(payload, version) {
        return Err(malformed);
    }
    if !scratch.insert(serial, Payload::of(payload, version)) {
        return Err(malformed);
    }
    Ok(())
}

/// Keeps what was found, where it is a log sector of the unit and the generation.
fn take_found(
    scratch: &mut Scratch,
    owner: Owner,
    spot: Spot,
    found: Option<(Head, usize)>,
    bytes: &[u8; 512],
) -> Result<(), ChipFault>
    requires room { length scratch.old < LIVE_SECTORS }
    requires fits { IfSome found (λ it. it.1 ≤ PAYLOAD_LEN) }
    ensures kept { OnOk result (scratch.new
        ≡ with_found (kept_if owner.unit owner.generation (sector_named bytes.now found)) scratch.old) }
    ensures unfit { IfErr result (λ fault.
        CannotBeKept (kept_if owner.unit owner.generation (sector_named bytes.now found)) scratch.old) }
    ensures fault { IfErr result (λ fault. fault ≡ Malformed spot.place spot.sector) }
    ensures count { length scratch.new ≤ length scratch.old + 1 }
{
    match found {
        Some((head, used)) => {
            if head.unit != owner.unit || head.generation != owner.generation {
                return Ok(());
            }
            keep(
                scratch,
                spot,
                head.serial,
                &bytes[32..32 + used],
                head.version,
            )
        }
        None => Ok(()),
    }
}

/// Reads a spot where a log sector of the unit may stand.
fn read_spot<C: Chip>(
    chip: &mut C,
    owner: Owner,
    spot: Spot,
    scratch: &mut Scratch,
) -> Result<(), ChipFault>
    requires place { spot.place < (C.told chip.old).places }
    requires sector { spot.sector < 256 }
    requires room { length scratch.old < LIVE_SECTORS }
    ensures gathers { Gathers (C.told chip.old) owner.unit owner.generation (pair_of spot ∷ [])
        scratch.old scratch.new result }
    ensures count { length scratch.new ≤ length scratch.old + 1 }
    ensures looks { LooksAt (IsAt spot.place spot.sector) result
        (C.told chip.old) (C.told chip.new) }
    ensures one { AddsAtMost 1 (C.told chip.old) (C.told chip.new) }
    ensures often { Spends (ReadsListed (pair_of spot ∷ [])) (C.told chip.old) (C.told chip.new) }
{
    let mut bytes = [0; 512];
    let found = read_log(chip, spot, &mut bytes)?;
    take_found(scratch, owner, spot, found, &bytes)
}

/// Reads the sectors of a place from 241 up to this one (241 to 256).
fn read_home<C: Chip>(
    chip: &mut C,
    owner: Owner,
    place: u32,
    end: u32,
    scratch: &mut Scratch,
) -> Result<(), ChipFault>
    requires end { HasLogEnd (C.told chip.old).places place end }
    requires room { length scratch.old ≤ OVERFLOW_SECTORS }
    ensures gathers { Gathers (C.told chip.old) owner.unit owner.generation (spots_from place 241 (end - 241))
        scratch.old scratch.new result }
    ensures count { length scratch.new ≤ length scratch.old + 15 }
    ensures looks { LooksAt (IsFrom place 241) result (C.told chip.old) (C.told chip.new) }
    ensures often { Spends (ReadsListed (spots_from place 241 15)) (C.told chip.old) (C.told chip.new) }
{
    for sector in FIRST_LOG_SECTOR..end {
        read_spot(chip, owner, Spot { place, sector }, scratch)?;
    }
    Ok(())
}

/// Reads these spots, at most 31.
pub(crate) fn read_listed<C: Chip>(
    chip: &mut C,
    owner: Owner,
    spots: &[Spot],
    scratch: &mut Scratch,
) -> Result<(), ChipFault>
    requires within { AreWithin (C.told chip.old).places (map pair_of spots.now) }
    requires room { length scratch.old + length spots.now ≤ LIVE_SECTORS }
    ensures gathers { Gathers (C.told chip.old) owner.unit owner.generation (map pair_of spots.now)
        scratch.old scratch.new result }
    ensures looks { LooksAt (IsListed (map pair_of spots.now)) result
        (C.told chip.old) (C.told chip.new) }
    ensures each { AddsAtMost (length spots.now) (C.told chip.old) (C.told chip.new) }
    ensures often { Spends (ReadsListed (map pair_of spots.now)) (C.told chip.old) (C.told chip.new) }
{
    for spot in spots {
        read_spot(chip, owner, *spot, scratch)?;
    }
    Ok(())
}

/// Reads the sectors of a place from 241 up to this one (241 to 256), then these spots, at most 16.
pub(crate) fn read_sectors<C: Chip>(
    chip: &mut C,
    owner: Owner,
    place: u32,
    end: u32,
    spots: &[Spot],
    scratch: &mut Scratch,
) -> Result<(), ChipFault>
    requires end { HasLogEnd (C.told chip.old).places place end }
    requires within { AreWithin (C.told chip.old).places (map pair_of spots.now) }
    requires few { length spots.now ≤ OVERFLOW_SECTORS }
    requires none { scratch.old ≡ [] }
    ensures gathers { Gathers (C.told chip.old) owner.unit owner.generation
        (log_spots place end (map pair_of spots.now)) scratch.old scratch.new result }
    ensures looks { LooksAt (IsLogRead place (map pair_of spots.now)) result
        (C.told chip.old) (C.told chip.new) }
    ensures often { Spends (ReadsListed (log_spots place 256 (map pair_of spots.now)))
        (C.told chip.old) (C.told chip.new) }
{
    read_home(chip, owner, place, end, scratch)?;
    read_listed(chip, owner, spots, scratch)
}
