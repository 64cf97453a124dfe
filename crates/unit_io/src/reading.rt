//! One sector read, and taken where it is of the kind wanted.
ghost use Rattle.std.specs.Prelude.{◌≡◌, ◌↔◌, ◌<◌, ◌≤◌, ℕ, List, IfOk, IfSome, OnOk};
ghost use Rattle.ipl_base.specs.declared.limits.TheConstants.{PAYLOAD_LEN};
ghost use Rattle.chip_trait.specs.declared.event.Event.TheVariants.{Read};
ghost use Rattle.chip_trait.specs.Story.{blank};
ghost use Rattle.chip_trait.specs.Told.{Told};
ghost use Rattle.ipl_format.specs.Sector.{sector_in};
ghost use Rattle.ipl_format.specs.Whole.{IsWhole};
ghost use Rattle.sector_format.specs.Decode.{IsDecoded, sector_read};
ghost use Rattle.ipl_meaning.specs.Chart.{chart_of};
ghost use Rattle.unit_io.specs.Accounts.{Accounts};
ghost use Rattle.unit_io.specs.Reads.{Asked, OfContents, IsReadFault};
ghost use Rattle.unit_io.specs.Kinds.{any_sector, of_kinds, header_only, log_only, status_only, sector_named};
ghost use Rattle.unit_io.specs.Found.{checked};
ghost use Rattle.unit_io.specs.Reading.{ReadsSector};
ghost use Rattle.unit_io.specs.Spots.{IsOnChip};
ghost use Rattle.unit_io.specs.declared.reading.Found.TheVariants.{Erased};

use crate::calls::read;
use chip_trait::Chip;
use ipl_base::{ChipFault, Spot};
use sector_format::{Decoded, Head, decode};

/// What a sector was found to be.
#[derive(Clone, Copy, Debug, PartialEq, Eq)]
pub enum Found {
    /// All bytes are FF.
    Erased,
    /// It doesn't check, and isn't erased.
    Bad,
    /// It checks: its head, and how many bytes of payload it uses, from byte 32 on.
    Sector(Head, usize),
}

/// The answer of a call that reads a sector: its head and how many bytes of payload it uses, or `None`
/// where it isn't of the kind that was asked for.
pub type SectorRead = Result<Option<(Head, usize)>, ChipFault>;

impl Found {
    /// Its head and how many bytes of payload it uses, where it checks.
    pub fn checked(self) -> Option<(Head, usize)>
        ensures { result ≡ checked self }
    {
        match self {
            Found::Sector(head, used) => Some((head, used)),
            _ => None,
        }
    }
}

/// What the bytes of a sector are.
fn found_in(bytes: &[u8; 512]) -> Found
    ensures exact { sector_named bytes.now (checked result) ≡ sector_in bytes.now }
    ensures erased { (result ≡ Erased) ↔ (bytes.now ≡ blank) }
    ensures fits { IfSome (checked result) (λ found. found.1 ≤ PAYLOAD_LEN) }
    ensures whole { IsWhole bytes.now }
{
    match decode(bytes) {
        Decoded::Erased => Found::Erased,
        Decoded::Sector(head, used) => Found::Sector(head, used),
        Decoded::Bad { .. } | Decoded::Strange => Found::Bad,
    }
}

/// Reads a sector (0 to 255 of its place), and answers whether it is erased, and where it checks its head and how many bytes
/// of payload it uses, from byte 32 of the buffer on. After a fault the buffer holds anything.
pub fn read_found<C: Chip>(
    chip: &mut C,
    spot: Spot,
    into: &mut [u8; 512],
) -> Result<Found, ChipFault>
    requires spot { IsOnChip (C.told chip.old) spot.place spot.sector }
    ensures exact { IfOk result (λ found. OfContents (C.told chip.old) (λ x.
        sector_named into.new (checked found) ≡ chart_of x spot.place spot.sector)) }
    ensures erased { IfOk result (λ found. OfContents (C.told chip.old) (λ x.
        (found ≡ Erased) ↔ (x spot.place spot.sector ≡ blank))) }
    ensures bytes { OnOk result (OfContents (C.told chip.old) (λ x. into.new ≡ x spot.place spot.sector)) }
    ensures fits { IfOk result (λ found. IfSome (checked found) (λ it. it.1 ≤ PAYLOAD_LEN)) }
    ensures whole { OnOk result (OfContents (C.told chip.old) (λ x. IsWhole (x spot.place spot.sector))) }
    ensures asks { Asked (Read spot.place spot.sector) result (C.told chip.old) (C.told chip.new) }
    ensures accounts { Accounts IsReadFault result (C.told chip.old) (C.told chip.new) }
{
    read(chip, spot, into)?;
    Ok(found_in(into))
}

/// Reads a sector (0 to 255 of its place), and answers its head and how many bytes of payload it uses, from byte 32 of the
/// buffer on; `None` exactly where it doesn't check. After a fault the buffer holds anything.
pub fn read_sector<C: Chip>(chip: &mut C, spot: Spot, into: &mut [u8; 512]) -> SectorRead
    requires spot { IsOnChip (C.told chip.old) spot.place spot.sector }
    ensures reads { ReadsSector any_sector spot.place spot.sector into.new result (C.told chip.old) (C.told chip.new) }
    ensures bytes { OnOk result (OfContents (C.told chip.old) (λ x. into.new ≡ x spot.place spot.sector)) }
    ensures whole { OnOk result (OfContents (C.told chip.old) (λ x. IsWhole (x spot.place spot.sector))) }
{
    let found = read_found(chip, spot, into)?;
    Ok(found.checked())
}

/// What was found, if its kind is one of these.
fn of_kinds(found: Option<(Head, usize)>, first: u8, last: u8) -> Option<(Head, usize)>
    ensures exact { (bytes : List ℕ) → sector_named bytes result ≡ of_kinds first last (sector_named bytes found) }
    ensures kind { IfSome result (λ it. (first ≤ it.0.kind) × (it.0.kind ≤ last)) }
    ensures fits { IfSome found (λ it. it.1 ≤ PAYLOAD_LEN) → IfSome result (λ it. it.1 ≤ PAYLOAD_LEN) }
{
    match found {
        Some((head, used)) if first <= head.kind && head.kind <= last => Some((head, used)),
        _ => None,
    }
}

/// Reads a sector, and answers what it is where it checks as one of these kinds.
fn read_of_kinds<C: Chip>(
    chip: &mut C,
    spot: Spot,
    first: u8,
    last: u8,
    into: &mut [u8; 512],
) -> SectorRead
    requires spot { IsOnChip (C.told chip.old) spot.place spot.sector }
    ensures reads { ReadsSector (of_kinds first last) spot.place spot.sector into.new result (C.told chip.old) (C.told chip.new) }
    ensures bytes { OnOk result (OfContents (C.told chip.old) (λ x. into.new ≡ x spot.place spot.sector)) }
    ensures kind { IfOk result (λ o. IfSome o (λ found. (first ≤ found.0.kind) × (found.0.kind ≤ last))) }
{
    let found = read_sector(chip, spot, into)?;
    Ok(of_kinds(found, first, last))
}

/// Reads the header of a place: its head and how many bytes of payload it uses, from byte 32 of the buffer on; `None`
/// exactly where sector 0 doesn't check as a header of any kind. After a fault the buffer holds anything.
pub fn read_head<C: Chip>(chip: &mut C, place: u32, into: &mut [u8; 512]) -> SectorRead
    requires { place < (C.told chip.old).places }
    ensures reads { ReadsSector header_only place 0 into.new result (C.told chip.old) (C.told chip.new) }
    ensures kind { IfOk result (λ o. IfSome o (λ found. (1 ≤ found.0.kind) × (found.0.kind ≤ 3))) }
{
    read_of_kinds(
        chip,
        Spot { place, sector: 0 },
        Head::DATA_HEADER,
        Head::OVERFLOW_HEADER,
        into,
    )
}

/// Reads a log sector (0 to 255 of its place): its head and how many bytes of payload it uses, from byte 32 of the buffer
/// on; `None` exactly where the sector doesn't check as a log sector. After a fault the buffer holds anything.
pub fn read_log<C: Chip>(chip: &mut C, spot: Spot, into: &mut [u8; 512]) -> SectorRead
    requires spot { IsOnChip (C.told chip.old) spot.place spot.sector }
    ensures reads { ReadsSector log_only spot.place spot.sector into.new result (C.told chip.old) (C.told chip.new) }
    ensures kind { IfOk result (λ o. IfSome o (λ found. found.0.kind ≡ 5)) }
{
    read_of_kinds(chip, spot, Head::LOG, Head::LOG, into)
}

/// Reads a commit sector or a mark (0 to 255 of its place): its head and how many bytes of payload it uses, from byte 32 of
/// the buffer on; `None` exactly where the sector checks as neither. After a fault the buffer holds anything.
pub fn read_noted<C: Chip>(chip: &mut C, spot: Spot, into: &mut [u8; 512]) -> SectorRead
    requires spot { IsOnChip (C.told chip.old) spot.place spot.sector }
    ensures reads { ReadsSector status_only spot.place spot.sector into.new result (C.told chip.old) (C.told chip.new) }
    ensures bytes { OnOk result (OfContents (C.told chip.old) (λ x. into.new ≡ x spot.place spot.sector)) }
    ensures kind { IfOk result (λ o. IfSome o (λ found. (6 ≤ found.0.kind) × (found.0.kind ≤ 7))) }
{
    read_of_kinds(chip, spot, Head::COMMIT, Head::MARK, into)
}
