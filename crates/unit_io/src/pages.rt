//! The base sectors of a page.
ghost use Rattle.std.specs.Prelude.{◌≡◌, ◌<◌, ◌≤◌, ◌+◌, ◌*◌, ℕ, length, Some, None, IfOk, IfSome, OnOk};
ghost use Rattle.ipl_base.specs.declared.limits.TheConstants.{PAGE_LEN, PAGE_SECTORS, PAYLOAD_LEN, VERSION};
ghost use Rattle.chip_trait.specs.Lawful.{Clean, age};
ghost use Rattle.chip_trait.specs.Told.{Told, History};
ghost use Rattle.ipl_meaning.specs.Legible.{Legible};
ghost use Rattle.crc_sum.specs.Crc.{tail_sum};
ghost use Rattle.ipl_format.specs.Page.{IsCutInto, page_text, piece_of};
ghost use Rattle.ipl_format.specs.Sector.{IsKind, filled, sector_in};
ghost use Rattle.ipl_format.specs.Version.{IsVersion};
ghost use Rattle.ipl_format.specs.Place.{base_sector_of};
ghost use Rattle.ipl_meaning.specs.Layout.{base_sector};
ghost use Rattle.ipl_meaning.specs.Rests.{now, StoryRests};
ghost use Rattle.unit_io.specs.Leads.{IsSteady, KeepsMap};
ghost use Rattle.unit_io.specs.Spots.{IsPageOnChip, Programs, IsSpot, IsPieceSpot};
ghost use Rattle.unit_io.specs.Costs.{ProgramsAt};
ghost use Rattle.unit_io.specs.Charts.{Charts, Spares, Gains, HasPieces, HasPageSectors};
ghost use Rattle.unit_io.specs.Plain.{AddsPlain};
ghost use Rattle.unit_io.specs.Tails.{FitTails};
ghost use Rattle.unit_io.specs.Writing.{AddsPage, OnlyPrograms};
ghost use Rattle.sector_format.specs.Decode.{sector_of};

use crate::sectors::program_aside;
use chip_trait::Chip;
use ipl_base::{ChipFault, PAGE_SECTORS, PAYLOAD_LEN, Spot};
use page_text::PageMap;
use sector_format::{Head, encode, encode_by};
use unit_layout::base_sector;

/// A piece (0 to 15) of a text: 480 bytes, or what is left.
pub(crate) fn piece_of(text: &[u8], piece: u32) -> &[u8]
    requires few { piece < PAGE_SECTORS }
    requires within { PAYLOAD_LEN * piece ≤ length text.now }
    ensures piece { result.now ≡ piece_of text.now piece }
    ensures fits { length result.now ≤ PAYLOAD_LEN }
{
    let start = piece as usize * PAYLOAD_LEN;
    &text[start..text.len().min(start + PAYLOAD_LEN)]
}

/// Writes the sector of a head and a payload, by what the payload brings into the sum where that was
/// taken before.
fn encode_piece(base: &Head, payload: &[u8], tail: Option<u32>, out: &mut [u8; 512])
    requires fits { length payload.now ≤ PAYLOAD_LEN }
    requires known { IsKind base.now.kind }
    requires version { IsVersion base.now.version }
    requires tail { IfSome tail (λ sum. sum ≡ tail_sum (filled payload.now)) }
    ensures said { sector_in out.new ≡ Some (sector_of base.now payload.now) }
{
    match tail {
        Some(tail) => encode_by(base, payload, tail, out),
        None => encode(base, payload, out),
    }
}

/// Programs the base sector of a piece (0 to 15) of a page's text, by these bytes of a sector.
fn program_piece<C: Chip>(
    chip: &mut C,
    place: u32,
    head: &Head,
    page: u32,
    piece: u32,
    text: &[u8],
    tail: Option<u32>,
    bytes: &mut [u8; 512],
) -> Result<(), ChipFault>
    requires page { IsPageOnChip (C.told chip.old) place page }
    requires few { piece < PAGE_SECTORS }
    requires within { PAYLOAD_LEN * piece ≤ length text.now }
    requires tail { IfSome tail (λ sum. sum ≡ tail_sum (filled (piece_of text.now piece))) }
    ensures aside { (m : Legible) (h : History) → IsSteady h (C.told chip.old) → StoryRests (C.told chip.old).places m h
        → now h place 0 ≡ None → age h.story place (base_sector_of page piece) ≡ Clean
        → KeepsMap (C.told chip.old).places m (Programs place (IsSpot (base_sector_of page piece)))
        (λ done. Gains place (base_sector_of page piece) (base_sector VERSION head.now.unit head.now.generation page piece text.now))
        h (C.told chip.old) result (C.told chip.new) }
    ensures tells { OnOk result (Charts (Gains place (base_sector_of page piece) (base_sector VERSION head.now.unit head.now.generation page piece text.now)) (C.told chip.old) (C.told chip.new)) }
    ensures plain { AddsPlain (C.told chip.old) (C.told chip.new) }
    ensures spares { OnOk result (Spares place (C.told chip.old) (C.told chip.new)) }
    ensures writes { OnlyPrograms (ProgramsAt place 1 0 4) place (IsSpot (base_sector_of page piece)) result
        (C.told chip.old) (C.told chip.new) }
{
    let serial = u64::from(page * PAGE_SECTORS + piece);
    let base = Head::written(Head::BASE, head.unit, head.generation, serial);
    encode_piece(&base, piece_of(text, piece), tail, bytes);
    let sector = base_sector(page, piece);
    program_aside(chip, Spot { place, sector }, bytes)
}

/// How many pieces a text of at most 7,680 bytes is cut into.
pub(crate) fn piece_count(text: &[u8]) -> u32
    requires { length text.now ≤ PAGE_LEN }
    ensures cut { IsCutInto text.now result }
    ensures few { result ≤ PAGE_SECTORS }
{
    text.len().div_ceil(PAYLOAD_LEN) as u32
}

/// Programs all pieces of a page's text, and answers how many there are.
fn program_pieces<C: Chip>(
    chip: &mut C,
    place: u32,
    head: &Head,
    page: u32,
    text: &[u8],
    tails: &[Option<u32>; 16],
) -> Result<u32, ChipFault>
    requires page { IsPageOnChip (C.told chip.old) place page }
    requires fits { length text.now ≤ PAGE_LEN }
    requires tails { FitTails text.now tails.now }
    ensures keeps { (m : Legible) (h : History) → IsSteady h (C.told chip.old) → StoryRests (C.told chip.old).places m h
        → now h place 0 ≡ None → ((s : ℕ) → IsPieceSpot page PAGE_SECTORS s → age h.story place s ≡ Clean)
        → KeepsMap (C.told chip.old).places m (Programs place (IsPieceSpot page PAGE_SECTORS))
        (λ n. HasPieces place head.now.unit head.now.generation page text.now n) h (C.told chip.old) result (C.told chip.new) }
    ensures cut { IfOk result (λ n. IsCutInto text.now n) }
    ensures adds { AddsPage (HasPieces place head.now.unit head.now.generation page text.now) place result
        (C.told chip.old) (C.told chip.new) }
    ensures writes { OnlyPrograms (ProgramsAt place PAGE_SECTORS 0 4) place (IsPieceSpot page PAGE_SECTORS) result
        (C.told chip.old) (C.told chip.new) }
{
    let count = piece_count(text);
    let mut bytes = [0; 512];
    for piece in 0..count {
        let tail = tails[piece as usize];
        program_piece(chip, place, head, page, piece, text, tail, &mut bytes)?;
    }
    Ok(count)
}

/// Programs a page (0 to 14) into its base sectors at a place, for the unit and the generation of a head, and answers how
/// many sectors it took, 0 to 15.
///
/// At a place without a header, whatever a power cut leaves stands for the map on which the story rested, and done, it rests
/// on that map. Nothing makes sure of the sectors: that is for the barrier before the header.
///
/// Tails that are given are those of the page's text, as of its pieces that are moved as they were
/// read. These aren't summed again.
pub fn program_page<C: Chip>(
    chip: &mut C,
    place: u32,
    head: &Head,
    page: u32,
    map: &PageMap,
    tails: &[Option<u32>; 16],
) -> Result<u32, ChipFault>
    requires page { IsPageOnChip (C.told chip.old) place page }
    requires tails { FitTails (page_text VERSION map.now) tails.now }
    ensures keeps { (m : Legible) (h : History) → IsSteady h (C.told chip.old) → StoryRests (C.told chip.old).places m h
        → now h place 0 ≡ None → ((s : ℕ) → IsPieceSpot page PAGE_SECTORS s → age h.story place s ≡ Clean)
        → KeepsMap (C.told chip.old).places m (Programs place (IsPieceSpot page PAGE_SECTORS))
        (λ n. HasPageSectors place head.now.unit head.now.generation page map.now n) h (C.told chip.old) result (C.told chip.new) }
    ensures adds { AddsPage (HasPageSectors place head.now.unit head.now.generation page map.now) place result
        (C.told chip.old) (C.told chip.new) }
    ensures writes { OnlyPrograms (ProgramsAt place PAGE_SECTORS 0 4) place (IsPieceSpot page PAGE_SECTORS) result
        (C.told chip.old) (C.told chip.new) }
{
    program_pieces(chip, place, head, page, map.text(), tails)
}
