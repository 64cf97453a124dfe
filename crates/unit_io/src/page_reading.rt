//! The base sectors of a page, read and tested one after another.
ghost use Rattle.std.specs.Prelude.{◌≡◌, ◌≢◌, ◌<◌, ◌≤◌, ◌+◌, ◌*◌, ◌++◌, ℕ, List, length, take, drop, true, false, Some, IfErr, IfOk, OnOk};
ghost use Rattle.std.specs.Bool.{OnTrue};
ghost use Rattle.ipl_base.specs.declared.limits.TheConstants.{PAGE_LEN, PAGE_SECTORS, PAYLOAD_LEN, VERSION};
ghost use Rattle.chip_trait.specs.declared.event.Event.TheVariants.{Read};
ghost use Rattle.chip_trait.specs.Told.{Told};
ghost use Rattle.ipl_format.specs.Sector.{sector_in};
ghost use Rattle.ipl_format.specs.Whole.{IsWhole};
ghost use Rattle.ipl_format.specs.Page.{empty_page, page_text};
ghost use Rattle.ipl_format.specs.Place.{base_sector_of};
ghost use Rattle.sector_format.specs.Decode.{IsDecoded, sector_of, sector_read};
ghost use Rattle.ipl_meaning.specs.Chart.{chart_of};
ghost use Rattle.unit_io.specs.Accounts.{Accounts};
ghost use Rattle.unit_io.specs.Reads.{Asked, OfContents, PageAsked};
ghost use Rattle.unit_io.specs.Spots.{IsPageOnChip, ArePiecesOnChip};
ghost use Rattle.unit_io.specs.Tails.{AreTails};
ghost use Rattle.unit_io.specs.Reading.{ReadsText, ReadsPage};
ghost use Rattle.ipl_base.specs.First.{first_below};
ghost use Rattle.unit_io.specs.Faults.{is_filled, is_piece, piece_fault, piece_fault_at, payload_of, text_below, TellsChipFault, IsPageCause};

use crate::calls::read;
use chip_trait::Chip;
use ipl_base::{ChipFault, PAGE_SECTORS, PAYLOAD_LEN, Spot};
use page_text::{PageBytes, PageMap};
use sector_format::{Decoded, Head, decode_by, payload_in, tail_of};
use unit_layout::base_sector;

/// Whether a piece may use so many bytes: all 480, or if it is the last one any number but 0.
fn is_filled(used: usize, is_last: bool) -> bool
    ensures { result ≡ is_filled is_last used }
{
    if is_last {
        0 < used
    } else {
        used == PAYLOAD_LEN
    }
}

/// Whether a sector of this head that uses so many bytes is the piece with this serial, of the version,
/// the unit and the generation of the header's head.
fn is_piece(found: &Head, used: usize, head: &Head, serial: u64, is_last: bool) -> bool
    ensures exact { (payload : List ℕ) → length payload ≡ used
        → result ≡ is_piece head.now.version head.now.unit head.now.generation serial is_last (Some (sector_of found.now payload)) }
    ensures filled { OnTrue result (is_filled is_last used ≡ true) }
{
    found.kind == Head::BASE
        && found.version == head.version
        && found.unit == head.unit
        && found.generation == head.generation
        && found.serial == serial
        && is_filled(used, is_last)
}

/// How many bytes a piece (0 to 15) of a page (0 to 14) uses, of the version, the unit and the
/// generation of the header's head; or what is wrong with its sector.
fn check_piece(
    answer: Decoded,
    place: u32,
    head: &Head,
    page: u32,
    piece: u32,
    is_last: bool,
) -> Result<usize, ChipFault>
    requires page { page < 15 }
    requires piece { piece < PAGE_SECTORS }
    ensures exact { (bytes : List ℕ) → length bytes ≡ 512 → sector_in bytes ≡ sector_read bytes answer
        → IsDecoded bytes answer → TellsChipFault (piece_fault place (base_sector_of page piece) head.now.version head.now.unit
        head.now.generation (page * PAGE_SECTORS + piece) is_last bytes) result }
    ensures payload { IfOk result (λ used. (bytes : List ℕ)
        → payload_of (sector_read bytes answer) ≡ take used (drop 32 bytes)) }
    ensures filled { IfOk result (λ used. is_filled is_last used ≡ true) }
    ensures fits { (bytes : List ℕ) → IsDecoded bytes answer → IfOk result (λ used. used ≤ PAYLOAD_LEN) }
    ensures cause { (bytes : List ℕ) (old new : Told) → IsDecoded bytes answer
        → IfErr result (λ fault. IsPageCause place page fault old new) }
{
    let sector = base_sector(page, piece);
    match answer {
        Decoded::Bad { stored, computed } => Err(ChipFault::Damaged {
            place,
            sector,
            stored,
            computed,
        }),
        Decoded::Sector(found, used) => {
            let serial = u64::from(page * PAGE_SECTORS + piece);
            if is_piece(&found, used, head, serial, is_last) {
                Ok(used)
            } else {
                Err(ChipFault::Malformed { place, sector })
            }
        }
        Decoded::Erased | Decoded::Strange => Err(ChipFault::Malformed { place, sector }),
    }
}

/// Copies a payload (at most 480 bytes, from byte 32 of a sector on) into a text.
fn put_piece(bytes: &[u8; 512], used: usize, text: &mut PageBytes, start: usize)
    requires used { used ≤ PAYLOAD_LEN }
    requires room { start + PAYLOAD_LEN ≤ PAGE_LEN }
    requires empty { text.old.page ≡ empty_page }
    ensures size { length text.old.bytes ≡ PAGE_LEN }
    ensures bytes { text.new.bytes
        ≡ take start text.old.bytes ++ take used (drop 32 bytes.now) ++ drop (start + used) text.old.bytes }
    ensures whole { IsWhole bytes.now }
    ensures empty { text.new.page ≡ empty_page }
{
    text.put(start, payload_in(bytes, used));
}

/// Reads a piece (0 to 15) of a page (0 to 14) into its part of a text, by these bytes of a sector, and
/// answers where that ends. What the piece brings into a sum stands among the tails.
fn read_piece<C: Chip>(
    chip: &mut C,
    place: u32,
    head: &Head,
    page: u32,
    piece: u32,
    is_last: bool,
    bytes: &mut [u8; 512],
    text: &mut PageBytes,
    tails: &mut [u32; 16],
) -> Result<usize, ChipFault>
    requires page { IsPageOnChip (C.told chip.old) place page }
    requires piece { piece < PAGE_SECTORS }
    requires empty { text.old.page ≡ empty_page }
    ensures exact { OfContents (C.told chip.old) (λ x. TellsChipFault (piece_fault place (base_sector_of page piece)
        head.now.version head.now.unit head.now.generation (page * PAGE_SECTORS + piece) is_last (x place (base_sector_of page piece))) result) }
    ensures text { ReadsText (λ x. take (PAYLOAD_LEN * piece) text.old.bytes ++ payload_of (chart_of x place (base_sector_of page piece)))
        (PAYLOAD_LEN * piece + PAYLOAD_LEN) text.new result (C.told chip.old) }
    ensures tails { AreTails (take (PAYLOAD_LEN * piece) text.old.bytes) tails.old
        → IfOk result (λ end. AreTails (take end text.new.bytes) tails.new) }
    ensures whole { is_last ≡ false → IfOk result (λ end. end ≡ PAYLOAD_LEN * piece + PAYLOAD_LEN) }
    ensures asks { Asked (Read place (base_sector_of page piece)) result (C.told chip.old) (C.told chip.new) }
    ensures accounts { Accounts (IsPageCause place page) result (C.told chip.old) (C.told chip.new) }
{
    let sector = base_sector(page, piece);
    read(chip, Spot { place, sector }, bytes)?;
    let tail = tail_of(bytes);
    let answer = decode_by(bytes, tail);
    let used = check_piece(answer, place, head, page, piece, is_last)?;
    let start = piece as usize * PAYLOAD_LEN;
    put_piece(bytes, used, text, start);
    tails[piece as usize] = tail;
    Ok(start + used)
}

/// Reads the pieces of a page (0 to 14), at most 16, into a text, and answers its length. What each
/// brings into a sum stands among the tails.
fn read_pieces<C: Chip>(
    chip: &mut C,
    place: u32,
    head: &Head,
    page: u32,
    pieces: u32,
    text: &mut PageBytes,
    tails: &mut [u32; 16],
) -> Result<usize, ChipFault>
    requires pieces { ArePiecesOnChip (C.told chip.old) place page pieces }
    requires empty { text.old.page ≡ empty_page }
    ensures exact { OfContents (C.told chip.old) (λ x. TellsChipFault (first_below
        (piece_fault_at x place head.now.version head.now.unit head.now.generation page pieces) pieces) result) }
    ensures text { ReadsText (λ x. text_below (chart_of x) place page pieces) PAGE_LEN text.new result (C.told chip.old) }
    ensures tails { IfOk result (λ end. AreTails (take end text.new.bytes) tails.new) }
    ensures asks { PageAsked place page pieces result (C.told chip.old) (C.told chip.new) }
    ensures accounts { Accounts (IsPageCause place page) result (C.told chip.old) (C.told chip.new) }
{
    let mut bytes = [0; 512];
    let mut end = 0;
    for piece in 0..pieces {
        let is_last = piece + 1 == pieces;
        end = read_piece(
            chip, place, head, page, piece, is_last, &mut bytes, text, tails,
        )?;
    }
    Ok(end)
}

/// Reads a page whose text is in version 1: beside the page, which keeps its text in another.
fn read_first_page<C: Chip>(
    chip: &mut C,
    place: u32,
    head: &Head,
    page: u32,
    pieces: u32,
    into: &mut PageMap,
) -> Result<(), ChipFault>
    requires pieces { ArePiecesOnChip (C.told chip.old) place page pieces }
    requires version { head.now.version ≡ 1 }
    ensures reads { ReadsPage place head.now page pieces into.new result (C.told chip.old) (C.told chip.new) }
{
    into.reset();
    let mut beside = PageMap::empty();
    let text = beside.bytes_mut();
    text.reset();
    // The page is written in another version, of whose text nothing is known by these.
    let mut tails = [0; 16];
    let end = read_pieces(chip, place, head, page, pieces, text, &mut tails)?;
    if !page_text::read(text.front(end), into, 1) {
        let sector = base_sector(page, 0);
        return Err(ChipFault::Malformed { place, sector });
    }
    Ok(())
}

/// Reads a page (0 to 14) of so many base sectors, at most 16, at the place of a unit whose header has this head. The base
/// sectors and the text are of the version of the header. The base sectors are read in their order, and the first that is
/// at fault ends it: `Damaged` with its two sums where these differ, `Malformed` where it isn't that piece of the page. Where
/// all are well and their text isn't a page's, the first of them is `Malformed`. After a fault the page is empty.
///
/// A text of a later version than the first is written as it was read. Then the tails are what its
/// pieces bring into the sums of the sectors that hold them.
pub fn read_page<C: Chip>(
    chip: &mut C,
    place: u32,
    head: &Head,
    page: u32,
    pieces: u32,
    into: &mut PageMap,
    tails: &mut [u32; 16],
) -> Result<(), ChipFault>
    requires pieces { ArePiecesOnChip (C.told chip.old) place page pieces }
    ensures reads { ReadsPage place head.now page pieces into.new result (C.told chip.old) (C.told chip.new) }
    ensures tails { head.now.version ≢ 1
        → OnOk result (AreTails (page_text VERSION into.new) tails.new) }
{
    if head.version == 1 {
        return read_first_page(chip, place, head, page, pieces, into);
    }
    let text = into.bytes_mut();
    text.reset();
    let end = read_pieces(chip, place, head, page, pieces, text, tails)?;
    if !text.read(end) {
        let sector = base_sector(page, 0);
        return Err(ChipFault::Malformed { place, sector });
    }
    Ok(())
}
