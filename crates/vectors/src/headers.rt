//! Payloads of headers, in a version: `data BYTES`, `status PLACES BYTES` on a chip of so many places,
//! `overflow BYTES`, what they say, and how that is written, as all is written now: as the same bytes, or
//! with more behind them; `erases KIND BYTES`, how often the place of such a header was erased; and
//! numbers of sectors, `base PAGE PIECE` and `log NUMBER`.
ghost use Rattle.std.specs.Prelude.{◌↔◌, IsTrue, All};
ghost use Rattle.ipl_format.specs.Header.{IsCount};

use crate::words::{bytes_of, join, number, parted, text_of, versioned};
use anyhow::{Result, ensure};
use ipl_format::word_at;
use std::alloc::Global;
use unit_layout::{
    DataHeader, OverflowHeader, StatusHeader, base_sector, erases_in, log_sector, read_data_header,
    read_overflow_header, read_status_header, write_data_header, write_overflow_header,
    write_status_header,
};

/// What comes of a row `data BYTES`, in a version: what the payload of a data header says, and
/// `same`, `more` or `other`, by how it is written now; or `refused`, where the bytes are no such
/// payload. Fails where the version or the bytes are misspelled, or memory is wanting.
pub fn data_row(alloc: Global, rest: &str) -> Result<String> {
    let (version, rest) = versioned(rest)?;
    let bytes = bytes_of(alloc, rest)?;
    let Some(header) = read_data_header(&bytes, version) else {
        return text_of(alloc, "refused");
    };
    let DataHeader {
        units,
        pieces,
        carried,
        erases,
    } = header;
    let mut text = format!(in alloc;
        "units {units} pieces {pieces:?} carried {carried} erases {erases}"
    )?;
    join(&mut text, data_again(&header, &bytes))?;
    Ok(text)
}

/// How a data header that was read from these bytes is written.
fn data_again(header: &DataHeader, bytes: &[u8]) -> &'static str {
    if header.carried > 12 || !are_counts(&header.pieces) {
        return "other";
    }
    let mut out = [0xaa; 24];
    write_data_header(header, &mut out);
    again(&out, bytes)
}

fn are_counts(pieces: &[u8; 15]) -> bool
    ensures { IsTrue result ↔ All IsCount pieces.now }
{
    pieces.iter().all(|count| *count <= 16)
}

/// What is printed where this is written of what was read from these bytes.
fn again(written: &[u8], bytes: &[u8]) -> &'static str {
    if written == bytes {
        "same"
    } else if written.starts_with(bytes) {
        "more"
    } else {
        "other"
    }
}

/// What comes of a row `status PLACES BYTES`, in a version: the same of the payload of a status
/// header on a chip of so many places, with the places that it lists as retired. Fails where a word
/// is misspelled, or memory is wanting.
pub fn status_row(alloc: Global, rest: &str) -> Result<String> {
    let (version, rest) = versioned(rest)?;
    let (places, rest) = parted(rest);
    let bytes = bytes_of(alloc, rest)?;
    let Some(header) = read_status_header(&bytes, version, number(places)?) else {
        return text_of(alloc, "refused");
    };
    let retired = retired_in(alloc, &bytes)?;
    ensure!(retired.len() <= 64, "no list");
    let mut out = [0xaa; 265];
    let used = write_status_header(&header, &retired, &mut out);
    let same = again(&out[..used], &bytes);
    let StatusHeader { units, erases } = header;
    let retired = retired.as_slice();
    Ok(format!(in alloc; "units {units} erases {erases} retired {retired:?}/{same}")?)
}

/// The places that stand behind the first nine bytes.
fn retired_in(alloc: Global, bytes: &[u8]) -> Result<Vec<u32>> {
    let mut retired = Vec::new(alloc);
    for i in 0..64 {
        let at = 9 + 4 * i;
        if at + 4 <= bytes.len() {
            retired.push(word_at(bytes, at))?;
        }
    }
    Ok(retired)
}

/// What comes of a row `overflow BYTES`, in a version: the same of the payload of an overflow
/// header. Fails where the version or the bytes are misspelled, or memory is wanting.
pub fn overflow_row(alloc: Global, rest: &str) -> Result<String> {
    let (version, rest) = versioned(rest)?;
    let bytes = bytes_of(alloc, rest)?;
    let Some(header) = read_overflow_header(&bytes, version) else {
        return text_of(alloc, "refused");
    };
    let OverflowHeader { units, erases } = header;
    let mut out = [0xaa; 8];
    write_overflow_header(units, erases, &mut out);
    let same = again(&out, &bytes);
    Ok(format!(in alloc; "units {units} erases {erases}/{same}")?)
}

/// What comes of a row `erases KIND BYTES`, in a version: how often a place was erased, by a sector
/// 0 of this kind, 0 to 255, and this payload. Fails where a word is misspelled, or memory is
/// wanting.
pub fn erases_row(alloc: Global, rest: &str) -> Result<String> {
    let (version, rest) = versioned(rest)?;
    let (kind, rest) = parted(rest);
    let erases = erases_in(kind.parse::<u8>()?, version, &bytes_of(alloc, rest)?);
    Ok(format!(in alloc; "{erases}")?)
}

/// What comes of a row `base PAGE PIECE`: the sector, 1 to 240, of a piece of a page's text. Fails
/// where the page isn't 0 to 14 or the piece isn't 0 to 15, or memory is wanting.
pub fn base_row(alloc: Global, rest: &str) -> Result<String> {
    let (page, piece) = parted(rest);
    let page = number(page)?;
    let piece = number(piece)?;
    ensure!(page < 15 && piece < 16, "no piece");
    let sector = base_sector(page, piece);
    Ok(format!(in alloc; "sector {sector}")?)
}

/// What comes of a row `log NUMBER`: the log sector of this number in the place of a unit, 241 to
/// 255. Fails where the number isn't 0 to 14, or memory is wanting.
pub fn log_row(alloc: Global, rest: &str) -> Result<String> {
    let i = number(rest)?;
    ensure!(i < 15, "no log sector");
    let sector = log_sector(i);
    Ok(format!(in alloc; "sector {sector}")?)
}
