//! Sectors that scenes spell.
use crate::words::{number, text_of};
use anyhow::{Result, bail, ensure};
use chip_mem::MemChip;
use chip_trait::Chip;
use crc_sum::crc32_parts;
use ipl_base::VERSION;
use sector_format::{Decoded, Head, decode, encode};
use std::alloc::Global;

/// The words for the kinds of sector, from kind 1 on.
const KINDS: [&str; 7] = [
    "data", "status", "overflow", "base", "log", "commit", "mark",
];

/// The kind that a word stands for.
pub fn kind_of(word: &str) -> Result<u8> {
    match word {
        "data" => Ok(Head::DATA_HEADER),
        "status" => Ok(Head::STATUS_HEADER),
        "overflow" => Ok(Head::OVERFLOW_HEADER),
        "base" => Ok(Head::BASE),
        "log" => Ok(Head::LOG),
        "commit" => Ok(Head::COMMIT),
        "mark" => Ok(Head::MARK),
        _ => bail!("no kind {word}"),
    }
}

/// The bytes that a word spells: `-` for none, else hex digits with points between the parts, each of
/// which may have a star and a number behind it.
pub fn bytes_of(alloc: Global, word: &str) -> Result<Vec<u8>> {
    let mut bytes = Vec::new(alloc);
    if word == "-" {
        return Ok(bytes);
    }
    for part in word.split('.') {
        let (digits, count) = part.split_once('*').unwrap_or((part, "1"));
        let piece = hex::decode(alloc, digits)?;
        for _ in 0..number(count)? {
            bytes.extend_from_slice(&piece)?;
        }
    }
    Ok(bytes)
}

/// A head, from its words.
fn head_of(kind: &str, version: &str, unit: &str, generation: &str, serial: &str) -> Result<Head> {
    let Some(version) = version.strip_prefix('v') else {
        bail!("no version");
    };
    Ok(Head {
        kind: kind_of(kind)?,
        version: version.parse::<u8>()?,
        unit: number(unit)?,
        generation: generation.parse::<u64>()?,
        serial: serial.parse::<u64>()?,
    })
}

/// The sector of a head and a payload.
fn sector_of(head: &Head, payload: &[u8]) -> Result<[u8; 512]> {
    let mut bytes = [0; 512];
    ensure!(payload.len() <= 480, "a payload of more than 480 bytes");
    ensure!(1 <= head.kind && head.kind <= 7, "no kind");
    ensure!(1 <= head.version && head.version <= VERSION, "no version");
    encode(head, payload, &mut bytes);
    Ok(bytes)
}

/// The sector with one of its bytes changed, and its sum taken anew.
fn changed(bytes: &[u8; 512], index: &str, value: &str) -> Result<[u8; 512]> {
    let mut sector = *bytes;
    match sector.get_mut(number(index)? as usize) {
        Some(byte) => *byte = value.parse::<u8>()?,
        None => bail!("no byte {index}"),
    }
    let sum = crc32_parts(&sector[..28], &sector[32..]).to_be_bytes();
    sector[28..32].copy_from_slice(&sum);
    Ok(sector)
}

/// The sector whose head and payload words spell.
fn headed(alloc: Global, words: &[&str]) -> Result<[u8; 512]> {
    let [kind, version, unit, generation, serial, payload] = words else {
        bail!("no sector");
    };
    let head = head_of(*kind, *version, *unit, *generation, *serial)?;
    sector_of(&head, &bytes_of(alloc, *payload)?)
}

/// The sector that words spell: all its bytes, or a head and a payload, and then a byte to change.
fn spelled(alloc: Global, words: &[&str]) -> Result<[u8; 512]> {
    match words {
        [bytes] => whole(&bytes_of(alloc, *bytes)?),
        [_, _, _, _, _, _] => headed(alloc, words),
        [unchanged @ .., index, value] => changed(&headed(alloc, unchanged)?, *index, *value),
        _ => bail!("no sector"),
    }
}

/// A sector of these bytes.
fn whole(bytes: &[u8]) -> Result<[u8; 512]> {
    let mut sector = [0; 512];
    ensure!(bytes.len() == 512, "no 512 bytes");
    sector.copy_from_slice(bytes);
    Ok(sector)
}

/// Sets a sector of a chip.
fn put(chip: &mut MemChip, place: u32, sector: u32, bytes: &[u8; 512]) -> Result<()> {
    ensure!(place < chip.units() && sector < 256, "no such sector");
    chip.alter(place, sector, bytes);
    Ok(())
}

/// What a chip holds at a sector.
fn held(chip: &mut MemChip, place: u32, sector: u32) -> Result<[u8; 512]> {
    let mut bytes = [0; 512];
    ensure!(place < chip.units() && sector < 256, "no such sector");
    ensure!(chip.read(place, sector, &mut bytes).is_ok(), "not read");
    Ok(bytes)
}

/// Sets the sector of a chip that words name and spell.
pub fn write(alloc: Global, chip: &mut MemChip, words: &[&str]) -> Result<()> {
    let [place, sector, spelling @ ..] = words else {
        bail!("no sector");
    };
    let bytes = spelled(alloc, spelling)?;
    put(chip, number(*place)?, number(*sector)?, &bytes)
}

/// Changes the byte of a chip that words name.
pub fn alter(chip: &mut MemChip, words: &[&str]) -> Result<()> {
    let [place, sector, index, value] = words else {
        bail!("no byte");
    };
    let (place, sector) = (number(*place)?, number(*sector)?);
    let mut bytes = held(chip, place, sector)?;
    match bytes.get_mut(number(*index)? as usize) {
        Some(byte) => *byte = value.parse::<u8>()?,
        None => bail!("no byte"),
    }
    put(chip, place, sector, &bytes)
}

/// What the sector of a chip says that words name.
pub fn sector(alloc: Global, chip: &mut MemChip, words: &[&str]) -> Result<String> {
    let [place, sector] = words else {
        bail!("no sector");
    };
    let bytes = held(chip, number(*place)?, number(*sector)?)?;
    match decode(&bytes) {
        Decoded::Erased => text_of(alloc, "erased"),
        Decoded::Bad { .. } => text_of(alloc, "bad"),
        Decoded::Strange => text_of(alloc, "strange"),
        Decoded::Sector(head, used) => sector_text(alloc, &head, &bytes, used),
    }
}

/// A sector that checks, as it is spelled.
fn sector_text(alloc: Global, head: &Head, bytes: &[u8; 512], used: usize) -> Result<String> {
    let kind = KINDS
        .get((head.kind as usize).saturating_sub(1))
        .map_or("", |kind| *kind);
    let Head {
        version,
        unit,
        generation,
        serial,
        ..
    } = *head;
    let payload = bytes.get(32..used.saturating_add(32)).unwrap_or(&[]);
    let digits = if payload.is_empty() {
        text_of(alloc, "-")?
    } else {
        hex::encode(alloc, payload)?
    };
    Ok(format!(in alloc; "{kind} v{version} {unit} {generation} {serial} {digits}")?)
}
