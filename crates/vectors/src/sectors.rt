//! Sectors: `decode BYTES`, of the bytes with zeros behind them up to 512; `seal BYTES`, of the same
//! with their sum put in; `encode KIND UNIT GENERATION SERIAL BYTES`, in a version, the head and the
//! payload.
ghost use Rattle.ipl_format.specs.Version.{IsVersion};

use crate::words::{bytes_of, hex_of, number, text_of, versioned, words_of};
use anyhow::{Result, bail, ensure};
use crc_sum::crc32_parts;
use sector_format::{Decoded, Head, decode, encode};
use std::alloc::Global;

/// What comes of a row `decode BYTES`: what the bytes say as a sector, with zeros behind them up to
/// 512, or that it is erased, bad or strange. Fails where they are more than 512 or misspelled, or
/// memory is wanting.
pub fn decode_row(alloc: Global, rest: &str) -> Result<String> {
    let sector = sector_of(&bytes_of(alloc, rest)?)?;
    said(alloc, &sector)
}

/// What comes of a row `seal BYTES`: the same of that sector once its sum is put into bytes 28..32.
/// Fails where the bytes are more than 512 or misspelled, or memory is wanting.
pub fn seal_row(alloc: Global, rest: &str) -> Result<String> {
    let mut sector = sector_of(&bytes_of(alloc, rest)?)?;
    let sum = crc32_parts(&sector[..28], &sector[32..]).to_be_bytes();
    sector[28..32].copy_from_slice(&sum);
    said(alloc, &sector)
}

/// The bytes, with zeros behind them.
fn sector_of(bytes: &[u8]) -> Result<[u8; 512]> {
    let mut sector = [0; 512];
    ensure!(bytes.len() <= 512, "no sector");
    sector[..bytes.len()].copy_from_slice(bytes);
    Ok(sector)
}

/// What a sector says.
fn said(alloc: Global, sector: &[u8; 512]) -> Result<String> {
    match decode(sector) {
        Decoded::Erased => text_of(alloc, "erased"),
        Decoded::Bad { stored, computed } => {
            Ok(format!(in alloc; "bad, stored {stored:08x} computed {computed:08x}")?)
        }
        Decoded::Strange => text_of(alloc, "strange"),
        Decoded::Sector(head, used) => head_text(alloc, head, used),
    }
}

/// The fields of a head, and how many bytes of payload stand behind it; its version first, where
/// that isn't 1.
fn head_text(alloc: Global, head: Head, used: usize) -> Result<String> {
    let Head {
        kind,
        version,
        unit,
        generation,
        serial,
    } = head;
    let text = format!(in alloc;
        "kind {kind} unit {unit} generation {generation} serial {serial} used {used}"
    )?;
    if version == 1 {
        return Ok(text);
    }
    Ok(format!(in alloc; "v{version} {text}")?)
}

/// What comes of a row `encode KIND UNIT GENERATION SERIAL BYTES`, in a version: the head of 32
/// bytes and the payload of the sector, in hex digits. Fails where the kind isn't 1 to 7, the
/// payload has more than 480 bytes, a word is misspelled, missing or one too many, or memory is
/// wanting.
pub fn encode_row(alloc: Global, rest: &str) -> Result<String> {
    let (version, rest) = versioned(rest)?;
    let words = words_of(alloc, rest)?;
    let [kind, unit, generation, serial, bytes] = words.as_slice() else {
        bail!("no head");
    };
    let head = Head {
        kind: kind.parse::<u8>()?,
        version,
        unit: number(*unit)?,
        generation: generation.parse::<u64>()?,
        serial: serial.parse::<u64>()?,
    };
    let payload = bytes_of(alloc, *bytes)?;
    encoded(alloc, &head, &payload)
}

/// The bytes of a head and a payload.
fn encoded(alloc: Global, head: &Head, payload: &[u8]) -> Result<String>
    requires { IsVersion head.now.version }
{
    ensure!(
        1 <= head.kind && head.kind <= 7 && payload.len() <= 480,
        "no sector"
    );
    let mut out = [0xaa; 512];
    encode(head, payload, &mut out);
    hex_of(alloc, &out[..32 + payload.len()])
}
