//! The words of a row, read and written.
ghost use Rattle.std.specs.Prelude.{IfOk};
ghost use Rattle.ipl_format.specs.Version.{IsVersion};

use anyhow::{Context, Result, ensure};
use ipl_base::{Geometry, VERSION};
use std::alloc::Global;

/// The words of a row, which are parted by spaces.
pub fn words_of<'a>(alloc: Global, rest: &'a str) -> Result<Vec<&'a str>> {
    Ok(
        rest.split(' ')
            .filter(|word| !word.is_empty())
            .collect(alloc)?,
    )
}

/// The first word, and what stands behind the space after it.
pub fn parted(rest: &str) -> (&str, &str) {
    rest.split_once(' ').unwrap_or((rest, ""))
}

/// The version of a row of bytes, and what stands behind it: `v2` or `v3` comes first in a row of
/// version 2 or 3, and a row that names none is of version 1.
pub fn versioned(rest: &str) -> Result<(u8, &str)>
    ensures { IfOk result (λ row. IsVersion row.0) }
{
    let Some(named) = rest.strip_prefix('v') else {
        return Ok((1, rest));
    };
    let (version, rest) = parted(named);
    let version = version.parse::<u8>()?;
    ensure!(1 <= version && version <= VERSION, "no version");
    Ok((version, rest))
}

/// The number that a word is.
pub fn number(word: &str) -> Result<u32> {
    word.parse::<u32>().context("no number")
}

/// The size of a chip of so many places.
pub fn geometry_of(word: &str) -> Result<Geometry> {
    Geometry::of(number(word)?).context("no geometry")
}

/// The bytes that a word spells: `-` for none, else parts with points between them. A part is a text
/// behind `=`, or pairs of hex digits, once or, with a star and a number behind them, so often.
pub fn bytes_of(alloc: Global, word: &str) -> Result<Vec<u8>> {
    let mut bytes = Vec::new(alloc);
    if word == "-" {
        return Ok(bytes);
    }
    for part in word.split('.') {
        add_part(alloc, &mut bytes, part)?;
    }
    Ok(bytes)
}

/// Adds the bytes of a part.
fn add_part(alloc: Global, bytes: &mut Vec<u8>, part: &str) -> Result<()> {
    if let Some(text) = part.strip_prefix('=') {
        bytes.extend_from_slice(text.as_bytes())?;
        return Ok(());
    }
    let (digits, count) = part.split_once('*').unwrap_or((part, "1"));
    let piece = hex::decode(alloc, digits)?;
    for _ in 0..number(count)? {
        bytes.extend_from_slice(&piece)?;
    }
    Ok(())
}

/// The bytes in hex digits, `-` for none.
pub fn hex_of(alloc: Global, bytes: &[u8]) -> Result<String> {
    if bytes.is_empty() {
        return Ok(String::from_str(alloc, "-")?);
    }
    Ok(hex::encode(alloc, bytes)?)
}

/// A text of its own.
pub fn text_of(alloc: Global, text: &str) -> Result<String> {
    Ok(String::from_str(alloc, text)?)
}

/// Puts a part behind the others, with a stroke between them.
pub fn join(text: &mut String, part: &str) -> Result<()> {
    if !text.is_empty() {
        text.push_str("/")?;
    }
    text.push_str(part)?;
    Ok(())
}
