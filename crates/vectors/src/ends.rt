//! Ends of the program: `end NAME NUMBERS`, the status and the line that is noted.
use crate::words::{number, words_of};
use anyhow::{Result, bail};
use command_line::{End, NoteLine, status};
use ipl_base::{ChipFault, ImageFault};
use std::alloc::Global;

/// What comes of a row `end NAME NUMBERS`: the status of the end, and the line that is noted,
/// without its line feed. Fails where the words behind the verb are no end, or memory is wanting.
pub fn ends_row(alloc: Global, rest: &str) -> Result<String> {
    let words = words_of(alloc, rest)?;
    let end = match words.as_slice() {
        ["words"] => End::Words,
        ["memory"] => End::OutOfMemory,
        ["script"] => End::Script,
        ["output"] => End::Output,
        ["long"] => End::TooLong,
        faults => End::Chip(image_fault(faults)?),
    };
    let number = status(end);
    let line = NoteLine::of(end);
    let text = str::from_utf8(line.bytes())?.trim_end();
    Ok(format!(in alloc; "{number} {text}")?)
}

/// The fault of an image that words name.
fn image_fault(words: &[&str]) -> Result<ImageFault> {
    Ok(match words {
        ["geometry"] => ImageFault::Geometry,
        ["unformatted"] => ImageFault::NotFormatted,
        ["missing", unit] => ImageFault::Missing(number(*unit)?),
        ["spent"] => ImageFault::Spent,
        ["spare", places] => ImageFault::NoSpare(number(*places)?),
        ["numbers"] => ImageFault::TooManyNumbers,
        faults => ImageFault::Chip(chip_fault(faults)?),
    })
}

/// The fault of a chip that words name.
fn chip_fault(words: &[&str]) -> Result<ChipFault> {
    Ok(match words {
        ["read"] => ChipFault::ReadFault,
        ["write"] => ChipFault::Stopped,
        ["worn", places] => ChipFault::WornOut(number(*places)?),
        ["malformed", place, sector] => ChipFault::Malformed {
            place: number(*place)?,
            sector: number(*sector)?,
        },
        ["damaged", place, sector, stored, computed] => ChipFault::Damaged {
            place: number(*place)?,
            sector: number(*sector)?,
            stored: number(*stored)?,
            computed: number(*computed)?,
        },
        _ => bail!("no end"),
    })
}
