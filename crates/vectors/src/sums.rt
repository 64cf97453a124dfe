//! Sums of bytes: `sum BYTES`, or `sum BYTES BYTES` of those of both.
use crate::words::bytes_of;
use anyhow::Result;
use crc_sum::{Crc, crc32, crc32_parts};
use std::alloc::Global;

/// What comes of a row `sum BYTES`, or `sum BYTES BYTES`: the CRC-32 of the bytes, or of both one
/// after the other, in eight hex digits. Fails where bytes are misspelled, or memory is wanting.
pub fn sum_row(alloc: Global, rest: &str) -> Result<String> {
    match rest.split_once(' ') {
        None => {
            let sum = crc32(&bytes_of(alloc, rest)?);
            Ok(format!(in alloc; "{sum:08x}")?)
        }
        Some((first, second)) => {
            let first = bytes_of(alloc, first)?;
            parts_sum(alloc, &first, &bytes_of(alloc, second)?)
        }
    }
}

/// The sum of both, in parts and fed one after the other.
fn parts_sum(alloc: Global, first: &[u8], second: &[u8]) -> Result<String> {
    let sum = crc32_parts(first, second);
    let mut crc = Crc::start();
    crc.feed(first);
    crc.feed(second);
    let fed = crc.sum();
    if fed == sum {
        return Ok(format!(in alloc; "{sum:08x}")?);
    }
    Ok(format!(in alloc; "{sum:08x} in parts, {fed:08x} fed")?)
}
