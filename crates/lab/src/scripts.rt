//! Scripts that stand on one line.
use crate::words::{number, parted};
use anyhow::{Context, Result};
use std::alloc::Global;
use std::fmt::Write;

/// The bytes of a script: a stroke stands for a line feed, a star for a repetition, and braces for their
/// text with each of some numbers.
pub fn script_of(alloc: Global, text: &str) -> Result<Vec<u8>> {
    let lines = unrolled(alloc, text)?;
    let mut script = Vec::new(alloc);
    for (index, line) in lines.as_str().split('/').enumerate() {
        if index > 0 {
            script.push(b'\n')?;
        }
        push_line(&mut script, line)?;
    }
    Ok(script)
}

/// The text of a script without braces.
fn unrolled(alloc: Global, text: &str) -> Result<String> {
    let mut out = String::new(alloc);
    for (index, part) in text.split('{').enumerate() {
        if index == 0 {
            out.push_str(part)?;
        } else {
            push_group(&mut out, part)?;
        }
    }
    Ok(out)
}

/// Adds what stands in braces, with each of its numbers, and what stands behind them.
fn push_group(out: &mut String, part: &str) -> Result<()> {
    let (group, behind) = part.split_once('}').context("no closing brace")?;
    let (range, body) = group.split_once(": ").context("no colon")?;
    let (first, last) = parted(range);
    for value in number(first)?..=number(last)? {
        push_filled(out, body, value)?;
    }
    out.push_str(behind)?;
    Ok(())
}

/// Adds a text with a number in it.
fn push_filled(out: &mut String, body: &str, value: u32) -> Result<()> {
    for character in body.chars() {
        match character {
            '@' => write!(out, "{value}")?,
            '%' => write!(out, "{value:02x}")?,
            _ => out.push(character)?,
        }
    }
    Ok(())
}

/// Adds the words of a line.
fn push_line(script: &mut Vec<u8>, line: &str) -> Result<()> {
    for (index, word) in line.split(' ').enumerate() {
        if index > 0 {
            script.push(b' ')?;
        }
        push_word(script, word)?;
    }
    Ok(())
}

/// Adds a word, or, with a star and a number behind it, as often.
fn push_word(script: &mut Vec<u8>, word: &str) -> Result<()> {
    let (piece, count) = word.split_once('*').unwrap_or((word, "1"));
    for _ in 0..number(count)? {
        script.extend_from_slice(piece.as_bytes())?;
    }
    Ok(())
}
