//! The words of a scene.
use anyhow::{Context, Result};
use std::alloc::Global;

/// The words of a line, which are parted by spaces.
pub fn words_of<'a>(alloc: Global, rest: &'a str) -> Result<Vec<&'a str>> {
    Ok(
        rest.split(' ')
            .filter(|word| !word.is_empty())
            .collect(alloc)?,
    )
}

/// The first word, and what stands behind the space after it.
pub fn parted(rest: &str) -> (&str, &str) {
    rest.split_once(' ').unwrap_or((rest, ""))
}

/// The number that a word is.
pub fn number(word: &str) -> Result<u32> {
    word.parse::<u32>().context("no number")
}

/// The numbers in the words of a line; `137*80` is one number 80 times.
pub fn numbers_of(alloc: Global, rest: &str) -> Result<Vec<u32>> {
    let mut numbers = Vec::new(alloc);
    for word in words_of(alloc, rest)? {
        let (value, count) = word.split_once('*').unwrap_or((word, "1"));
        let value = number(value)?;
        for _ in 0..number(count)? {
            numbers.push(value)?;
        }
    }
    Ok(numbers)
}

/// A text of its own.
pub fn text_of(alloc: Global, text: &str) -> Result<String> {
    Ok(String::from_str(alloc, text)?)
}

/// Puts a part behind the others, with a comma between them.
pub fn join(text: &mut String, part: &str) -> Result<()> {
    if !text.is_empty() {
        text.push_str(", ")?;
    }
    text.push_str(part)?;
    Ok(())
}
