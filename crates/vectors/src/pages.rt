//! Texts of pages, in a version: `page BYTES`, each slot that the text has, and whether it is written
//! again as the same bytes; and `slots CHANGE..`, the text of a page after each change, from an empty
//! page on, as all is written now.
ghost use Rattle.std.specs.Prelude.{◌≡◌, All};
ghost use Rattle.ipl_format.specs.Page.{IsShort};

use crate::words::{bytes_of, hex_of, join, number, text_of, versioned, words_of};
use anyhow::{Context, Result, ensure};
use ipl_base::{SLOTS, Value};
use page_text::{PageMap, read, write};
use std::alloc::Global;

/// What comes of a row `page BYTES`, in a version: each slot that the text of a page has and its
/// value, and `same` or `other`, by whether it is written again as the same bytes; or `refused`,
/// where the bytes are no page's text. Fails where a word is misspelled, or memory is wanting.
pub fn page_row(alloc: Global, rest: &str) -> Result<String> {
    let (version, rest) = versioned(rest)?;
    let bytes = bytes_of(alloc, rest)?;
    let mut map = PageMap::empty();
    if !read(&bytes, &mut map, version) {
        return text_of(alloc, "refused");
    }
    let mut text = slots_text(alloc, &map)?;
    join(
        &mut text,
        if is_written(&map, &bytes, version) {
            "same"
        } else {
            "other"
        },
    )?;
    Ok(text)
}

/// The slots that hold something.
fn slots_text(alloc: Global, map: &PageMap) -> Result<String> {
    let mut text = String::new(alloc);
    for slot in 0..64 {
        if let Some(value) = map.get(slot) {
            let value = hex_of(alloc, value)?;
            join(&mut text, format!(in alloc; "{slot} {value}")?.as_str())?;
        }
    }
    Ok(text)
}

/// Whether the text of a page in a version is these bytes.
fn is_written(map: &PageMap, bytes: &[u8], version: u8) -> bool
    requires { version ≡ 1 → All (IsShort 1) map.now }
{
    let mut out = [0; 7680];
    let len = write(map, &mut out, version);
    &out[..len] == bytes
}

/// A change is `SLOT:BYTES`, a put, or `SLOT`, a delete.
pub fn slots_row(alloc: Global, rest: &str) -> Result<String> {
    let mut map = PageMap::empty();
    let mut text = String::new(alloc);
    for word in words_of(alloc, rest)? {
        change_slot(alloc, &mut map, word)?;
        let bytes = hex_of(alloc, map.text())?;
        join(&mut text, bytes.as_str())?;
    }
    Ok(text)
}

fn change_slot(alloc: Global, map: &mut PageMap, word: &str) -> Result<()> {
    let (slot, bytes) = match word.split_once(':') {
        Some((slot, bytes)) => (number(slot)?, Some(bytes)),
        None => (number(word)?, None),
    };
    ensure!(slot < SLOTS, "no slot");
    match bytes {
        Some(bytes) => {
            let value = Value::of(&bytes_of(alloc, bytes)?).context("no value")?;
            ensure!(map.has_room(slot, value.bytes()), "no room");
            map.set(slot, value.bytes());
        }
        None => map.clear(slot),
    }
    Ok(())
}
