//! What a run asked of its chip.
use crate::sectors::kind_of;
use crate::words::{join, text_of};
use anyhow::Result;
use byteorder::{BigEndian, ByteOrder};
use chip_trait::Event;
use sector_format::Head;
use std::alloc::Global;
use std::fmt::Write;

/// The kind of an event.
fn word_of(event: &Event) -> &'static str {
    match event {
        Event::Read(_, _) => "read",
        Event::Program(_, _, _) => "program",
        Event::Erase(_) => "erase",
        Event::Worn(_) => "worn",
        Event::Barrier => "barrier",
        Event::Said(_) => "say",
    }
}

/// Adds a kind of event that came so often.
fn push_kind(text: &mut String, word: &str, count: u32) -> Result<()> {
    if count > 0 {
        join(text, word)?;
    }
    if count > 1 {
        write!(text, "*{count}")?;
    }
    Ok(())
}

/// The events by their kinds.
pub fn story(alloc: Global, events: &[Event]) -> Result<String> {
    let mut text = String::new(alloc);
    let mut last = "";
    let mut count = 0_u32;
    for event in events {
        let word = word_of(event);
        if word != last {
            push_kind(&mut text, last, count)?;
            last = word;
            count = 0;
        }
        count = count.saturating_add(1);
    }
    push_kind(&mut text, last, count)?;
    Ok(if text.is_empty() {
        text_of(alloc, "nothing")?
    } else {
        text
    })
}

/// The kind of the last event.
pub fn last(alloc: Global, events: &[Event]) -> Result<String> {
    text_of(
        alloc,
        events.last().map_or("nothing", |event| word_of(event)),
    )
}

/// How many sectors were read.
pub fn reads(alloc: Global, events: &[Event]) -> Result<String> {
    let mut count = 0_u32;
    for event in events {
        if matches!(event, Event::Read(_, _)) {
            count = count.saturating_add(1);
        }
    }
    Ok(format!(in alloc; "{count}")?)
}

/// The places that were erased or found worn, in order.
pub fn erases(alloc: Global, events: &[Event]) -> Result<String> {
    let mut text = String::new(alloc);
    for event in events {
        match event {
            Event::Erase(place) => join(&mut text, format!(in alloc; "{place}")?.as_str())?,
            Event::Worn(place) => join(&mut text, format!(in alloc; "{place} worn")?.as_str())?,
            _ => {}
        }
    }
    Ok(text)
}

/// How often the sector of a header says that its place was erased: in the last four bytes of a data
/// header's payload, and in those behind the number of units in another's.
fn count_in(bytes: &[u8; 512]) -> u32 {
    let at = if bytes[4] == Head::DATA_HEADER {
        52
    } else {
        36
    };
    BigEndian::read_u32(&bytes[at..at + 4])
}

/// The headers that were programmed, in order: their places, and how often these say that they were
/// erased.
pub fn headers(alloc: Global, events: &[Event]) -> Result<String> {
    let mut text = String::new(alloc);
    for event in events {
        if let Event::Program(place, 0, bytes) = event {
            let count = count_in(bytes);
            join(&mut text, format!(in alloc; "{place} of {count}")?.as_str())?;
        }
    }
    Ok(text)
}

/// How many headers of a kind were programmed.
pub fn headers_of(alloc: Global, events: &[Event], word: &str) -> Result<String> {
    let kind = kind_of(word)?;
    let mut count = 0_u32;
    for event in events {
        if let Event::Program(_, 0, bytes) = event {
            if bytes[4] == kind {
                count = count.saturating_add(1);
            }
        }
    }
    Ok(format!(in alloc; "{count}")?)
}

/// How many events come before the header of this number, from 1 on.
pub fn events_before_header(events: &[Event], number: u32) -> usize {
    let mut left = number;
    for (at, event) in events.iter().enumerate() {
        if matches!(event, Event::Program(_, 0, _)) {
            left = left.saturating_sub(1);
            if left == 0 {
                return at;
            }
        }
    }
    events.len()
}
