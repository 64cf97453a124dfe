//! How a run of the program ended, on one line.
use anyhow::Result;
use chip_trait::Event;
use ipl_cli::MemDesk;
use std::alloc::Global;
use std::fmt::Write;

/// The status of a run, and the desk as it left it.
#[derive(Drop)]
pub struct Ended {
    pub status: u8,
    pub desk: MemDesk,
}

/// What was said in the first so many events, joined.
pub fn said_in(alloc: Global, events: &[Event], count: usize) -> Result<Vec<u8>> {
    let mut out = Vec::new(alloc);
    for event in events.iter().take(count) {
        if let Event::Said(piece) = event {
            out.extend_from_slice(piece.bytes())?;
        }
    }
    Ok(out)
}

/// Bytes on one line: a stroke for each line feed, and a line that comes again and again once, with
/// its number.
pub fn shown(alloc: Global, bytes: &[u8]) -> Result<String> {
    let mut out = String::new(alloc);
    let mut last = "";
    let mut count = 0_u32;
    for line in str::from_utf8(bytes)?.split_inclusive('\n') {
        if line != last {
            push_lines(&mut out, last, count)?;
            count = 0;
        }
        last = line;
        count = count.saturating_add(1);
    }
    push_lines(&mut out, last, count)?;
    Ok(out)
}

/// Adds a line that came so often.
fn push_lines(out: &mut String, line: &str, count: u32) -> Result<()> {
    out.push_str(line.trim_end())?;
    if count > 1 {
        write!(out, "*{count}")?;
    }
    if line.ends_with('\n') {
        out.push('/')?;
    }
    Ok(())
}

/// The status of a run, what it said and what it noted.
pub fn end_text(alloc: Global, status: u8, said: &[u8], noted: &[u8]) -> Result<String> {
    let mut text = format!(in alloc; "status {status}, says ")?;
    if said.is_empty() {
        text.push_str("nothing")?;
    }
    text.push_str(shown(alloc, said)?.as_str())?;
    if !noted.is_empty() {
        text.push_str(", notes ")?;
        text.push_str(shown(alloc, noted)?.as_str())?;
    }
    Ok(text)
}

impl Ended {
    /// All that was said, joined.
    pub fn said(&self, alloc: Global) -> Result<Vec<u8>> {
        said_in(alloc, self.desk.chip().events(), usize::MAX)
    }

    /// The status, what was said and what was noted.
    pub fn text(&self, alloc: Global) -> Result<String> {
        end_text(alloc, self.status, &self.said(alloc)?, self.desk.noted())
    }
}
