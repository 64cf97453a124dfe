//! Words of a command line: `words WORDS`, what they ask, and over which chip.
use crate::words::{text_of, words_of};
use anyhow::Result;
use command_line::{Choice, Request, chip_choice, request};
use std::alloc::Global;

/// What comes of a row `words WORDS`: what the words of a command line ask, and over which chip;
/// both are `nothing` where they aren't valid. Fails where memory is wanting.
pub fn words_row(alloc: Global, rest: &str) -> Result<String> {
    let words = owned(alloc, rest)?;
    let asked = asked_text(alloc, request(alloc, &words)?)?;
    let chip = chip_text(alloc, &chip_choice(alloc, &words)?)?;
    Ok(format!(in alloc; "{asked} over {chip}")?)
}

/// The words of a row, each on its own.
fn owned(alloc: Global, rest: &str) -> Result<Vec<String>> {
    let mut words = Vec::new(alloc);
    for word in words_of(alloc, rest)? {
        words.push(String::from_str(alloc, word)?)?;
    }
    Ok(words)
}

/// What is asked, if anything is.
fn asked_text(alloc: Global, asked: Option<Request>) -> Result<String> {
    match asked {
        None => text_of(alloc, "nothing"),
        Some(request) => request_text(alloc, request),
    }
}

/// What a request asks.
fn request_text(alloc: Global, request: Request) -> Result<String> {
    match request {
        Request::Format { spares } => Ok(format!(in alloc; "format spares {spares}")?),
        Request::Serial { sessions } => Ok(format!(in alloc; "serial sessions {sessions}")?),
        Request::Check => text_of(alloc, "check"),
        Request::Records => text_of(alloc, "list"),
        Request::Run {
            frames,
            sessions,
            numbers,
            format,
            close,
        } => {
            let how = if format { " format" } else { "" };
            let then = if close { " close" } else { "" };
            let room = format!(in alloc; "sessions {sessions} numbers {numbers}")?;
            Ok(format!(in alloc; "run frames {frames} {room}{how}{then}")?)
        }
        Request::Trial {
            seed,
            count,
            frames,
            sessions,
            numbers,
        } => {
            let room = format!(in alloc; "sessions {sessions} numbers {numbers}")?;
            let how = format!(in alloc; "seed {seed} count {count}")?;
            Ok(format!(in alloc; "trial {how} frames {frames} {room}")?)
        }
    }
}

/// A chip.
fn chip_text(alloc: Global, chip: &Choice) -> Result<String> {
    match chip {
        Choice::Nothing => text_of(alloc, "nothing"),
        Choice::Ram(places) => Ok(format!(in alloc; "ram {places}")?),
        Choice::File(places, path) => {
            let path = path.as_str();
            Ok(format!(in alloc; "file {places} {path}")?)
        }
    }
}
