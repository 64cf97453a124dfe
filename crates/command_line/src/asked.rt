//! What the words ask, where they are valid.
ghost use Rattle.std.specs.Prelude.{◌≡◌, IfOk, map};
ghost use Rattle.std.specs.Option.{option_map, option_and_then};
ghost use Rattle.std.specs.String.{string_bytes};
ghost use Rattle.clap.specs.Words.{found_of, rows_of, subcommand_rows_of, first_of};
ghost use Rattle.command_line.specs.Chip.{word_view};
ghost use Rattle.command_line.specs.Asked.{view, is_set, number_in, number_at, frames_at, run_at};
ghost use Rattle.command_line.specs.Asked.{sessions_at, numbers_at, spares_at};
ghost use Rattle.command_line.specs.Asked.{trial_at, request_at, chip_at, asked_at, asked_of};

use crate::chip_word::{ChipWord, chip_word};
use crate::command;
use clap::ArgMatches;
use clap::error::ErrorKind;
use std::alloc::{AllocError, Global};

/// What valid words ask to be done with the chip that they name.
#[derive(Clone, Copy, Debug, PartialEq, Eq)]
pub enum Request {
    /// It is formatted, with so many places kept for those that wear out.
    Format {
        spares: u32,
    },
    /// A script is run with so many page frames and sessions and room for so many committed numbers,
    /// over a chip that is formatted first where that is asked, and closed at the end where that is.
    Run {
        frames: u32,
        sessions: u32,
        numbers: u32,
        format: bool,
        close: bool,
    },
    /// The serial view of a script is said, with so many sessions.
    Serial {
        sessions: u32,
    },
    /// It is checked: all that it holds is read, and its records are counted.
    Check,
    /// All its records are said, of the pages that read well. Nothing is written.
    Records,
    /// So many commands that a seed chooses are done, with so many page frames and sessions and room for
    /// so many committed numbers.
    Trial {
        seed: u32,
        count: u32,
        frames: u32,
        sessions: u32,
        numbers: u32,
    },
}

/// All that valid words ask.
#[derive(Clone, Copy)]
pub(crate) struct Asked<'a> {
    pub(crate) request: Request,
    pub(crate) chip: ChipWord<'a>,
}

/// The word at an argument.
fn text<'a>(matches: &ArgMatches<'a>, id: &str) -> Option<&'a str>
    ensures { option_map (λ s. s.now) result ≡ first_of id.now (rows_of (found_of matches.now)) }
{
    matches.get_str(id)
}

/// Whether a flag is there.
fn is_set(matches: &ArgMatches<'_>, id: &str) -> bool
    ensures { result ≡ is_set id.now (rows_of (found_of matches.now)) }
{
    match text(matches, id) {
        Some(word) => word == "true",
        None => false,
    }
}

/// The number that a text writes, where it is from `low` to `high`, and else `low`. Clap has tested
/// the text before, and no clause says so.
fn number_in(text: &str, low: u32, high: u32) -> u32
    ensures { result ≡ number_in low high text.now }
{
    match text.parse::<u32>() {
        Ok(number) => {
            if low <= number && number <= high {
                number
            } else {
                low
            }
        }
        Err(_) => low,
    }
}

/// The number at an option, and `low` where no text is found.
fn number_at(matches: &ArgMatches<'_>, id: &str, low: u32, high: u32) -> u32
    ensures { result ≡ number_at low high id.now (rows_of (found_of matches.now)) }
{
    match text(matches, id) {
        Some(word) => number_in(word, low, high),
        None => low,
    }
}

/// The number of page frames.
fn frames_at(matches: &ArgMatches<'_>) -> u32
    ensures { result ≡ frames_at (rows_of (found_of matches.now)) }
{
    number_at(matches, "frames", 2, 64)
}

/// The number of sessions.
fn sessions_at(matches: &ArgMatches<'_>) -> u32
    ensures { result ≡ sessions_at (rows_of (found_of matches.now)) }
{
    number_at(matches, "sessions", 1, 32)
}

/// How many committed numbers have room.
fn numbers_at(matches: &ArgMatches<'_>) -> u32
    ensures { result ≡ numbers_at (rows_of (found_of matches.now)) }
{
    number_at(matches, "numbers", 120, 15300)
}

/// The number of places that are kept for those that wear out.
fn spares_at(matches: &ArgMatches<'_>) -> u32
    ensures { result ≡ spares_at (rows_of (found_of matches.now)) }
{
    number_at(matches, "spares", 0, 64)
}

/// What `run` asks to be done.
fn run_at(matches: &ArgMatches<'_>) -> Request
    ensures { result ≡ run_at (rows_of (found_of matches.now)) }
{
    Request::Run {
        frames: frames_at(matches),
        sessions: sessions_at(matches),
        numbers: numbers_at(matches),
        format: is_set(matches, "format"),
        close: is_set(matches, "close"),
    }
}

/// What `trial` asks to be done.
fn trial_at(matches: &ArgMatches<'_>) -> Request
    ensures { result ≡ trial_at (rows_of (found_of matches.now)) }
{
    Request::Trial {
        seed: number_at(matches, "seed", 0, 4294967295),
        count: number_at(matches, "count", 0, 1000000),
        frames: frames_at(matches),
        sessions: sessions_at(matches),
        numbers: numbers_at(matches),
    }
}

/// What a subcommand asks to be done.
fn request_at(name: &str, matches: &ArgMatches<'_>) -> Request
    ensures { result ≡ request_at name.now (rows_of (found_of matches.now)) }
{
    if name == "format" {
        let spares = spares_at(matches);
        return Request::Format { spares };
    }
    if name == "serial" {
        let sessions = sessions_at(matches);
        return Request::Serial { sessions };
    }
    if name == "trial" {
        return trial_at(matches);
    }
    if name == "check" {
        return Request::Check;
    }
    if name == "list" {
        return Request::Records;
    }
    run_at(matches)
}

/// The chip that CHIP names.
fn chip_at<'a>(matches: &ArgMatches<'a>) -> Option<ChipWord<'a>>
    ensures { option_map word_view result ≡ chip_at (rows_of (found_of matches.now)) }
{
    chip_word(text(matches, "chip")?)
}

/// What a subcommand asks, and `None` where its CHIP is none.
fn asked_at<'a>(name: &str, matches: &ArgMatches<'a>) -> Option<Asked<'a>>
    ensures { option_map view result ≡ asked_at name.now (rows_of (found_of matches.now)) }
{
    let chip = chip_at(matches)?;
    let request = request_at(name, matches);
    Some(Asked { request, chip })
}

/// What the matches ask, and `None` where no subcommand is named or CHIP is none.
fn found<'a>(matches: &ArgMatches<'a>) -> Option<Asked<'a>>
    ensures { option_map view result
        ≡ option_and_then (λ p. asked_at p.0 p.1) (subcommand_rows_of matches.now) }
{
    let (name, inner) = matches.subcommand()?;
    asked_at(name, inner)
}

/// What the words ask, and `None` where they aren't valid.
pub(crate) fn asked_by<'a>(
    alloc: Global,
    words: &'a [String],
) -> Result<Option<Asked<'a>>, AllocError>
    ensures { IfOk result (λ r. option_map view r ≡ asked_of (map string_bytes words.entry.now)) }
{
    let command = command::ipl(alloc)?;
    match command.try_get_matches_from(words) {
        Ok(matches) => Ok(found(&matches)),
        Err(error) => match error.kind() {
            ErrorKind::OutOfMemory => Err(AllocError),
            _ => Ok(None),
        },
    }
}
