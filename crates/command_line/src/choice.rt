//! The calls that read the words.
ghost use Rattle.std.specs.Prelude.{◌≡◌, List, ℕ, IfOk, IfSome, map};
ghost use Rattle.std.specs.String.{string_bytes};
ghost use Rattle.command_line.specs.Asked.{IsInBounds};
ghost use Rattle.command_line.specs.Choice.{chosen, requested};

use crate::asked::{Request, asked_by};
use crate::chip_word::ChipWord;
use ipl_base::OutOfMemory;
use std::alloc::Global;
use std::marker::Model;

/// The path of a file. A contract sees it as its bytes.
#[derive(Debug, Drop)]
pub struct PathText {
    text: String,
}

impl Model for PathText {
    ghost use Rattle.std.specs.Prelude.{List, ℕ};
    ghost use Rattle.std.specs.String.{string_bytes};

    ghost Value = { List ℕ };

    ghost view = { λ path. string_bytes path.text };
}

impl PathText {
    /// Owns a copy of the path.
    fn of(alloc: Global, path: &str) -> Result<PathText, OutOfMemory>
        ensures { IfOk result (λ owned. owned ≡ path.now) }
    {
        Ok(PathText {
            text: String::from_str(alloc, path)?,
        })
    }

    /// The path.
    pub fn as_str(&self) -> &str
        ensures { result.now ≡ self.now }
    {
        self.text.as_str()
    }
}

/// The chip that the words choose: one of so many places in memory, one of so many in the file at a
/// path, or none, where the words aren't valid.
#[derive(Debug, Drop)]
pub enum Choice {
    Ram(u32),
    File(u32, PathText),
    Nothing,
}

/// The chip that the words choose. Want of memory is its one fault.
pub fn chip_choice(alloc: Global, words: &[String]) -> Result<Choice, OutOfMemory>
    ensures { IfOk result (λ choice. choice ≡ chosen (map string_bytes words.now)) }
{
    match asked_by(alloc, words)? {
        None => Ok(Choice::Nothing),
        Some(asked) => match asked.chip {
            ChipWord::Ram(units) => Ok(Choice::Ram(units)),
            ChipWord::File(units, path) => Ok(Choice::File(units, PathText::of(alloc, path)?)),
        },
    }
}

/// What the words ask to be done, with numbers within their bounds, and `None` where they aren't
/// valid. Want of memory is its one fault.
pub fn request(alloc: Global, words: &[String]) -> Result<Option<Request>, OutOfMemory>
    ensures asked { IfOk result (λ request. request ≡ requested (map string_bytes words.now)) }
    ensures bounds { IfOk result (λ request. IfSome request IsInBounds) }
{
    match asked_by(alloc, words)? {
        None => Ok(None),
        Some(asked) => Ok(Some(asked.request)),
    }
}
