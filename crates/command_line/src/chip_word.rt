//! The word that names a chip: `ram:N`, or `file:N:PATH`.
ghost use Rattle.std.specs.Prelude.{◌≡◌};
ghost use Rattle.std.specs.List.{before_first, after_first};
ghost use Rattle.std.specs.Option.{option_map};
ghost use Rattle.command_line.specs.Chip.{is_colon, chip_of, word_view};

use script_text::number;

/// A chip of so many places, in memory or in the file at a path, which isn't empty.
#[derive(Clone, Copy)]
pub(crate) enum ChipWord<'a> {
    Ram(u32),
    File(u32, &'a str),
}

/// What stands before the first colon, and what stands after it: nothing where there is none.
fn parts(text: &str) -> (&str, &str)
    ensures before { result.0.now ≡ before_first is_colon text.now }
    ensures after { result.1.now ≡ after_first is_colon text.now }
{
    match text.split_once(':') {
        Some(parts) => parts,
        None => (text, ""),
    }
}

/// The chip that a word names, and `None` where it names none.
pub(crate) fn chip_word(text: &str) -> Option<ChipWord<'_>>
    ensures { option_map word_view result ≡ chip_of text.now }
{
    let (kind, rest) = parts(text);
    if kind == "ram" {
        return Some(ChipWord::Ram(number(rest.as_bytes())?));
    }
    if kind == "file" {
        let (units, path) = parts(rest);
        if path.is_empty() {
            return None;
        }
        return Some(ChipWord::File(number(units.as_bytes())?, path));
    }
    None
}
