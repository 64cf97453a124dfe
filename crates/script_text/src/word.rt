//! The words of a line: its first word, and what a word spells.
ghost use Rattle.std.specs.Prelude.{◌≡◌, ◌≤◌, length, IfSome};
ghost use Rattle.std.specs.Option.{option_copied};
ghost use Rattle.std.specs.List.{slice_split};
ghost use Rattle.ipl_model.specs.Grammar.{value_spelt, is_space, words_with};

use ipl_model::PutBytes;

/// The bytes that a word spells: `-` for none, or pairs of hex digits.
pub fn value(word: &[u8]) -> Option<PutBytes>
    requires { length word.now ≤ 1024 }
    ensures { result ≡ value_spelt word.now }
{
    if word == b"-".as_slice() {
        return Some(PutBytes::of(&[]));
    }
    if word.is_empty() {
        return None;
    }
    let mut bytes = [0u8; 512];
    let half = word.len() / 2;
    let room = &mut bytes[..half];
    if hex::decode_to_slice(word, room).is_err() {
        return None;
    }
    Some(PutBytes::of(&bytes[..half]))
}

/// The first word of a line, and what stands behind the space after it, if there is one.
pub(crate) fn first_word(line: &[u8]) -> (&[u8], Option<&[u8]>)
    ensures words { slice_split is_space line.now
        ≡ words_with result.0.now (option_copied result.1) }
    ensures first_fits { length result.0.now ≤ length line.now }
    ensures rest_fits { IfSome result.1 (λ rest. length rest.now ≤ length line.now) }
{
    match line.iter().position(|b| *b == b' ') {
        Some(at) => (&line[..at], Some(&line[at + 1..])),
        None => (line, None),
    }
}
