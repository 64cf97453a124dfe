//! Numbers in decimal digits.
ghost use Rattle.std.specs.Prelude.{◌≡◌};
ghost use Rattle.ipl_model.specs.Grammar.{number_of};

/// The number that a word is: decimal digits with no leading zero, below 2^32.
pub fn number(word: &[u8]) -> Option<u32>
    ensures { result ≡ number_of word.now }
{
    if word.is_empty() || (word[0] == b'0' && word.len() > 1) {
        return None;
    }
    let mut value: u32 = 0;
    for byte in word {
        if *byte < b'0' || *byte > b'9' {
            return None;
        }
        let next = u64::from(value) * 10 + u64::from(*byte - b'0');
        if next > 0xffff_ffff {
            return None;
        }
        value = next as u32;
    }
    Some(value)
}
