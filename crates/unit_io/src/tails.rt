//! What the pieces of a page bring into sums, handed on from the page as it was read to the page as it
//! is written.
ghost use Rattle.std.specs.Prelude.{◌≡◌, ◌<◌, ◌≤◌, ◌*◌, ℕ, List, length, IfSome};
ghost use Rattle.ipl_base.specs.declared.limits.TheConstants.{PAGE_LEN, PAGE_SECTORS, PAYLOAD_LEN, VERSION};
ghost use Rattle.crc_sum.specs.Crc.{tail_sum};
ghost use Rattle.ipl_format.specs.Page.{piece_of};
ghost use Rattle.ipl_format.specs.Sector.{filled};
ghost use Rattle.unit_io.specs.Tails.{AreTails, FitTails};

use crate::pages::{piece_count, piece_of};
use ipl_base::{PAGE_SECTORS, PAYLOAD_LEN, VERSION};

/// The tails of a page that was read from a place of this version: all, where its text is of the
/// version of all that is written; else none, since then it is written with another text.
pub fn known_tails(tails: &[u32; 16], version: u8) -> [Option<u32>; 16]
    ensures { (text : List ℕ) → (version ≡ VERSION → AreTails text tails.now)
        → FitTails text result }
{
    let mut known = [None; 16];
    if version != VERSION {
        return known;
    }
    for piece in 0..PAGE_SECTORS {
        known[piece as usize] = Some(tails[piece as usize]);
    }
    known
}

/// The tail of a piece (0 to 15) of a text, where it is the same piece as in the text before.
fn kept_tail(before: &[u8], text: &[u8], piece: u32, tails: &[Option<u32>; 16]) -> Option<u32>
    requires few { piece < PAGE_SECTORS }
    requires within { PAYLOAD_LEN * piece < length text.now }
    requires tails { FitTails before.now tails.now }
    ensures { IfSome result (λ tail. tail ≡ tail_sum (filled (piece_of text.now piece))) }
{
    if before.len() <= piece as usize * PAYLOAD_LEN {
        return None;
    }
    if piece_of(before, piece) != piece_of(text, piece) {
        return None;
    }
    tails[piece as usize]
}

/// The tails of a text of at most 7,680 bytes, by those of the text before: of each piece that is the
/// same in both.
pub fn kept_tails(before: &[u8], text: &[u8], tails: &[Option<u32>; 16]) -> [Option<u32>; 16]
    requires fits { length text.now ≤ PAGE_LEN }
    requires tails { FitTails before.now tails.now }
    ensures { FitTails text.now result }
{
    let mut kept = [None; 16];
    for piece in 0..piece_count(text) {
        kept[piece as usize] = kept_tail(before, text, piece, tails);
    }
    kept
}
