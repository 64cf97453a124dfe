//! Records in the text of a page, moved and written where they stay.
ghost use Rattle.std.specs.Prelude.{◌≡◌, ◌≢◌, ◌≤◌, ◌<◌, ◌+◌, ◌-◌, ◌++◌, Some, None, IfSome, ℕ, drop, length, option_map, slice_index, take};
ghost use Rattle.ipl_base.specs.declared.limits.TheConstants.{PAGE_LEN, VALUE_LEN, VERSION};
ghost use Rattle.page_text.specs.declared.moving.TheConstants.{HEAD};
ghost use Rattle.ipl_format.specs.Page.{slot_bytes};
ghost use Rattle.page_text.specs.Texts.{AreBounds, AreMoved, value_between};

use ipl_base::PAGE_LEN;

/// The bytes of a record before its value: the slot, and the length in two bytes.
pub(crate) const HEAD: usize = 3;

// Moves the places behind a slot (0 to 63): what was at `from` is at `to` now.
fn move_bounds(bounds: &mut [u16; 65], slot: u32, from: u16, to: u16)
    requires slot { slot < 64 }
    requires bounds { AreBounds bounds.old }
    requires from { from ≡ slice_index bounds.old (slot + 1) }
    requires to { to ≤ PAGE_LEN }
    ensures moved { AreMoved slot from to bounds.old bounds.new }
{
    for k in slot as usize + 1..65 {
        bounds[k] = bounds[k] - from + to;
    }
}

// Moves what stands between two places, so that it begins at `to`. What stands before both stays.
fn move_tail(bytes: &mut [u8; PAGE_LEN], from: usize, until: usize, to: usize)
    requires order { from ≤ until }
    requires within { until ≤ PAGE_LEN }
    requires room { to + until ≤ PAGE_LEN + from }
    ensures tail { take (until - from) (drop to bytes.new) ≡ take (until - from) (drop from bytes.old) }
    ensures front { (n : ℕ) → n ≤ from → n ≤ to → take n bytes.new ≡ take n bytes.old }
{
    // A turn moves all bytes at once, where `copy_within` goes byte by byte; one of none costs as much.
    if from == until {
        return;
    }
    if from < to {
        bytes[from..until + (to - from)].rotate_right(to - from);
    } else if to < from {
        bytes[to..until].rotate_left(from - to);
    }
}

/// Gives the record of a slot (0 to 63) so many bytes, with whatever is in them, and answers where it
/// begins. What stands behind it is moved.
pub(crate) fn resize(
    bytes: &mut [u8; PAGE_LEN],
    bounds: &mut [u16; 65],
    slot: u32,
    size: usize,
) -> usize
    requires slot { slot < 64 }
    requires bounds { AreBounds bounds.old }
    requires room { slice_index bounds.old 64 + slice_index bounds.old slot + size
        ≤ PAGE_LEN + slice_index bounds.old (slot + 1) }
    ensures start { result ≡ slice_index bounds.old slot }
    ensures tail { take (slice_index bounds.old 64 - slice_index bounds.old (slot + 1))
        (drop (slice_index bounds.old slot + size) bytes.new)
        ≡ take (slice_index bounds.old 64 - slice_index bounds.old (slot + 1))
        (drop (slice_index bounds.old (slot + 1)) bytes.old) }
    ensures front { take (slice_index bounds.old slot) bytes.new
        ≡ take (slice_index bounds.old slot) bytes.old }
    ensures bounds { AreMoved slot (slice_index bounds.old (slot + 1))
        (slice_index bounds.old slot + size) bounds.old bounds.new }
{
    let start = usize::from(bounds[slot as usize]);
    let end = bounds[slot as usize + 1];
    let last = usize::from(bounds[64]);
    if start + size != usize::from(end) {
        move_tail(bytes, usize::from(end), last, start + size);
        move_bounds(bounds, slot, end, (start + size) as u16);
    }
    start
}

/// The value of the record between two places, where there is one.
pub(crate) fn value_between(bytes: &[u8; PAGE_LEN], from: usize, until: usize) -> Option<&[u8]>
    requires record { from ≢ until → from + HEAD ≤ until }
    requires within { until ≤ PAGE_LEN }
    requires short { until ≤ from + (HEAD + VALUE_LEN) }
    ensures value { option_map (λ b. b.now) result ≡ value_between bytes.now from until }
    ensures short { IfSome result (λ b. length b.now ≤ VALUE_LEN) }
{
    if from == until {
        return None;
    }
    Some(&bytes[from + HEAD..until])
}

/// Writes a slot's number, the length of its value and the value.
#[tactic(auto, unfolding(ipl_format::specs::Numbers::half))]
pub(crate) fn put_record(bytes: &mut [u8; PAGE_LEN], at: usize, slot: u32, value: &[u8])
    requires slot { slot < 64 }
    requires short { length value.now ≤ VALUE_LEN }
    requires room { at + (HEAD + length value.now) ≤ PAGE_LEN }
    ensures { bytes.new ≡ take at bytes.old ++ slot_bytes VERSION slot (Some value.now)
        ++ drop (at + (HEAD + length value.now)) bytes.old }
{
    bytes[at] = slot as u8;
    let len = (value.len() as u16).to_be_bytes();
    bytes[at + 1] = len[0];
    bytes[at + 2] = len[1];
    bytes[at + HEAD..at + HEAD + value.len()].copy_from_slice(value);
}

/// Writes bytes at a place.
pub(crate) fn put_part(bytes: &mut [u8; PAGE_LEN], at: usize, part: &[u8])
    requires { at + length part.now ≤ PAGE_LEN }
    ensures { bytes.new ≡ take at bytes.old ++ part.now ++ drop (at + length part.now) bytes.old }
{
    bytes[at..at + part.len()].copy_from_slice(part);
}
