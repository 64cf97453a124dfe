//! Where the records of a text stand.
ghost use Rattle.std.specs.Prelude.{◌≡◌, ◌≤◌, ◌<◌, ◌+◌, ◌↔◌, IfNone, IfSome, IsTrue, false, take};
ghost use Rattle.std.specs.Bool.{OnTrue};
ghost use Rattle.ipl_base.specs.declared.limits.TheConstants.{PAGE_LEN, VERSION};
ghost use Rattle.ipl_format.specs.Numbers.{half_at};
ghost use Rattle.ipl_format.specs.Page.{IsPageText};
ghost use Rattle.page_text.specs.Texts.{BeginsWith, RecordEndsAt, HasPlaces, has_record};

use crate::moving::HEAD;
use ipl_base::{PAGE_LEN, VALUE_LEN};
use ipl_format::half_at;

// The length of the value of a record that stands here.
fn value_len(bytes: &[u8; PAGE_LEN], at: usize) -> usize
    requires { at + 3 ≤ PAGE_LEN }
    ensures len { result ≡ half_at (at + 1) bytes.now }
    ensures few { result < 65536 }
{
    usize::from(half_at(bytes, at + 1))
}

// Whether a whole record stands here, with a value that isn't too long.
fn has_record(bytes: &[u8; PAGE_LEN], at: usize, end: usize) -> bool
    requires at { at < end }
    requires end { end ≤ PAGE_LEN }
    ensures { result ≡ has_record bytes.now at end }
{
    at + HEAD <= end && value_len(bytes, at) <= VALUE_LEN && at + HEAD + value_len(bytes, at) <= end
}

// Where the record of a slot ends that may stand here: here, where there is none. None where there is
// one that isn't whole.
fn record_end(bytes: &[u8; PAGE_LEN], at: usize, end: usize, slot: u8) -> Option<usize>
    requires { end ≤ PAGE_LEN }
    ensures some { IfSome result (λ next. RecordEndsAt bytes.now at end slot next) }
    ensures none { IfNone result (BeginsWith bytes.now at end slot × (has_record bytes.now at end ≡ false)) }
{
    if at >= end || bytes[at] != slot {
        return Some(at);
    }
    if has_record(bytes, at, end) {
        Some(at + HEAD + value_len(bytes, at))
    } else {
        None
    }
}

/// Finds where the records of a text of so many bytes stand. False exactly where they aren't a page's text.
pub(crate) fn index(bytes: &[u8; PAGE_LEN], end: usize, bounds: &mut [u16; 65]) -> bool
    requires { end ≤ PAGE_LEN }
    ensures exact { IsTrue result ↔ IsPageText VERSION (take end bytes.now) }
    ensures places { OnTrue result (HasPlaces bytes.now bounds.new end) }
{
    let mut at = 0;
    for slot in 0..64u8 {
        bounds[usize::from(slot)] = at as u16;
        match record_end(bytes, at, end, slot) {
            Some(next) => at = next,
            None => return false,
        }
    }
    bounds[64] = at as u16;
    at == end
}
