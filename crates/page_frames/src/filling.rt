//! Room in a page for a put beside all that open sessions wrote there.
ghost use Rattle.std.specs.Prelude.{◌≡◌, ◌≤◌, ◌<◌, ◌+◌, ◌-◌, ◌^◌, true, false, Some, None, length};
ghost use Rattle.ipl_base.specs.declared.limits.TheConstants.{VALUE_LEN};
ghost use Rattle.ipl_base.specs.Places.{home_of};
ghost use Rattle.ipl_base.specs.Sizes.{size_in_page};
ghost use Rattle.ipl_model.specs.Peaks.{with_peak};
ghost use Rattle.ipl_format.specs.Page.{value_in};
ghost use Rattle.record_locks.specs.Held.{is_among, peaks_in, written_of};
ghost use Rattle.page_ops.specs.Frames.{values_in};
ghost use Rattle.store_laws.specs.Frames.{PageFrame};
ghost use Rattle.store_laws.specs.Room.{fill_at, overfills_at};
ghost use Rattle.page_frames.specs.Views.{frames_of};
ghost use Rattle.page_frames.specs.declared.filling.TheConstants.{HEAD};

use crate::sizes::written_slots;
use buffer_pool::Pool;
use ipl_base::{Name, PAGE_LEN, SLOTS, home};
use page_ops::Frame;
use page_text::PageMap;
use record_locks::Sessions;

/// The bytes of a slot's number and of the length, which stand before each value in a page's text.
pub(crate) const HEAD: usize = 3;

/// Whether with a put of these bytes (at most 464) the page of a name might come to take more than it
/// has, whichever open sessions commit; false where the page is in no frame.
pub fn overfills(pool: &Pool, sessions: &Sessions, name: Name, value: &[u8]) -> bool
    requires short { length value.now ≤ VALUE_LEN }
    ensures exact { (f : PageFrame)
        → frames_of pool.now (home_of name.0).unit (home_of name.0).page ≡ Some f
        → result ≡ overfills_at (peaks_in sessions.now) name.0 value.now f.values }
    ensures none { frames_of pool.now (home_of name.0).unit (home_of name.0).page ≡ None
        → result ≡ false }
{
    let at = home(name);
    match pool.look(at.unit, at.page) {
        Some(frame) => fill_with(frame, sessions, name, HEAD + value.len()) > PAGE_LEN,
        None => false,
    }
}

/// How many bytes the page of a name may come to take, by its frame's values and what open sessions
/// wrote there, with a write that takes so many. It's what the page's text has, and of each slot that is
/// written what it may come to take more: the values of the others aren't looked at.
fn fill_with(frame: &Frame, sessions: &Sessions, name: Name, size: usize) -> usize
    requires { size ≤ HEAD + VALUE_LEN }
    ensures { result ≡ fill_at (with_peak (peaks_in sessions.now) name.0 (1 + size))
        (home_of name.0).unit (home_of name.0).page (values_in frame.now) }
{
    let first = name.0 - name.0 % SLOTS;
    let page = frame.committed();
    let writers = written_slots(sessions, first);
    let mut fill = page.text().len();
    for slot in 0..SLOTS {
        let here = Name(first + slot);
        let written = written_size(sessions, here, writers[slot as usize], name, size);
        if written > 0 {
            fill += written.saturating_sub(slot_size(page, slot));
        }
    }
    fill
}

/// How many bytes the value of a slot (0 to 63) of a page takes in the text.
fn slot_size(page: &PageMap, slot: u32) -> usize
    requires { slot < 64 }
    ensures size { result ≡ size_in_page (value_in page.now slot) }
    ensures few { result ≤ HEAD + VALUE_LEN }
{
    match page.get(slot) {
        Some(value) => HEAD + value.len(),
        None => 0,
    }
}

/// How many bytes a write of a name takes at most, of all that open sessions wrote and of one of another
/// name, or this, that takes so many. It's told a session that wrote the name, or a number past all
/// sessions where none did: that session alone is asked for the size.
fn written_size(sessions: &Sessions, name: Name, writer: u8, other: Name, size: usize) -> usize
    requires few { size ≤ HEAD + VALUE_LEN }
    requires none { length sessions.now ≤ writer → peaks_in sessions.now name.0 ≡ 0 }
    requires wrote { writer < length sessions.now → is_among name.0 (written_of sessions.now writer) ≡ true }
    ensures size { result ≡ with_peak (peaks_in sessions.now) other.0 (1 + size) name.0 - 1 }
    ensures few { result < 2 ^ 32 }
{
    let s = u32::from(writer);
    let mut written = 0;
    if s < sessions.count() {
        written = sessions.size_by(s, name) as usize;
    }
    if other.0 == name.0 {
        size.max(written)
    } else {
        written
    }
}
