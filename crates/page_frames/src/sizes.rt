//! Which session wrote which name of a page.
ghost use Rattle.std.specs.Prelude.{◌≡◌, ◌≤◌, ◌<◌, ◌+◌, ℕ, true, length, map, slice_index, if◌then◌else◌};
ghost use Rattle.ipl_base.specs.declared.limits.TheConstants.{SLOTS};
ghost use Rattle.record_locks.specs.Held.{is_among, peaks_in, written_of};

use ipl_base::{Name, SESSIONS, SLOTS};
use record_locks::Sessions;

/// For each of the 64 names from this one on the number of a session that wrote it, or 32 where none
/// did. It goes once over the names that sessions wrote, and not once for each of the 64.
pub(crate) fn written_slots(sessions: &Sessions, first: u32) -> [u8; 64]
    ensures none { (k : ℕ) → k < SLOTS → length sessions.now ≤ slice_index result k
        → peaks_in sessions.now (first + k) ≡ 0 }
    ensures wrote { (k : ℕ) → k < SLOTS → slice_index result k < length sessions.now
        → is_among (first + k) (written_of sessions.now (slice_index result k)) ≡ true }
{
    sessions.facts();
    let mut writers = [SESSIONS as u8; 64];
    for s in 0..sessions.count() {
        note_names(s as u8, sessions.written(s), first, &mut writers);
    }
    writers
}

/// Notes a session for those of the 64 names from this one on that are among these; for the others it
/// stays what it was.
fn note_names(s: u8, names: &[Name], first: u32, writers: &mut [u8; 64])
    ensures { (k : ℕ) → k < SLOTS → slice_index writers.new k
        ≡ (if is_among (first + k) (map (λ n. n.0) names.now) then s
        else slice_index writers.old k) }
{
    for name in names {
        if name.0 >= first && name.0 - first < SLOTS {
            writers[(name.0 - first) as usize] = s;
        }
    }
}
