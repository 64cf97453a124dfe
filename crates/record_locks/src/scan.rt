//! Scans of all sessions.
ghost use Rattle.std.specs.Prelude.{◌≡◌, ◌≤◌, ◌<◌, ◌*◌, ◌^◌, ◌==◌, ◌&&◌, not, map, length, false, None, [], replicate, All};
ghost use Rattle.std.specs.List.{sum_by};
ghost use Rattle.std.specs.Option.{option_map_or};
ghost use Rattle.bounded_vec.specs.Bounded.{with_items};
ghost use Rattle.ipl_base.specs.declared.limits.TheConstants.{LONG_WEIGHT, SESSION_NAMES, SESSIONS};
ghost use Rattle.record_locks.specs.Held.{peaks_in, slot_peaks, slot_weight};
ghost use Rattle.record_locks.specs.Standing.{slot_of, session_of, keeps_from, least_holder};
ghost use Rattle.record_locks.specs.Locks.{IsSized};

use crate::session::OpenSession;
use bounded_vec::BoundedVec;
use ipl_base::Name;

/// What the names of a unit that the session in a slot wrote weigh.
fn weigh_slot(slot: &Option<OpenSession>, unit: u32) -> u32
    requires { IsSized slot.now }
    ensures weight { result ≡ slot_weight slot.now unit }
    ensures fits { result ≤ LONG_WEIGHT * SESSION_NAMES }
{
    match slot {
        Some(session) => session.weight_in_unit(unit),
        None => 0,
    }
}

/// What the names of a unit that sessions wrote weigh.
pub(crate) fn weigh_pending(slots: &[Option<OpenSession>], unit: u32) -> u32
    requires few { length slots.now ≤ SESSIONS }
    requires sized { All IsSized slots.now }
    ensures weight { result ≡ sum_by (λ o. slot_weight o unit) slots.now }
    ensures fits { result ≤ LONG_WEIGHT * SESSION_NAMES * SESSIONS }
{
    let mut weight = 0;
    for slot in slots {
        weight += weigh_slot(slot, unit);
    }
    weight
}

/// The peak of a name in a slot.
pub(crate) fn peak_in_slot(slot: &Option<OpenSession>, name: Name) -> u64
    requires { IsSized slot.now }
    ensures peak { result ≡ slot_peaks slot.now name.0 }
    ensures fits { result ≤ 2 ^ 32 }
{
    match slot {
        Some(session) => session.peak(name),
        None => 0,
    }
}

/// The peak of a name among all sessions: one more than the greatest size of the writes on it.
pub fn peak_of(slots: &[Option<OpenSession>], name: Name) -> u64
    requires { All IsSized slots.now }
    ensures peak { result ≡ peaks_in slots.now name.0 }
    ensures fits { result ≤ 2 ^ 32 }
{
    let mut left = slots.len();
    let mut most = 0;
    while left > 0 {
        left -= 1;
        most = most.max(peak_in_slot(&slots[left], name));
    }
    most
}

/// Whether a session keeps others from writing a name, or from sharing it.
#[tactic(auto, using(crate::proofs::StandingLemmas::keeps_is))]
fn keeps_from(session: &OpenSession, name: Name, for_write: bool) -> bool
    ensures { result ≡ keeps_from for_write name.0 (session_of session.now) }
{
    session.has_written(name) || (for_write && session.has_shared(name))
}

/// Whether the session in a slot is another one than `s`, and keeps it from a name.
fn is_holder(other: u32, slot: &Option<OpenSession>, s: u32, name: Name, for_write: bool) -> bool
    ensures { result ≡ (not (other == s)
        && option_map_or (keeps_from for_write name.0) (slot_of slot.now) false) }
{
    match slot {
        Some(session) => other != s && keeps_from(session, name, for_write),
        None => false,
    }
}

/// The least session other than `s` that keeps it from a name.
pub(crate) fn find_holder(
    slots: &[Option<OpenSession>],
    s: u32,
    name: Name,
    for_write: bool,
) -> Option<u32>
    requires { length slots.now < 2 ^ 32 }
    ensures { result ≡ least_holder (map slot_of slots.now) s name.0 for_write }
{
    for (i, slot) in slots.iter().enumerate() {
        if is_holder(i as u32, slot, s, name, for_write) {
            return Some(i as u32);
        }
    }
    None
}

/// Fills an empty list with a slot for each of so many sessions, without a session.
pub fn fill(slots: &mut BoundedVec<Option<OpenSession>>, sessions: u32)
    requires empty { slots.old.items ≡ [] }
    requires room { sessions ≤ slots.old.room }
    ensures { slots.new ≡ with_items slots.old (replicate sessions None) }
{
    for _ in 0..sessions {
        slots.push(None);
    }
}
