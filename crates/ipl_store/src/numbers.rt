//! The numbers of open sessions: of all, as the tables have them, and of those that a commit adds.
ghost use Rattle.std.specs.Prelude.{◌≡◌, ◌≤◌, ◌<◌, ℕ, [], ◌∷◌, Contains, length};
ghost use Rattle.std.specs.Option.{option_map_or};
ghost use Rattle.ipl_base.specs.declared.limits.TheConstants.{SESSIONS};
ghost use Rattle.record_locks.specs.Held.{
  numbers_in,
  number_of,
  written_of,
  writer_number,
  writer_numbers,
};

use record_locks::Sessions;
use selective_merge::Active;

/// The numbers of the open sessions, in the order of the sessions.
pub(crate) fn active_numbers(sessions: &Sessions) -> Active
    ensures { result ≡ numbers_in sessions.now }
{
    sessions.facts();
    let mut active = Active::none();
    for s in 0..sessions.count() {
        if let Some(number) = sessions.number(s) {
            active.add(number);
        }
    }
    active
}

/// The number of a session, where it wrote something.
fn writer_number(sessions: &Sessions, s: u32) -> Option<u64>
    requires { s < length sessions.now }
    ensures { writer_number (written_of sessions.now s) (number_of sessions.now s)
        ≡ option_map_or (λ tid. tid ∷ []) result [] }
{
    if sessions.written(s).is_empty() {
        return None;
    }
    sessions.number(s)
}

/// The numbers of those of these sessions (at most 32) that wrote something, in their order.
pub(crate) fn writer_numbers(sessions: &Sessions, numbers: &[u32]) -> Active
    requires low { (s : ℕ) → Contains numbers.now s → s < length sessions.now }
    requires few { length numbers.now ≤ SESSIONS }
    ensures { result ≡ writer_numbers sessions.now numbers.now }
{
    let mut tids = Active::none();
    for s in numbers {
        if let Some(tid) = writer_number(sessions, *s) {
            tids.add(tid);
        }
    }
    tids
}
