//! Tests of the numbers that a commit of several sessions names.
ghost use Rattle.std.specs.Prelude.{◌≡◌, ◌==◌, nat_le, filter, find, length};
ghost use Rattle.std.specs.List.{list_any, range_with_len};
ghost use Rattle.ipl_base.specs.declared.limits.TheConstants.{SESSIONS};
ghost use Rattle.ipl_model.specs.Refusals.{is_twice};

use ipl_base::SESSIONS;

/// Whether one of these is no session's number.
pub(crate) fn has_bad_session(numbers: &[u32]) -> bool
    ensures { result ≡ list_any (λ s. nat_le SESSIONS s) numbers.now }
{
    numbers.iter().any(|s| *s >= SESSIONS)
}

/// How often a number stands in a list.
fn count_of(numbers: &[u32], s: u32) -> usize
    ensures { result ≡ length (filter (λ t. t == s) numbers.now) }
{
    let mut count = 0;
    for t in numbers {
        if *t == s {
            count += 1;
        }
    }
    count
}

/// Whether a number stands twice in a list, or more often.
fn is_twice(numbers: &[u32], s: u32) -> bool
    ensures { result ≡ is_twice numbers.now s }
{
    count_of(numbers, s) > 1
}

/// The least session's number that stands twice in a list, or more often.
pub fn least_twice(numbers: &[u32]) -> Option<u32>
    ensures { result ≡ find (is_twice numbers.now) (range_with_len 0 SESSIONS) }
{
    for s in 0..SESSIONS {
        if is_twice(numbers, s) {
            return Some(s);
        }
    }
    None
}
