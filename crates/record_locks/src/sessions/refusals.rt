//! When the calls on sessions are refused.
ghost use Rattle.std.specs.Prelude.{◌≡◌, ◌<◌, ◌+◌, false, length, nat_le, not};
ghost use Rattle.std.specs.List.{find, list_any, range_with_len};
ghost use Rattle.ipl_model.specs.Peaks.{overloads};
ghost use Rattle.record_locks.specs.Held.{peaks_in};
ghost use Rattle.ipl_model.specs.State.{is_open_session, writes_of, shared_of, written_names};
ghost use Rattle.ipl_model.specs.Refusals.{is_new_write, is_new_share, is_twice};
ghost use Rattle.record_locks.specs.Standing.{state_of};
ghost use Rattle.record_locks.specs.Locks.{refuses_share, refuses_write, refuses_batch, refuses_close};

use super::Sessions;
use crate::session::is_listed;
use ipl_base::{Name, PENDING_WEIGHT, Refusal, UNIT_NAMES};
use ipl_model::{least_twice, weight_of};

impl Sessions {
    /// Whether a session is open.
    #[tactic(auto, using(crate::proofs::StandingLemmas::open_at))]
    pub fn is_open(&self, s: u32) -> bool
        requires { s < length self.now }
        ensures { result ≡ is_open_session (state_of self.now) s }
    {
        self.slots[s as usize].is_some()
    }

    /// Whether there is no such session, or it isn't open.
    fn is_closed(&self, s: u32) -> bool
        ensures { result ≡ not (is_open_session (state_of self.now) s) }
    {
        s >= self.count() || !self.is_open(s)
    }

    /// Whether one of these sessions isn't open.
    fn has_closed(&self, numbers: &[u32]) -> bool
        ensures { result ≡ list_any (λ s. not (is_open_session (state_of self.now) s)) numbers.now }
    {
        numbers.iter().any(|s| self.is_closed(*s))
    }

    /// Whether a session did not write a name.
    #[tactic(auto, using(crate::proofs::StandingLemmas::new_write_at))]
    fn is_new_write(&self, s: u32, name: Name) -> bool
        requires { s < length self.now }
        ensures { result ≡ is_new_write (state_of self.now) s name.0 }
    {
        !is_listed(self.written(s), name)
    }

    /// Whether a session neither wrote nor shares a name.
    #[tactic(auto, using(crate::proofs::StandingLemmas::new_share_at))]
    fn is_new_share(&self, s: u32, name: Name) -> bool
        requires { s < length self.now }
        ensures { result ≡ is_new_share (state_of self.now) s name.0 }
    {
        !is_listed(self.written(s), name) && !is_listed(self.shared(s), name)
    }

    /// Whether a session wrote 256 names.
    #[tactic(auto, using(crate::proofs::TotalLemmas::names_counted))]
    fn has_full_writes(&self, s: u32) -> bool
        requires { s < length self.now }
        ensures { result ≡ nat_le 256 (length (written_names (writes_of (state_of self.now) s))) }
    {
        let _ = &self.slots;
        self.written(s).len() >= 256
    }

    /// Whether a session shares 256 names.
    #[tactic(auto, using(crate::proofs::StandingLemmas::shares_counted))]
    fn has_full_shares(&self, s: u32) -> bool
        requires { s < length self.now }
        ensures { result ≡ nat_le 256 (length (shared_of (state_of self.now) s)) }
    {
        self.shared(s).len() >= 256
    }

    /// Why a share is refused, if it is.
    pub fn refuses_share(&self, s: u32, name: Name) -> Option<Refusal>
        requires { s < length self.now }
        ensures { result ≡ refuses_share self.now s name.0 }
    {
        if !self.is_open(s) {
            return Some(Refusal::NotOpen);
        }
        if let Some(holder) = self.holder(s, name, false) {
            return Some(Refusal::Conflict(holder));
        }
        if self.is_new_share(s, name) && self.has_full_shares(s) {
            return Some(Refusal::SharesFull);
        }
        None
    }

    /// Whether with a write of this size the pending names of its unit would weigh more than 48.
    fn overloads(&self, name: Name, size: u16) -> bool
        ensures { result ≡ overloads (peaks_in self.now) name.0 (1 + size) }
    {
        let old = self.peak(name);
        let new = old.max(1 + u64::from(size));
        self.pending(name.0 / UNIT_NAMES) + weight_of(new) > PENDING_WEIGHT + weight_of(old)
    }

    /// Why a write is refused, if it is.
    pub fn refuses_write(&self, s: u32, name: Name, size: u16) -> Option<Refusal>
        requires { s < length self.now }
        ensures { result ≡ refuses_write self.now s name.0 size }
    {
        if !self.is_open(s) {
            return Some(Refusal::NotOpen);
        }
        if let Some(holder) = self.holder(s, name, true) {
            return Some(Refusal::Conflict(holder));
        }
        if self.is_new_write(s, name) && self.has_full_writes(s) {
            return Some(Refusal::WritesFull);
        }
        if self.overloads(name, size) {
            return Some(Refusal::PendingFull(name.0 / UNIT_NAMES));
        }
        None
    }

    /// Whether one of these is no session's number.
    fn has_bad_session(&self, numbers: &[u32]) -> bool
        ensures { result ≡ list_any (λ s. nat_le (length self.now) s) numbers.now }
    {
        let count = self.count();
        numbers.iter().any(|s| *s >= count)
    }

    /// The least of these sessions that is named twice, or more often.
    fn least_twice(&self, numbers: &[u32]) -> Option<u32>
        requires { list_any (λ s. nat_le (length self.now) s) numbers.now ≡ false }
        ensures { result ≡ find (is_twice numbers.now) (range_with_len 0 (length self.now)) }
    {
        let _ = &self.slots;
        least_twice(numbers)
    }

    /// Why a commit of several sessions is refused, if it is.
    pub fn refuses_batch(&self, numbers: &[u32]) -> Option<Refusal>
        ensures { result ≡ refuses_batch self.now numbers.now }
    {
        if self.has_bad_session(numbers) {
            return Some(Refusal::BadSession);
        }
        if let Some(s) = self.least_twice(numbers) {
            return Some(Refusal::Twice(s));
        }
        if self.has_closed(numbers) {
            return Some(Refusal::NotOpen);
        }
        None
    }

    /// The least session that is open, if one is.
    fn least_open(&self) -> Option<u32>
        ensures { result ≡ find (is_open_session (state_of self.now)) (range_with_len 0 (length self.now)) }
    {
        for s in 0..self.count() {
            if self.is_open(s) {
                return Some(s);
            }
        }
        None
    }

    /// Why a clean close is refused, if it is.
    pub fn refuses_close(&self) -> Option<Refusal>
        ensures { result ≡ refuses_close self.now }
    {
        let s = self.least_open()?;
        Some(Refusal::SessionsOpen(s))
    }
}
