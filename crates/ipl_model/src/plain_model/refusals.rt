//! When the plain model refuses an operation.
ghost use Rattle.std.specs.Prelude.{◌≡◌, ◌≤◌, ◌+◌, ◌∷◌, ◌==◌, [], length, nat_le, not, IfOk};
ghost use Rattle.std.specs.List.{list_any};
ghost use Rattle.ipl_base.specs.declared.limits.TheConstants.{VALUE_LEN};
ghost use Rattle.ipl_base.specs.Sizes.{size_in_page};
ghost use Rattle.ipl_model.specs.State.{is_open_session, writes_of, shared_of, last_write, written_names, least_other, pending_writes};
ghost use Rattle.ipl_model.specs.Peaks.{peaks, overloads, overfills};
ghost use Rattle.ipl_model.specs.Refusals.{is_new_write, is_new_share};
ghost use Rattle.ipl_model.specs.Plain.{state_of, limits_of, keeps_from, newest_first};

use super::PlainModel;
use super::locks::{Lock, holder, pending_writes};
use super::log::Write;
use super::peaks::{fill, weights};
use super::scan::{count_names, newest};
use crate::numbers::{has_bad_session, least_twice};
use ipl_base::{
    PAGE_LEN, PENDING_WEIGHT, Refusal, SESSION_NAMES, SLOTS, UNIT_NAMES, VALUE_LEN, Value,
};
use std::alloc::AllocError;

impl PlainModel {
    /// Whether a session is open.
    fn is_open(&self, s: u32) -> bool
        ensures { result ≡ is_open_session (state_of self.now) s }
    {
        self.session(s).is_some()
    }

    /// The last write of a name by a session.
    pub(crate) fn last_write(&self, s: u32, name: u32) -> Option<Option<Value>>
        ensures { result ≡ last_write (writes_of (state_of self.now) s) name }
    {
        match self.session(s) {
            Some(session) => newest(&session.writes, name),
            None => None,
        }
    }

    /// Whether a session did not write a name.
    fn is_new_write(&self, s: u32, name: u32) -> bool
        ensures { result ≡ is_new_write (state_of self.now) s name }
    {
        !self.last_write(s, name).is_some()
    }

    /// Whether a session shares a name.
    fn has_shared(&self, s: u32, name: u32) -> bool
        ensures { result ≡ list_any (λ k. k == name) (shared_of (state_of self.now) s) }
    {
        match self.session(s) {
            Some(session) => session.has_shared(name),
            None => false,
        }
    }

    /// Whether a session neither wrote nor shares a name.
    pub fn is_new_share(&self, s: u32, name: u32) -> bool
        ensures { result ≡ is_new_share (state_of self.now) s name }
    {
        self.is_new_write(s, name) && !self.has_shared(s, name)
    }

    /// How many names a session wrote.
    fn names_written(&self, s: u32) -> usize
        ensures { result ≡ length (written_names (writes_of (state_of self.now) s)) }
    {
        match self.session(s) {
            Some(session) => count_names(&session.writes),
            None => 0,
        }
    }

    /// How many names a session shares.
    fn names_shared(&self, s: u32) -> usize
        ensures { result ≡ length (shared_of (state_of self.now) s) }
    {
        match self.session(s) {
            Some(session) => session.shared.len(),
            None => 0,
        }
    }

    /// All writes of open sessions, and one more.
    fn pending_with(&self, name: u32, value: Option<Value>) -> Result<Vec<Write>, AllocError>
        ensures { IfOk result (λ all.
            newest_first all.items ≡ (name, value) ∷ pending_writes (state_of self.now)) }
    {
        let mut all = pending_writes(self.alloc, &self.sessions)?;
        all.push(Write { name, value })?;
        Ok(all)
    }

    /// Whether with one write more the pending names of its unit would weigh more than 48.
    fn overloads(&self, name: u32, value: Option<Value>) -> Result<bool, AllocError>
        ensures { IfOk result (λ answer.
            answer ≡ overloads (peaks (state_of self.now)) name (1 + size_in_page value)) }
    {
        let all = self.pending_with(name, value)?;
        Ok(weights(&all, name / UNIT_NAMES) > PENDING_WEIGHT)
    }

    /// Whether with one put more, of at most 464 bytes, the page of its name would be too full.
    fn overfills(&self, name: u32, bytes: &[u8]) -> Result<bool, AllocError>
        requires { length bytes.now ≤ VALUE_LEN }
        ensures { IfOk result (λ answer. answer ≡ overfills (state_of self.now) name bytes.now) }
    {
        let all = self.pending_with(name, Value::of(bytes))?;
        Ok(fill(&self.committed, &all, name / SLOTS) > PAGE_LEN as u64)
    }

    /// The least other session that keeps session `s` from a name.
    fn holder(&self, s: u32, lock: Lock, name: u32) -> Option<u32>
        ensures { result ≡ least_other (keeps_from lock name) (state_of self.now) s }
    {
        holder(&self.sessions, s, lock, name)
    }
}

impl PlainModel {
    ghost use Rattle.ipl_model.specs.Refusals.{refuses_begin, refuses_get, refuses_share, refuses_put, refuses_del, refuses_end, refuses_batch, refuses_list, refuses_merge};
    ghost use Rattle.ipl_model.specs.Plain.{refuses_write};

    /// Whether there is no such name.
    fn is_bad_name(&self, name: u32) -> bool
        ensures { result ≡ nat_le (limits_of self.now).names name }
    {
        u64::from(name) >= u64::from(UNIT_NAMES) * u64::from(self.units)
    }

    /// Why a begin is refused, if it is.
    pub fn refuses_begin(&self, s: u32) -> Option<Refusal>
        ensures { result ≡ refuses_begin (limits_of self.now) (state_of self.now) s }
    {
        if s as usize >= self.sessions.len() {
            return Some(Refusal::BadSession);
        }
        if self.is_open(s) {
            return Some(Refusal::AlreadyOpen);
        }
        None
    }

    /// Why a get is refused, if it is.
    pub fn refuses_get(&self, s: u32, name: u32) -> Option<Refusal>
        ensures { result ≡ refuses_get (limits_of self.now) (state_of self.now) s name }
    {
        if s as usize >= self.sessions.len() {
            return Some(Refusal::BadSession);
        }
        if self.is_bad_name(name) {
            return Some(Refusal::BadName);
        }
        if !self.is_open(s) {
            return Some(Refusal::NotOpen);
        }
        None
    }

    /// Why a share is refused, if it is.
    pub fn refuses_share(&self, s: u32, name: u32) -> Option<Refusal>
        ensures { result ≡ refuses_share (limits_of self.now) (state_of self.now) s name }
    {
        if let Some(refusal) = self.refuses_get(s, name) {
            return Some(refusal);
        }
        if let Some(holder) = self.holder(s, Lock::Share, name) {
            return Some(Refusal::Conflict(holder));
        }
        if self.is_new_share(s, name) && self.names_shared(s) >= SESSION_NAMES {
            return Some(Refusal::SharesFull);
        }
        None
    }

    /// Why an open session's write of a name is refused, if it is.
    fn refuses_write(
        &self,
        s: u32,
        name: u32,
        value: Option<Value>,
    ) -> Result<Option<Refusal>, AllocError>
        ensures { IfOk result (λ r. r ≡ refuses_write (state_of self.now) s (name, value)) }
    {
        if !self.is_open(s) {
            return Ok(Some(Refusal::NotOpen));
        }
        if let Some(holder) = self.holder(s, Lock::Write, name) {
            return Ok(Some(Refusal::Conflict(holder)));
        }
        if self.is_new_write(s, name) && self.names_written(s) >= SESSION_NAMES {
            return Ok(Some(Refusal::WritesFull));
        }
        if self.overloads(name, value)? {
            return Ok(Some(Refusal::PendingFull(name / UNIT_NAMES)));
        }
        Ok(None)
    }

    /// Why a put is refused, if it is.
    pub fn refuses_put(
        &self,
        s: u32,
        name: u32,
        bytes: &[u8],
    ) -> Result<Option<Refusal>, AllocError>
        ensures { IfOk result (λ r.
            r ≡ refuses_put (limits_of self.now) (state_of self.now) s name bytes.now) }
    {
        if s as usize >= self.sessions.len() {
            return Ok(Some(Refusal::BadSession));
        }
        if self.is_bad_name(name) {
            return Ok(Some(Refusal::BadName));
        }
        if bytes.len() > VALUE_LEN {
            return Ok(Some(Refusal::TooLong));
        }
        if let Some(refusal) = self.refuses_write(s, name, Value::of(bytes))? {
            return Ok(Some(refusal));
        }
        if self.overfills(name, bytes)? {
            return Ok(Some(Refusal::PageFull));
        }
        Ok(None)
    }

    /// Why a delete is refused, if it is.
    pub fn refuses_del(&self, s: u32, name: u32) -> Result<Option<Refusal>, AllocError>
        ensures { IfOk result (λ r.
            r ≡ refuses_del (limits_of self.now) (state_of self.now) s name) }
    {
        if s as usize >= self.sessions.len() {
            return Ok(Some(Refusal::BadSession));
        }
        if self.is_bad_name(name) {
            return Ok(Some(Refusal::BadName));
        }
        self.refuses_write(s, name, None)
    }

    /// Why a commit or an abort is refused, if it is.
    pub fn refuses_end(&self, s: u32) -> Option<Refusal>
        ensures { result ≡ refuses_end (limits_of self.now) (state_of self.now) s }
    {
        if s as usize >= self.sessions.len() {
            return Some(Refusal::BadSession);
        }
        if !self.is_open(s) {
            return Some(Refusal::NotOpen);
        }
        None
    }

    /// Whether one of these sessions isn't open.
    fn has_closed(&self, sessions: &[u32]) -> bool
        ensures { result ≡ list_any (λ s. not (is_open_session (state_of self.now) s)) sessions.now }
    {
        sessions.iter().any(|s| !self.is_open(*s))
    }

    /// Why a commit of several sessions is refused, if it is.
    pub fn refuses_batch(&self, sessions: &[u32]) -> Option<Refusal>
        ensures { result ≡ refuses_batch (limits_of self.now) (state_of self.now) sessions.now }
    {
        if has_bad_session(sessions) {
            return Some(Refusal::BadSession);
        }
        if let Some(s) = least_twice(sessions) {
            return Some(Refusal::Twice(s));
        }
        if self.has_closed(sessions) {
            return Some(Refusal::NotOpen);
        }
        None
    }

    /// Why a list of records is refused, if it is.
    pub(crate) fn refuses_list(&self, a: u32, b: u32) -> Option<Refusal>
        ensures { result ≡ refuses_list (limits_of self.now) a b }
    {
        if self.is_bad_name(a) || self.is_bad_name(b) {
            return Some(Refusal::BadName);
        }
        None
    }

    /// Why a merge is refused, if it is.
    pub fn refuses_merge(&self, unit: u32) -> Option<Refusal>
        ensures { result ≡ refuses_merge (limits_of self.now) unit }
    {
        if unit >= self.units {
            return Some(Refusal::BadUnit);
        }
        None
    }
}
