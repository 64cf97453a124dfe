//! When calls are refused, by the sessions alone.
ghost use Rattle.std.specs.Prelude.{◌≡◌, ◌<◌, ◌≤◌, ◌↔◌, Some, length, IsTrue, IfNone};
ghost use Rattle.ipl_base.specs.declared.limits.TheConstants.{VALUE_LEN};
ghost use Rattle.ipl_base.specs.Sizes.{size_in_page};
ghost use Rattle.buffer_pool.specs.Holding.{IsHeld};
ghost use Rattle.record_locks.specs.Standing.{state_of};
ghost use Rattle.ipl_model.specs.Refusals.{
  refuses_begin,
  refuses_get,
  refuses_share,
  refuses_end,
  refuses_batch,
  refuses_merge,
};
ghost use Rattle.store_laws.specs.Refusals.{sessions_refuse_put, sessions_refuse_del};
ghost use Rattle.ipl_store.specs.Calls.{
  is_held,
  refuses_pair,
  refuses_name,
  refuses_page,
  refuses_hold,
  refuses_release,
  limits_of_store,
};

use crate::Store;
use buffer_pool::{Pool, pool_laws};
use ipl_base::{Name, PAGES, Refusal, UNIT_NAMES, VALUE_LEN};

impl Store {
    /// Why a begin is refused, if it is.
    pub(crate) fn refuses_begin(&self, s: u32) -> Option<Refusal>
        ensures { result ≡ refuses_begin (limits_of_store self.now)
            (state_of self.now.transactions.sessions) s }
    {
        if s >= self.transactions.sessions.count() {
            return Some(Refusal::BadSession);
        }
        if self.transactions.sessions.is_open(s) {
            return Some(Refusal::AlreadyOpen);
        }
        None
    }

    /// Why a commit or an abort is refused, if it is.
    pub(crate) fn refuses_end(&self, s: u32) -> Option<Refusal>
        ensures { result ≡ refuses_end (limits_of_store self.now)
            (state_of self.now.transactions.sessions) s }
    {
        if s >= self.transactions.sessions.count() {
            return Some(Refusal::BadSession);
        }
        if !self.transactions.sessions.is_open(s) {
            return Some(Refusal::NotOpen);
        }
        None
    }

    /// Why a commit of several sessions is refused, if it is.
    pub(crate) fn refuses_batch(&self, sessions: &[u32]) -> Option<Refusal>
        ensures { result ≡ refuses_batch (limits_of_store self.now)
            (state_of self.now.transactions.sessions) sessions.now }
    {
        self.transactions.sessions.refuses_batch(sessions)
    }

    /// Why a session or a name can't be meant, if they can't: there is no such one.
    fn refuses_pair(&self, s: u32, n: u32) -> Option<Refusal>
        ensures { result ≡ refuses_pair (limits_of_store self.now) s n }
    {
        if s >= self.transactions.sessions.count() {
            return Some(Refusal::BadSession);
        }
        if n / UNIT_NAMES >= self.units {
            return Some(Refusal::BadName);
        }
        None
    }

    /// Why a get is refused, if it is.
    pub(crate) fn refuses_get(&self, s: u32, n: u32) -> Option<Refusal>
        ensures { result ≡ refuses_get (limits_of_store self.now)
            (state_of self.now.transactions.sessions) s n }
    {
        if let Some(refusal) = self.refuses_pair(s, n) {
            return Some(refusal);
        }
        if !self.transactions.sessions.is_open(s) {
            return Some(Refusal::NotOpen);
        }
        None
    }

    /// Why a share is refused, if it is.
    pub(crate) fn refuses_share(&self, s: u32, n: u32) -> Option<Refusal>
        ensures { result ≡ refuses_share (limits_of_store self.now)
            (state_of self.now.transactions.sessions) s n }
    {
        if let Some(refusal) = self.refuses_pair(s, n) {
            return Some(refusal);
        }
        self.transactions.sessions.refuses_share(s, Name(n))
    }

    /// Why a put is refused before its page is looked at, if it is.
    pub(crate) fn refuses_put(&self, s: u32, n: u32, value: &[u8]) -> Option<Refusal>
        ensures { result ≡ sessions_refuse_put (limits_of_store self.now)
            self.now.transactions.sessions s n value.now }
    {
        if let Some(refusal) = self.refuses_pair(s, n) {
            return Some(refusal);
        }
        if value.len() > VALUE_LEN {
            return Some(Refusal::TooLong);
        }
        let size = size_in_page(value);
        self.transactions.sessions.refuses_write(s, Name(n), size)
    }

    /// Why a delete is refused, if it is.
    pub(crate) fn refuses_del(&self, s: u32, n: u32) -> Option<Refusal>
        ensures { result ≡ sessions_refuse_del (limits_of_store self.now)
            self.now.transactions.sessions s n }
    {
        if let Some(refusal) = self.refuses_pair(s, n) {
            return Some(refusal);
        }
        self.transactions.sessions.refuses_write(s, Name(n), 0)
    }

    /// Why a merge is refused, if it is.
    pub(crate) fn refuses_merge(&self, unit: u32) -> Option<Refusal>
        ensures { result ≡ refuses_merge (limits_of_store self.now) unit }
    {
        if unit >= self.units {
            return Some(Refusal::BadUnit);
        }
        None
    }

    /// Why a name can't be meant, if it can't.
    pub(crate) fn refuses_name(&self, n: u32) -> Option<Refusal>
        ensures { result ≡ refuses_name (limits_of_store self.now) n }
    {
        if n / UNIT_NAMES >= self.units {
            return Some(Refusal::BadName);
        }
        None
    }

    /// Why a page can't be meant, if it can't.
    fn refuses_page(&self, unit: u32, page: u32) -> Option<Refusal>
        ensures { result ≡ refuses_page self.now.units unit page }
    {
        if unit >= self.units || page >= PAGES {
            return Some(Refusal::BadUnit);
        }
        None
    }

    /// Why a hold is refused, if it is.
    pub(crate) fn refuses_hold(&self, unit: u32, page: u32) -> Option<Refusal>
        requires frames { self.now.frames ≡ self.now.transactions.pages.pool.limit }
        requires two { 2 ≤ self.now.frames }
        ensures { result ≡ refuses_hold self.now.units self.now.transactions.pages.pool unit page }
    {
        if let Some(refusal) = self.refuses_page(unit, page) {
            return Some(refusal);
        }
        let pool = &self.transactions.pages.pool;
        if !is_held(pool, unit, page) && pool.held() >= self.frames as usize - 1 {
            return Some(Refusal::HoldsFull);
        }
        None
    }

    /// Why a release is refused, if it is.
    pub(crate) fn refuses_release(&self, unit: u32, page: u32) -> Option<Refusal>
        ensures test { result ≡ refuses_release self.now.units self.now.transactions.pages.pool
            unit page }
        ensures held { IfNone result
            ((page < 15) × IsHeld self.now.transactions.pages.pool.buffers unit page) }
    {
        if let Some(refusal) = self.refuses_page(unit, page) {
            return Some(refusal);
        }
        if !is_held(&self.transactions.pages.pool, unit, page) {
            return Some(Refusal::NotHeld);
        }
        None
    }
}

/// What a value of at most 464 bytes takes in the text of its page.
fn size_in_page(value: &[u8]) -> u16
    requires { length value.now ≤ VALUE_LEN }
    ensures { result ≡ size_in_page (Some value.now) }
{
    3 + value.len() as u16
}

/// Whether a page (0 to 14 of a unit) is held.
pub(crate) fn is_held(pool: &Pool, unit: u32, page: u32) -> bool
    requires { page < 15 }
    ensures test { result ≡ is_held pool.now unit page }
    ensures held { IsTrue result ↔ IsHeld pool.now.buffers unit page }
{
    pool.facts();
    pool_laws();
    pool.is_held(unit, page)
}
