//! Sessions that are opened and closed, and names that they share: all in memory.
ghost use Rattle.std.specs.Prelude.{◌≡◌, ◌<◌, ◌+◌, ◌^◌, None, length};
ghost use Rattle.ipl_model.specs.Operations.{after_begin, after_share, after_abort};
ghost use Rattle.store_laws.specs.Fits.{LocksHold};
ghost use Rattle.record_locks.specs.Held.{after_end, after_batch, number_of, numbers_in};
ghost use Rattle.store_laws.specs.Refusals.{AreOpenSessions};
ghost use Rattle.record_locks.specs.Locks.{refuses_begin, refuses_share, refuses_end};
ghost use Rattle.page_frames.specs.Pages.{KeepsFramed};
ghost use Rattle.ipl_store.specs.Turns.{TurnsInMemory, IsSameButActive};

use crate::numbers::active_numbers;
use crate::transactions::Transactions;
use ipl_base::Name;
use page_frames::drop_names;

impl Transactions {
    /// Opens a session, with the next number as its own.
    pub fn begin(&mut self, s: u32)
        requires session { s < length self.old.sessions }
        requires closed { refuses_begin self.old.sessions s ≡ None }
        requires left { self.old.pages.parts.counter + 1 < 2 ^ 64 }
        ensures turns { TurnsInMemory (λ state. after_begin state s) self.old self.new }
        ensures framed { KeepsFramed self.old.pages self.new.pages }
        ensures drawn { self.new.pages.parts.counter ≡ self.old.pages.parts.counter + 1 }
    {
        let number = self.pages.parts.counter.draw();
        let _ = self.sessions.begin(s, number);
        self.pages.parts.active = active_numbers(&self.sessions);
        self.sessions.facts();
    }

    /// Shares a name, until the session ends.
    pub fn share(&mut self, s: u32, name: Name)
        requires session { s < length self.old.sessions }
        requires unrefused { refuses_share self.old.sessions s name.0 ≡ None }
        ensures turns { TurnsInMemory (λ state. after_share state s name.0) self.old self.new }
        ensures framed { KeepsFramed self.old.pages self.new.pages }
        ensures pages { self.new.pages ≡ self.old.pages }
        ensures same { number_of self.new.sessions s ≡ number_of self.old.sessions s }
    {
        let _ = self.sessions.share(s, name);
        self.sessions.facts();
    }

    /// Closes a session.
    pub(crate) fn end(&mut self, s: u32)
        requires session { s < length self.old.sessions }
        requires open { refuses_end self.old.sessions s ≡ None }
        ensures sessions { self.new.sessions ≡ after_end self.old.sessions s }
        ensures active { self.new.pages.parts.active ≡ numbers_in self.new.sessions }
        ensures locks { LocksHold self.new.sessions }
        ensures rest { IsSameButActive self.old.pages self.new.pages }
    {
        let _ = self.sessions.end(s);
        self.pages.parts.active = active_numbers(&self.sessions);
        self.sessions.facts();
    }

    /// Closes these sessions.
    pub(crate) fn end_all(&mut self, numbers: &[u32])
        requires open { AreOpenSessions self.old.sessions numbers.now }
        ensures sessions { self.new.sessions ≡ after_batch self.old.sessions numbers.now }
        ensures active { self.new.pages.parts.active ≡ numbers_in self.new.sessions }
        ensures locks { LocksHold self.new.sessions }
        ensures rest { IsSameButActive self.old.pages self.new.pages }
    {
        let _ = self.sessions.end_all(numbers);
        self.pages.parts.active = active_numbers(&self.sessions);
        self.sessions.facts();
    }

    /// Aborts a session: what it changed is dropped from all frames, and its records on the
    /// chip will never count.
    pub fn abort(&mut self, s: u32)
        requires session { s < length self.old.sessions }
        requires open { refuses_end self.old.sessions s ≡ None }
        ensures turns { TurnsInMemory (λ state. after_abort state s) self.old self.new }
        ensures framed { KeepsFramed self.old.pages self.new.pages }
        ensures drawn { self.new.pages.parts.counter ≡ self.old.pages.parts.counter }
        ensures ended { self.new.sessions ≡ after_end self.old.sessions s }
    {
        let Some(number) = self.sessions.number(s) else {
            unreachable!("the session is open");
        };
        drop_names(&mut self.pages.pool, self.sessions.written(s), number);
        self.end(s);
    }
}
