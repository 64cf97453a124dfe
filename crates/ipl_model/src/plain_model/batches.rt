//! A commit of several sessions in the plain model.
ghost use Rattle.std.specs.Prelude.{◌≡◌, ◌<◌, ◌++◌, ℕ, None, Contains, IfOk, OnOk, OnErr};
ghost use Rattle.ipl_base.specs.declared.limits.TheConstants.{SESSIONS};
ghost use Rattle.ipl_model.specs.State.{writes_of};
ghost use Rattle.ipl_model.specs.Refusals.{refuses_batch};
ghost use Rattle.ipl_model.specs.Operations.{after_batch};
ghost use Rattle.ipl_model.specs.Plain.{state_of, limits_of, newest_first, batch_writes, with_records, with_closed};

use super::PlainModel;
use super::locks::append_copies;
use super::log::Write;
use std::alloc::AllocError;

impl PlainModel {
    /// Closes these sessions, and their writes become records, one session after the other.
    pub(crate) fn apply_batch(&mut self, sessions: &[u32]) -> Result<(), AllocError>
        requires { refuses_batch (limits_of self.old) (state_of self.old) sessions.now ≡ None }
        ensures ok { OnOk result (state_of self.new ≡ after_batch (state_of self.old) sessions.now) }
        ensures err { OnErr result (state_of self.new ≡ state_of self.old) }
        ensures units { self.new.units ≡ self.old.units }
    {
        // All memory is taken before the first session is closed.
        let mut writes = self.copy_writes(sessions)?;
        self.commit_writes(&mut writes)?;
        self.close_sessions(sessions);
        Ok(())
    }

    /// Appends copies of the writes of a session, if it is open.
    fn append_writes(&self, all: &mut Vec<Write>, s: u32) -> Result<(), AllocError>
        ensures { OnOk result (newest_first all.new.items
            ≡ writes_of (state_of self.now) s ++ newest_first all.old.items) }
    {
        match self.session(s) {
            Some(session) => append_copies(all, &session.writes),
            None => Ok(()),
        }
    }

    /// Copies of the writes of these sessions, one session after the other, each with its oldest first.
    fn copy_writes(&self, sessions: &[u32]) -> Result<Vec<Write>, AllocError>
        ensures { IfOk result (λ all.
            newest_first all.items ≡ batch_writes (state_of self.now) sessions.now) }
    {
        let mut all = Vec::new(self.alloc);
        for s in sessions {
            self.append_writes(&mut all, *s)?;
        }
        Ok(all)
    }

    /// Makes records of writes, the oldest of which stands first.
    fn commit_writes(&mut self, writes: &mut Vec<Write>) -> Result<(), AllocError>
        ensures ok { OnOk result (
            state_of self.new ≡ with_records (newest_first writes.old.items) (state_of self.old)) }
        ensures err { OnErr result (state_of self.new ≡ state_of self.old) }
        ensures units { self.new.units ≡ self.old.units }
    {
        self.committed.append(writes)?;
        Ok(())
    }

    /// Closes these sessions, and their writes are gone.
    fn close_sessions(&mut self, sessions: &[u32])
        requires { (s : ℕ) → Contains sessions.now s → s < SESSIONS }
        ensures state { state_of self.new ≡ with_closed (state_of self.old) sessions.now }
        ensures units { self.new.units ≡ self.old.units }
    {
        for s in sessions {
            self.close_session(*s);
        }
    }
}
