//! What an operation of the plain model does that isn't refused.
ghost use Rattle.std.specs.Prelude.{◌≡◌, ◌<◌, ◌++◌, [], OnOk, OnErr};
ghost use Rattle.ipl_base.specs.declared.limits.TheConstants.{SESSIONS};
ghost use Rattle.ipl_model.specs.Operations.{after_begin, after_share, after_write, after_commit, after_abort, after_restart};
ghost use Rattle.ipl_model.specs.Plain.{state_of, newest_first, slot_of, writes_in, with_share};

use super::log::{LoggedSession, Write};
use super::{PlainModel, closed};
use ipl_base::Value;
use std::alloc::AllocError;

/// Appends the writes of the session in a slot, if there is one, and closes it.
fn move_writes(
    committed: &mut Vec<Write>,
    slot: &mut Option<LoggedSession>,
) -> Result<(), AllocError>
    ensures moved { OnOk result (newest_first committed.new.items
        ≡ writes_in (slot_of slot.old) ++ newest_first committed.old.items) }
    ensures closed { OnOk result (slot.new ≡ None) }
    ensures kept { OnErr result ((newest_first committed.new.items ≡ newest_first committed.old.items)
        × (slot_of slot.new ≡ slot_of slot.old)) }
{
    if let Some(session) = slot {
        committed.append(&mut session.writes)?;
    }
    *slot = None;
    Ok(())
}

impl PlainModel {
    /// Opens a session.
    pub(crate) fn open_session(&mut self, s: u32)
        requires { s < SESSIONS }
        ensures state { state_of self.new ≡ after_begin (state_of self.old) s }
        ensures units { self.new.units ≡ self.old.units }
    {
        self.sessions[s as usize] = Some(LoggedSession {
            writes: Vec::new(self.alloc),
            shared: Vec::new(self.alloc),
        });
    }

    /// Adds a name to those that a session shares.
    pub(crate) fn add_share(&mut self, s: u32, name: u32) -> Result<(), AllocError>
        requires { s < SESSIONS }
        ensures ok { OnOk result (state_of self.new ≡ with_share (state_of self.old) s name) }
        ensures err { OnErr result (state_of self.new ≡ state_of self.old) }
        ensures units { self.new.units ≡ self.old.units }
    {
        if let Some(session) = &mut self.sessions[s as usize] {
            session.shared.push(name)?;
        }
        Ok(())
    }

    /// Adds a write to those of a session.
    pub(crate) fn add_write(
        &mut self,
        s: u32,
        name: u32,
        value: Option<Value>,
    ) -> Result<(), AllocError>
        requires { s < SESSIONS }
        ensures ok { OnOk result (
            state_of self.new ≡ after_write (state_of self.old) s (name, value)) }
        ensures err { OnErr result (state_of self.new ≡ state_of self.old) }
        ensures units { self.new.units ≡ self.old.units }
    {
        if let Some(session) = &mut self.sessions[s as usize] {
            session.writes.push(Write { name, value })?;
        }
        Ok(())
    }

    /// Closes a session, and its writes become records.
    pub(crate) fn apply_writes(&mut self, s: u32) -> Result<(), AllocError>
        requires { s < SESSIONS }
        ensures ok { OnOk result (state_of self.new ≡ after_commit (state_of self.old) s) }
        ensures err { OnErr result (state_of self.new ≡ state_of self.old) }
        ensures units { self.new.units ≡ self.old.units }
    {
        let slot = &mut self.sessions[s as usize];
        move_writes(&mut self.committed, slot)
    }

    /// Closes a session, and its writes are gone.
    pub(crate) fn close_session(&mut self, s: u32)
        requires { s < SESSIONS }
        ensures state { state_of self.new ≡ after_abort (state_of self.old) s }
        ensures units { self.new.units ≡ self.old.units }
    {
        self.sessions[s as usize] = None;
    }

    /// Closes all sessions.
    pub fn close_all(&mut self)
        ensures state { state_of self.new ≡ after_restart (state_of self.old) }
        ensures units { self.new.units ≡ self.old.units }
    {
        self.sessions = closed();
    }
}
