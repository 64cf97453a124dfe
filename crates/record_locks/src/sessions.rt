//! The open sessions of a store.
ghost use Rattle.std.specs.Prelude.{◌≡◌, ◌≤◌, ◌<◌, ◌^◌, ◌-◌, ℕ, true, None, map, length, All, Contains, IfOk, OnOk, OnErr, replicate};
ghost use Rattle.std.specs.Result.{result_err};
ghost use Rattle.ipl_base.specs.declared.limits.TheConstants.{PENDING_WEIGHT, SESSIONS};
ghost use Rattle.ipl_model.specs.Peaks.{weights};
ghost use Rattle.record_locks.specs.Held.{is_among, peaks_in, number_of, written_of, shared_of, after_begin, after_share, after_write, after_end, after_batch};
ghost use Rattle.record_locks.specs.Standing.{state_of};
ghost use Rattle.record_locks.specs.Locks.{refuses_begin, refuses_share, refuses_write, refuses_end, refuses_batch, holder_of, IsSized, OneWriter, FewPending};

mod refusals;

use crate::scan::{fill, find_holder, peak_in_slot, peak_of, weigh_pending};
use crate::session::{OpenSession, share_in, write_in};
use bounded_vec::BoundedVec;
use ipl_base::{Name, OutOfMemory, Refusal};
use std::alloc::Global;
use std::marker::Model;

/// The open sessions, each with its transaction number, the names that it wrote, with the greatest
/// size of its writes on each, and those that it shares. Memory is taken by `new` alone. No name is
/// written by two sessions, and the pending names of each unit weigh at most 48.
#[derive(Drop)]
pub struct Sessions {
    slots: BoundedVec<Option<OpenSession>>,
}

impl Model for Sessions {
    ghost use Rattle.std.specs.Prelude.{List, Option};
    ghost use Rattle.record_locks.specs.Held.{Held};
    ghost use Rattle.record_locks.specs.Locks.{AreSoundSlots};

    ghost Value = { List (Option Held) };

    ghost view = { λ s. s.slots.items };

    ghost invariant = { λ s. AreSoundSlots s.slots.items };
}

impl Sessions {
    /// Room for so many sessions, 32 at most, none of which is open.
    pub fn new(alloc: Global, sessions: u32) -> Result<Sessions, OutOfMemory>
        requires { sessions ≤ SESSIONS }
        ensures { IfOk result (λ opened. opened ≡ replicate sessions None) }
    {
        let mut slots = BoundedVec::new(alloc, sessions as usize)?;
        fill(&mut slots, sessions);
        Ok(Sessions { slots })
    }

    /// How many sessions there are. Their numbers are those below it.
    pub fn count(&self) -> u32
        ensures count { result ≡ length self.now }
        ensures few { result ≤ SESSIONS }
    {
        self.slots.len() as u32
    }

    /// Opens a session.
    pub fn begin(&mut self, s: u32, number: u64) -> Result<(), Refusal>
        requires { s < length self.old }
        ensures refusal { result_err result ≡ refuses_begin self.old s }
        ensures ok { OnOk result (self.new ≡ after_begin self.old s number) }
        ensures err { OnErr result (self.new ≡ self.old) }
    {
        if self.is_open(s) {
            return Err(Refusal::AlreadyOpen);
        }
        self.slots[s as usize] = Some(OpenSession::new(number));
        Ok(())
    }

    /// Adds a name to those that a session shares, unless it wrote or shares the name.
    pub fn share(&mut self, s: u32, name: Name) -> Result<(), Refusal>
        requires { s < length self.old }
        ensures refusal { result_err result ≡ refuses_share self.old s name.0 }
        ensures ok { OnOk result (self.new ≡ after_share self.old s name.0) }
        ensures err { OnErr result (self.new ≡ self.old) }
    {
        if let Some(refusal) = self.refuses_share(s, name) {
            return Err(refusal);
        }
        share_in(&mut self.slots[s as usize], name);
        Ok(())
    }

    /// Adds a name to those that a session wrote, unless it is among them. `size` is what the write
    /// takes in its page: 3 bytes and the value's, or 0 for a delete; the greatest is kept.
    pub fn write(&mut self, s: u32, name: Name, size: u16) -> Result<(), Refusal>
        requires { s < length self.old }
        ensures refusal { result_err result ≡ refuses_write self.old s name.0 size }
        ensures ok { OnOk result (self.new ≡ after_write self.old s name.0 size) }
        ensures err { OnErr result (self.new ≡ self.old) }
    {
        if let Some(refusal) = self.refuses_write(s, name, size) {
            return Err(refusal);
        }
        write_in(&mut self.slots[s as usize], name, size);
        Ok(())
    }

    /// Closes a session, for a commit or an abort.
    pub fn end(&mut self, s: u32) -> Result<(), Refusal>
        requires { s < length self.old }
        ensures refusal { result_err result ≡ refuses_end self.old s }
        ensures ok { OnOk result (self.new ≡ after_end self.old s) }
        ensures err { OnErr result (self.new ≡ self.old) }
    {
        if !self.is_open(s) {
            return Err(Refusal::NotOpen);
        }
        self.close(s);
        Ok(())
    }

    /// Closes several sessions, for a commit of them together: all of them, or where that is refused
    /// none.
    pub fn end_all(&mut self, numbers: &[u32]) -> Result<(), Refusal>
        ensures refusal { result_err result ≡ refuses_batch self.old numbers.now }
        ensures ok { OnOk result (self.new ≡ after_batch self.old numbers.now) }
        ensures err { OnErr result (self.new ≡ self.old) }
    {
        if let Some(refusal) = self.refuses_batch(numbers) {
            return Err(refusal);
        }
        self.close_all(numbers);
        Ok(())
    }

    /// Closes all sessions. It takes no memory.
    pub fn reset(&mut self)
        ensures { self.new ≡ replicate (length self.old) None }
    {
        let sessions = self.slots.len() as u32;
        self.slots.clear();
        fill(&mut self.slots, sessions);
    }

    /// The least other session that keeps session `s` from writing a name, or from sharing it.
    pub fn holder(&self, s: u32, name: Name, for_write: bool) -> Option<u32>
        ensures { result ≡ holder_of self.now s name.0 for_write }
    {
        find_holder(&self.slots, s, name, for_write)
    }

    /// What the names of a unit that open sessions wrote weigh.
    pub fn pending(&self, unit: u32) -> u32
        ensures weight { result ≡ weights (peaks_in self.now) unit }
        ensures few { result ≤ PENDING_WEIGHT }
    {
        weigh_pending(&self.slots, unit)
    }

    /// The peak of a name: one more than the greatest size of the writes of open sessions on it, 0
    /// where none wrote it.
    pub fn peak(&self, name: Name) -> u64
        ensures peak { result ≡ peaks_in self.now name.0 }
        ensures fits { result ≤ 2 ^ 32 }
    {
        peak_of(&self.slots, name)
    }

    /// The greatest size of the writes of open sessions on a name, 0 where none wrote it.
    pub fn size(&self, name: Name) -> u32
        ensures { result ≡ peaks_in self.now name.0 - 1 }
    {
        self.peak(name).saturating_sub(1) as u32
    }

    /// The greatest size of the writes of a session on a name that it wrote. No other session wrote the
    /// name, so it is the greatest of all, and this session alone is asked.
    pub fn size_by(&self, s: u32, name: Name) -> u32
        requires session { s < length self.now }
        requires wrote { is_among name.0 (written_of self.now s) ≡ true }
        ensures { result ≡ peaks_in self.now name.0 - 1 }
    {
        peak_in_slot(&self.slots[s as usize], name).saturating_sub(1) as u32
    }

    /// What always holds: there are 32 slots at most, no name is written by two sessions, each that is
    /// written has its size, and the pending names of each unit weigh at most 48.
    pub fn facts(&self)
        ensures all { length self.now ≤ SESSIONS }
        ensures one_writer { OneWriter self.now }
        ensures sized { All IsSized self.now }
        ensures few { FewPending self.now }
    {
        let _ = &self.slots;
    }

    /// The transaction number of a session, where it is open.
    pub fn number(&self, s: u32) -> Option<u64>
        requires { s < length self.now }
        ensures { result ≡ number_of self.now s }
    {
        match &self.slots[s as usize] {
            Some(session) => Some(session.number()),
            None => None,
        }
    }

    /// The names that a session wrote, the oldest first; none where it isn't open.
    pub fn written(&self, s: u32) -> &[Name]
        requires { s < length self.now }
        ensures names { map (λ n. n.0) result.now ≡ written_of self.now s }
        ensures fits { length result.now ≤ 256 }
    {
        match &self.slots[s as usize] {
            Some(session) => session.written(),
            None => &[],
        }
    }

    /// The names that a session shares, the oldest first; none where it isn't open.
    pub fn shared(&self, s: u32) -> &[Name]
        requires { s < length self.now }
        ensures names { map (λ n. n.0) result.now ≡ shared_of self.now s }
        ensures fits { length result.now ≤ 256 }
    {
        match &self.slots[s as usize] {
            Some(session) => session.shared(),
            None => &[],
        }
    }
}

impl Sessions {
    /// Closes a session, if it is open.
    fn close(&mut self, s: u32)
        requires { s < length self.old }
        ensures { self.new ≡ after_end self.old s }
    {
        self.slots[s as usize] = None;
    }

    /// Closes these sessions, each that is open.
    fn close_all(&mut self, numbers: &[u32])
        requires { (s : ℕ) → Contains numbers.now s → s < length self.old }
        ensures { self.new ≡ after_batch self.old numbers.now }
    {
        for s in numbers {
            self.close(*s);
        }
    }
}
