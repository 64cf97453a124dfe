//! Who holds a name, and what is pending, over all sessions of the plain model.
ghost use Rattle.std.specs.Prelude.{◌≡◌, ◌<◌, ◌^◌, ◌==◌, ◌&&◌, ◌++◌, not, map, length, false, IfOk, OnOk};
ghost use Rattle.std.specs.Option.{option_map_or};
ghost use Rattle.ipl_model.specs.State.{has_written, has_shared};
ghost use Rattle.ipl_model.specs.Plain.{newest_first, session_of, slot_of, keeps_from, least_holder, writes_in, all_writes};

use super::log::{LoggedSession, Write};
use super::scan::is_written;
use std::alloc::{AllocError, Global};

/// What a session asks for: to share a name, or to write it.
#[derive(Clone, Copy)]
pub enum Lock {
    Share,
    Write,
}

impl LoggedSession {
    /// Whether the session wrote a name.
    pub fn has_written(&self, name: u32) -> bool
        ensures { result ≡ has_written (session_of self.now) name }
    {
        is_written(&self.writes, name)
    }

    /// Whether the session shares a name.
    #[tactic(auto, using(crate::proofs::ListLemmas::any_of_reversed))]
    pub fn has_shared(&self, name: u32) -> bool
        ensures { result ≡ has_shared (session_of self.now) name }
    {
        self.shared.contains(&name)
    }

    /// Whether the session keeps others from sharing a name, or from writing it.
    pub fn keeps_from(&self, lock: Lock, name: u32) -> bool
        ensures { result ≡ keeps_from lock name (session_of self.now) }
    {
        match lock {
            Lock::Share => self.has_written(name),
            Lock::Write => self.has_written(name) || self.has_shared(name),
        }
    }
}

/// Whether the session in a slot is another one than `s`, and keeps it from a name.
fn is_holder(other: u32, slot: &Option<LoggedSession>, s: u32, lock: Lock, name: u32) -> bool
    ensures { result ≡ (not (other == s)
        && option_map_or (keeps_from lock name) (slot_of slot.now) false) }
{
    match slot {
        Some(session) => other != s && session.keeps_from(lock, name),
        None => false,
    }
}

/// The least session other than `s` that keeps it from a name.
pub fn holder(sessions: &[Option<LoggedSession>], s: u32, lock: Lock, name: u32) -> Option<u32>
    requires { length sessions.now < 2 ^ 32 }
    ensures { result ≡ least_holder (map slot_of sessions.now) s lock name }
{
    for (i, slot) in sessions.iter().enumerate() {
        if is_holder(i as u32, slot, s, lock, name) {
            return Some(i as u32);
        }
    }
    None
}

/// Appends copies of writes.
pub(crate) fn append_copies(all: &mut Vec<Write>, log: &[Write]) -> Result<(), AllocError>
    ensures { OnOk result (newest_first all.new.items ≡ newest_first log.now ++ newest_first all.old.items) }
{
    for write in log {
        all.push(write.copy())?;
    }
    Ok(())
}

/// Appends copies of the writes of the session in a slot, if there is one.
fn append_slot(all: &mut Vec<Write>, slot: &Option<LoggedSession>) -> Result<(), AllocError>
    ensures { OnOk result (newest_first all.new.items
        ≡ writes_in (slot_of slot.now) ++ newest_first all.old.items) }
{
    match slot {
        Some(session) => append_copies(all, &session.writes),
        None => Ok(()),
    }
}

/// All writes of open sessions, those of the last session first.
pub(crate) fn pending_writes(
    alloc: Global,
    sessions: &[Option<LoggedSession>],
) -> Result<Vec<Write>, AllocError>
    ensures { IfOk result (λ all. newest_first all.items ≡ all_writes (map slot_of sessions.now)) }
{
    let mut all = Vec::new(alloc);
    let mut left = sessions.len();
    while left > 0 {
        left -= 1;
        append_slot(&mut all, &sessions[left])?;
    }
    Ok(all)
}
