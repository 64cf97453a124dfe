//! Copies of the plain model.
ghost use Rattle.std.specs.Prelude.{◌≡◌, map, length, IfOk, OnOk};
ghost use Rattle.ipl_model.specs.Plain.{state_of, limits_of, newest_first, session_of, slot_of};

use super::locks::append_copies;
use super::log::{LoggedSession, Write};
use super::{PlainModel, closed};
use ipl_base::OutOfMemory;
use std::alloc::{AllocError, Global};

/// The same writes again.
fn copied_log(alloc: Global, log: &[Write]) -> Result<Vec<Write>, AllocError>
    ensures { IfOk result (λ all. newest_first all.items ≡ newest_first log.now) }
{
    let mut all = Vec::new(alloc);
    append_copies(&mut all, log)?;
    Ok(all)
}

/// The same names again.
fn copied_names(alloc: Global, names: &[u32]) -> Result<Vec<u32>, AllocError>
    ensures { IfOk result (λ all. all.items ≡ names.now) }
{
    let mut all = Vec::new(alloc);
    all.extend_from_slice(names)?;
    Ok(all)
}

/// The same session again.
fn copied_session(alloc: Global, session: &LoggedSession) -> Result<LoggedSession, AllocError>
    ensures { IfOk result (λ again. session_of again ≡ session_of session.now) }
{
    let writes = copied_log(alloc, &session.writes)?;
    let shared = copied_names(alloc, &session.shared)?;
    Ok(LoggedSession { writes, shared })
}

/// The same session or none again.
fn copied_slot(
    alloc: Global,
    slot: &Option<LoggedSession>,
) -> Result<Option<LoggedSession>, AllocError>
    ensures { IfOk result (λ again. slot_of again ≡ slot_of slot.now) }
{
    match slot {
        Some(session) => Ok(Some(copied_session(alloc, session)?)),
        None => Ok(None),
    }
}

/// Puts the same sessions into as many other slots.
fn copy_slots(
    alloc: Global,
    into: &mut [Option<LoggedSession>],
    slots: &[Option<LoggedSession>],
) -> Result<(), AllocError>
    requires { length into.old ≡ length slots.now }
    ensures { OnOk result (map slot_of into.new ≡ map slot_of slots.now) }
{
    for i in 0..slots.len() {
        into[i] = copied_slot(alloc, &slots[i])?;
    }
    Ok(())
}

impl PlainModel {
    /// The same model again, in memory of its own: its records and its open sessions.
    pub fn copy(&self, alloc: Global) -> Result<PlainModel, OutOfMemory>
        ensures state { IfOk result (λ m. state_of m ≡ state_of self.now) }
        ensures limits { IfOk result (λ m. limits_of m ≡ limits_of self.now) }
    {
        let committed = copied_log(alloc, &self.committed)?;
        let mut sessions = closed();
        copy_slots(alloc, &mut sessions, &self.sessions)?;
        Ok(PlainModel {
            alloc,
            units: self.units,
            committed,
            sessions,
        })
    }
}
