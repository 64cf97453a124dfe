//! The model as a program: the definitions, run on logs of writes. It is slow and plain.
ghost use Rattle.std.specs.Prelude.{◌≡◌, ◌<◌, ◌∷◌, ℕ, [], map, length, slice_index, IfOk, OnErr};
ghost use Rattle.std.specs.FinMap.{empty};
ghost use Rattle.std.specs.Option.{option_copied};
ghost use Rattle.std.specs.FinMap.{get};
ghost use Rattle.ipl_base.specs.declared.limits.TheConstants.{SESSIONS};
ghost use Rattle.ipl_base.specs.Sizes.{size_in_page};
ghost use Rattle.ipl_model.specs.State.{at_rest};
ghost use Rattle.ipl_model.specs.Step.{step};
ghost use Rattle.ipl_model.specs.Slots.{opened};
ghost use Rattle.ipl_model.specs.Plain.{state_of, limits_of, limits_for, slot_of};

mod batches;
mod changes;
mod copies;
mod locks;
mod log;
mod peaks;
mod refusals;
mod scan;
mod steps;

use crate::{Command, Reply};
use ipl_base::{Geometry, OutOfMemory, SESSIONS, UNIT_NAMES};
use log::{LoggedSession, Write};
use peaks::record_sizes;
use std::alloc::{AllocError, Global};
use std::array;

/// The slots of sessions.
const ROOM: usize = SESSIONS as usize;

/// The model, run on logs of writes: all that were committed, and those of each open session, the
/// oldest first.
#[derive(Drop)]
pub struct PlainModel {
    alloc: Global,
    units: u32,
    committed: Vec<Write>,
    sessions: [Option<LoggedSession>; ROOM],
}

/// Sessions of which none is open.
fn closed() -> [Option<LoggedSession>; ROOM]
    ensures none { opened (map slot_of result) ≡ empty }
    ensures len { length result ≡ SESSIONS }
{
    array::from_fn(|_| None)
}

impl PlainModel {
    /// A model with no record, over such a chip.
    pub fn new(alloc: Global, geometry: Geometry) -> Result<PlainModel, OutOfMemory>
        ensures state { IfOk result (λ m. state_of m ≡ at_rest empty) }
        ensures limits { IfOk result (λ m. limits_of m ≡ limits_for geometry.units) }
    {
        Ok(PlainModel {
            alloc,
            units: geometry.units(),
            committed: Vec::new(alloc),
            sessions: closed(),
        })
    }

    /// One step. Want of memory leaves the model as it was.
    pub fn step(&mut self, command: &Command) -> Result<Vec<Reply>, OutOfMemory>
        ensures ok { IfOk result (λ replies.
            step (limits_of self.old) (state_of self.old) command.now ≡ (state_of self.new, replies.items)) }
        ensures err { OnErr result (state_of self.new ≡ state_of self.old) }
        ensures limits { limits_of self.new ≡ limits_of self.old }
    {
        Ok(self.answer(command)?)
    }

    /// What the record of each name of the chip takes in the text of its page: 3 bytes and the
    /// value's, 0 where there is none.
    pub fn record_sizes(&self) -> Result<Vec<u32>, OutOfMemory>
        ensures len { IfOk result (λ sizes. length sizes.items ≡ (limits_of self.now).names) }
        ensures sizes { IfOk result (λ sizes. (n : ℕ) → n < (limits_of self.now).names
            → slice_index sizes.items n ≡ size_in_page (get (state_of self.now).map n)) }
    {
        let names = UNIT_NAMES as usize * self.units as usize;
        Ok(record_sizes(self.alloc, &self.committed, names)?)
    }

    /// An open session.
    fn session(&self, s: u32) -> Option<&LoggedSession>
        ensures { slot_of (option_copied result) ≡ get (state_of self.now).sessions s }
    {
        match self.sessions.get(s as usize) {
            Some(slot) => slot.as_ref(),
            None => None,
        }
    }
}
