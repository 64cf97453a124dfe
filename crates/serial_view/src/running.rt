//! A run of commands, as far as it tells which of them are refused.
ghost use Rattle.std.specs.Prelude.{◌≡◌, ◌<◌, ◌≤◌, ℕ, true, false, map, length, not, is_some, nat_lt, replicate, slice_index, slice_set, Contains, IfOk};
ghost use Rattle.ipl_base.specs.declared.limits.TheConstants.{SESSIONS, PAGE_LEN};
ghost use Rattle.ipl_model.specs.State.{at_rest};
ghost use Rattle.ipl_model.specs.Operations.{after_commit, after_batch, after_abort, after_restart};
ghost use Rattle.ipl_model.specs.declared.command.Command.TheVariants as command;
ghost use Rattle.ipl_model.specs.Plain.{state_of, limits_of, limits_for};
ghost use Rattle.record_locks.specs.Locks.{refuses_write};
ghost use Rattle.serial_view.specs.Running.{run_of, run_limits, limits_with, Tracks, Follows, TakesCommand, Sets, room_in, fill_in, after_write};

use crate::size_table::{clear_sizes, copy_sizes, set_size, size_at, zeros};
use ipl_base::{Geometry, Name, OutOfMemory, PAGE_LEN, SLOTS, UNIT_NAMES, VALUE_LEN};
use ipl_model::{Command, PlainModel};
use record_locks::Sessions;
use std::alloc::Global;

/// The open sessions of a run, and in place of its records and writes what these take in the text of
/// their pages, for each name of the geometry. It takes no memory after `new`. A contract sees it by
/// `run_of`.
#[derive(Drop)]
pub struct Running {
    units: u32,
    sessions: Sessions,
    /// What the name's record takes, 0 where there is none.
    records: Vec<u32>,
    /// What its last write by an open session takes. No two sessions write a name, so it is that of
    /// the one that did; what stands at other names says nothing.
    last: Vec<u32>,
    /// The most that a write of it by an open session takes, 0 where there is none.
    most: Vec<u32>,
}

impl Running {
    /// The run before its first command, of so many sessions, 32 at most: the records of `start`, which
    /// has no open session.
    pub fn new(
        alloc: Global,
        geometry: Geometry,
        sessions: u32,
        start: &PlainModel,
    ) -> Result<Running, OutOfMemory>
        requires sessions { sessions ≤ SESSIONS }
        requires limits { limits_of start.now ≡ limits_for geometry.units }
        requires at_rest { state_of start.now ≡ at_rest (state_of start.now).map }
        ensures limits { IfOk result (λ run. run_limits (run_of run) ≡ limits_with sessions geometry.units) }
        ensures tracks { IfOk result (λ run. Tracks (state_of start.now) (run_of run)) }
    {
        let names = UNIT_NAMES as usize * geometry.units() as usize;
        Ok(Running {
            units: geometry.units(),
            sessions: Sessions::new(alloc, sessions)?,
            records: start.record_sizes()?,
            last: zeros(alloc, names)?,
            most: zeros(alloc, names)?,
        })
    }

    /// Runs a command, and answers whether it isn't refused.
    pub fn take(&mut self, command: &Command) -> bool
        ensures { TakesCommand (run_of self.old) command.now (run_of self.new) result }
    {
        match command {
            Command::Begin(s) => self.begin(*s),
            Command::Get(s, name) => self.get(*s, *name),
            Command::Share(s, name) => self.share(*s, *name),
            Command::Put(s, name, bytes) => self.put(*s, *name, bytes.bytes()),
            Command::Del(s, name) => self.del(*s, *name),
            Command::Commit(s) => self.commit(*s),
            Command::Batch(sessions) => self.batch(sessions.numbers()),
            Command::Abort(s) => self.abort(*s),
            Command::List(a, b) => self.list(*a, *b),
            Command::Merge(unit) => self.merge(*unit),
            Command::Restart => self.restart(),
            Command::Syntax => self.syntax(),
        }
    }
}

impl Running {
    /// Whether there is such a name.
    fn has_name(&self, name: u32) -> bool
        ensures { result ≡ nat_lt name (run_limits (run_of self.now)).names }
    {
        u64::from(name) < u64::from(UNIT_NAMES) * u64::from(self.units)
    }

    /// What a name may come to take in its page, with one write more: of this size, of `written`.
    fn room(&self, name: u32, written: u32, size: u32) -> u32
        ensures { result ≡ room_in (run_of self.now) written size name }
    {
        let most = size_at(&self.most, name);
        let most = if written == name {
            size.max(most)
        } else {
            most
        };
        size_at(&self.records, name).max(most)
    }

    /// What the page of a name may come to take with a write of this size of it.
    fn fill(&self, name: u32, size: u32) -> u64
        ensures { result ≡ fill_in (run_of self.now) name size }
    {
        let first = name / SLOTS * SLOTS;
        let mut total = 0;
        for slot in 0..SLOTS {
            total += u64::from(self.room(first + slot, name, size));
        }
        total
    }

    /// Runs a begin, and answers whether it isn't refused. So do the functions of the other commands.
    fn begin(&mut self, s: u32) -> bool
        ensures { TakesCommand (run_of self.old) (command.Begin s) (run_of self.new) result }
    {
        self.sessions.facts();
        if s >= self.sessions.count() {
            return false;
        }
        // The view asks for no transaction number.
        self.sessions.begin(s, 0).is_ok()
    }

    fn get(&mut self, s: u32, name: u32) -> bool
        ensures { TakesCommand (run_of self.old) (command.Get s name) (run_of self.new) result }
    {
        s < self.sessions.count() && self.has_name(name) && self.sessions.is_open(s)
    }

    fn share(&mut self, s: u32, name: u32) -> bool
        ensures { TakesCommand (run_of self.old) (command.Share s name) (run_of self.new) result }
    {
        self.sessions.facts();
        if s >= self.sessions.count() || !self.has_name(name) {
            return false;
        }
        self.sessions.share(s, Name(name)).is_ok()
    }

    /// Writes a name, unless the sessions refuse it, and answers whether they don't.
    fn write(&mut self, s: u32, name: u32, size: u16) -> bool
        requires { s < length (run_of self.old).slots }
        ensures test { result ≡ not (is_some (refuses_write (run_of self.old).slots s name size)) }
        ensures written { result ≡ true → run_of self.new ≡ after_write (run_of self.old) s name size }
        ensures refused { result ≡ false → run_of self.new ≡ run_of self.old }
    {
        if self.sessions.write(s, Name(name), size).is_err() {
            return false;
        }
        let size = u32::from(size);
        set_size(&mut self.last, name, size);
        let before = size_at(&self.most, name);
        set_size(&mut self.most, name, size.max(before));
        true
    }

    fn put(&mut self, s: u32, name: u32, bytes: &[u8]) -> bool
        ensures { TakesCommand (run_of self.old) (command.Put s name bytes.now) (run_of self.new) result }
    {
        self.sessions.facts();
        if s >= self.sessions.count() || !self.has_name(name) || bytes.len() > VALUE_LEN {
            return false;
        }
        // The view doesn't ask which test refuses a put, and so the page comes before the sessions, which
        // note the write as they test it.
        let size = 3 + bytes.len() as u32;
        if self.fill(name, size) > PAGE_LEN as u64 {
            return false;
        }
        self.write(s, name, size as u16)
    }

    fn del(&mut self, s: u32, name: u32) -> bool
        ensures { TakesCommand (run_of self.old) (command.Del s name) (run_of self.new) result }
    {
        self.sessions.facts();
        if s >= self.sessions.count() || !self.has_name(name) {
            return false;
        }
        self.write(s, name, 0)
    }

    /// Closes a session, if it is open, and its writes are gone.
    fn close(&mut self, s: u32)
        requires { s < length (run_of self.old).slots }
        ensures { Follows (run_of self.old) (λ state. after_abort state s) (run_of self.new) }
    {
        self.sessions.facts();
        clear_sizes(&mut self.most, self.sessions.written(s));
        let _ = self.sessions.end(s);
    }

    /// Closes a session, if it is open, and its writes become records.
    fn apply(&mut self, s: u32)
        requires { s < length (run_of self.old).slots }
        ensures { Follows (run_of self.old) (λ state. after_commit state s) (run_of self.new) }
    {
        copy_sizes(&mut self.records, &self.last, self.sessions.written(s));
        self.close(s);
    }

    /// Closes these sessions, and their writes become records, one session after the other.
    fn apply_all(&mut self, sessions: &[u32])
        requires { (s : ℕ) → Contains sessions.now s → s < length (run_of self.old).slots }
        ensures { Follows (run_of self.old) (λ state. after_batch state sessions.now)
            (run_of self.new) }
    {
        for s in sessions {
            self.apply(*s);
        }
    }

    /// Closes all sessions, and their writes are gone.
    fn close_all(&mut self)
        ensures { Follows (run_of self.old) after_restart (run_of self.new) }
    {
        for s in 0..self.sessions.count() {
            self.close(s);
        }
    }

    fn commit(&mut self, s: u32) -> bool
        ensures { TakesCommand (run_of self.old) (command.Commit s) (run_of self.new) result }
    {
        if s >= self.sessions.count() || !self.sessions.is_open(s) {
            return false;
        }
        self.apply(s);
        true
    }

    fn batch(&mut self, sessions: &[u32]) -> bool
        ensures { TakesCommand (run_of self.old) (command.Batch sessions.now) (run_of self.new) result }
    {
        self.sessions.facts();
        if self.sessions.refuses_batch(sessions).is_some() {
            return false;
        }
        self.apply_all(sessions);
        true
    }

    fn abort(&mut self, s: u32) -> bool
        ensures { TakesCommand (run_of self.old) (command.Abort s) (run_of self.new) result }
    {
        if s >= self.sessions.count() || !self.sessions.is_open(s) {
            return false;
        }
        self.close(s);
        true
    }

    fn list(&mut self, a: u32, b: u32) -> bool
        ensures { TakesCommand (run_of self.old) (command.List a b) (run_of self.new) result }
    {
        self.has_name(a) && self.has_name(b)
    }

    fn merge(&mut self, unit: u32) -> bool
        ensures { TakesCommand (run_of self.old) (command.Merge unit) (run_of self.new) result }
    {
        unit < self.units
    }

    fn restart(&mut self) -> bool
        ensures { TakesCommand (run_of self.old) command.Restart (run_of self.new) result }
    {
        self.close_all();
        true
    }

    fn syntax(&mut self) -> bool
        ensures { TakesCommand (run_of self.old) command.Syntax (run_of self.new) result }
    {
        true
    }
}
