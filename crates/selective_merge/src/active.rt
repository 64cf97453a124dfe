//! The numbers of the open sessions.
ghost use Rattle.std.specs.Prelude.{◌≡◌, ◌<◌, ◌≤◌, ◌++◌, ◌∷◌, [], length};
ghost use Rattle.ipl_base.specs.declared.limits.TheConstants.{SESSIONS};
ghost use Rattle.selective_merge.specs.Packs.{among};

use arrayvec::ArrayVec;
use ipl_base::SESSIONS;
use std::marker::Model;

/// The room for a number of each session.
const ROOM: usize = SESSIONS as usize;

/// The numbers of the open sessions, at most 32. A contract sees the list. It never takes memory.
#[derive(Drop)]
pub struct Active {
    numbers: ArrayVec<u64, ROOM>,
}

impl Model for Active {
    ghost use Rattle.std.specs.Prelude.{ℕ, List, length, ◌≤◌};
    ghost use Rattle.ipl_base.specs.declared.limits.TheConstants.{SESSIONS};

    ghost Value = { List ℕ };

    ghost view = { λ a. a.numbers.items };

    ghost invariant = { λ a. length a.numbers.items ≤ SESSIONS };
}

impl Active {
    /// No session is open.
    pub fn none() -> Active
        ensures { result ≡ [] }
    {
        Active {
            numbers: ArrayVec::new(),
        }
    }

    /// The numbers, at most 32.
    pub fn as_slice(&self) -> &[u64]
        ensures numbers { result.now ≡ self.now }
        ensures few { length result.now ≤ SESSIONS }
    {
        self.numbers.as_slice()
    }

    /// Whether a number is one of them.
    pub fn contains(&self, tid: u64) -> bool
        ensures { result ≡ among self.now tid }
    {
        self.numbers.as_slice().iter().any(|n| *n == tid)
    }

    /// Puts a number behind the others, of which there are fewer than 32.
    pub fn add(&mut self, tid: u64)
        requires { length self.old < SESSIONS }
        ensures { self.new ≡ self.old ++ tid ∷ [] }
    {
        self.numbers.push(tid);
    }
}
