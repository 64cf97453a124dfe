//! The commands of a script.
ghost use Rattle.std.specs.Prelude.{◌≡◌, ◌≤◌, ◌<◌, ◌++◌, ◌∷◌, [], ℕ, List, length};
ghost use Rattle.ipl_base.specs.declared.limits.TheConstants.{SESSIONS};

use arrayvec::ArrayVec;
use ipl_base::SESSIONS;
use std::marker::Model;

/// The bytes of a put as they stood in its line, at most 512. A contract sees them as a list.
#[derive(PartialEq, Eq, Debug, Drop)]
pub struct PutBytes {
    bytes: ArrayVec<u8, 512>,
}

impl Model for PutBytes {
    ghost Value = { List ℕ };

    ghost view = { λ v. v.bytes.items };

    ghost invariant = { λ v. length v.bytes.items ≤ 512 };

    ghost inverse = { λ xs. record { bytes = record { items = xs } } };
}

impl PutBytes {
    /// The put of these bytes, at most 512.
    pub fn of(bytes: &[u8]) -> PutBytes
        requires { length bytes.now ≤ 512 }
        ensures { result ≡ bytes.now }
    {
        let mut items = ArrayVec::new();
        let _ = items.try_extend_from_slice(bytes);
        PutBytes { bytes: items }
    }

    /// Its bytes, at most 512.
    pub fn bytes(&self) -> &[u8]
        ensures value { result.now ≡ self.now }
        ensures fits { length result.now ≤ 512 }
    {
        self.bytes.as_slice()
    }
}

/// The room for a number of each session.
const ROOM: usize = SESSIONS as usize;

/// The sessions that a commit of several names, 2 to 32, in their order. A contract sees them as a list.
#[derive(PartialEq, Eq, Debug, Drop)]
pub struct Sessions {
    numbers: ArrayVec<u32, ROOM>,
}

impl Model for Sessions {
    ghost Value = { List ℕ };

    ghost view = { λ v. v.numbers.items };

    ghost invariant = { λ v. length v.numbers.items ≤ SESSIONS };

    ghost inverse = { λ xs. record { numbers = record { items = xs } } };
}

impl Sessions {
    /// These sessions, at most 32.
    pub fn of(numbers: &[u32]) -> Sessions
        requires { length numbers.now ≤ SESSIONS }
        ensures { result ≡ numbers.now }
    {
        let mut items = ArrayVec::new();
        let _ = items.try_extend_from_slice(numbers);
        Sessions { numbers: items }
    }

    /// Puts a session behind the others, of which there are fewer than 32.
    pub fn push(&mut self, number: u32)
        requires { length self.old < SESSIONS }
        ensures { self.new ≡ self.old ++ number ∷ [] }
    {
        self.numbers.push(number);
    }

    /// Their numbers, at most 32.
    pub fn numbers(&self) -> &[u32]
        ensures value { result.now ≡ self.now }
        ensures fits { length result.now ≤ SESSIONS }
    {
        self.numbers.as_slice()
    }
}

/// One command: a session first, where it has one, then a name; a list has the first and the last
/// name, a merge the unit, a batch the sessions that it commits.
/// `Syntax` stands for a line that is no command.
#[derive(PartialEq, Eq, Debug, Drop)]
pub enum Command {
    Begin(u32),
    Get(u32, u32),
    Share(u32, u32),
    Put(u32, u32, PutBytes),
    Del(u32, u32),
    Commit(u32),
    Batch(Sessions),
    Abort(u32),
    List(u32, u32),
    Merge(u32),
    Restart,
    Syntax,
}
