//! What a chip and its desk were asked.
ghost use Rattle.std.specs.Prelude.{◌≡◌, ◌≤◌, ℕ, List, length};

use arrayvec::ArrayVec;
use std::marker::Model;

/// What was said by one call, at most 1,024 bytes. A contract sees it as a list.
#[derive(Debug, Drop)]
pub struct Piece {
    bytes: ArrayVec<u8, 1024>,
}

impl Model for Piece {
    ghost Value = { List ℕ };

    ghost view = { λ v. v.bytes.items };

    ghost invariant = { λ v. length v.bytes.items ≤ 1024 };

    ghost inverse = { λ xs. record { bytes = record { items = xs } } };
}

impl Piece {
    /// The piece of these bytes, at most 1,024.
    pub fn of(bytes: &[u8]) -> Piece
        requires { length bytes.now ≤ 1024 }
        ensures { result ≡ bytes.now }
    {
        let mut items = ArrayVec::new();
        let _ = items.try_extend_from_slice(bytes);
        Piece { bytes: items }
    }

    /// Its bytes.
    pub fn bytes(&self) -> &[u8]
        ensures value { result.now ≡ self.now }
        ensures fits { length result.now ≤ 1024 }
    {
        self.bytes.as_slice()
    }
}

/// One thing that happened: a sector of a place was read or programmed with these bytes, a place was erased, or was to be
/// and is worn, a barrier was passed, or a piece was said.
#[derive(Debug, Drop)]
pub enum Event {
    Read(u32, u32),
    Program(u32, u32, [u8; 512]),
    Erase(u32),
    Worn(u32),
    Barrier,
    Said(Piece),
}
