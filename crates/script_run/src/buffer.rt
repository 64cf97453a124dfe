//! What is kept of a line while its bytes come.
ghost use Rattle.std.specs.Prelude.{◌≡◌, ◌≤◌, [], ℕ, List, length};
ghost use Rattle.std.specs.List.{fold};
ghost use Rattle.script_run.specs.Lines.{kept};

use arrayvec::ArrayVec;
use std::marker::Model;

/// The first 1,025 bytes of a line: they tell what it says, however long it is. A contract sees them as a list.
#[derive(Drop)]
pub(crate) struct LineBuffer {
    bytes: ArrayVec<u8, 1025>,
}

impl Model for LineBuffer {
    ghost Value = { List ℕ };

    ghost view = { λ v. v.bytes.items };

    ghost invariant = { λ v. length v.bytes.items ≤ 1025 };
}

impl LineBuffer {
    /// No bytes.
    pub(crate) fn new() -> LineBuffer
        ensures { result ≡ [] }
    {
        LineBuffer {
            bytes: ArrayVec::new(),
        }
    }

    /// The bytes that are kept, at most 1,025.
    pub(crate) fn bytes(&self) -> &[u8]
        ensures { result.now ≡ self.now }
    {
        self.bytes.as_slice()
    }

    /// Drops them.
    pub(crate) fn clear(&mut self)
        ensures { self.new ≡ [] }
    {
        self.bytes.clear();
    }

    /// Keeps one byte more, unless the line is too long already.
    pub(crate) fn push(&mut self, byte: u8)
        ensures { self.new ≡ kept self.old byte }
    {
        if !self.bytes.is_full() {
            self.bytes.push(byte);
        }
    }

    /// Keeps more bytes, as many as there is room for.
    pub(crate) fn extend(&mut self, bytes: &[u8])
        ensures { self.new ≡ fold kept self.old bytes.now }
    {
        let count = self.bytes.remaining_capacity().min(bytes.len());
        let _ = self.bytes.try_extend_from_slice(&bytes[..count]);
    }
}
