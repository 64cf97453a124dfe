//! A line of text of bounded length.
ghost use Rattle.std.specs.Prelude.{◌≡◌, ◌≤◌, ◌+◌, ◌++◌, [], ℕ, List, length};
ghost use Rattle.std.specs.Fmt.{decimal};
ghost use Rattle.script_text.specs.declared.text_line.TheConstants.{LINE_LEN};

use arrayvec::ArrayVec;
use itoa::Buffer;
use std::marker::Model;

/// The bytes of a line, at most: a name, a space, a value of 464 bytes in hex digits and a line feed.
pub const LINE_LEN: usize = 940;

/// A line of text, at most 940 bytes. A contract sees it as a list.
#[derive(Debug, Drop)]
pub struct TextLine {
    bytes: ArrayVec<u8, LINE_LEN>,
}

impl Model for TextLine {
    ghost Value = { List ℕ };

    ghost view = { λ v. v.bytes.items };

    ghost invariant = { λ v. length v.bytes.items ≤ LINE_LEN };
}

impl TextLine {
    /// The line of no bytes.
    pub fn empty() -> TextLine
        ensures { result ≡ [] }
    {
        TextLine {
            bytes: ArrayVec::new(),
        }
    }

    /// The bytes of the line.
    pub fn bytes(&self) -> &[u8]
        ensures value { result.now ≡ self.now }
        ensures fits { length result.now ≤ LINE_LEN }
    {
        self.bytes.as_slice()
    }

    /// Takes all bytes away.
    pub fn clear(&mut self)
        ensures { self.new ≡ [] }
    {
        self.bytes.clear();
    }

    /// Appends a text.
    pub fn push(&mut self, text: &[u8])
        requires { length self.old + length text.now ≤ LINE_LEN }
        ensures text { self.new ≡ self.old ++ text.now }
        ensures len { length self.new ≡ length self.old + length text.now }
    {
        let _ = self.bytes.try_extend_from_slice(text);
    }

    /// Appends a number in decimal digits.
    pub fn push_number(&mut self, number: u32)
        requires { length self.old + 10 ≤ LINE_LEN }
        ensures text { self.new ≡ self.old ++ decimal number }
        ensures len { length self.new ≤ length self.old + 10 }
    {
        let mut buffer = Buffer::new();
        self.push(buffer.format(number).as_bytes());
    }
}
