//! The register, and what it comes to over bytes.
ghost use Rattle.std.specs.Prelude.{◌≡◌, ◌≤◌, ◌+◌, ◌++◌, [], ℕ, List, bit_or, fold, length, replicate};
ghost use Rattle.crc_sum.specs.Crc.{HasFed, crc, register_after, with_byte};
ghost use Rattle.crc_sum.specs.Tables.{shifted_bytes};

use crate::tables::entry;
use crate::zero_tables::zero_entry;
use std::marker::Model;

// What the register holds before the first byte, and what turns it into the sum after the last.
pub(crate) const ONES: u32 = 0xFFFF_FFFF;

fn with_byte(register: u32, byte: u8) -> u32
    ensures { result ≡ with_byte register byte }
{
    let held = register.to_le_bytes();
    entry(0, held[0] ^ byte) ^ (register >> 8)
}

// What the register comes to after a word and so many bytes of zeros. Each byte is looked up for
// itself, since a shift of an exclusive or is the exclusive or of the shifts.
fn word_shifted(zeros: usize, register: u32, word: &[u8; 4]) -> u32
    requires { zeros + 4 ≤ 16 }
    ensures shifted { result ≡ shifted_bytes zeros (register_after register word.now) }
    ensures size { length word.now ≡ 4 }
{
    let held = (register ^ u32::from_le_bytes(*word)).to_le_bytes();
    entry(zeros, held[3])
        ^ entry(zeros + 1, held[2])
        ^ entry(zeros + 2, held[1])
        ^ entry(zeros + 3, held[0])
}

#[tactic(auto, unfolding(crate::specs::Tables::shifted_bytes))]
fn with_word(register: u32, word: &[u8; 4]) -> u32
    ensures { result ≡ register_after register word.now }
{
    word_shifted(0, register, word)
}

// The words that don't wait for the register come first: terms are joined in this order.
fn with_chunk(register: u32, chunk: &[[u8; 4]; 4]) -> u32
    ensures { result ≡ fold register_after register chunk.now }
{
    word_shifted(0, 0, &chunk[3])
        ^ word_shifted(4, 0, &chunk[2])
        ^ word_shifted(8, 0, &chunk[1])
        ^ word_shifted(12, register, &chunk[0])
}

fn after_chunks(register: u32, chunks: &[[[u8; 4]; 4]]) -> u32
    ensures { result ≡ fold (λ r chunk. fold register_after r chunk) register chunks.now }
{
    chunks
        .iter()
        .fold(register, |r, chunk| with_chunk(r, chunk))
}

fn after_words(register: u32, words: &[[u8; 4]]) -> u32
    ensures { result ≡ fold register_after register words.now }
{
    words.iter().fold(register, |r, word| with_word(r, word))
}

fn after_bytes(register: u32, bytes: &[u8]) -> u32
    ensures { result ≡ register_after register bytes.now }
{
    bytes.iter().fold(register, |r, byte| with_byte(r, *byte))
}

fn after_part(register: u32, bytes: &[u8]) -> u32
    ensures { result ≡ register_after register bytes.now }
{
    let (words, rest) = bytes.as_chunks::<4>();
    let (chunks, others) = words.as_chunks::<4>();
    let whole = after_words(after_chunks(register, chunks), others);
    after_bytes(whole, rest)
}

// All bytes joined by an or: several are joined at once, where a test of each would end a step.
fn joined(bytes: &[u8]) -> u8
    ensures { result ≡ fold bit_or 0 bytes.now }
{
    bytes.iter().fold(0, |all, byte| all | *byte)
}

// What the register comes to after 64 zeros.
fn after_zeros(register: u32) -> u32
    ensures { result ≡ register_after register (replicate 64 0) }
{
    let held = register.to_le_bytes();
    zero_entry(0, held[3])
        ^ zero_entry(1, held[2])
        ^ zero_entry(2, held[1])
        ^ zero_entry(3, held[0])
}

// Most of what is summed ends in zeros.
fn with_block(register: u32, block: &[u8; 64]) -> u32
    ensures { result ≡ register_after register block.now }
{
    if joined(block) == 0 {
        after_zeros(register)
    } else {
        after_part(register, block)
    }
}

fn after_blocks(register: u32, blocks: &[[u8; 64]]) -> u32
    ensures { result ≡ fold register_after register blocks.now }
{
    blocks
        .iter()
        .fold(register, |r, block| with_block(r, block))
}

/// What the register of CRC-32 comes to after these bytes, however many, from what it holds before.
/// What a byte does to it is in docs/FORMAT.md, "The sector".
pub(crate) fn register_after(register: u32, bytes: &[u8]) -> u32
    ensures { result ≡ register_after register bytes.now }
{
    let (blocks, rest) = bytes.as_chunks::<64>();
    after_part(after_blocks(register, blocks), rest)
}

/// The sum of the bytes.
#[tactic(auto, unfolding(crate::specs::Crc::crc))]
pub fn crc32(bytes: &[u8]) -> u32
    ensures { result ≡ crc bytes.now }
{
    register_after(ONES, bytes) ^ ONES
}

/// The sum of the bytes of both, one after the other.
#[tactic(auto, unfolding(crate::specs::Crc::crc))]
pub fn crc32_parts(first: &[u8], second: &[u8]) -> u32
    ensures { result ≡ crc (first.now ++ second.now) }
{
    register_after(register_after(ONES, first), second) ^ ONES
}

/// A sum over bytes that come in pieces.
#[derive(Debug, Drop)]
pub struct Crc {
    register: u32,
}

impl Model for Crc {
    ghost Value = { ℕ };

    ghost view = { λ c. c.register };
}

impl Crc {
    /// A sum to which no bytes were fed.
    pub fn start() -> Crc
        ensures { HasFed result [] }
    {
        Crc { register: ONES }
    }

    /// Feeds more bytes.
    pub fn feed(&mut self, bytes: &[u8])
        ensures { (fed : List ℕ) → HasFed self.old fed → HasFed self.new (fed ++ bytes.now) }
    {
        self.register = register_after(self.register, bytes);
    }

    /// The sum of all that was fed.
    #[tactic(auto, unfolding(crate::specs::Crc::crc))]
    pub fn sum(&self) -> u32
        ensures { (fed : List ℕ) → HasFed self.now fed → result ≡ crc fed }
    {
        self.register ^ ONES
    }
}
