//! Sums whose last 480 bytes were taken apart: once, and then with whatever stands before them.
ghost use Rattle.std.specs.Prelude.{◌≡◌, ◌++◌, ℕ, List, length};
ghost use Rattle.crc_sum.specs.Crc.{crc, tail_sum};
ghost use Rattle.crc_sum.specs.Tables.{shifted_bytes};
ghost use Rattle.crc_sum.specs.declared.tail_tables.TheConstants.{TAIL_LEN};

use crate::sum::{ONES, register_after};
use crate::tail_tables::tail_entry;

// What the register comes to after as many zeros as a tail has bytes.
fn before_tail(register: u32) -> u32
    ensures { result ≡ shifted_bytes TAIL_LEN register }
{
    let held = register.to_le_bytes();
    tail_entry(0, held[3])
        ^ tail_entry(1, held[2])
        ^ tail_entry(2, held[1])
        ^ tail_entry(3, held[0])
}

/// What these bytes bring into each sum that ends in them.
pub fn crc32_tail(bytes: &[u8]) -> u32
    ensures { result ≡ tail_sum bytes.now }
{
    register_after(0, bytes)
}

/// The sum of these bytes and, after them, a tail of 480 bytes that brings so much into it.
pub fn crc32_before(front: &[u8], brought: u32) -> u32
    ensures { (tail : List ℕ) → length tail ≡ TAIL_LEN → brought ≡ tail_sum tail
        → result ≡ crc (front.now ++ tail) }
{
    (before_tail(register_after(ONES, front)) ^ brought) ^ ONES
}
