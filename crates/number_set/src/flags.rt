//! Flags beside a list of numbers, a bit for each.
ghost use Rattle.std.specs.Prelude.{◌≡◌, ◌≤◌, ◌<◌, ◌+◌, ◌/◌, ◌==◌, ◌||◌, ℕ, List, false, length, IfOk};
ghost use Rattle.number_set.specs.Flags.{has_flag, flagged};

use bounded_vec::BoundedVec;
use ipl_base::OutOfMemory;
use std::alloc::Global;
use std::marker::Model;

/// Flags beside a list of numbers that stands elsewhere, by the ranks of these, from 0; at most so many
/// as `new` was told. A contract sees which ranks have one, how many were made, and both bounds, which
/// stay the same. Memory is taken by `new` alone: a bit for each rank.
#[derive(Drop)]
pub struct Flags {
    bytes: BoundedVec<u8>,
    count: usize,
    most: usize,
    room: usize,
}

impl Model for Flags {
    ghost use Rattle.std.specs.Prelude.{ℕ, List, length, ◌≡◌, ◌≤◌, ◌+◌, ◌/◌};
    ghost use Rattle.number_set.specs.Flags.{Flags, has_flag, flagged_from};

    ghost Value = { Flags };

    ghost view = { λ m. record {
      bytes = m.bytes.items;
      count = m.count;
      most = m.most;
      room = m.room;
    } };

    ghost invariant = { λ m. (length m.bytes.items ≡ (m.room + 7) / 8)
        × (m.count ≤ m.most)
        × ((numbers : List ℕ) → length (flagged_from (has_flag m.bytes.items) 0 numbers) ≤ m.count) };
}

/// Whether the rank has its bit. One past the last byte has none.
fn has_flag(bytes: &[u8], at: usize) -> bool
    ensures { result ≡ has_flag bytes.now at }
{
    at / 8 < bytes.len() && (bytes[at / 8] >> (at % 8)) & 1 == 1
}

/// Gives the rank its bit.
fn set_flag(bytes: &mut BoundedVec<u8>, at: usize)
    requires { at / 8 < length bytes.old.items }
    ensures bits { (i : ℕ) → has_flag bytes.new.items i ≡ ((i == at) || has_flag bytes.old.items i) }
    ensures size { length bytes.new.items ≡ length bytes.old.items }
{
    bytes[at / 8] |= 1 << (at % 8);
}

/// Takes all bits away.
fn clear_flags(bytes: &mut [u8])
    ensures none { (i : ℕ) → has_flag bytes.new i ≡ false }
    ensures size { length bytes.new ≡ length bytes.old }
{
    bytes.fill(0);
}

impl Flags {
    /// No flags, and room for `most` of them beside `room` numbers, below 65,536.
    pub fn new(alloc: Global, room: usize, most: usize) -> Result<Flags, OutOfMemory>
        requires { room < 65536 }
        ensures none { IfOk result (λ flags. (i : ℕ) → has_flag flags.bytes i ≡ false) }
        ensures count { IfOk result (λ flags. flags.count ≡ 0) }
        ensures most { IfOk result (λ flags. flags.most ≡ most) }
        ensures room { IfOk result (λ flags. flags.room ≡ room) }
    {
        let size = (room + 7) / 8;
        let bytes = BoundedVec::filled(alloc, size, size, 0)?;
        Ok(Flags {
            bytes,
            count: 0,
            most,
            room,
        })
    }

    /// Takes all flags away.
    pub fn clear(&mut self)
        ensures none { (i : ℕ) → has_flag self.new.bytes i ≡ false }
        ensures count { self.new.count ≡ 0 }
        ensures most { self.new.most ≡ self.old.most }
        ensures room { self.new.room ≡ self.old.room }
    {
        clear_flags(&mut self.bytes);
        self.count = 0;
    }

    /// That no more were made than there may be, and no more numbers have one.
    pub fn facts(&self)
        ensures most { self.now.count ≤ self.now.most }
        ensures few { (numbers : List ℕ) → length (flagged self.now numbers) ≤ self.now.count }
    {
        let _ = &self.count;
    }

    /// How many were made.
    pub fn len(&self) -> usize
        ensures { result ≡ self.now.count }
    {
        self.count
    }

    /// Whether the rank has one.
    pub fn has(&self, at: usize) -> bool
        ensures { result ≡ has_flag self.now.bytes at }
    {
        has_flag(&self.bytes, at)
    }

    /// Makes one there, where there was none. That there may be one more is a condition.
    pub fn raise(&mut self, at: usize)
        requires rank { at < self.old.room }
        requires few { self.old.count < self.old.most }
        ensures at { (i : ℕ) → has_flag self.new.bytes i ≡ ((i == at) || has_flag self.old.bytes i) }
        ensures count { self.new.count ≡ self.old.count + 1 }
        ensures most { self.new.most ≡ self.old.most }
        ensures room { self.new.room ≡ self.old.room }
    {
        set_flag(&mut self.bytes, at);
        self.count += 1;
    }

    /// Makes these the flags, which have the same bounds.
    pub fn take(&mut self, other: &Flags)
        requires most { other.now.most ≡ self.old.most }
        requires room { other.now.room ≡ self.old.room }
        ensures { self.new ≡ other.now }
    {
        self.bytes.copy_from_slice(&other.bytes);
        self.count = other.count;
    }
}
