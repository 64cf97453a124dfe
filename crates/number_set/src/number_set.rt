//! A set of numbers, in rising order.
ghost use Rattle.std.specs.Prelude.{◌≡◌, ◌≤◌, ◌<◌, ◌+◌, ◌^◌, ◌↔◌, ℕ, [], length, take, drop, slice_index, Contains, IfOk, IfSome, IsTrue};
ghost use Rattle.std.specs.Bool.{OnTrue, OnFalse};
ghost use Rattle.std.specs.Option.{is_some};
ghost use Rattle.bounded_vec.specs.Bounded.{with_items};
ghost use Rattle.ipl_base.specs.declared.limits.TheConstants.{COMMIT_NUMBERS};
ghost use Rattle.number_set.specs.Flags.{flagged};
ghost use Rattle.number_set.specs.Numbers.{with_list, with_number, with_numbers, empty_numbers, among, AreRising};

use crate::flags::Flags;
use arrayvec::ArrayVec;
use bounded_vec::BoundedVec;
use ipl_base::{COMMIT_NUMBERS, OutOfMemory};
use std::alloc::Global;
use std::marker::Model;

/// Numbers in rising order, at most so many as `new` was told. A contract sees the list and that
/// bound, which stays the same. Memory is taken by `new` alone.
#[derive(Drop)]
pub struct NumberSet {
    items: BoundedVec<u64>,
}

impl Model for NumberSet {
    ghost use Rattle.std.specs.Prelude.{length, ◌≤◌};
    ghost use Rattle.number_set.specs.Numbers.{Numbers, AreRising};

    ghost Value = { Numbers };

    ghost view = { λ s. record { list = s.items.items; most = s.items.room } };

    ghost invariant = { λ s. AreRising s.items.items
        × (length s.items.items ≤ s.items.room) };
}

/// Keeps those of the numbers that have a flag.
fn compact(items: &mut BoundedVec<u64>, flags: &Flags)
    ensures { items.new ≡ with_items items.old (flagged flags.now items.old.items) }
{
    let mut kept = 0;
    for i in 0..items.len() {
        if flags.has(i) {
            items[kept] = items[i];
            kept += 1;
        }
    }
    items.truncate(kept);
}

/// How many of the numbers have a flag.
fn count(items: &[u64], flags: &Flags) -> usize
    ensures { result ≡ length (flagged flags.now items.now) }
{
    let mut seen = 0;
    for i in 0..items.len() {
        if flags.has(i) {
            seen += 1;
        }
    }
    seen
}

/// That each number has 64 bits.
fn fit(items: &[u64])
    ensures { (i : ℕ) → i < length items.now → slice_index items.now i < 2 ^ 64 }
{
    let _ = items;
}

/// At most 60 of the numbers that have a flag: the first ones behind so many of these.
fn gather(items: &[u64], flags: &Flags, start: usize) -> ArrayVec<u64, COMMIT_NUMBERS>
    ensures { result.items ≡ take COMMIT_NUMBERS (drop start (flagged flags.now items.now)) }
{
    let mut part = ArrayVec::new();
    let mut seen = 0;
    for i in 0..items.len() {
        if flags.has(i) {
            if start <= seen && part.len() < COMMIT_NUMBERS {
                part.push(items[i]);
            }
            seen += 1;
        }
    }
    part
}

impl NumberSet {
    /// No numbers, and room for `most`.
    pub fn new(alloc: Global, most: usize) -> Result<NumberSet, OutOfMemory>
        ensures { IfOk result (λ set. set ≡ empty_numbers most) }
    {
        let items = BoundedVec::new(alloc, most)?;
        Ok(NumberSet { items })
    }

    /// Takes all numbers away.
    pub fn clear(&mut self)
        ensures { self.new ≡ with_list self.old [] }
    {
        self.items.clear();
    }

    /// That they rise, and are no more than there is room for.
    pub fn rises(&self)
        ensures rising { AreRising self.now.list }
        ensures few { length self.now.list ≤ self.now.most }
    {
        let _ = &self.items;
    }

    /// How many they are.
    pub fn len(&self) -> usize
        ensures { result ≡ length self.now.list }
    {
        self.items.len()
    }

    /// How many there is room for.
    pub fn most(&self) -> usize
        ensures { result ≡ self.now.most }
    {
        self.items.room()
    }

    /// Whether a number is one of them.
    pub fn has(&self, number: u64) -> bool
        ensures among { result ≡ among self.now.list number }
        ensures there { IsTrue result ↔ Contains self.now.list number }
    {
        self.items.binary_search(&number).is_ok()
    }

    /// The rank of a number, from 0, where it is one of them.
    pub fn rank(&self, number: u64) -> Option<usize>
        ensures among { is_some result ≡ among self.now.list number }
        ensures there { IfSome result (λ at. (at < length self.now.list)
            × (slice_index self.now.list at ≡ number)) }
    {
        match self.items.binary_search(&number) {
            Ok(at) => Some(at),
            Err(_) => None,
        }
    }

    /// That each has 64 bits.
    pub fn fit(&self)
        ensures { (i : ℕ) → i < length self.now.list → slice_index self.now.list i < 2 ^ 64 }
    {
        fit(&self.items);
    }

    /// How many of them have a flag.
    pub fn count(&self, flags: &Flags) -> usize
        ensures { result ≡ length (flagged flags.now self.now.list) }
    {
        count(&self.items, flags)
    }

    /// At most 60 of those that have a flag: the first ones behind so many of these.
    pub fn part(&self, flags: &Flags, start: usize) -> ArrayVec<u64, COMMIT_NUMBERS>
        ensures { result.items ≡ take COMMIT_NUMBERS (drop start (flagged flags.now self.now.list)) }
    {
        gather(&self.items, flags, start)
    }

    /// Keeps those that have a flag.
    pub fn keep(&mut self, flags: &Flags)
        ensures { self.new ≡ with_list self.old (flagged flags.now self.old.list) }
    {
        compact(&mut self.items, flags);
    }

    /// Adds a number, unless it is one of them. That the set isn't full is a condition.
    pub fn add(&mut self, number: u64)
        requires { length self.old.list < self.old.most }
        ensures { self.new ≡ with_list self.old (with_number number self.old.list) }
    {
        if let Err(at) = self.items.binary_search(&number) {
            self.items.insert(at, number);
        }
    }

    /// Adds a number, unless it is one of them. False where there is no room for it, and the set is as
    /// it was then.
    pub fn add_within(&mut self, number: u64) -> bool
        ensures added { OnTrue result (self.new
            ≡ with_list self.old (with_number number self.old.list)) }
        ensures full { OnFalse result (self.old.most < length (with_number number self.old.list)) }
        ensures same { OnFalse result (self.new ≡ self.old) }
    {
        self.rises();
        if self.has(number) {
            return true;
        }
        if self.len() == self.most() {
            return false;
        }
        self.add(number);
        true
    }

    /// Adds several numbers, in any order. That there is room for as many is a condition, also
    /// where some of them are in the set already.
    pub fn add_all(&mut self, numbers: &[u64])
        requires { length self.old.list + length numbers.now ≤ self.old.most }
        ensures { self.new ≡ with_list self.old (with_numbers numbers.now self.old.list) }
    {
        for number in numbers {
            self.add(*number);
        }
    }
}
