//! A slab with room for so many values.
ghost use Rattle.std.specs.Prelude.{◌≡◌, ◌≤◌, ◌<◌, ◌+◌, [], length, slice_set, Some, None, IfOk, IfNone, OnSome};
ghost use Rattle.std.specs.Borrow.{sem};
ghost use Rattle.slab.specs.Slab.{get, slab_len, entries, Updates, HasRoomFor, ContainsKey};

use slab::{Iter, Slab};
use std::alloc::{AllocError, Global};
use std::marker::Model;
use std::ops::{Index, IndexMut};

/// Values under keys, in a slab with room for so many as `new` was told at the least. A contract sees what it sees
/// of the slab. Memory is taken by `new` alone.
#[derive(Drop)]
pub struct BoundedSlab<T> {
    slab: Slab<T>,
}

impl<T> Model for BoundedSlab<T> {
    ghost use Rattle.slab.specs.Slab.{Slab as Slots, slab_code};

    ghost Value = { Slots T };

    ghost coded = { slab_code T.code };

    ghost view = { λ s. s.slab };
}

impl<T: Drop> BoundedSlab<T> {
    /// No values, and room for so many.
    pub fn new(alloc: Global, room: usize) -> Result<BoundedSlab<T>, AllocError>
        ensures empty { IfOk result (λ s. s.slots ≡ []) }
        ensures first_key { IfOk result (λ s. s.vacant_key ≡ 0) }
        ensures capacity { IfOk result (λ s. room ≤ s.capacity) }
    {
        let slab = Slab::with_capacity(alloc, room)?;
        Ok(BoundedSlab { slab })
    }

    /// Drops all values.
    pub fn clear(&mut self)
        ensures empty { self.new.slots ≡ [] }
        ensures first_key { self.new.vacant_key ≡ 0 }
        ensures capacity { self.new.capacity ≡ self.old.capacity }
    {
        self.slab.clear();
    }

    /// How many values there are.
    pub fn len(&self) -> usize
        ensures { result ≡ slab_len self.now }
    {
        self.slab.len()
    }

    /// The keys and values, by rising key.
    pub fn iter(&self) -> Iter<'_, T>
        ensures rest { result ≡ entries self.now }
        ensures len { length result ≡ slab_len self.now }
    {
        self.slab.iter()
    }

    /// Puts a value under a key that has none, and answers the key. That there is room is a condition.
    pub fn insert_reserved(&mut self, value: T) -> usize
        requires { HasRoomFor self.old 1 }
        ensures key { result ≡ self.old.vacant_key }
        ensures was_vacant { get self.old result ≡ None }
        ensures updates { Updates self.old self.new result (Some value) }
        ensures len { slab_len self.new ≡ slab_len self.old + 1 }
        ensures key_in_range { result < self.new.capacity }
        ensures capacity { self.new.capacity ≡ self.old.capacity }
    {
        self.slab.insert_reserved(value)
    }
}

impl<T: Drop> BoundedSlab<T> {
    /// Takes the value under a key out, where there is one.
    pub fn try_remove(&mut self, key: usize) -> Option<T>
        ensures value { result ≡ get self.old key }
        ensures updates { Updates self.old self.new key None }
        ensures slots { OnSome result (self.new.slots ≡ slice_set self.old.slots key None) }
        ensures len { OnSome result (slab_len self.new + 1 ≡ slab_len self.old) }
        ensures key_is_next { OnSome result (self.new.vacant_key ≡ key) }
        ensures capacity { self.new.capacity ≡ self.old.capacity }
        ensures room { OnSome result (HasRoomFor self.new 1) }
        ensures absent { IfNone result (self.new ≡ self.old) }
    {
        self.slab.try_remove(key)
    }
}

impl<T: Drop> Index<usize> for BoundedSlab<T> {
    type Output = T;

    ghost can_index = { ContainsKey };

    ghost index_gives = { λ s key value. get s key ≡ Some value };

    fn index(&self, key: usize) -> &T {
        &self.slab[key]
    }
}

impl<T: Drop> IndexMut<usize> for BoundedSlab<T> {
    ghost use Rattle.bounded_slab.specs.Lends.{lends_value};

    fn index_mut(&mut self, key: usize) -> &mut T
        requires { ContainsKey self.old key }
        ensures* writes_back { sem 𝓛 (lends_value T.row self.entry key result) }
        ensures value { get self.old key ≡ Some result.now }
    {
        &mut self.slab[key]
    }
}
