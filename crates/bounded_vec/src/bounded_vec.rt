//! A vector with room for so many items.
ghost use Rattle.std.specs.Prelude.{◌≡◌, ◌≤◌, ◌<◌, ◌+◌, ◌++◌, ◌∷◌, [], length, take, replicate, insert, IfOk};
ghost use Rattle.std.specs.Borrow.{sem};
ghost use Rattle.bounded_vec.specs.Bounded.{with_items, empty_bounded};

use std::alloc::{AllocError, Global};
use std::marker::Model;
use std::ops::{DerefSlice, DerefSliceMut};

/// Items, at most so many as `new` was told. A contract sees the list and that bound, which stays the
/// same. Memory is taken by `new` and `filled` alone.
#[derive(Drop)]
pub struct BoundedVec<T> {
    items: Vec<T>,
    room: usize,
}

impl<T> Model for BoundedVec<T> {
    ghost use Rattle.std.specs.Prelude.{length, vec_capacity, ◌≤◌};
    ghost use Rattle.bounded_vec.specs.Bounded.{Bounded, bounded_code};

    ghost Value = { Bounded T };

    ghost coded = { bounded_code T.code };

    ghost view = { λ v. record { items = v.items.items; room = v.room } };

    ghost invariant = { λ v. (length v.items.items ≤ v.room) × (v.room ≤ vec_capacity v.items) };
}

impl<T: Drop> BoundedVec<T> {
    /// No items, and room for so many.
    pub fn new(alloc: Global, room: usize) -> Result<BoundedVec<T>, AllocError>
        ensures { IfOk result (λ v. v ≡ empty_bounded room) }
    {
        let items = Vec::with_capacity(alloc, room)?;
        Ok(BoundedVec { items, room })
    }

    /// How many items there are.
    pub fn len(&self) -> usize
        ensures count { result ≡ length self.now.items }
        ensures fits { result ≤ self.now.room }
    {
        self.items.len()
    }

    /// For how many items there is room.
    pub fn room(&self) -> usize
        ensures { result ≡ self.now.room }
    {
        self.room
    }

    /// Drops all items.
    pub fn clear(&mut self)
        ensures { self.new ≡ with_items self.old [] }
    {
        self.items.clear();
    }

    /// Drops the items from this one on.
    pub fn truncate(&mut self, count: usize)
        ensures { self.new ≡ with_items self.old (take count self.old.items) }
    {
        self.items.truncate(count);
    }

    /// Puts an item behind the others. That there is room is a condition.
    pub fn push(&mut self, item: T)
        requires { length self.old.items < self.old.room }
        ensures { self.new ≡ with_items self.old (self.old.items ++ item ∷ []) }
    {
        self.items.push_reserved(item);
    }

    /// Puts an item before the one that stands there, or behind all. That there is room is a condition.
    pub fn insert(&mut self, at: usize, item: T)
        requires within { at ≤ length self.old.items }
        requires room { length self.old.items < self.old.room }
        ensures { self.new ≡ with_items self.old (insert self.old.items at item) }
    {
        let _ = self.items.insert(at, item);
    }

    /// The items.
    pub fn as_slice(&self) -> &[T]
        ensures value { result.now ≡ self.now.items }
        ensures fits { length result.now ≤ self.now.room }
    {
        self.items.as_slice()
    }
}

impl<T: Drop> BoundedVec<T> {
    ghost use Rattle.bounded_vec.specs.Lends.{lends_slice};

    /// The items, for writing.
    pub fn as_mut_slice(&mut self) -> &mut [T]
        ensures* writes_back { sem 𝓛 (lends_slice T.row self.entry result) }
        ensures value { result.now ≡ self.old.items }
        ensures fits { length result.now ≤ self.old.room }
    {
        self.items.as_mut_slice()
    }
}

impl<T: Drop> DerefSlice for BoundedVec<T> {
    type Elem = T;

    ghost use Rattle.std.specs.Prelude.{length, ◌≡◌, ◌≤◌};

    ghost deref_gives = { λ v xs. (xs ≡ v.items) × (length xs ≤ v.room) };

    fn deref(&self) -> &[T] {
        self.as_slice()
    }
}

impl<T: Drop> DerefSliceMut for BoundedVec<T> {
    ghost use Rattle.bounded_vec.specs.Lends.{lends_slice};

    fn deref_mut(&mut self) -> &mut [T]
        ensures* writes_back { sem 𝓛 (lends_slice T.row self.entry result) }
        ensures value { result.now ≡ self.old.items }
        ensures fits { length result.now ≤ self.old.room }
    {
        self.as_mut_slice()
    }
}

impl<T: Copy + Drop> BoundedVec<T> {
    /// So many times one value. There must be room.
    pub fn refill(&mut self, count: usize, value: T)
        requires { count ≤ self.old.room }
        ensures { self.new ≡ with_items self.old (replicate count value) }
    {
        self.clear();
        for _ in 0..count {
            self.push(value);
        }
    }

    /// So many times one value, with room for more.
    pub fn filled(
        alloc: Global,
        room: usize,
        count: usize,
        value: T,
    ) -> Result<BoundedVec<T>, AllocError>
        requires { count ≤ room }
        ensures { IfOk result (λ v. v ≡ with_items (empty_bounded room) (replicate count value)) }
    {
        let mut made = BoundedVec::new(alloc, room)?;
        made.refill(count, value);
        Ok(made)
    }
}
