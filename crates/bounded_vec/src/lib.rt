//! A vector with room for so many items, taken once.
//!
//! What a store keeps in memory stands in such vectors. They never grow, and lend no allocator: so a body that has
//! one can take no memory, by its types.
//!
//! Proved, by `BoundedVec`: its items are those of a list, and the room stays what it was made with.
#![tactic(auto)]

mod bounded_vec;

pub use bounded_vec::BoundedVec;
