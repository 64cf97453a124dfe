//! A slab whose room was reserved once.
//!
//! The frames of a store stand in one. It never grows, and lends no allocator: so a body that has it can take no
//! memory, by its types.
//!
//! Proved, by `BoundedSlab`: its values are those of the slab within, under the same keys, and its room stays what it
//! was made with.
#![tactic(auto)]

mod bounded_slab;

pub use bounded_slab::BoundedSlab;
