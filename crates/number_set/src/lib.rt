//! Sets of numbers in memory of fixed size: the committed numbers of a store, and flags at those of
//! them that a new status place keeps.
//!
//! Proved, by `NumberSet`, `Flags`, `number_laws`: numbers in rising order: each call is one equation
//! on the list; added numbers are a union, and rising lists of the same numbers are one. A flag at a
//! number's rank is that number among those that have one.
#![tactic(auto)]

mod flags;
mod laws;
mod number_set;

pub use flags::Flags;
pub use laws::number_laws;
pub use number_set::NumberSet;
