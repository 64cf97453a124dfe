//! The log sectors of a store that stand in overflow places: where those of each unit are, which
//! pages each names, and which sectors of these places are known clean.
//!
//! Proved, by `Overflow`, `overflow_laws`: which log sectors stand in overflow places, with their
//! masks: each call is one equation on the lists; the spot offered is the first clean sector of the lowest place
//! that has one; a place is given up exactly where no unit's list names it any more.
#![tactic(auto)]

mod entries;
mod laws;
mod overflow;
mod places;

pub use laws::overflow_laws;
pub use overflow::Overflow;
