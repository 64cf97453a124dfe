//! A free place is taken and erased; those that are found worn before it are retired: the one call that
//! erases for a new writing of a unit, of an overflow place or of the status place. It stands on the
//! directory (`unit_directory`) and on a place's erase (`unit_io`).
//!
//! Proved, by `take_place`: the least worn free place is taken in each turn, the lowest on a tie, until
//! one is erased; each sector of that one is clean, and one erase more counts for it. Whatever a power
//! cut leaves at any moment stands for the map on which the story rested, and where no write failed the
//! story rests on it still. `WornOut` comes where as many places are retired as are spare, and one more
//! is worn. By `wear_laws`: what calls leave of worn places (`TellsOfWear`), and how one is joined to the next; by `count_laws`:
//! that each erase is of the next free place then, and counts for it, and no count changes else.
#![tactic(auto)]

mod laws;
mod taking;

pub use laws::{count_laws, wear_laws};
pub use taking::take_place;
