//! The directory of a store's units: which place is current for each, with which generation, which
//! places are in use, how often each was erased and which are retired, what is known of the log sectors of each
//! unit's place, and which pages each of these names. It asks nothing of a chip. A
//! contract sees it as lists, `Places` of `ipl_meaning`, and each call as one equation on them.
//!
//! Proved, by `Directory`, `directory_laws`, `aside_laws`: which place each unit has and with which generation,
//! which places are in use, how often each was erased, which are retired, which log sectors are clean,
//! and the mask of each: each call is one equation on lists; of the free places the least worn is taken;
//! and as long as one more is free or retired than are spare, one may be taken.
#![tactic(auto)]

mod directory;
mod laws;
mod lists;
mod marked;
mod reserves;

pub use directory::Directory;
pub use laws::{aside_laws, directory_laws};
