//! The checker of a chip: it reads all that a store would ever read, and counts the records that the
//! chip holds, or tells the first thing that is wrong. An opening reads no base page, so it can't tell
//! that one is spoiled. The chip is looked over by `restart`, and its pages are made anew by
//! `page_rebuild`, unit by unit.
//!
//! Proved, by `check`: over a chip that tells what it holds, it answers a number exactly where the chip
//! stands for records, and that is how many these are; else it tells the first fault in the order of
//! docs/RECOVERY.md, and of those behind it the first page that reads badly, in rising order of unit,
//! page and sector, unless a read failed or memory was wanting. It only reads. Whatever the chip
//! tells, it never fails since a write failed, a place is worn, or numbers are used up or have no room.
//!
//! Proved, by `check_laws`: no fault is exactly a chip that stands for records.
#![tactic(auto)]

mod checking;
mod counting;
mod fault;
mod laws;

pub use checking::check;
pub use fault::CheckFault;
pub use laws::check_laws;
