//! Chips in memory, over the trait of `chip_trait`. `MemChip` tells its story, fails and finds
//! places worn where it is told to, and makes images of a power cut; `PlainChip` just holds what
//! was written, and tells that. A contract sees exactly which calls fail and which places are worn,
//! and that each image is one that a cut may leave.
//!
//! Proved, by `MemChip`, `PlainChip`: a chip that keeps its story fails, and finds a place worn,
//! exactly where it is told to; its images are those that a cut may leave, torn places that are
//! worn among them, and nothing in them checks by chance.
#![tactic(auto)]

mod faults;
mod image;
mod mem_chip;
mod pick;
mod plain_chip;
mod replay;
mod schedule;
mod sectors;

pub use faults::Faults;
pub use mem_chip::MemChip;
pub use pick::{Choice, Pick};
pub use plain_chip::PlainChip;
