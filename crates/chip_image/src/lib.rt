//! Chips beside memory, over the trait of `chip_trait`: one kept in a file, which one run has at a
//! time, and one of which no call succeeds. A contract sees their numbers of places and exact
//! counts of what failed; of what they hold they tell nothing.
//!
//! Proved, by `FileChip`, `NoChip`: a chip in a file, and one that isn't there: each call as the
//! trait says, with exact counts of what failed, and none of their places is ever found worn; the
//! file's number is none of the standard streams'. They tell nothing of what they hold.
#![tactic(auto)]

mod chip_file;
mod file_chip;
mod file_place;
mod no_chip;

pub use file_chip::{AttachFault, FileChip};
pub use no_chip::NoChip;
