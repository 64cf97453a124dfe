//! A driver shown: a chip over a part with pages of 2,048 bytes, four partial programs a page and
//! 64 pages a block. It stands on the traits of `chip_trait`, and on a chip of `chip_mem` for a
//! part in memory. A contract sees what the part tells (`PartTold`), which page is in memory, and
//! what the chip tells.
//!
//! Proved, by `Nand2k`, `MemPart`: a chip over any part that keeps to `Part`, which asks of it
//! exactly the programs and erases that it is asked for, answers by the part's status, and counts
//! what failed; what the part tells of its pages the chip tells of its sectors. A page in memory is
//! what the part holds.
#![tactic(auto)]

mod chip;
mod mem_part;
mod page_at;
mod part;

pub use chip::Nand2k;
pub use mem_part::MemPart;
pub use part::{Part, Status};
