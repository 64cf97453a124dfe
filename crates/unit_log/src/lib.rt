//! A unit's log on the chip: its live log sectors, or those of them that name a page, read in rising
//! order of serial into memory of fixed size.
//!
//! Proved, by `Scratch`, `read_live`: a unit's live log sectors, at most 15 at home and 16
//! elsewhere: where the tables mirror the chip they are exactly the unit's log, in rising order of
//! serial, and only a failed read ends it otherwise; it adds nothing but reads of the header, the
//! log region and the listed spots, of each at most as many as are listed.
//!
//! Proved, by `read_page_log`, `mask_of`: of these exactly the ones that have a record of a page, by
//! the masks in the tables; besides the header no other sector is read, and none twice. Which pages
//! the records of a log sector name.
#![tactic(auto)]

mod live;
mod pages;
mod reading;
mod scratch;

pub use live::{UnitHead, read_live, read_page_log};
pub use pages::mask_of;
pub use scratch::{LogSector, Scratch};
