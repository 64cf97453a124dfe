//! Records of a chip, for who only reads them. Nothing is programmed or erased, so a chip can be read
//! whose spare places are used up, and of one with a page that reads badly all other records. It
//! stands on `restart`, which looks the chip over, and on `page_rebuild`, which makes its pages anew,
//! one at a time.
//!
//! Proved, by `Reader`: an opening answers the first fault of how the chip is laid out, unless a read
//! failed or its committed numbers have no room; and where it answers none, each `get` answers the
//! record that the chip stands for, or the exact fault of the record's page. Both only read. No clause
//! says how often: a page is read once for all names of it that follow one another.
#![tactic(auto)]

mod reader;

pub use reader::Reader;
