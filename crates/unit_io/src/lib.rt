//! What stands in the place of a unit, written and read sector by sector: a place erased, filled,
//! sealed with a header, and read. Here alone are sectors read; and whatever is programmed or erased
//! is so here, but for a format, which `restart` writes by itself. A contract of a call that writes
//! says what a power cut leaves at every moment of it; one of a call that reads, what it answers by
//! what the chip holds.
//!
//! Proved, by `begin_unit`, `program_page`, `program_log`, `seal`: a place taken, filled and sealed:
//! at each moment of a call a cut leaves the records before it, in a seal those before or those with
//! the header, and no used sector that is marked as clean; what the chart holds then; lawful events,
//! and which sectors they program, whatever the chip tells (`tidy`); pages and headers are no log
//! sectors and no commit sectors; and all other places have the bytes that they had (`Spares`). By
//! `add_mark`: so is a mark added, of a clean close.
//!
//! Proved, by `read_head`, `read_log`, `read_noted`, `read_page`, `page_laws`:
//! headers, log sectors, commit sectors, marks and pages are read exactly as the chip holds them; the
//! first fault of a page in order; which reads were asked; and what the pieces of a page bring into
//! sums (`AreTails`). By `known_tails`, `kept_tails`: with which of them it is programmed at another
//! place (`FitTails`). By `read_found`: which sectors are erased.
//!
//! Of a call that turns some tables into others there is one relation here, however it ends
//! (`Steps`): at each moment of the call a predicate of the history, and no used sector marked as
//! clean that wasn't before; the events lawful and tidy; and where no write failed what the answer
//! says of the history and of the tables. Proved, by `step_laws`: how such calls are joined: nothing
//! done, reads, one call after another, a sector written, a call that failed.
#![tactic(auto)]

mod calls;
mod commits;
mod laws;
mod page_reading;
mod pages;
mod places;
mod reading;
mod sectors;
mod steps;
mod tails;

pub use calls::barrier;
pub use commits::{Noted, add_commit, add_mark, prepare_commit};
pub use laws::page_laws;
pub use page_reading::read_page;
pub use pages::program_page;
pub use places::{begin_unit, seal};
pub use reading::{Found, SectorRead, read_found, read_head, read_log, read_noted, read_sector};
pub use sectors::program_log;
pub use steps::step_laws;
pub use tails::{kept_tails, known_tails};
