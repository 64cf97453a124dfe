//! A page, loaded from the chip into a frame: its unit's header, its base sectors and the log sectors
//! that name it are read, and nothing else; and then it is made anew, each slot by the last record that
//! counts there. It stands on `unit_log` for the log, on `unit_io` for the base page, and on
//! `page_ops` for what records make of a page and a frame. A contract sees the frame's values and
//! pending changes as what the chart says of the page.
//!
//! Proved, by `load`: a page loaded into a frame has the values of that page of whatever map the
//! chip stands for, and in each slot the change of the last record there of an active number is
//! pending. Where the tables mirror the chip, it fails only where a read failed, or with the exact
//! fault of the page: that of its base page, or where this reads well and a page has no room for its
//! values, whichever pending changes become values, a malformed header of its unit. It adds nothing
//! but reads of sectors from which the page may be rebuilt, at most 17 and one for each log sector
//! that has a record of the page. However it ends, what the story rested on and the tables that agreed
//! do so still. After a fault the frame is empty.
//!
//! Proved, by `rebuild`: the same of a page of a unit whose header and log were read before.
//!
//! Proved, by `load_laws`: nothing is wrong with a page exactly where it shows values for which, with
//! what is pending, a page has room.
#![tactic(auto)]

mod counting;
mod laws;
mod loading;
mod making;
mod pending;
mod taking;

pub use laws::load_laws;
pub use loading::{load, rebuild};
