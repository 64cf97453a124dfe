//! Records and pages: a page that is made anew from the records of a log, and frames, which keep the
//! committed values of a page apart from its pending changes.
//!
//! A page is made anew with no order to keep. The records on each slot are counted, each slot with one
//! is emptied, and of the records on a slot only the last one is put. So at each moment a slot is empty
//! or has its value for good, and where one value has no room, the page has none for all.
//!
//! Proved, by `Coming`, `apply_where_room`: a count of records on each slot, whether there are none,
//! and which of them is the last; slots emptied; a record that sets or empties its slot and no other,
//! exactly where the text has room for the values then.
//!
//! Proved, by `text_laws`: a page's text says of each slot what the page holds there.
//!
//! Proved, by `Frame`: a frame keeps committed values and for each slot at most one pending change
//! apart, and takes a change exactly where the page has room for all, whichever become values.
#![tactic(auto)]

mod applying;
mod filling;
mod frame;
mod laws;
mod numbers;
mod pending;
mod rebuilding;

pub use frame::Frame;
pub use laws::text_laws;
pub use pending::Pending;
pub use rebuilding::{Coming, apply_where_room};
