//! The status of transactions: which numbers are committed, in memory and in the commit sectors of
//! the status place, and the close marks there. Numbers are committed by one more commit sector
//! there, or the status moves to a new place, which was taken and erased before, with those that
//! are kept. A clean close adds a close mark, which says of which units the clean log sectors are
//! known, and an opening finds the mark that counts. It stands on `unit_io`, which writes and
//! reads the sectors, on `place_taking` for what is written to such a place, on `number_set` for
//! the numbers in memory, and on `opening_laws` for which commit sectors and close marks count. A
//! contract sees the `Status` of `ipl_meaning`, the committed numbers as a list in rising order.
//!
//! Proved, by `Status`, `status_laws`: the committed numbers: a commit sector that is added leaves
//! at each moment the records before it or after it, where nothing was open; a new status place
//! keeps the records where of the numbers in live log sectors exactly the committed ones are kept,
//! and its header says how often it was erased and which places are retired; a close mark keeps
//! the records and, torn or whole, marks no sector that was used; what is read in is exactly what
//! the chip holds, with the first fault; how many numbers are drawn. By `LastMark`: which close
//! mark counts of those that are read in, and which units it marks.
#![tactic(auto)]

mod commits;
mod last_mark;
mod laws;
mod noted;
mod parts;
mod payloads;
mod reading;
mod status;

pub use last_mark::LastMark;
pub use laws::status_laws;
pub use status::Status;
