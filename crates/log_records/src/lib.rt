//! Log records as bytes, the payload of a log sector of at most 480 bytes. It stands on the formats
//! of `ipl_format`, and knows no sector. A contract sees a `Payload` as its bytes and its version,
//! by which the bytes spell a list of records.
//!
//! Proved, by `Payload`, `put`, `records`, `is_list`: records put into a payload exactly where
//! they fit, listed in order. By `has_record` and those that begin with `first`: what the record is
//! that bytes begin with, and how many of them it takes.
#![tactic(auto)]

mod iterator;
mod payload;
mod reading;
mod record;

pub use iterator::Records;
pub use payload::{Payload, put, records};
pub use reading::{
    first_len, first_number, first_page, first_record, first_slot, has_record, is_list,
};
pub use record::{Change, Record};
