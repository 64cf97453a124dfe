//! The log records of a page that aren't on the chip yet: as many as one log sector has room for.
//!
//! Proved, by `MemLog`: a list of records that fits one log sector: `push` is refused exactly
//! where it doesn't fit, and then nothing changed; records of one number are dropped and the
//! others stay in order; a copy of it is a log sector's payload.
#![tactic(auto)]

mod mem_log;

pub use mem_log::MemLog;
