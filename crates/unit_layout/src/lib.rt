//! Where sectors stand in the place of a unit, and the payloads of the three kinds of header and of
//! a mark. It stands on the formats of `ipl_format`. A contract sees each number and payload as the
//! definition there has it; a payload is read exactly where it is in its version's grammar.
//!
//! Proved, by `base_sector`, `log_sector`, the header calls, `erases_in`, the mark calls: places of
//! sectors; the three headers written and read; how often a place was erased, by its header; the
//! units of a mark written and read.
#![tactic(auto)]

mod header;
mod laws;
mod mark;
mod overflow;
mod place;
mod status;
mod words;

pub use header::{DataHeader, read_data_header, write_data_header};
pub use laws::{layout_laws, mark_laws};
pub use mark::{add_unit, begin_mark, has_unit, is_mark};
pub use overflow::{OverflowHeader, read_overflow_header, write_overflow_header};
pub use place::{base_sector, log_sector};
pub use status::{StatusHeader, read_status_header, write_status_header};
pub use words::erases_in;
