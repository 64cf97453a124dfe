//! The words that all crates share: the size of a chip, its limits, names of records and where they
//! live, values, the counter of numbers, and the faults. It stands on no crate here. A contract
//! sees a `Geometry` as its numbers of places and of units, a `Name` and a `Counter` as their
//! numbers, and a `Value` as its bytes.
//!
//! Proved, by its calls: values, names and their homes, geometry, counters.
#![tactic(auto)]

mod counter;
mod fault;
mod geometry;
mod limits;
mod name;
mod spot;
mod value;

pub use counter::Counter;
pub use fault::{ChipFault, FormatFault, ImageFault, OutOfMemory, Refusal, StoreFault};
pub use geometry::Geometry;
pub use limits::{
    CARRIED_SECTORS, COMMIT_NUMBERS, FIRST_LOG_SECTOR, FIRST_SPENT, FRAMES, KEPT_NUMBERS,
    LAST_NUMBER, LEAST_NUMBERS, LEAST_PLACES, LIVE_RECORDS, LIVE_SECTORS, LOG_SECTORS, LONG_WEIGHT,
    MERGE_THRESHOLD, MOST_PLACES, MOST_SPARES, MOST_UNITS, OVERFLOW_PLACES, OVERFLOW_SECTORS,
    PAGE_LEN, PAGE_SECTORS, PAGES, PAYLOAD_LEN, PENDING_WEIGHT, RECORD_HEAD, RESERVED_PLACES,
    SECTORS, SESSION_NAMES, SESSIONS, SHORT_LEN, SHORT_SIZE, SLOTS, STATUS_NUMBERS, UNIT_NAMES,
    VALUE_LEN, VERSION,
};
pub use name::{Name, home};
pub use spot::{Home, Spot};
pub use value::Value;
