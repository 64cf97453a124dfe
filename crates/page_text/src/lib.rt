//! Pages of 64 slots, and their text, as docs/FORMAT.md has it. It stands on the formats of
//! `ipl_format`, and knows no sector. A page is kept as its text, in the version of all that is
//! written. A contract sees a `PageMap` as the list of its slots, and a text as that list's one
//! spelling in a version.
//!
//! Proved, by `PageMap`, `write`, `read`: pages of 64 slots; text of each version written and read
//! exactly within the grammar.
#![tactic(auto)]

mod first_version;
mod indexing;
mod map;
mod moving;
mod page_bytes;
mod texts;

pub use map::PageMap;
pub use page_bytes::PageBytes;
pub use texts::{read, write};
