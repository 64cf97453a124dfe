//! Pages of a store in frames, over its tables of the chip: a page is brought into a frame, for which
//! another page may have to leave, and its records in memory are written out where a frame, a log
//! sector in memory or a commit asks for it. It stands on `buffer_pool` for the frames, on
//! `page_rebuild` for what a page is on the chip, and on `selective_merge` for a place of their
//! log sector; what commands do to frames in memory alone is here too. A contract sees the tables (`tables_in`) and the frames by unit and page (`frames_in`), and
//! that each call keeps whatever state they stand for (`KeepsState`), and over a chip that holds one
//! fails only where a call of the chip failed (`Completes`), or by a page that doesn't read well or has
//! no room for its values with what is pending there, with exactly what is wrong with it
//! (`TellsFaultsThen`, `TellsFaultsSurely`; a renewal: `TellsFaults`).
//!
//! Proved, by its calls: pages in frames: a page is brought into a frame, from which another that
//! isn't held may have to leave, the one used longest ago; it is the page used last then, also where
//! it was in its frame. A page's records are written out, or those of all pages of the names that some
//! sessions wrote, each page once; the status place gets a clean sector for a commit; a unit is
//! merged. Each call keeps whatever state the tables, the frames and the chip stand for, the held
//! pages and the open sessions. What is retired besides was found worn, and done, the status header
//! lists no place but what it listed and what is retired. Over a chip that tells what it holds,
//! where that stands for a state, it fails only where a call of the chip failed; and where it
//! stands for all of a state but what the pages say, also by a page that didn't read well or had no
//! room for its values with what is pending there, of which the fault names a base sector or the
//! header at the place where its unit is then. It is exactly what is wrong with that page, sector
//! and sums: over what the chip holds then, which is said of a chip that tells its story; and but for
//! the pages of sessions' names, in any case over that or over what it held before. A renewal's is
//! over what it held before.
//! With a frame free, a page that is brought fails with exactly what is wrong with it. A page that is
//! in a frame costs nothing, and one for which a frame is free only reads; in both cases every page
//! stays in its frame. Where records are written out, a unit is merged or the status place is renewed,
//! every page stays in its frame; the pages of sessions' names cost at most one erase and one log
//! sector for each that has records in memory, whichever sessions have them, and one erase more for each
//! place that is found worn, which is retired; and no erase where each
//! unit has as many log sectors clean at home as it has such pages. A record of a page that is in a
//! frame costs one log sector where one is clean at its unit's home, and nothing where it fits behind
//! those in memory; the values of its frame stay.
//!
//! Proved, by `write_records`, `writing_laws`: a page's records written out: done, the unit's log has
//! one entry more, with exactly these records, behind nothing, a new overflow place or a merge, by
//! the rules; where it failed and no write did, the state is kept. At each moment a power cut
//! leaves the same map. At most one place is erased, the least worn free one that isn't found worn then, and
//! at most one sector programmed elsewhere, a log sector; where one is clean at the unit's home, nothing is read or
//! erased, there is no barrier, and no other sector counts as written than before. What is retired
//! besides was found worn, and the status header lists no other place as it. Over what the chip
//! holds it fails with what is wrong with the unit that it had to merge, which is where it was, with
//! the bytes that it had, or where a call of the chip failed; with that alone where the unit's pages
//! show values and few log sectors would be carried.
//!
//! Proved, by its calls, `buffer_laws`, `room_laws`: a put changes the frame of its page by its record
//! and no other, exactly where the page has room for all that may become values then; whether a put
//! might come to take more than its page has, by the frame's values and the sessions' peaks; the end of
//! a session makes its changes values, or drops them and its records, in the frames of the names'
//! pages; a slot's value is that of the frame; all pins and holds are kept, and no use of a page is
//! counted.
#![tactic(auto)]

mod bringing;
mod ends;
mod filling;
mod frame_laws;
mod frames;
mod pages;
mod puts;
mod record_laws;
mod records;
mod sessions;
mod sizes;
mod tables;
mod values;
mod writing;

pub use ends::{apply_names, drop_names};
pub use filling::overfills;
pub use frame_laws::{buffer_laws, room_laws};
pub use pages::Pages;
pub use puts::put_record;
pub use record_laws::writing_laws;
pub use values::{committed_value, seen_value};
