//! The store: records of up to 464 bytes by name, and up to 32 sessions at once, on a raw NAND
//! chip. It stands on `page_frames` for pages, in memory and on their way to the chip, on
//! `record_locks` for what sessions are refused, on `restart` for the opening of a chip, and on the
//! crates below these. A contract sees a store as its memory (`memory_of_store`), and says of each
//! call which state it leads to from each state that memory and chip stand for, when it is refused,
//! and what it may do to the chip. That the store is sound for the chip's number of places
//! (`IsSound`) is the one condition of all calls, but that a batch names at most 32 sessions:
//! `open` gives it, and each call keeps it. All memory is made by `Memory::new`, lent to an opening,
//! and given back by `into_memory`; no other call is handed an allocator.
//!
//! Proved, by `Store`'s calls: a store of sessions on a chip of 5 to 1,028 places, with 2 to 64
//! frames. Each call is refused exactly where the rules refuse it, the store is down or its numbers
//! are used up, and nothing was done then; but a put whose page is full is refused once the page is
//! in a frame, exactly where the page has no room for it in each state that memory and contents
//! show, and the state is as it was then. Else a call leads from each state for which memory and
//! chip stand to the model's next one, or leaves it where it fails, and the store is down exactly
//! where a write failed or one place more is worn than are spare; over a chip that tells what it
//! holds, where memory and contents show a state, it fails only where a call of the chip failed.
//! Where a page is bad it may fail by that, and the fault is exactly what is wrong with the page,
//! sector and sums: over what the chip held before the call, or over what it holds after it, which
//! is said of a chip that tells its story, and of a get, a share, a look at what is committed, a
//! delete and a merge of any. A place that is found worn is retired, and the next free one is
//! taken. A get lends what the session sees, and asks the chip nothing where the page is in a
//! frame. A begin draws one number. A commit, or a batch, which commits several sessions together,
//! makes all their writes last and closes them; a power cut in it leaves the writes of all its
//! sessions or of none. A batch costs one commit sector, as a commit does, and where the status
//! place has a clean one, at most one erase and one log sector for each page in a frame that its
//! sessions wrote, however many of them did, and one erase more for each place that is retired. A
//! get, a share, a put, a delete and a hold leave the page in a frame where they are done, as the
//! one used last; where it was in one or a frame was free, no page leaves its frame, and one that
//! leaves isn't held and was used longest ago; a begin, an abort, a commit, a batch, a merge and a
//! release keep all pages in their frames. An opening gives the records for which the contents
//! stand, with no session open and as many units as the chip says, and a power cut in it leaves
//! them. A close is refused where a session is open; else it makes the status place ready and
//! writes one mark there, with a barrier before it and one behind it. The store is down then. A
//! power cut leaves the same records at each moment of it, and done, exactly those log sectors are
//! marked that the store knows to be clean.
//!
//! Within it, what sessions do to the pages of a store (`Transactions`): that a call isn't refused
//! is its condition there. A contract sees the memory as a whole (`memory_in`), and that each call
//! leads from each state that it stands for to the model's next one (`LeadsTo`), and over a chip
//! that holds one fails only where a call of the chip failed (`Completes`, `CompletesFor`), or by a
//! page that doesn't read well or has no room for its values, with exactly what is wrong with it
//! (`TellsFaults`, `TellsFaultsForThen`).
//!
//! Proved, by the calls of `Transactions`: sessions over pages in frames: a begin, a share, a
//! write, an abort and a commit of one session or several each lead to the model's next state, or
//! leave the state as it was where they fail; memory stays in order, the same pages are held, and a
//! fault has its cause; over a chip that tells what it holds, where that stands for a state, a
//! write and a commit fail only where a call of the chip failed, and where it stands for all of a
//! state but what the pages say, also by a page that didn't read well or had no room for its
//! values, and the fault is then what is wrong with that page. A put is of a
//! page that has room for it by what open sessions wrote there (`MayTake`). A power cut in a commit
//! leaves the writes of all its sessions or of none. A commit of sessions that wrote nothing asks
//! the chip nothing; where the status place has a clean sector, one costs at most one erase and one
//! log sector for each page in a frame that has records in memory and is that of a name that one of
//! the sessions wrote, one erase more for each place that is found worn, and one commit sector,
//! however many the sessions are; and no erase where each unit has as many log sectors clean at
//! home as it has such pages. A write of a page that is in a frame costs nothing where its record
//! fits behind those in memory, and one log sector where one is clean at its unit's home. One that
//! is done leaves the page of its name in a frame, as the one used last, and every other call keeps
//! all pages in their frames.
#![tactic(auto)]

mod adding;
mod admitting;
mod beginning;
mod changing;
mod closing;
mod commits;
mod holding;
mod memory;
mod merging;
mod numbers;
mod opening;
mod reading;
mod refusals;
mod reserves;
mod sessions;
mod store;
mod transactions;
mod writes;

pub use memory::{Memory, Unopened};
pub use reserves::Reserves;
pub use store::Store;
