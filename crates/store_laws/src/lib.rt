//! What open sessions wrote and haven't committed, when a store's memory and a chip together stand for a
//! state, and what each call of a store keeps of that state. It stands on what a chart means
//! (`ipl_meaning`), on pending changes (`page_ops`), on the names of sessions (`record_locks`) and on what
//! calls leave (`step_laws`). There is no code here but the laws: bodies that do nothing, with a contract
//! that is the law.
//!
//! Proved, by the laws of `pending`: after each step of a store the records on the chip and in memory
//! say what its open sessions wrote, each frame tells what each session sees, and memory and chip
//! stand for the state; a commit, of one session or of several together, makes of the map what
//! their writes do; each record of an open session is one of its writes, weighs no more than its
//! name, and has room in its page.
//!
//! By the seven others: a call that keeps each state, and one that leads to the next: over told contents
//! the memory fits then, and over a story a power cut leaves the map before or the next one. Such calls
//! are joined, and are the work of a command; what sessions refuse, the state does that they are of.
#![tactic(auto)]

mod laws;
mod pending;

pub use laws::{
    frame_call_laws, keeper_laws, keeping_laws, leading_laws, passing_laws, refusal_laws,
    session_laws,
};
pub use pending::{
    chip_laws, fill_laws, fitting_laws, frame_laws, memory_laws, pending_laws, saying_laws,
    telling_laws,
};
