//! The store as a run of a script uses it: the work of each command is one call of the store, and its
//! answer the command's reply; a restart opens the chip again. It stands on `ipl_store`, and it is a
//! store as the trait of `store_trait` has it. A contract sees how it keeps a state
//! (`script_keeping`), which is how the store does.
//!
//! Proved, by `ScriptStore`'s methods, and its `store_trait::Store`: a begin, a get, a share, a
//! put, a delete, a commit, a batch, an abort, a merge and a restart of the store as a run of a
//! script uses it are the work of their commands, as the store's trait has it: wherever the power
//! is cut, the chip stands for the records before the command or after it; done, the store keeps
//! the model's next state, and the reply is the model's; few numbers are drawn, and a fault has its
//! excuse and its cause. A damaged or malformed sector that ended it was met: over a chip that tells its
//! story it is what is wrong with a page, over what the chip held before the call or holds after it
//! (`FaultMet`). That is so of the records of each choice of pages of which none is neither
//! known to read well nor known not to: what a call does to the others is a fault. So is looking a
//! committed record up. A clean close aborts all sessions, and is
//! work behind the script that says nothing: the chip stands for the same records, and done, its last two
//! events are the program of a mark and a barrier. Each log sector at a unit's place that was erased since the
//! chip was opened, and not programmed, is marked then, and what is marked the store counts as clean.
#![tactic(auto)]

mod changing;
mod closing;
mod replies;
mod seeing;
mod store;

pub use store::ScriptStore;
