//! The open sessions of a store, with the names that each wrote, the greatest size of its writes on
//! each, and the names that it shares: who may write what, and who holds it. How many sessions there
//! are, 32 at most, is said when its memory is taken, and stays. It follows the rules of `ipl_model`,
//! and asks nothing of a chip. A contract sees a list of as many slots, each without a session or
//! with its number, names and sizes.
//!
//! Proved, by `Sessions`, `lock_laws`: who may share and write what: refused exactly where the
//! rules say, in their order, naming the least holder or the unit; a batch closes all of its
//! sessions, or where it is refused none; no name is written by two sessions, and the pending names
//! of a unit weigh at most 48. Sessions that have a state's names and the sizes of its writes refuse
//! as that state does, and have them after each call.
#![tactic(auto)]

mod laws;
mod scan;
mod session;
mod sessions;

pub use laws::lock_laws;
pub use sessions::Sessions;
