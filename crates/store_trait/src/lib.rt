//! What keeps records on a chip and does the work of commands. It stands on the model of commands and
//! on the chip alone, and knows no text. A contract sees how a store keeps a state (`Keeping`): what a
//! power cut leaves at each moment of its work, and what goes on beside the chip (`Onward`).
//!
//! Proved, by `Store`, `Keeping`: what a store promises: at each moment of a command's work a cut
//! leaves the records before it or after it; done, the reply and the records are the model's; how
//! many numbers it draws, when each fault comes, and which places are known to be worn then.
#![tactic(auto)]

mod fault;
mod store;

pub use fault::Fault;
pub use store::Store;
