//! The serial view of a list of commands, run from a map: the transactions that were committed, each
//! whole, in the order of their commits. It stands on the model's definitions (`ipl_model`) and its
//! rules. What is refused it finds by the locks of a store (`record_locks`), and by what records and
//! writes take in pages, without their values. A contract sees the view as the list of the positions
//! of its commands.
//!
//! Proved, by `serial_order`, its two laws: the serial view of a list of commands, exactly:
//! committed transactions, each whole, in the order of their commits, those of a batch in the order
//! in which it names their sessions, and then the batch. Run by itself from the same records it leaves
//! the records of the whole run; and where it gets no name that its transaction hadn't then written
//! or shared, it has the same replies.
//!
//! A command takes steps for the names that open sessions hold; besides, a put for the 64 slots of its
//! page, and a commit for the commands since its session began. Memory is a dozen bytes a name and two
//! dozen a command.
#![tactic(auto)]

mod laws;
mod order;
mod running;
mod size_table;
mod turn_table;

pub use laws::{transaction_law, unlocked_law};
pub use order::serial_order;
