//! The words of the command line, what they ask and the chip that they choose; and how the program
//! ends: the status of the process, and the line that is noted. Which words are
//! valid is clap's own definition, over the command that stands in specs/Ipl.antt, and the grammar
//! of CHIP in specs/Chip.antt. The number in CHIP is read by `plain_text`, the number at an option
//! by `str::parse`. A contract sees words as lists of bytes.
//!
//! Proved, by `request`, `chip_choice`, its two laws: what the words ask, and the chip that they
//! choose, exactly, by the definitions of `clap`; numbers are within their bounds; each chip has
//! one spelling.
//!
//! Proved, by `status`, `NoteLine`: the status of each end, and the line that is noted, byte for
//! byte.
#![tactic(auto)]

mod asked;
mod chip_word;
mod choice;
mod command;
mod end;
mod laws;
mod note_line;

pub use asked::Request;
pub use choice::{Choice, PathText, chip_choice, request};
pub use end::{End, status};
pub use laws::{chip_word_laws, command_line_laws};
pub use note_line::NoteLine;
