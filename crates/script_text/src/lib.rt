//! Text as the program reads and writes it: numbers in decimal digits, and lines of bounded length; a
//! line of a script as a command, and a reply as a line. It stands on the model's commands and
//! replies, and touches no chip. A contract sees a word and a line as lists of bytes, and what a line
//! says by the grammar of `ipl_model`.
//!
//! Proved, by `number`, `TextLine`: decimal numbers are read exactly by the grammar; what is appended
//! to a line.
//!
//! Proved, by `parse`, `print`: lines are read, and replies printed, exactly as the grammar and the
//! texts say.
#![tactic(auto)]

mod decimal;
mod line;
mod printing;
mod text_line;
mod word;

pub use decimal::number;
pub use line::parse;
pub use printing::print;
pub use text_line::TextLine;
