//! What one line of a script says.
use crate::Command;

/// A line that is empty or begins with a `#` is skipped; any other is a command.
#[derive(PartialEq, Eq, Debug, Drop)]
pub enum Line {
    Skip,
    Do(Command),
}
