//! The replies to commands.
use ipl_base::{Refusal, Value};

/// One line of a reply. A list has a row for each record, and then the end; every other command has one line.
#[derive(PartialEq, Eq, Debug, Drop)]
pub enum Reply {
    Ok,
    Nothing,
    Value(Value),
    Row(u32, Value),
    End,
    Syntax,
    Refused(Refusal),
}
