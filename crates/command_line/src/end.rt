//! Why the program ends before its script does, and with which status.
ghost use Rattle.std.specs.Prelude.{◌≡◌};
ghost use Rattle.command_line.specs.Ends.{fault_status, status_of};

use ipl_base::{ChipFault, ImageFault};

/// Why the program ends before its script does.
#[derive(Clone, Copy, Debug, PartialEq, Eq)]
pub enum End {
    /// The words aren't valid.
    Words,
    /// A call of the chip failed, or what the chip holds can't be used.
    Chip(ImageFault),
    /// Memory is wanting.
    OutOfMemory,
    /// The script couldn't be read.
    Script,
    /// A reply couldn't be said.
    Output,
    /// The script is too long.
    TooLong,
}

/// The number with which a fault of the chip ends the program.
fn fault_status(fault: ImageFault) -> u8
    ensures { result ≡ fault_status fault }
{
    match fault {
        ImageFault::Chip(ChipFault::ReadFault | ChipFault::Stopped) => 3,
        ImageFault::Spent => 9,
        ImageFault::Chip(ChipFault::WornOut(_)) => 10,
        _ => 4,
    }
}

/// The number with which an end ends the program.
pub fn status(end: End) -> u8
    ensures { result ≡ status_of end }
{
    match end {
        End::Words => 2,
        End::Chip(fault) => fault_status(fault),
        End::OutOfMemory => 5,
        End::Script => 6,
        End::Output => 7,
        End::TooLong => 8,
    }
}
