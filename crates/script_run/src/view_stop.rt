//! Why the view of a script isn't said to its end.
use std::alloc::AllocError;

/// Memory is wanting, the script couldn't be read, it has 4,294,967,295 bytes or more, or a line couldn't
/// be said.
#[derive(Clone, Copy, Debug, PartialEq, Eq)]
pub enum ViewStop {
    OutOfMemory,
    Script,
    TooLong,
    Output,
}

impl From<AllocError> for ViewStop {
    ghost use Rattle.std.specs.Prelude.{◌≡◌};
    ghost use Rattle.script_run.specs.declared.view_stop.ViewStop.TheVariants.{OutOfMemory};

    ghost from_gives = { λ fault stop. stop ≡ OutOfMemory };

    fn from(_fault: AllocError) -> ViewStop {
        ViewStop::OutOfMemory
    }
}
