//! Why a run of a script ends before the script does.
use store_trait::Fault;

/// The store's work failed, the script couldn't be read, a reply couldn't be said, or the script has 4,294,967,295 bytes.
#[derive(Clone, Copy, Debug, PartialEq, Eq)]
pub enum Stop {
    Store(Fault),
    Script,
    Output,
    TooLong,
}

impl From<Fault> for Stop {
    ghost use Rattle.std.specs.Prelude.{◌≡◌};
    ghost use Rattle.script_run.specs.declared.fault.Stop.TheVariants.{Store};

    ghost from_gives = { λ fault stop. stop ≡ Store fault };

    fn from(fault: Fault) -> Stop {
        Stop::Store(fault)
    }
}
