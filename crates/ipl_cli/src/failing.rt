//! The sayings of a desk in memory that fail.
ghost use Rattle.std.specs.Prelude.{◌≡◌};
ghost use Rattle.ipl_cli.specs.Failing.{kept_at};

/// A saying that fails, by its number from 0 on, and how many bytes of its piece are said all the same.
#[derive(Clone, Copy, Debug, PartialEq, Eq)]
pub struct FailingSay {
    pub number: u64,
    pub kept: u32,
}

/// How many bytes the saying keeps, where it is one of those that fail.
pub fn kept_of(failing: &[FailingSay], number: u64) -> Option<u32>
    ensures { result ≡ kept_at failing.now number }
{
    for say in failing {
        if say.number == number {
            return Some(say.kept);
        }
    }
    None
}
