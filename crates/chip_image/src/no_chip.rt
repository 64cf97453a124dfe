//! A chip that isn't there.
ghost use Rattle.std.specs.Prelude.{◌≡◌};

use chip_mem::Faults;
use chip_trait::{Chip, Failed, Wear};

/// A chip of which no call succeeds: each one is counted as failed.
#[derive(Drop)]
pub struct NoChip {
    places: u32,
    faults: Faults,
}

impl NoChip {
    ghost use Rattle.chip_mem.specs.Tells.{none_yet};
    ghost use Rattle.chip_image.specs.Tells.{absent_told_of, telling_faults};

    /// A chip of so many places that was asked nothing yet.
    pub fn of(places: u32) -> NoChip
        ensures { absent_told_of result ≡ telling_faults places none_yet }
    {
        NoChip {
            places,
            faults: Faults::new(),
        }
    }
}

impl NoChip {
    ghost use Rattle.std.specs.Prelude.{IsErr};
    ghost use Rattle.chip_image.specs.Tells.{absent_told_of, CountsWrite};

    // Counts a program, an erase or a barrier, and fails.
    fn refuse<T>(&mut self) -> Result<T, Failed>
        ensures counts { CountsWrite (absent_told_of self.old) (absent_told_of self.new) }
        ensures never { IsErr result }
    {
        self.faults.count_write();
        Err(Failed)
    }
}

impl Chip for NoChip {
    ghost use Rattle.std.specs.Prelude.{◌<◌, IsErr};
    ghost use Rattle.chip_image.specs.Tells.{absent_told_of, faults_consistently, AfterRead, AfterWrite};

    ghost told = { absent_told_of };

    ghost consistent = { λ chip. faults_consistently chip.places chip.faults };

    fn units(&self) -> u32 {
        self.places
    }

    /// It always fails.
    fn read(&mut self, p: u32, s: u32, _into: &mut [u8; 512]) -> Result<(), Failed>
        requires place { p < (absent_told_of self.old).places }
        requires sector { s < 256 }
        ensures changes { AfterRead result (absent_told_of self.old) (absent_told_of self.new) }
        ensures never { IsErr result }
    {
        self.faults.count_read();
        Err(Failed)
    }

    /// It always fails.
    fn program(&mut self, p: u32, s: u32, _from: &[u8; 512]) -> Result<(), Failed>
        requires place { p < (absent_told_of self.old).places }
        requires sector { s < 256 }
        ensures changes { AfterWrite result (absent_told_of self.old) (absent_told_of self.new) }
        ensures never { IsErr result }
    {
        self.refuse()
    }

    /// It always fails.
    fn erase(&mut self, p: u32) -> Result<Wear, Failed>
        requires { p < (absent_told_of self.old).places }
        ensures changes { AfterWrite result (absent_told_of self.old) (absent_told_of self.new) }
        ensures never { IsErr result }
    {
        self.refuse()
    }

    /// It always fails.
    fn barrier(&mut self) -> Result<(), Failed>
        ensures changes { AfterWrite result (absent_told_of self.old) (absent_told_of self.new) }
        ensures never { IsErr result }
    {
        self.refuse()
    }
}
