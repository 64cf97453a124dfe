//! A raw NAND chip as code sees it.
ghost use Rattle.std.specs.Prelude.{◌≡◌, ◌<◌, OnOk, OnErr, IfOk, IfSome};
ghost use Rattle.chip_trait.specs.declared.event.Event.TheVariants.{Read, Program, Erase, Barrier};
ghost use Rattle.chip_trait.specs.Told.{Told, IsConsistent, Appends, Misses, Breaks, Halts, Counts, Rose};
ghost use Rattle.chip_trait.specs.Wears.{Wears, erase_event};

use crate::Wear;

/// A call of a chip or a desk didn't succeed.
#[derive(Clone, Copy, Debug, PartialEq, Eq)]
pub struct Failed;

/// A chip of places, which are erase units of 256 sectors of 512 bytes. A sector that was programmed can't be programmed
/// again until its whole place was erased. What was written is sure to last only from the next barrier on.
///
/// Each call fails only where the count of its kind of fault rose in it.
pub trait Chip {
    /// What it tells of itself, and of the desk that it may be part of.
    ghost told: { Self → Told };

    /// The number of places; it never changes.
    fn units(&self) -> u32
        ensures { result ≡ (told self.now).places };

    /// Reads a sector. After a failure the buffer holds anything.
    fn read(&mut self, p: u32, s: u32, into: &mut [u8; 512]) -> Result<(), Failed>
        requires place { p < (told self.old).places }
        requires sector { s < 256 }
        ensures ok { OnOk result (Appends (Read p s) (told self.old) (told self.new)) }
        ensures err { OnErr result (Misses (Read p s) (told self.old) (told self.new)) }
        ensures bytes { OnOk result (IfSome (told self.old).contents (λ x. into.new ≡ x p s)) }
        ensures counts { Counts (told self.old) (told self.new) }
        ensures cause { OnErr result (Rose (told self.old).read_faults (told self.new).read_faults) };

    /// Programs a sector.
    fn program(&mut self, p: u32, s: u32, from: &[u8; 512]) -> Result<(), Failed>
        requires place { p < (told self.old).places }
        requires sector { s < 256 }
        ensures ok { OnOk result (Appends (Program p s from.now) (told self.old) (told self.new)) }
        ensures err { OnErr result (Breaks (Program p s from.now) (told self.old) (told self.new)) }
        ensures counts { Counts (told self.old) (told self.new) }
        ensures cause { OnErr result (Rose (told self.old).write_faults (told self.new).write_faults) };

    /// Erases a place: each of its sectors holds 512 bytes FF. Or the place is worn: it holds what it held, and from then on
    /// none of that is sure to last, until the place is erased and a barrier comes after.
    fn erase(&mut self, p: u32) -> Result<Wear, Failed>
        requires { p < (told self.old).places }
        ensures ok { IfOk result (λ wear. Wears wear p (told self.old) (told self.new)) }
        ensures err { OnErr result (Breaks (Erase p) (told self.old) (told self.new)) }
        ensures counts { Counts (told self.old) (told self.new) }
        ensures cause { OnErr result (Rose (told self.old).write_faults (told self.new).write_faults) };

    /// Waits until all that was programmed and erased is sure to last.
    fn barrier(&mut self) -> Result<(), Failed>
        ensures ok { OnOk result (Appends Barrier (told self.old) (told self.new)) }
        ensures err { OnErr result (Halts (told self.old) (told self.new)) }
        ensures counts { Counts (told self.old) (told self.new) }
        ensures cause { OnErr result (Rose (told self.old).write_faults (told self.new).write_faults) };

    /// While it is settled it holds what its story leaves.
    ghost consistent: { (chip : Self) → IsConsistent (told chip) };
}
